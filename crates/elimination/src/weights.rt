// The weights of the rows, by which the forward pass chooses. Nothing is proved of them, and they choose only which additions are made: after
// additions a row's weight is an estimate. A row that is no longer active has RETIRED.
ghost use Rattle.std.specs.Prelude.{◌*◌, ◌≤◌, ◌<◌, length, IfSome};
ghost use Rattle.elimination.specs.Fits.{max_words};

// In place of a weight. Options were tried in place of it: they take twice the memory and make elimination up to 10 % slower.
pub const RETIRED: u16 = u16::MAX;

// The number of unknowns of a row.
pub fn row_weight(row: &[u64]) -> usize
    requires { length row.now ≤ max_words }
    ensures { result ≤ 64 * length row.now }
{
    row.iter().map(|w| w.count_ones() as usize).sum()
}

// A row and its weight, or any row and RETIRED for no row.
#[derive(Clone, Copy)]
struct Candidate {
    row: usize,
    weight: u16,
}

// The lighter of `best` and the lightest of the rows from `from` up to `to`. The first of these whose weight is at most `enough` ends the search.
fn lightest_between(
    weights: &[u16],
    from: usize,
    to: usize,
    enough: u16,
    best: Candidate,
) -> Candidate
    requires { to ≤ length weights.now }
    ensures { (best.weight < RETIRED → best.row < length weights.now) → result.weight < RETIRED → result.row < length weights.now }
{
    let mut best = best;
    for j in from..to {
        let weight = weights[j];
        if weight < best.weight {
            best = Candidate { row: j, weight };
            if weight <= enough {
                return best;
            }
        }
    }
    best
}

// A row of least weight, or the first from row `from` on, round the end, whose weight is at most `enough`; none where all are RETIRED.
pub fn lightest_row(weights: &[u16], from: usize, enough: u16) -> Option<usize>
    requires { from ≤ length weights.now }
    ensures { IfSome result (λ r. r < length weights.now) }
{
    let none = Candidate {
        row: 0,
        weight: RETIRED,
    };
    let mut best = lightest_between(weights, from, weights.len(), enough, none);
    if best.weight > enough {
        best = lightest_between(weights, 0, from, enough, best);
    }
    if best.weight < RETIRED {
        Some(best.row)
    } else {
        None
    }
}

// The weight taken for the sum of rows of weights a and b that have an unknown in common: that one goes, and no other is taken to be in both.
pub fn sum_weight(a: u16, b: u16) -> u16 {
    (a as u32 + b as u32).saturating_sub(2).clamp(1, 60000) as u16
}
