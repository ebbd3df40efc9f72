// The rows of the equations for the pivots, and how many words they take.
ghost use Rattle.std.specs.Prelude.{◌≡◌, ◌+◌, ◌*◌, ◌/◌, ◌≤◌};
ghost use Rattle.ccsds.specs.inner.Layout.{max_n, max_m};

// `steps` rows of the steps, the first `early` of which are not made, and `rest` rows of the check rows that no step used; each has `packed` words
// for the `pivots` pivots, and one more.
#[derive(Clone, Copy)]
pub struct Rows {
    pub early: usize,
    pub steps: usize,
    pub rest: usize,
    pub pivots: usize,
    pub packed: usize,
    pub ghost few: { packed ≤ 48 },
    pub ghost enough: { pivots ≤ 64 * packed },
    pub ghost most: { steps + rest ≤ max_m },
}

impl Rows {
    // Those of a plan with so many steps, the first `early` of them before any pivot, and so many pivots, of a block with m check rows.
    pub fn new(early: usize, steps: usize, pivots: usize, m: usize) -> Rows
        requires { (steps ≤ m) × (m ≤ max_m) × (pivots ≤ max_n) }
        ensures numbers { (result.early ≡ early) × (result.steps ≡ steps) × (result.pivots ≡ pivots) }
        ensures rest { result.steps + result.rest ≡ m }
        ensures packed { result.packed ≡ (pivots + 63) / 64 }
    {
        Rows {
            early,
            steps,
            rest: m - steps,
            pivots,
            packed: pivots.div_ceil(64),
        }
    }
}
