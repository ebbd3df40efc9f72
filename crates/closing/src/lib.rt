// Close.
#![tactic(auto)]

pub mod states;

ghost use Rattle.std.specs.Prelude.{◌≡◌, ℕ, ◌<◌, ◌≤◌, length, get_or};
ghost use Rattle.algebra.specs.Lists.{count};
ghost use Rattle.algebra.specs.Agreeing.{verdict_of};
ghost use Rattle.decoder.specs.Outcome.{verdict_by};
ghost use Rattle.block.specs.Status.{missing_mark, heard_mark, filled_mark};
ghost use Rattle.ccsds.specs.Refusals.{checked_as};
ghost use Rattle.closing.specs.Close.{wrong_marks, sent_marks, report_of, agreeing_words, symbols_after, marks_after, close_refusal, close_of, verdict_as, report_as, closed_as};
ghost use Rattle.closing.specs.inner.Ready.{Ready};
ghost use Rattle.ccsds.specs.inner.Layout.{max_n};

use block::checks::BlockLayout;
use block::{Block, status};
use ccsds::code::Code;
use ccsds::refusal::Refusal;
use ccsds::tables;
use states::Filled;

#[derive(Clone, Copy, Debug, PartialEq, Eq)]
pub enum Verdict {
    Whole,
    Ambiguous,
    Inconsistent,
}

// A verdict, and how many positions are heard, filled and left.
#[derive(Clone, Copy, Debug, PartialEq, Eq)]
pub struct Report {
    pub verdict: Verdict,
    pub heard: usize,
    pub filled: usize,
    pub left: usize,
}

// 11, mark. With no way out at the first wrong one, so that it is compiled to vector instructions.
fn wrong_marks(marks: &[u8]) -> bool
    ensures { result ≡ wrong_marks marks.now }
{
    marks
        .iter()
        .fold(false, |wrong, mark| wrong | status::wrong(*mark))
}

// 1 to 4, 13 or 11: of the record, the lengths of the buffers, and the marks.
fn check_close(
    b: Block,
    symbols: &[u8],
    marks: &[u8],
    work_words: &[u64],
    work_bytes: &[u8],
) -> Result<(), Refusal>
    ensures { checked_as result ≡ close_refusal b symbols.now marks.now work_words.now work_bytes.now }
{
    let code = Code { number: b.code };
    let l = BlockLayout {
        block: b,
        layout: tables::layout_of(b.code),
    };
    l.check_block(symbols.len(), marks.len())?;
    if work_words.len() != code.work_words() {
        return Err(Refusal::Length);
    }
    if work_bytes.len() != code.parity_bytes(b.w) {
        return Err(Refusal::Length);
    }
    if wrong_marks(marks) {
        return Err(Refusal::Mark);
    }
    Ok(())
}

// How many positions are heard, and how many are filled.
#[derive(Clone, Copy)]
struct Counts {
    heard: usize,
    filled: usize,
}

// In 16 bits, so that eight are counted at a time.
fn count_marks(marks: &[u8]) -> Counts
    requires { length marks.now ≤ max_n }
    ensures { (result.heard ≡ count heard_mark marks.now) × (result.filled ≡ count filled_mark marks.now) }
{
    let mut heard: u16 = 0;
    let mut filled: u16 = 0;
    for mark in marks {
        if *mark == status::HEARD {
            heard += 1;
        }
        if *mark == status::FILLED {
            filled += 1;
        }
    }
    Counts {
        heard: usize::from(heard),
        filled: usize::from(filled),
    }
}

// The verdict, by whether some codeword agrees and by how many positions are left.
fn verdict_by(ok: bool, left: usize) -> Verdict
    ensures { verdict_as result ≡ verdict_by ok left }
{
    match (ok, left) {
        (false, _) => Verdict::Inconsistent,
        (true, 0) => Verdict::Whole,
        (true, _) => Verdict::Ambiguous,
    }
}

impl Filled {
    // The report, from the marks afterwards: idle positions are not counted.
    fn make_report(self, ok: bool, marks: &[u8]) -> Report
        requires within { self.k ≤ length marks.now }
        requires marks_right { (length marks.now ≤ max_n) × ((i : ℕ) → i < length marks.now → get_or marks.now i 0 ≤ 2) }
        ensures { report_as result ≡ report_of self.block (verdict_by ok (count missing_mark (sent_marks self.block marks.now))) marks.now }
    {
        let fill = self.block.fill;
        let information = count_marks(&marks[..fill]);
        let parity = count_marks(&marks[self.k..]);
        let heard = information.heard + parity.heard;
        let filled = information.filled + parity.filled;
        let left = fill + (marks.len() - self.k) - heard - filled;
        let verdict = verdict_by(ok, left);
        Report {
            verdict,
            heard,
            filled,
            left,
        }
    }

    // The symbols and marks of a block after the verdict; false where no codeword agrees with the heard symbols.
    fn decode(
        self,
        symbols: &mut [u8],
        marks: &mut [u8],
        states: &mut [u8],
        work_words: &mut [u64],
        work_bytes: &mut [u8],
    ) -> bool
        requires ready { Ready self.block (length symbols.old) (length marks.old) (length work_words.old) (length work_bytes.old) }
        requires within { self.k ≤ length marks.old }
        requires states_len { length states.old ≡ length marks.old }
        ensures symbols_after { symbols.new ≡ symbols_after self.block symbols.old marks.old }
        ensures marks_after { marks.new ≡ marks_after self.block symbols.old marks.old }
        ensures verdict { verdict_by result (count missing_mark (sent_marks self.block marks.new)) ≡ verdict_of (agreeing_words self.block symbols.old marks.old) }
    {
        let b = self.block;
        let from = b.fill * b.w;
        let to = self.k * b.w;
        symbols[from..to].fill(0);
        self.put_states(marks, states);
        let ok = decoder::solve::solve(
            b.code, b.w, b.fill, symbols, states, work_words, work_bytes,
        );
        self.set_marks(states, marks);
        ok
    }
}

// Closes the block: the verdict with its counts, or a refusal, which changes nothing. The work buffers may hold anything.
pub fn close(
    b: Block,
    symbols: &mut [u8],
    marks: &mut [u8],
    work_words: &mut [u64],
    work_bytes: &mut [u8],
) -> Result<Report, Refusal>
    ensures answer { closed_as result ≡ (close_of b symbols.old marks.old work_words.old work_bytes.old).answer }
    ensures symbols { symbols.new ≡ (close_of b symbols.old marks.old work_words.old work_bytes.old).symbols }
    ensures marks { marks.new ≡ (close_of b symbols.old marks.old work_words.old work_bytes.old).marks }
    ensures work_words { work_words.new ≡ (close_of b symbols.old marks.old work_words.old work_bytes.old).work_words }
    ensures work_bytes { work_bytes.new ≡ (close_of b symbols.old marks.old work_words.old work_bytes.old).work_bytes }
{
    check_close(b, symbols, marks, work_words, work_bytes)?;
    let code = Code { number: b.code };
    let filled = Filled {
        block: b,
        k: code.k(),
    };
    let n = marks.len();
    let mut states = [0u8; Code::MAX_N];
    let ok = filled.decode(symbols, marks, &mut states[..n], work_words, work_bytes);
    work_words.fill(0);
    work_bytes.fill(0);
    Ok(filled.make_report(ok, marks))
}
