// What the programs on blocks share: the steps of a pass, and how the answers are printed.
#![tactic(auto)]

pub mod pass;

use ccsds::refusal::Refusal;
use closing::{Report, Verdict};
use std::fmt;

// Close's answer as it is printed: the verdict and how many positions are heard, or the refusal; with `all`, how many are filled and left too.
#[derive(Clone, Copy)]
pub struct Answer {
    pub closed: Result<Report, Refusal>,
    pub all: bool,
}

impl fmt::Display for Answer {
    fn fmt<W: fmt::Write>(&self, f: &mut fmt::Formatter<W>) -> fmt::Result {
        let told = match self.closed {
            Ok(told) => told,
            Err(refusal) => return write!(f, "refused {}", refusal.number()),
        };
        write!(f, "{} heard {}", word(told.verdict), told.heard)?;
        if self.all {
            write!(f, " filled {} left {}", told.filled, told.left)?;
        }
        Ok(())
    }
}

fn word(verdict: Verdict) -> &'static str {
    match verdict {
        Verdict::Whole => "whole",
        Verdict::Ambiguous => "ambiguous",
        Verdict::Inconsistent => "inconsistent",
    }
}

// Whether the symbols are the information, zeros in the places of idle symbols, and the parity: in words.
pub fn compared(symbols: &[u8], info: &[u8], parity: &[u8]) -> &'static str {
    if as_sent(symbols, info, parity) {
        "as sent"
    } else {
        "not as sent"
    }
}

fn as_sent(symbols: &[u8], info: &[u8], parity: &[u8]) -> bool {
    let Some(rest) = symbols.strip_suffix(parity) else {
        return false;
    };
    let Some(idle) = rest.strip_prefix(info) else {
        return false;
    };
    idle.iter().all(|b| *b == 0)
}
