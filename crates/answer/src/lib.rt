// Why a call is refused.
#![tactic(auto)]

ghost use Rattle.std.specs.Prelude.{◌≡◌};
ghost use Rattle.answer.specs.Refusal.{number_of};

use std::error::Error;
use std::fmt;

// The refusals of documents 01 and 02 by their numbers. What each says stands in docs/RULES.md.
#[derive(Clone, Copy, Debug, PartialEq, Eq)]
pub enum Refusal {
    BadPlane = 1,
    PastSamples,
    SizesDiffer,
    NoRoom,
    BadDepth,
    BadSize,
    BadNumber,
    BadLength,
    Stop,
    BadList,
    BadState,
    NoMark,
    BadCut,
    NotRising,
    LogRoom,
    TooLarge,
    TooManyRows,
    RowsLeft,
    NoBlock,
}

impl Refusal {
    pub fn number(self) -> u32
        ensures { result ≡ number_of self }
    {
        self as u32
    }
}

impl fmt::Display for Refusal {
    fn fmt<W: fmt::Write>(&self, f: &mut fmt::Formatter<W>) -> fmt::Result {
        write!(f, "refused {}", *self as u32)
    }
}

impl Error for Refusal {}
