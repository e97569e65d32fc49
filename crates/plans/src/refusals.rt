//! The refusals of every call, each with its number.

ghost use Rattle.std.specs.Prelude.{◌≡◌, Some};
ghost use Rattle.plans.specs.Refusals.{number_of};
ghost use Rattle.plans.specs.Texts.{refusal_text};

use std::error::Error;
use std::fmt;

/// Why a call was refused: the first of its questions that was answered no.
#[derive(Clone, Copy, PartialEq, Eq, Debug)]
pub enum Refusal {
    /// The number of payload bytes lies outside 1 to 1,021.
    PayloadBytes = 1,
    /// The bits per symbol lie outside 2 to 8, or do not divide the number of coded bits.
    SymbolBits = 2,
    /// The interleaver's factors are out of range, or do not make it one to one.
    Interleaver = 3,
    /// A table or an output buffer is too short.
    Room = 4,
    /// A payload or the rows do not have their length.
    Lengths = 7,
    /// The file's length lies outside 16 to 600,000 bytes.
    FileLength = 12,
    /// A record's check is wrong.
    RecordCheck = 13,
    /// A record's kind, zeros or number are not those due.
    RecordHead = 14,
    /// The file's length is not one that is due for its plan.
    LengthDue = 15,
}

/// The number by which a refusal is reported.
impl From<Refusal> for u8 {
    ghost from_gives = { λ refusal n. n ≡ number_of refusal };

    fn from(refusal: Refusal) -> u8 {
        refusal as u8
    }
}

/// A refusal is written as its number.
impl fmt::Display for Refusal {
    ghost output = { λ refusal. Some (refusal_text refusal) };

    fn fmt<W: fmt::Write>(&self, f: &mut fmt::Formatter<W>) -> fmt::Result {
        write!(f, "{}", u8::from(*self))
    }
}

impl Error for Refusal {}
