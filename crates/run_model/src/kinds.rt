//! What can be read of a run.

ghost use Rattle.std.specs.Prelude.{◌≡◌, Some, codes};
ghost use Rattle.std.specs.Result.{result_ok};
ghost use Rattle.run_model.specs.Kinds.{kind_number, kind_of};

use std::error::Error;
use std::fmt;

/// The tables and numbers of a run that a reading can name.
#[derive(Clone, Copy, PartialEq, Eq, Debug)]
pub enum Kind {
    /// What the inner pass sent on about an interleaved bit.
    Extrinsic = 1,
    /// What was told about an interleaved bit.
    Prior = 2,
    /// The reliability of a data bit.
    Reliability = 3,
    /// How many outer paths have the least cost.
    Ties = 4,
}

/// A number names no kind of reading.
#[derive(Clone, Copy, PartialEq, Eq, Debug)]
pub struct UnknownKind;

// Ways, refusals and layers convert in the same words: an impl whose ghost member a clause reads is written by hand for each type, and
// each that may fail has an error of its own.
/// The number that names a kind.
impl From<Kind> for u8 {
    ghost from_gives = { λ kind n. n ≡ kind_number kind };

    fn from(kind: Kind) -> u8 {
        kind as u8
    }
}

/// The kind that a number names.
impl TryFrom<u8> for Kind {
    type Error = UnknownKind;

    ghost try_from_gives = { λ n r. result_ok r ≡ kind_of n };

    fn try_from(n: u8) -> Result<Kind, UnknownKind> {
        match n {
            1 => Ok(Kind::Extrinsic),
            2 => Ok(Kind::Prior),
            3 => Ok(Kind::Reliability),
            4 => Ok(Kind::Ties),
            _ => Err(UnknownKind),
        }
    }
}

impl fmt::Display for UnknownKind {
    ghost output = { λ _. Some (codes "no kind of reading has this number") };

    fn fmt<W: fmt::Write>(&self, f: &mut fmt::Formatter<W>) -> fmt::Result {
        f.write_str("no kind of reading has this number")
    }
}

impl Error for UnknownKind {}
