//! The names of the ways.

ghost use Rattle.std.specs.Prelude.{◌≡◌, Some, codes};
ghost use Rattle.std.specs.Result.{result_ok};
ghost use Rattle.ways.specs.Ways.{way_number, way_of};

use std::error::Error;
use std::fmt;

/// How a pass is worked. No reliability depends on it; only the work table tells.
#[derive(Clone, Copy, PartialEq, Eq, Debug)]
pub enum Way {
    /// Forward and backward columns over joined parallel edges.
    Columns = 1,
    /// The same, with metastages combined in pairs.
    Metastages = 2,
    /// Forward and backward columns in numbers modulo 65,536.
    Modular = 3,
}

/// A number names no way.
#[derive(Clone, Copy, PartialEq, Eq, Debug)]
pub struct UnknownWay;

// Kinds of readings, refusals and layers convert in the same words: an impl whose ghost member a clause reads is written by hand for each
// type, and each that may fail has an error of its own.
/// The number that names a way.
impl From<Way> for u8 {
    ghost from_gives = { λ way n. n ≡ way_number way };

    fn from(way: Way) -> u8 {
        way as u8
    }
}

/// The way that a number names.
impl TryFrom<u8> for Way {
    type Error = UnknownWay;

    ghost try_from_gives = { λ n r. result_ok r ≡ way_of n };

    fn try_from(n: u8) -> Result<Way, UnknownWay> {
        match n {
            1 => Ok(Way::Columns),
            2 => Ok(Way::Metastages),
            3 => Ok(Way::Modular),
            _ => Err(UnknownWay),
        }
    }
}

impl fmt::Display for UnknownWay {
    ghost output = { λ _. Some (codes "no way has this number") };

    fn fmt<W: fmt::Write>(&self, f: &mut fmt::Formatter<W>) -> fmt::Result {
        f.write_str("no way has this number")
    }
}

impl Error for UnknownWay {}
