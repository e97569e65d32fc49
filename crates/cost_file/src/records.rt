//! The records of a cost file.

ghost use Rattle.std.specs.Prelude.{◌≡◌};
ghost use Rattle.cost_file.specs.Records.{kind_of, head_of};

use plans::PlanValues;

/// The kinds of records, in the order in which they stand.
#[derive(Clone, Copy, PartialEq, Eq, Debug)]
pub(crate) enum Kind {
    Plan = 1,
    Row = 2,
    Payload = 3,
}

/// The number of a kind in the head of a record.
impl From<Kind> for u8 {
    ghost from_gives = { λ kind n. n ≡ kind_of kind };

    fn from(kind: Kind) -> u8 {
        kind as u8
    }
}

impl Kind {
    /// The head of a record of this kind.
    pub(crate) fn head(self, number: u16) -> [u8; 4]
        ensures value { result ≡ head_of (kind_of self) number }
    {
        let [high, low] = number.to_be_bytes();
        [u8::from(self), 0, high, low]
    }
}

/// A record of a file: its body, and where in the file the body begins.
#[derive(Clone, Copy, PartialEq, Eq, Debug)]
pub enum Record<'f> {
    /// The plan, with the numbers that its body holds.
    Plan {
        values: PlanValues,
        bytes: &'f [u8],
        offset: usize,
    },
    /// The slot costs of one symbol.
    Row {
        bytes: &'f [u8],
        offset: usize,
    },
    /// The payload, if it was stored.
    Payload {
        bytes: &'f [u8],
        offset: usize,
    },
}
