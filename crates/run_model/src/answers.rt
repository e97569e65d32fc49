//! What the calls of a run answer.

/// A number that was asked for.
#[derive(Clone, Copy, PartialEq, Eq, Debug)]
pub enum Reading {
    Extrinsic(i16),
    Prior(i16),
    /// None where the data bit is forced.
    Reliability(Option<i16>),
    Ties(u8),
}

/// The answer of a call that is not refused. A call gives a `Result`, whose error is the first question that was answered no;
/// then nothing has changed.
#[derive(Clone, Copy, PartialEq, Eq, Debug)]
pub enum Answer {
    /// A row, an inner or an outer pass was accepted.
    Done,
    /// The passes made, and the remainder of the decided bits.
    Checked { passes: u32, remainder: u32 },
    Read(Reading),
    /// The payload was taken: so many bytes.
    Taken(usize),
}
