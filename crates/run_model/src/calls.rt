//! The calls of a run.

/// A call with its arguments.
// A way and a kind are numbers here, and not a `Way` and a `Kind`: a run refuses a wrong number, in the order of its questions.
#[derive(Clone, Copy, PartialEq, Eq, Debug)]
pub enum Call<'f> {
    /// The slot costs of a symbol have come.
    Row { index: usize, bytes: &'f [u8] },
    /// An inner pass.
    Inner { way: u8 },
    /// An outer pass.
    Outer { way: u8 },
    /// Asks for the passes made and the remainder of the decided bits.
    Check,
    /// Asks for one number.
    Read { kind: u8, index: usize },
    /// Takes the payload into the part of an area of bytes that begins at `at` and has `room` bytes, as far as the area has them.
    Take { at: usize, room: usize },
}
