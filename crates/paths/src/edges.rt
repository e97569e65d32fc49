//! An edge of a trellis, and the words that edges carry.

ghost use Rattle.std.specs.Prelude.{◌≡◌, ◌^◌, ◌≤◌};

/// An edge leads from one state to another, carries a word of bits and costs something.
#[derive(Clone, Copy, PartialEq, Eq, Debug)]
pub struct Edge {
    pub from: usize,
    pub to: usize,
    pub word: u8,
    pub cost: u32,
}

// That a word has at most 8 bits is asked by several functions: a type for so many bits would be made for one call of each, and taken apart there.
/// How many words have so many bits.
pub fn word_count(bits: usize) -> usize
    requires { bits ≤ 8 }
    ensures { result ≡ 2 ^ bits }
{
    1 << bits
}
