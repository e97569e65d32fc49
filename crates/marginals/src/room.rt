//! The tables in which the bits of a stage are worked out.

ghost use Rattle.std.specs.Prelude.{◌≡◌, replicate};
ghost use Rattle.marginals.specs.declared.room.ByBit.{ByBit};

use std::alloc::AllocError;

/// What is found with a bit 0, and with it 1.
#[derive(Clone, Copy, PartialEq, Eq, Debug)]
pub struct ByBit<V> {
    pub zero: V,
    pub one: V,
}

/// Room for the costs of a stage's edges, for the frame between its two columns, for its words, and for what each bit costs.
// The arrays are as long as the largest stage asks: a pass allocates nothing.
pub struct Room<V> {
    pub costs: [u32; 512],
    pub frame: [V; 256],
    pub words: [V; 256],
    pub bits: [ByBit<V>; 8],
}

// By hand: of a derived `Clone` over arrays of a parameter the proof did not close.
impl<V: Copy> Copy for Room<V> {}

impl<V: Copy> Clone for Room<V> {
    ghost is_clone = { λ x y. y ≡ x };

    ghost is_infallible = { λ _. Unit {0} };

    fn clone(&self) -> Result<Room<V>, AllocError> {
        Ok(*self)
    }
}

impl<V: Copy> Room<V> {
    /// Every cost 0, and every other entry this value.
    pub fn new(value: V) -> Room<V>
        ensures costs { result.costs ≡ replicate 512 0 }
        ensures frame { result.frame ≡ replicate 256 value }
        ensures words { result.words ≡ replicate 256 value }
        ensures bits { result.bits ≡ replicate 8 (record { zero = value; one = value }) }
    {
        let bit = ByBit {
            zero: value,
            one: value,
        };
        Room {
            costs: [0; 512],
            frame: [value; 256],
            words: [value; 256],
            bits: [bit; 8],
        }
    }
}
