//! The least cost modulo 65,536 as the operations of a pass.

ghost use Rattle.modulo.specs.Modulo.{modulo};
ghost use Rattle.std.proofs.Common.{lit≤};

use super::modular::{NONE, nearer_of, sum_of};
use paths::Weights;

/// The least cost by modulo normalisation: no semiring, but its columns stand for the least costs of every trellis that it serves.
#[derive(Drop)]
pub struct ModuloCost {}

impl Weights for ModuloCost {
    type Value = u32;

    ghost ops = { modulo };

    ghost fine = { λ _. Unit {0} };

    ghost little = { lit≤ _ };

    fn none() -> u32 {
        NONE
    }

    fn unit() -> u32 {
        0
    }

    fn value(cost: u32) -> u32 {
        cost % 65536
    }

    fn join(x: u32, y: u32) -> u32 {
        nearer_of(x, y)
    }

    fn chain(x: u32, y: u32) -> u32 {
        sum_of(x, y)
    }
}
