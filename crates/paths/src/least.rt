//! The least cost.

ghost use Rattle.paths.specs.Least.{least, FineCost};
ghost use Rattle.paths.specs.LeastLaws.{least_laws};
ghost use Rattle.std.proofs.Common.{lit≤};

use super::semiring::{Semiring, Weights};

/// The semiring of the least cost: join is the smaller, chain the sum held at 4,294,967,295.
#[derive(Drop)]
pub struct LeastCost {}

impl Semiring for LeastCost {
    ghost laws = { least_laws };
}

impl Weights for LeastCost {
    type Value = u32;

    ghost ops = { least };

    ghost fine = { FineCost };

    ghost little = { lit≤ _ };

    // A number and no `Option`: the work table holds plain numbers, which C and cost files know.
    fn none() -> u32 {
        u32::MAX
    }

    fn unit() -> u32 {
        0
    }

    fn value(cost: u32) -> u32 {
        cost
    }

    fn join(x: u32, y: u32) -> u32 {
        x.min(y)
    }

    fn chain(x: u32, y: u32) -> u32 {
        x.saturating_add(y)
    }
}
