//! The least cost with a count of ties.

ghost use Rattle.paths.specs.Ties.{least_with_ties, FineTied};
ghost use Rattle.paths.specs.TiesLaws.{ties_laws};
ghost use Rattle.std.proofs.Common.{lit≤};

use super::semiring::{Semiring, Weights};

/// A least cost, and how many paths have it, counted up to 255.
#[derive(Clone, Copy, PartialEq, Eq, Debug)]
pub struct Tied {
    pub cost: u32,
    pub count: u8,
}

/// The semiring of the least cost with a count of its ties.
#[derive(Drop)]
pub struct LeastCostWithTies {}

impl Semiring for LeastCostWithTies {
    ghost laws = { ties_laws };
}

impl Weights for LeastCostWithTies {
    type Value = Tied;

    ghost ops = { least_with_ties };

    ghost fine = { FineTied };

    ghost little = { lit≤ _ };

    // The cost is a number and no `Option`, as that of `LeastCost`.
    fn none() -> Tied {
        Tied {
            cost: u32::MAX,
            count: 0,
        }
    }

    fn unit() -> Tied {
        Tied { cost: 0, count: 1 }
    }

    fn value(cost: u32) -> Tied {
        if cost < u32::MAX {
            Tied { cost, count: 1 }
        } else {
            Tied { cost, count: 0 }
        }
    }

    // By two comparisons: a `match` on `cmp` made a total more than twice as slow.
    fn join(x: Tied, y: Tied) -> Tied {
        if x.cost < y.cost {
            x
        } else if y.cost < x.cost {
            y
        } else {
            Tied {
                cost: x.cost,
                count: x.count.saturating_add(y.count),
            }
        }
    }

    fn chain(x: Tied, y: Tied) -> Tied {
        let cost = x.cost.saturating_add(y.cost);
        if cost < u32::MAX {
            Tied {
                cost,
                count: x.count.saturating_mul(y.count),
            }
        } else {
            Tied { cost, count: 0 }
        }
    }
}
