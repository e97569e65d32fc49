//! The numbers that make a plan, before anything is asked of them.

ghost use Rattle.std.specs.Prelude.{Some};
ghost use Rattle.plans.specs.Texts.{plan_text};

use std::fmt;

/// What a sender and a receiver agree on.
#[derive(Clone, Copy, PartialEq, Eq, Debug)]
pub struct PlanValues {
    /// Payload bytes.
    pub bytes: u32,
    /// Bits per symbol.
    pub bits: u32,
    /// The interleaver's linear factor.
    pub a: u32,
    /// The interleaver's quadratic factor.
    pub b: u32,
}

/// The four numbers in their order.
impl fmt::Display for PlanValues {
    ghost output = { λ values. Some (plan_text values) };

    fn fmt<W: fmt::Write>(&self, f: &mut fmt::Formatter<W>) -> fmt::Result {
        write!(f, "{} {} {} {}", self.bytes, self.bits, self.a, self.b)
    }
}
