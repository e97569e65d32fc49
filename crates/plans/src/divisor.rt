//! The greatest common divisor.

ghost use Rattle.plans.specs.Divisors.{GreatestCommon};

/// The greatest common divisor of two numbers, by Euclid's rule.
pub fn common_divisor(a: u32, b: u32) -> u32
    ensures value { GreatestCommon a b result }
{
    if b == 0 { a } else { common_divisor(b, a % b) }
}
