//! A plan that passed its questions.

ghost use Rattle.std.specs.Prelude.{◌≡◌, ◌+◌, ◌*◌, ◌%◌, ◌^◌, ◌<◌, ◌≤◌, true, ◌&&◌, ltb, if◌then◌else◌, Some, None, Ok, Err, ◌==◌, nat_le, nat_lt};
ghost use Rattle.plans.specs.Permutations.{Permutation};
ghost use Rattle.plans.specs.Plans.{stages, coded, symbols, slots, interleaver, sized, grouped, permuting, plan_refusal, Answered};

use crate::{PlanValues, Refusal, common_divisor};

/// A plan that every question was answered yes for.
#[derive(Clone, Copy)]
pub struct Plan {
    pub values: PlanValues,
    ghost accepted: { plan_refusal values ≡ None },
}

// Numbers whose payload is not too long: what follows from them fits.
#[derive(Clone, Copy)]
struct SizedValues {
    values: PlanValues,
    ghost served: { values.bytes ≤ 1021 },
}

// The square of x modulo n.
fn square(n: u32, x: u32) -> u32
    requires { 0 < n }
    ensures value { result ≡ (x * x) % n }
{
    (u64::from(x) * u64::from(x) % u64::from(n)) as u32
}

// Whether the sixteenth power of b vanishes modulo n.
#[tactic(auto, using(crate::proofs::Powers::sixteenth))]
fn vanishes(n: u32, b: u32) -> bool
    requires { 0 < n }
    ensures value { result ≡ (b ^ 16 % n == 0) }
{
    square(n, square(n, square(n, square(n, b)))) == 0
}

impl SizedValues {
    // The first question of a plan.
    #[tactic(auto, unfolding(crate::specs::Plans::plan_refusal))]
    fn new(values: PlanValues) -> Result<SizedValues, Refusal>
        ensures cases { elim result [ Ok it ↦ (it.values ≡ values) × (sized values ≡ true) | Err e ↦ plan_refusal values ≡ Some e ] }
    {
        if !(1..=1021).contains(&values.bytes) {
            return Err(Refusal::PayloadBytes);
        }
        Ok(SizedValues { values })
    }

    fn coded(self) -> u32
        ensures value { result ≡ coded self.values }
        ensures some { 0 < result }
    {
        16 * self.values.bytes + 48
    }

    fn is_grouped(self) -> bool
        ensures value { result ≡ grouped self.values }
    {
        let m = self.values.bits;
        (2..=8).contains(&m) && self.coded() % m == 0
    }

    fn in_range(self) -> bool
        ensures value { result ≡ (nat_le 1 self.values.a && nat_lt self.values.a (coded self.values) && nat_lt self.values.b (coded self.values)) }
    {
        let n = self.coded();
        (1..n).contains(&self.values.a) && self.values.b < n
    }

    #[tactic(auto, using(crate::proofs::Coprimes::divisor_tells))]
    fn is_permuting(self) -> bool
        ensures value { result ≡ permuting self.values }
    {
        let n = self.coded();
        self.in_range() && common_divisor(self.values.a, n) == 1 && vanishes(n, self.values.b)
    }
}

impl Plan {
    /// Asks the questions of a plan in their order.
    #[tactic(auto, using(crate::proofs::Answering::answered), unfolding(crate::specs::Plans::plan_refusal))]
    pub fn accept(values: PlanValues) -> Result<Plan, Refusal>
        ensures cases { elim result [ Ok p ↦ (p.values ≡ values) × (plan_refusal values ≡ None) | Err e ↦ plan_refusal values ≡ Some e ] }
        ensures meaning { Answered values (plan_refusal values) }
    {
        let sized = SizedValues::new(values)?;
        if !sized.is_grouped() {
            return Err(Refusal::SymbolBits);
        }
        if !sized.is_permuting() {
            return Err(Refusal::Interleaver);
        }
        Ok(Plan { values })
    }

    /// Payload bytes.
    pub fn bytes(self) -> usize
        ensures value { result ≡ self.values.bytes }
        ensures bound { (1 ≤ result) × (result ≤ 1021) }
    {
        self.values.bytes as usize
    }

    /// Bits per symbol.
    pub fn bits(self) -> usize
        ensures value { result ≡ self.values.bits }
        ensures bound { (2 ≤ result) × (result ≤ 8) }
    {
        self.values.bits as usize
    }

    /// Stages of the outer code, one for each payload bit, check bit and closing zero.
    pub fn stages(self) -> usize
        ensures value { result ≡ stages self.values }
        ensures bound { result ≤ 8192 }
    {
        8 * self.bytes() + 24
    }

    /// Coded bits, two a stage.
    pub fn coded(self) -> usize
        ensures value { result ≡ coded self.values }
        ensures bound { result ≤ 16384 }
    {
        2 * self.stages()
    }

    /// Symbols of a block: the coded bits fall into them with none left over.
    pub fn symbols(self) -> usize
        ensures value { result ≡ symbols self.values }
        ensures whole { result * self.values.bits ≡ coded self.values }
        ensures bound { result ≤ 8192 }
    {
        self.coded() / self.bits()
    }

    /// Slots of a symbol.
    #[tactic(auto, using(std::proofs::lemmas::Nat::one_shl))]
    pub fn slots(self) -> usize
        ensures value { result ≡ slots self.values }
        ensures bound { (4 ≤ result) × (result ≤ 256) }
    {
        1 << self.bits()
    }

    /// The coded bit that interleaved bit `j` is, or none past the last. Over a block this is a
    /// permutation.
    pub fn interleave(self, j: usize) -> Option<usize>
        ensures value { result ≡ (if ltb j (coded self.values) then Some (interleaver self.values j) else None) }
        ensures permutes { Permutation (coded self.values) (interleaver self.values) }
    {
        let n = self.coded();
        if j >= n {
            return None;
        }
        let a = self.values.a as usize;
        let b = self.values.b as usize;
        Some((a * j + b * j * j) % n)
    }
}
