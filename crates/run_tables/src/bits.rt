//! The decided bits: their remainder, and the payload that they make.

ghost use Rattle.std.specs.Prelude.{◌≡◌, ◌≤◌, length};
ghost use Rattle.plans.specs.Plans.{stages};
ghost use Rattle.polynomial.specs.Polynomials.{value};
ghost use Rattle.run_model.specs.Tables.{fronted};
ghost use Rattle.run_model.specs.Model.{decided_bits, decided_remainder, decided_payload};

use plans::Plan;
use polynomial::with_coefficient;

/// The remainder of the decided bits before the last two.
pub fn remainder_of(plan: Plan, d: &[u8]) -> u32
    requires { stages plan.values ≤ length d.now }
    ensures value { result ≡ decided_remainder plan.values d.now }
{
    let mut r = 0;
    for bit in &d[..plan.stages() - 2] {
        r = with_coefficient(r, *bit == 1);
    }
    r
}

// The byte of eight decided bits, the most significant first.
fn byte_of(bits: &[u8; 8]) -> u8
    ensures value { result ≡ value (decided_bits 8 bits.now) }
{
    let mut value: u32 = 0;
    for bit in bits {
        value = 2 * value + u32::from(*bit == 1);
    }
    value as u8
}

/// Lays the decided payload into the front of `out`.
pub fn take_payload(plan: Plan, d: &[u8], out: &mut [u8])
    requires { (stages plan.values ≤ length d.now) × (plan.values.bytes ≤ length out.old) }
    ensures after { out.new ≡ fronted plan.values.bytes (decided_payload plan.values d.now) out.old }
{
    let (eights, _) = d.as_chunks::<8>();
    // Zipped with `eights`, nothing is known afterwards of what was written through `iter_mut`.
    for (i, byte) in out[..plan.bytes()].iter_mut().enumerate() {
        *byte = byte_of(&eights[i]);
    }
}
