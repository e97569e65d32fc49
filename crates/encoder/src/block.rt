//! A whole block.

ghost use Rattle.std.specs.Prelude.{◌≡◌, ◌+◌, ◌*◌, ◌<◌, length};
ghost use Rattle.plans.specs.Plans.{symbols, coded};
ghost use Rattle.encoder.specs.Encoding.{data_bits, held_before, slot, encoded};
ghost use Rattle.encoder.specs.Promises.{Encodes};

use crate::bits::CheckedPayload;
use plans::{Plan, PlanValues, Refusal};

/// A plan, and what is sent under it.
#[derive(Clone, Copy)]
struct Block<'a> {
    plan: Plan,
    payload: CheckedPayload<'a>,
}

impl<'a> Block<'a> {
    ghost use Rattle.encoder.specs.Blocks.{sent_bit};

    // The accumulator after interleaved bit j, from what it held before.
    fn accumulate(&self, j: usize, held: bool) -> bool
        requires inside { j < coded self.now.plan.values }
        requires before { held ≡ held_before (sent_bit self.now) j }
        ensures value { result ≡ held_before (sent_bit self.now) (j + 1) }
    {
        let i = self.plan.interleave(j).unwrap();
        self.payload.coded_bit(i) != held
    }

    // The slot of symbol k, and what the accumulator holds after it.
    #[tactic(auto, using(crate::proofs::Symbols::read_byte, crate::proofs::Symbols::read_more, crate::proofs::Symbols::bit_byte, crate::proofs::Symbols::byte_small, crate::proofs::Symbols::inside, crate::proofs::Symbols::whole), unfolding(crate::specs::Encoding::slot))]
    fn slot_of(&self, k: usize, held: bool) -> (u8, bool)
        requires inside { k < symbols self.now.plan.values }
        requires before { held ≡ held_before (sent_bit self.now) (k * self.now.plan.values.bits) }
        ensures value { result.0 ≡ slot self.now.plan.values (data_bits self.now.payload.bytes.now) k }
        ensures held { result.1 ≡ held_before (sent_bit self.now) (k * self.now.plan.values.bits + self.now.plan.values.bits) }
    {
        let m = self.plan.bits();
        let mut acc = held;
        let mut value: u32 = 0;
        // By number: a bit is asked of the block, and no slice holds the bits.
        for i in 0..m {
            acc = self.accumulate(k * m + i, acc);
            value = 2 * value + u32::from(acc);
        }
        (value as u8, acc)
    }

    // Lays the slots of the block, one in each place of `out`.
    #[tactic(auto, using(crate::proofs::Symbols::filled_more), unfolding(crate::specs::Encoding::encoded))]
    fn lay(&self, out: &mut [u8])
        requires room { length out.old ≡ symbols self.now.plan.values }
        ensures slots { out.new ≡ encoded self.now.plan.values self.now.payload.bytes.now }
    {
        let mut held = false;
        for (k, place) in out.iter_mut().enumerate() {
            let (value, after) = self.slot_of(k, held);
            *place = value;
            held = after;
        }
    }
}

/// Encodes a payload into the front of `out`, a byte for each symbol: the number of its slot.
/// The answer is the number of symbols. A refusal leaves `out` alone.
#[tactic(auto, unfolding(crate::specs::Encoding::encode_refusal))]
pub fn encode(values: PlanValues, payload: &[u8], out: &mut [u8]) -> Result<usize, Refusal>
    ensures cases { Encodes values payload.now out.old out.new result }
{
    let plan = Plan::accept(values)?;
    if payload.len() != plan.bytes() {
        return Err(Refusal::Lengths);
    }
    let n = plan.symbols();
    if out.len() < n {
        return Err(Refusal::Room);
    }
    let payload = CheckedPayload::new(payload);
    Block { plan, payload }.lay(&mut out[..n]);
    Ok(n)
}
