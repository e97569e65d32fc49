//! One bit of a block at a time, from the payload and its check.

ghost use Rattle.std.specs.Prelude.{◌≡◌, ◌+◌, ◌-◌, ◌*◌, ◌/◌, ◌%◌, ◌^◌, ◌<◌, ◌≤◌, false, length, ◌==◌, slice_index_or};
ghost use Rattle.polynomial.specs.Bytes.{check_of};
ghost use Rattle.encoder.specs.Encoding.{data_bits, earlier, coded_bit};

// Binary digit k of a number.
#[tactic(auto, using(std::proofs::lemmas::Nat::and_mask))]
fn digit(x: u32, k: u32) -> bool
    requires { k < 32 }
    ensures value { result ≡ (x / 2 ^ k % 2 == 1) }
{
    (x >> k) & 1 == 1
}

/// A payload as long as is served, with its check.
#[derive(Clone, Copy)]
pub(crate) struct CheckedPayload<'a> {
    pub(crate) bytes: &'a [u8],
    check: u32,
    ghost short: { length bytes.now ≤ 1021 },
    ghost checked: { check ≡ check_of bytes.now },
}

impl<'a> CheckedPayload<'a> {
    pub(crate) fn new(bytes: &'a [u8]) -> CheckedPayload<'a>
        requires { length bytes.now ≤ 1021 }
        ensures value { result.bytes.now ≡ bytes.now }
    {
        let check = polynomial::check(bytes);
        CheckedPayload { bytes, check }
    }

    // The data bit of stage k, zero past the last.
    #[tactic(auto, using(crate::proofs::Stages::payload_bit, crate::proofs::Stages::check_bit, crate::proofs::Stages::closing_bit))]
    fn data_bit(&self, k: usize) -> bool
        ensures value { result ≡ slice_index_or (data_bits self.now.bytes.now) k false }
    {
        let n = 8 * self.bytes.len();
        if k < n {
            digit(u32::from(self.bytes[k / 8]), (7 - k % 8) as u32)
        } else if k < n + 22 {
            digit(self.check, (n + 21 - k) as u32)
        } else {
            false
        }
    }

    // The data bit `back` stages before stage k, zero before the first.
    fn earlier_bit(&self, k: usize, back: usize) -> bool
        ensures value { result ≡ earlier (data_bits self.now.bytes.now) k back }
    {
        back <= k && self.data_bit(k - back)
    }

    // Coded bit i.
    #[tactic(auto, using(crate::proofs::Stages::differs), unfolding(crate::specs::Encoding::coded_bit))]
    pub(crate) fn coded_bit(&self, i: usize) -> bool
        ensures value { result ≡ coded_bit (data_bits self.now.bytes.now) i }
    {
        let k = i / 2;
        let now = self.data_bit(k);
        let last = self.earlier_bit(k, 1);
        let before = self.earlier_bit(k, 2);
        if i % 2 == 0 {
            now != before
        } else {
            (now != last) != before
        }
    }
}
