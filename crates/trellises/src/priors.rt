//! What a bit costs by its prior.

ghost use Rattle.std.specs.Prelude.{◌≡◌};
ghost use Rattle.trellises.specs.Priors.{penalty};

/// A bit with a positive prior costs it as zero, one with a negative prior costs its size as one; both at most 511.
pub fn penalty(prior: i16, bit: usize) -> u32
    ensures { result ≡ penalty prior bit }
{
    if bit == 0 {
        prior.clamp(0, 511) as u32
    } else {
        u32::from(prior.clamp(-511, 0).unsigned_abs())
    }
}
