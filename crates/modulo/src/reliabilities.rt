//! The reliability of a bit from its least costs, and the number that is sent on about it.

ghost use Rattle.std.specs.Prelude.{◌≡◌};
ghost use Rattle.modulo.specs.Modulo.{reliability};
ghost use Rattle.modulo.specs.Priors.{extrinsic, told_of};
ghost use Rattle.modulo.specs.Spread.{Near};

// A number and no `Option` stands for the cost of what cannot be: it lies among the others in the columns and the work table.
/// The least cost with the bit 0 less the least cost with it 1; none where the bit is forced, for 4,294,967,295 is the cost of what cannot be.
#[tactic(auto, using(std::proofs::lemmas::Bool::Decides::nat_tests), unfolding(crate::specs::Modulo::reliability))]
pub fn least_reliability(zero: u32, one: u32) -> Option<i32>
    requires { Near 2147483647 zero one }
    ensures { result ≡ reliability zero one }
{
    let forced = zero == u32::MAX || one == u32::MAX;
    (!forced).then(|| (i64::from(zero) - i64::from(one)) as i32)
}

/// What is sent on about a bit: its reliability less what was told about it before, held within -511 to 511.
pub fn sent_on(reliability: i32, prior: i16) -> i16
    ensures { result ≡ extrinsic reliability prior }
{
    let news = i64::from(reliability) - i64::from(prior);
    news.clamp(-511, 511) as i16
}

/// The number that is sent on about a bit, 0 where the bit is forced.
pub fn told(reliability: Option<i32>, prior: i16) -> i16
    ensures { result ≡ told_of reliability prior }
{
    reliability.map_or(0, |r| sent_on(r, prior))
}
