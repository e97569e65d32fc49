//! The least cost in numbers modulo 65,536: modulo normalisation, by which no column is ever scaled back.

ghost use Rattle.std.specs.Prelude.{◌≡◌};
ghost use Rattle.std.specs.Int.{cast_signed, w16};
ghost use Rattle.modulo.specs.Modulo.{apart, nearer, sum_modulo, reliability_modulo};

// A number and no `Option`: it lies in the work table, whose entries are plain numbers.
/// What stands for the cost of what cannot be.
pub const NONE: u32 = 65536;

/// The first less the second, as a signed number of 16 bits.
fn gap(x: u32, y: u32) -> i16
    ensures { result ≡ cast_signed w16 (apart x y) }
{
    let apart = (x.wrapping_sub(y) % 65536) as u16;
    apart.cast_signed()
}

/// The nearer of two: the second where the gap from it to the first is not below 0.
#[tactic(auto, using(std::proofs::lemmas::Bool::Decides::nat_tests), unfolding(crate::specs::Modulo::nearer))]
pub fn nearer_of(x: u32, y: u32) -> u32
    ensures { result ≡ nearer x y }
{
    if x == NONE {
        y
    } else if y == NONE || gap(x, y) < 0 {
        x
    } else {
        y
    }
}

/// The sum; none with anything is none.
#[tactic(auto, using(std::proofs::lemmas::Bool::Decides::nat_tests), unfolding(crate::specs::Modulo::sum_modulo))]
pub fn sum_of(x: u32, y: u32) -> u32
    ensures { result ≡ sum_modulo x y }
{
    if x == NONE || y == NONE {
        NONE
    } else {
        x.wrapping_add(y) % 65536
    }
}

/// The reliability of a bit, from the numbers that stand for its least costs; none where the bit is forced.
#[tactic(auto, using(std::proofs::lemmas::Bool::Decides::nat_tests), unfolding(crate::specs::Modulo::reliability_modulo))]
pub fn reliability_of(zero: u32, one: u32) -> Option<i16>
    ensures { result ≡ reliability_modulo zero one }
{
    let forced = zero == NONE || one == NONE;
    (!forced).then(|| gap(zero, one))
}
