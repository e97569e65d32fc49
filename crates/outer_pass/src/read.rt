//! What is read from the reliability of a bit.

ghost use Rattle.std.specs.Prelude.{◌≡◌, pos};
ghost use Rattle.std.specs.Option.{unwrap_or, option_map};
ghost use Rattle.modulo.specs.Priors.{extrinsic};
ghost use Rattle.reliabilities.specs.Bounds.{Bounded};
ghost use Rattle.outer_pass.specs.Read.{decided_of};

// A number stands for none, since C and the run read a table of numbers; whether the bit is forced its decision says.
/// A small reliability: 0 where the bit is forced.
pub(crate) fn narrow(r: Option<i32>) -> i16
    requires { Bounded 32767 r }
    ensures { result ≡ unwrap_or r (pos 0) }
{
    r.map_or(0, |r| r as i16)
}

// A number stands for each decision, and 2 for none, since C and the run read the table of decisions as bytes.
/// What is decided of a bit: 2 where it is forced, 1 where one costs less than zero, else 0.
pub(crate) fn decide(r: Option<i32>) -> u8
    ensures { result ≡ decided_of r }
{
    r.map_or(2, |r| u8::from(r > 0))
}
