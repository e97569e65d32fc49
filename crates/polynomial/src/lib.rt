//! Polynomials over the two-element field, and the check of a string of bytes: its remainder by
//! z^22 + z^5 + z^4 + z^3 + 1.

#![tactic(auto)]

ghost use Rattle.std.specs.Prelude.{◌≡◌, ℕ, ◌^◌, ◌<◌, Bool, List, [], ◌∷◌, ◌++◌};
ghost use Rattle.polynomial.specs.Polynomials.{Division, remainder, value};
ghost use Rattle.polynomial.specs.Bytes.{check_of, ListsChecks, Checks};

mod table;

use table::CHECKS;

/// The check of one byte alone, read from a table of such checks.
fn alone(table: &[u32; 256], byte: u8) -> u32
    requires { ListsChecks table.now }
    ensures { result ≡ check_of (byte ∷ []) }
{
    table[usize::from(byte)]
}

/// The check of bytes with one byte more behind them, from the check `r` of those bytes.
fn fed(r: u32, byte: u8) -> u32
    requires { r < 2 ^ 22 }
    ensures { (xs : List ℕ) → r ≡ check_of xs → result ≡ check_of (xs ++ byte ∷ []) }
{
    let lead = (r >> 14) as u8 ^ byte;
    ((r & 0x3fff) << 8) ^ alone(&CHECKS, lead)
}

/// The check of a string of bytes: the remainder of its polynomial times z^22, as a number of 22 binary digits.
#[tactic(auto, using(crate::proofs::Checks::check_small))]
pub fn check(bytes: &[u8]) -> u32
    ensures value { result ≡ check_of bytes.now }
    ensures meaning { Checks bytes.now result }
    ensures division { Division }
{
    let mut r = 0;
    for &byte in bytes {
        r = fed(r, byte);
    }
    r
}

/// The remainder of a polynomial with one coefficient more behind it, from its remainder `r`, both as numbers of 22 binary digits.
/// No coefficients leave 0.
#[tactic(auto, using(crate::proofs::OneMore::high_small))]
pub fn with_coefficient(r: u32, one: bool) -> u32
    requires { r < 2 ^ 22 }
    ensures value { (p : List Bool) → r ≡ value (remainder p) → result ≡ value (remainder (p ++ one ∷ [])) }
    ensures bound { result < 2 ^ 22 }
{
    let doubled = 2 * r + u32::from(one);
    if doubled < 0x40_0000 {
        doubled
    } else {
        doubled ^ 0x40_0039
    }
}
