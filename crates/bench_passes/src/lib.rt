//! One inner and one outer pass, for a benchmark in C to call.
// C names a way by its number, and lends each buffer by itself: no `Way` and no struct among the parameters.

#![tactic(auto)]

ghost use Rattle.std.specs.Prelude.{◌≡◌, false};

use inner_pass::inner_pass;
use outer_pass::outer_pass;
use trellises::{Inner, Outer};
use ways::Way;

/// The inner extrinsics of n symbols of m bits; false, and nothing changed, where a size or a length does not fit.
#[unsafe(no_mangle)]
pub extern "C" fn lochsaucer_inner(
    way: u8,
    m: usize,
    n: usize,
    rows: &[u8],
    priors: &[i16],
    table: &mut [u32],
    out: &mut [i16],
) -> bool
    ensures refused { result ≡ false → (out.new ≡ out.old) × (table.new ≡ table.old) }
{
    let Ok(way) = Way::try_from(way) else {
        return false;
    };
    if !(1..=8).contains(&m) || !(1..=16384).contains(&n) {
        return false;
    }
    if rows.len() < n * (1 << m)
        || priors.len() < n * m
        || out.len() < n * m
        || table.len() < 12 * n + 60
    {
        return false;
    }
    inner_pass(way, &Inner::new(m, n, rows, priors), table, out);
    true
}

/// The outer extrinsics of n data bits, with the reliability and the decision of each; false, and nothing changed, where a length
/// does not fit.
#[unsafe(no_mangle)]
pub extern "C" fn lochsaucer_outer(
    way: u8,
    n: usize,
    priors: &[i16],
    table: &mut [u32],
    out: &mut [i16],
    found: &mut [i16],
    decided: &mut [u8],
) -> bool
    ensures refused { result ≡ false → (out.new ≡ out.old) × (table.new ≡ table.old) }
    ensures kept { result ≡ false → (found.new ≡ found.old) × (decided.new ≡ decided.old) }
{
    let Ok(way) = Way::try_from(way) else {
        return false;
    };
    if !(4..=16384).contains(&n) {
        return false;
    }
    if priors.len() < 2 * n
        || out.len() < 2 * n
        || found.len() < n
        || decided.len() < n
        || table.len() < 40 * n + 232
    {
        return false;
    }
    outer_pass(way, &Outer::new(n, priors), table, out, found, decided);
    true
}
