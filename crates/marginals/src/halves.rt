//! The words folded by halves.

ghost use Rattle.std.specs.Prelude.{◌≡◌, ℕ, suc, ◌-◌, ◌+◌, ◌^◌, ◌<◌, ◌≤◌, get_or, slice_index_or};
ghost use Rattle.paths.specs.Columns.{join_below};
ghost use Rattle.marginals.specs.Halves.{held, halved, lower, upper};
ghost use Rattle.marginals.specs.Words.{neither};

use super::room::ByBit;
use paths::{Weights, word_count};

// Takes the words that differ in bit `b` alone together, and joins all those without and all those with it.
fn halve<W: Weights>(b: usize, words: &mut [W::Value; 256]) -> ByBit<W::Value>
    requires { b < 8 }
    ensures zero { result.zero ≡ join_below W.ops (2 ^ b) (λ x. get_or words.old x W.ops.none) }
    ensures one { result.one ≡ join_below W.ops (2 ^ b) (λ x. get_or words.old (2 ^ b + x) W.ops.none) }
    ensures after { (x : ℕ) → x < 2 ^ b → slice_index_or words.new x W.ops.none ≡ W.ops.join (slice_index_or words.old x W.ops.none) (slice_index_or words.old (2 ^ b + x) W.ops.none) }
    ensures rest { (x : ℕ) → 2 ^ b ≤ x → slice_index_or words.new x W.ops.none ≡ slice_index_or words.old x W.ops.none }
{
    let mut zero = W::none();
    let mut one = W::none();
    let (lows, highs) = words.split_at_mut(word_count(b));
    // By `zip` an invariant could not name what is written, as in `lay_row`.
    for (x, low) in lows.iter_mut().enumerate() {
        let high = highs[x];
        zero = W::join(zero, *low);
        one = W::join(one, high);
        *low = W::join(*low, high);
    }
    ByBit { zero, one }
}

/// Folds the words of so many bits, from the highest bit down.
pub(crate) fn fold<W: Weights>(
    bits: usize,
    words: &mut [W::Value; 256],
    found: &mut [ByBit<W::Value>; 8],
)
    requires { bits ≤ 8 }
    ensures zero { (b : ℕ) → b < bits → (slice_index_or found.new b (neither W.ops)).zero ≡ lower W.ops (held W.ops words.old) bits b }
    ensures one { (b : ℕ) → b < bits → (slice_index_or found.new b (neither W.ops)).one ≡ upper W.ops (held W.ops words.old) bits b }
    ensures first { slice_index_or words.new 0 W.ops.none ≡ halved W.ops (held W.ops words.old) 0 bits 0 }
    ensures left { (b x : ℕ) → b < bits → 2 ^ b ≤ x → x < 2 ^ suc b → slice_index_or words.new x W.ops.none ≡ halved W.ops (held W.ops words.old) (suc b) (bits - suc b) x }
    ensures rest { (x : ℕ) → 2 ^ bits ≤ x → slice_index_or words.new x W.ops.none ≡ slice_index_or words.old x W.ops.none }
    ensures found_rest { (b : ℕ) → bits ≤ b → slice_index_or found.new b (neither W.ops) ≡ slice_index_or found.old b (neither W.ops) }
{
    // By number: of places lent by `iter_mut().enumerate().rev()` a proof knows nothing after, and a part of an array in a struct comes
    // back from a call under a name that no proof can cite (both tried). So the number of bits stands beside the array.
    for b in (0..bits).rev() {
        // A field at a time, so that an edit can store the zero alone at another bit.
        let by = halve::<W>(b, words);
        found[b].zero = by.zero;
        found[b].one = by.one;
    }
}
