//! The frame of a stage: what leads to each state before it, chained with what leads on from each state after it.

ghost use Rattle.std.specs.Prelude.{◌≡◌, ℕ, ◌+◌, ◌*◌, ◌^◌, ◌<◌, ◌≤◌, length, slice_index_or};
ghost use Rattle.marginals.specs.Words.{entry_of};

use paths::{Weights, word_count};

// One row of a frame, for a state before the stage to which `x` leads.
fn lay_row<W: Weights>(x: W::Value, after: &[W::Value], row: &mut [W::Value])
    requires { length row.old ≡ length after.now }
    ensures { (t : ℕ) → t < length after.now → slice_index_or row.new t W.ops.none ≡ W.ops.chain x (entry_of W.ops after.now t) }
{
    // By `zip` an invariant could not name what is written (tried).
    for (t, cell) in row.iter_mut().enumerate() {
        *cell = W::chain(x, after[t]);
    }
}

/// Lays the frame between two columns, a row for each state before the stage.
pub(crate) fn lay_frame<W: Weights>(before: &[W::Value], after: &[W::Value], frame: &mut [W::Value])
    requires square { length after.now ≡ length before.now }
    requires room { length before.now * length after.now ≤ length frame.old }
    ensures laid { (s t : ℕ) → s < length before.now → t < length after.now → slice_index_or frame.new (s * length after.now + t) W.ops.none ≡ W.ops.chain (entry_of W.ops before.now s) (entry_of W.ops after.now t) }
    ensures rest { (p : ℕ) → length before.now * length after.now ≤ p → slice_index_or frame.new p W.ops.none ≡ slice_index_or frame.old p W.ops.none }
{
    let states = after.len();
    // Nor by `chunks_exact_mut`.
    for (s, x) in before.iter().enumerate() {
        lay_row::<W>(*x, after, &mut frame[s * states..s * states + states]);
    }
}

// The number of bits stands beside the array, as at `fold`.
/// Sets every word of so many bits to the value of no path.
pub(crate) fn clear<W: Weights>(bits: usize, words: &mut [W::Value; 256])
    requires { bits ≤ 8 }
    ensures clear { (w : ℕ) → w < 2 ^ bits → slice_index_or words.new w W.ops.none ≡ W.ops.none }
    ensures rest { (w : ℕ) → 2 ^ bits ≤ w → slice_index_or words.new w W.ops.none ≡ slice_index_or words.old w W.ops.none }
{
    words[..word_count(bits)].fill_with(|| W::none());
}
