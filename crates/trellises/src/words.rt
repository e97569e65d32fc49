//! What words cost by the priors of their bits.

ghost use Rattle.std.specs.Prelude.{◌≡◌, ℕ, ◌+◌, ◌^◌, ◌<◌, ◌≤◌, length, slice_index};
ghost use Rattle.trellises.specs.Priors.{penalties};

use super::priors::penalty;
use paths::word_count;

/// The penalties of the bits of one word, which has as many as there are priors.
#[tactic(auto, using(crate::specs::Bounds::penalty_low, crate::specs::Bounds::penalties_low))]
pub(crate) fn word_penalty(priors: &[i16], word: usize) -> u32
    requires { length priors.now ≤ 8 }
    ensures { result ≡ penalties priors.now 0 word (length priors.now) }
{
    let mut sum = 0;
    for (j, &prior) in priors.iter().enumerate() {
        sum += penalty(prior, (word >> j) % 2);
    }
    sum
}

/// Twice as many words: each once more with one bit set that was not, which costs `one` in the place of `zero`.
fn double(out: &mut [u32; 512], size: usize, zero: u32, one: u32)
    requires room { size ≤ 256 }
    requires few { one ≤ 511 }
    requires paid { (w : ℕ) → w < size → zero ≤ slice_index out.old w + one }
    requires low { (w : ℕ) → w < size → slice_index out.old w ≤ 4088 }
    ensures low { (w : ℕ) → w < size → slice_index out.new w ≡ slice_index out.old w }
    ensures high { (w : ℕ) → w < size → slice_index out.new (size + w) + zero ≡ slice_index out.old w + one }
    ensures rest { (w : ℕ) → size + size ≤ w → slice_index out.new w ≡ slice_index out.old w }
{
    let (low, high) = out.split_at_mut(size);
    // By `zip` an invariant could not name what is written, as in `lay_row` of marginals.
    for (w, &paid) in low.iter().enumerate() {
        high[w] = paid + one - zero;
    }
}

/// The penalties of every word: first those of the word of zeros, then one sum for each other word.
#[tactic(auto, using(crate::specs::Bounds::penalties_low))]
pub(crate) fn word_penalties(priors: &[i16], out: &mut [u32; 512])
    requires { length priors.now ≤ 8 }
    ensures laid { (w : ℕ) → w < 2 ^ length priors.now → slice_index out.new w ≡ penalties priors.now 0 w (length priors.now) }
    ensures rest { (w : ℕ) → 2 ^ length priors.now ≤ w → slice_index out.new w ≡ slice_index out.old w }
{
    out[0] = word_penalty(priors, 0);
    for (j, &prior) in priors.iter().enumerate() {
        double(out, word_count(j), penalty(prior, 0), penalty(prior, 1));
    }
}
