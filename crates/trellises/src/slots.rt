//! The slots of all words, by doubling.

ghost use Rattle.std.specs.Prelude.{◌≡◌, ℕ, ◌+◌, ◌-◌, ◌*◌, ◌%◌, ◌^◌, ◌<◌, ◌≤◌, slice_index};
ghost use Rattle.trellises.specs.Inner.{slot_of};

use paths::word_count;

// The size stands beside the array in both: a slice of twice the size would have its half asked again.
// Like `double` of words.rt in shape alone: one function for both would need a type of entries, a closure that makes two of
// one, and a clause with a pair for every entry, where each now has two sums.
/// The slots of twice as many words: those with one more bit zero repeat the last accumulated bit, those with it one turn it.
fn double(slots: &mut [u8; 256], size: usize)
    requires room { size ≤ 128 }
    requires within { (w : ℕ) → w < size → slice_index slots.old w < size }
    ensures low { (w : ℕ) → w < size → slice_index slots.new w ≡ 2 * slice_index slots.old w + slice_index slots.old w % 2 }
    ensures high { (w : ℕ) → w < size → slice_index slots.new (size + w) ≡ 2 * slice_index slots.old w + (1 - slice_index slots.old w % 2) }
{
    let (low, high) = slots.split_at_mut(size);
    // By `zip` an invariant could not name what is written, as in `lay_row` of marginals.
    for (w, slot) in low.iter_mut().enumerate() {
        let last = *slot % 2;
        high[w] = 2 * *slot + (1 - last);
        *slot = 2 * *slot + last;
    }
}

/// The slot of each word of `m` bits out of state 0.
#[tactic(auto, using(crate::proofs::SlotLaws::slot_low))]
pub(crate) fn slot_table(m: usize) -> [u8; 256]
    requires { m ≤ 8 }
    ensures { (w : ℕ) → w < 2 ^ m → slice_index result w ≡ slot_of 0 w m }
{
    let mut slots = [0u8; 256];
    // By number: each bit doubles the slots, and none stands in a slice.
    for j in 0..m {
        double(&mut slots, word_count(j));
    }
    slots
}
