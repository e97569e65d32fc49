//! Rows of slot costs.

ghost use Rattle.std.specs.Prelude.{◌≡◌, ℕ, ◌+◌, ◌-◌, ◌<◌, ◌≤◌, min, length, slice_index};

/// Adds to the penalties of each word what the row says of its slot: out of state 0, and behind these out of state 1,
/// where the slot is mirrored.
pub(crate) fn add_row(row: &[u8], slots: &[u8], out: &mut [u32; 512])
    requires sizes { (length slots.now ≤ 256) × (length row.now ≡ length slots.now) }
    requires within { (w : ℕ) → w < length slots.now → slice_index slots.now w < length slots.now }
    requires low { (w : ℕ) → w < length slots.now → slice_index out.old w ≤ 4088 }
    ensures zero { (w : ℕ) → w < length slots.now → slice_index out.new w ≡ min (slice_index row.now (slice_index slots.now w)) 255 + slice_index out.old w }
    ensures one { (w : ℕ) → w < length slots.now → slice_index out.new (length slots.now + w) ≡ min (slice_index row.now (length slots.now - 1 - slice_index slots.now w)) 255 + slice_index out.old w }
    ensures rest { (w : ℕ) → length slots.now + length slots.now ≤ w → slice_index out.new w ≡ slice_index out.old w }
{
    let size = slots.len();
    let (zero, one) = out.split_at_mut(size);
    // By `zip` an invariant could not name what is written, as in `lay_row` of marginals.
    for (w, &slot) in slots.iter().enumerate() {
        let slot = usize::from(slot);
        let paid = zero[w];
        one[w] = u32::from(row[size - 1 - slot]) + paid;
        zero[w] = u32::from(row[slot]) + paid;
    }
}
