//! The inner trellis: accumulator and symbols.

ghost use Rattle.std.specs.Prelude.{◌≡◌, ℕ, ◌+◌, ◌*◌, ◌/◌, ◌%◌, ◌^◌, ◌<◌, ◌≤◌, min, length, slice_index};
ghost use Rattle.trellises.specs.Priors.{penalties};
ghost use Rattle.trellises.specs.Inner.{slot_of, inner};
ghost use Rattle.trellises.specs.InnerLaws.{InnerSizes, inner_lawful, inner_reaches};

use super::rows::add_row;
use super::slots::slot_table;
use super::words::{word_penalties, word_penalty};
use paths::{Edge, Trellis, word_count};

/// `n` symbols of `m` interleaved bits: a row of slot costs for each symbol, and a prior for each bit.
#[derive(Drop)]
pub struct Inner<'a, 'b> {
    pub m: usize,
    pub n: usize,
    pub rows: &'a [u8],
    pub priors: &'b [i16],
    // An array, of which the first 2 ^ m entries count: there is no heap, and m is known only as it runs.
    slots: [u8; 256],
    ghost sizes: { InnerSizes m n },
    ghost there: { (n * 2 ^ m ≤ length rows.now) × (n * m ≤ length priors.now) },
    ghost table: { (w : ℕ) → w < 2 ^ m → slice_index slots w ≡ slot_of 0 w m },
}

impl<'a, 'b> Inner<'a, 'b> {
    /// The trellis of these rows and priors.
    pub fn new(m: usize, n: usize, rows: &'a [u8], priors: &'b [i16]) -> Inner<'a, 'b>
        requires sizes { InnerSizes m n }
        requires there { (n * 2 ^ m ≤ length rows.now) × (n * m ≤ length priors.now) }
        ensures numbers { (result.m ≡ m) × (result.n ≡ n) }
        ensures tables { (result.rows.now ≡ rows.now) × (result.priors.now ≡ priors.now) }
        ensures means { inner result.m result.n result.rows.now result.priors.now ≡ inner m n rows.now priors.now }
    {
        let slots = slot_table(m);
        Inner {
            m,
            n,
            rows,
            priors,
            slots,
        }
    }

    /// How many words, and how many slots, a symbol has.
    fn size(&self) -> usize
        ensures { result ≡ 2 ^ self.now.m }
    {
        word_count(self.m)
    }

    // That `k` is below `n` is asked by private functions alone: `Stage` would say it of a trellis, and needs the impl whose body these are.
    /// What symbol `k` costs in each slot.
    fn row(&self, k: usize) -> &[u8]
        requires { k < self.now.n }
        ensures len { length result.now ≡ 2 ^ self.now.m }
        ensures value { (i : ℕ) → i < 2 ^ self.now.m → slice_index result.now i ≡ slice_index self.now.rows.now (k * 2 ^ self.now.m + i) }
    {
        let size = self.size();
        &self.rows[k * size..(k + 1) * size]
    }

    /// The priors of the bits of symbol `k`.
    fn word_priors(&self, k: usize) -> &[i16]
        requires { k < self.now.n }
        ensures len { length result.now ≡ self.now.m }
        ensures value { (w : ℕ) → penalties result.now 0 w (length result.now) ≡ penalties self.now.priors.now (k * self.now.m) w self.now.m }
    {
        &self.priors[k * self.m..(k + 1) * self.m]
    }

    /// The slot of each word out of state 0.
    fn word_slots(&self) -> &[u8]
        ensures len { length result.now ≡ 2 ^ self.now.m }
        ensures value { (w : ℕ) → w < 2 ^ self.now.m → slice_index result.now w ≡ slot_of 0 w self.now.m }
    {
        &self.slots[..self.size()]
    }

    /// The slot of a word out of a state; out of state 1 it mirrors that out of state 0.
    #[tactic(auto, using(crate::proofs::SlotLaws::slot_low, crate::proofs::SlotLaws::mirrored))]
    fn slot(&self, from: usize, word: usize) -> usize
        requires { (from < 2) × (word < 2 ^ self.now.m) }
        ensures { result ≡ slot_of from word self.now.m }
    {
        let near = usize::from(self.slots[word]);
        if from == 0 {
            near
        } else {
            self.size() - 1 - near
        }
    }

    /// What symbol `k` costs in a slot, with the penalties of its word.
    #[tactic(auto, using(crate::specs::Bounds::penalties_low))]
    fn cost(&self, k: usize, slot: usize, word: usize) -> u32
        requires { (k < self.now.n) × (slot < 2 ^ self.now.m) }
        ensures { result ≡ min (slice_index self.now.rows.now (k * 2 ^ self.now.m + slot)) 255 + penalties self.now.priors.now (k * self.now.m) word self.now.m }
    {
        u32::from(self.row(k)[slot]) + word_penalty(self.word_priors(k), word)
    }
}

impl<'a, 'b> Trellis for Inner<'a, 'b> {
    const STATES: usize = 2;

    const CEILING: u32 = 4343;

    const REACH: usize = 1;

    ghost states = { 2 };

    ghost ceiling = { 4343 };

    ghost reach = { 1 };

    ghost bits = { λ t. t.m };

    ghost meaning = { λ t. inner t.m t.n t.rows.now t.priors.now };

    ghost lawful = { λ t. inner_lawful t.m t.n t.rows.now t.priors.now t.sizes };

    ghost reaches = { λ t. inner_reaches t.m t.n t.rows.now t.priors.now t.sizes };

    fn state_count() -> usize
        ensures { result ≡ 2 }
    {
        Self::STATES
    }

    fn cost_ceiling() -> u32
        ensures { result ≡ 4343 }
    {
        Self::CEILING
    }

    fn stage_reach() -> usize
        ensures { result ≡ 1 }
    {
        Self::REACH
    }

    fn bits(&self) -> usize {
        self.m
    }

    fn stages(&self) -> usize {
        self.n
    }

    fn first(&self, s: usize) -> bool {
        s == 0
    }

    fn last(&self, s: usize) -> bool {
        s < 2
    }

    fn edge_count(&self, k: usize) -> Option<usize> {
        (k < self.n).then_some(2 * self.size())
    }

    #[tactic(auto, using(crate::proofs::SlotLaws::slot_low, crate::proofs::InnerEdges::inner_past, crate::proofs::InnerEdges::inner_beyond, crate::proofs::InnerEdges::inner_made))]
    fn edge(&self, k: usize, i: usize) -> Option<Edge> {
        let size = self.size();
        if k >= self.n || i >= 2 * size {
            return None;
        }
        let from = i / size;
        let word = i % size;
        let slot = self.slot(from, word);
        Some(Edge {
            from,
            to: slot % 2,
            word: word as u8,
            cost: self.cost(k, slot, word),
        })
    }

    #[tactic(auto, using(crate::specs::Bounds::penalties_low, crate::proofs::SlotLaws::slot_low))]
    fn costs(&self, k: usize, out: &mut [u32; 512]) {
        if k < self.n {
            word_penalties(self.word_priors(k), out);
            add_row(self.row(k), self.word_slots(), out);
        }
    }
}
