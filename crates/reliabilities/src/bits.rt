//! The reliabilities of every bit of a stage's word.

ghost use Rattle.std.specs.Prelude.{◌≡◌, ℕ, suc, ◌+◌, ◌*◌, ◌<◌, ◌≤◌, length, None, slice_index, slice_index_or};
ghost use Rattle.paths.specs.Paths.{path_join, paths_with, before, after};
ghost use Rattle.paths.specs.Least.{least};
ghost use Rattle.marginals.specs.Rooms.{Leaves};
ghost use Rattle.marginals.specs.Words.{entry_of, neither};
ghost use Rattle.modulo.specs.Modulo.{reliability};
ghost use Rattle.reliabilities.specs.Bounds.{Bounded};

use super::keeping::CostKeeping;
use marginals::{ByBit, Room};
use paths::{Stage, Trellis};

// The reliability of each bit, from what its two costs leave.
fn tell<W: CostKeeping>(found: &[ByBit<u32>], out: &mut [Option<i32>])
    requires beside { length found.now ≡ length out.old }
    requires can { (b : ℕ) → b < length found.now → W.CanTell (slice_index_or found.now b (neither W.Weights.ops)).zero (slice_index_or found.now b (neither W.Weights.ops)).one }
    ensures { (b : ℕ) → b < length out.old → slice_index_or out.new b None ≡ W.told (slice_index_or found.now b (neither W.Weights.ops)).zero (slice_index_or found.now b (neither W.Weights.ops)).one }
{
    // By `zip` an invariant could not name what is written, as in `lay_row` of marginals.
    for (b, told) in out.iter_mut().enumerate() {
        *told = W::reliability(found[b].zero, found[b].one);
    }
}

/// The reliability of every bit of the word of a stage, into the front of `out`, the rest of
/// which stays: between a column that keeps the least costs
/// before the stage and one that keeps those after it, the least cost over all paths with the bit 0 less that with the bit 1.
pub fn stage_bits<T: Trellis, W: CostKeeping>(
    stage: &Stage<T>,
    front: &[u32],
    back: &[u32],
    room: &mut Room<u32>,
    out: &mut [Option<i32>; 8],
)
    requires columns { (T.states ≤ length front.now) × (T.states ≤ length back.now) }
    requires served { W.Serves T.reach T.ceiling }
    requires forth { (s : ℕ) → s < T.states → slice_index front.now s ≡ W.kept (path_join least (before T.states (T.meaning stage.now.trellis.now) stage.now.number s)) }
    requires onward { (s : ℕ) → s < T.states → slice_index back.now s ≡ W.kept (path_join least (after (T.meaning stage.now.trellis.now) (suc stage.now.number) s)) }
    ensures told { (b : ℕ) → b < T.bits stage.now.trellis.now → slice_index_or out.new b None ≡ reliability (path_join least (paths_with T.states (T.meaning stage.now.trellis.now) stage.now.number b 0)) (path_join least (paths_with T.states (T.meaning stage.now.trellis.now) stage.now.number b 1)) }
    ensures bound { 1 ≤ T.reach → T.ceiling < 131072 → (b : ℕ) → b < T.bits stage.now.trellis.now → Bounded ((2 * T.reach + 1) * T.ceiling) (slice_index_or out.new b None) }
    ensures sixteen { 1 ≤ T.reach → (2 * T.reach + 1) * T.ceiling < 32768 → (b : ℕ) → b < T.bits stage.now.trellis.now → Bounded 32767 (slice_index_or out.new b None) }
    ensures rest { (b : ℕ) → T.bits stage.now.trellis.now ≤ b → slice_index_or out.new b None ≡ slice_index_or out.old b None }
    ensures found { (b : ℕ) → b < T.bits stage.now.trellis.now → slice_index_or room.new.bits b (neither W.Weights.ops) ≡ record { zero = W.kept (path_join least (paths_with T.states (T.meaning stage.now.trellis.now) stage.now.number b 0)); one = W.kept (path_join least (paths_with T.states (T.meaning stage.now.trellis.now) stage.now.number b 1)) } }
    ensures room { Leaves W.Weights.ops T.states (T.bits stage.now.trellis.now) ((T.meaning stage.now.trellis.now).edges stage.now.number) (entry_of W.Weights.ops front.now) (entry_of W.Weights.ops back.now) room.old room.new }
{
    W::find(stage, front, back, room);
    let bits = stage.trellis.bits();
    tell::<W>(&room.bits[..bits], &mut out[..bits]);
}
