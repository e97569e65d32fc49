//! The marginals of every bit of a stage's word.

ghost use Rattle.std.specs.Prelude.{◌≡◌, ℕ, suc, ◌<◌, ◌≤◌, length, slice_index_or};
ghost use Rattle.paths.specs.Paths.{path_join, paths_with};
ghost use Rattle.paths.specs.Columns.{forward, backward};
ghost use Rattle.paths.specs.Joins.{Joins, candidate, edges_with};
ghost use Rattle.marginals.specs.Rooms.{Leaves};
ghost use Rattle.marginals.specs.Words.{entry_of, neither};

use super::frame::{clear, lay_frame};
use super::gather::gather;
use super::halves::fold;
use super::room::Room;
use paths::{Semiring, Stage, Trellis, Weights};

// The stage and its two columns stay three parameters: a struct of the three references would be made for each call, and add a name
// to each clause.
/// For every bit of the words of a stage, what its edges with that bit 0 and with that bit 1 offer between a column before the
/// stage and a column after it. Each edge is asked once, and joined into its word; the words are then folded by halves.
pub fn marginals<T: Trellis, W: Weights>(
    stage: &Stage<T>,
    before: &[W::Value],
    after: &[W::Value],
    room: &mut Room<W::Value>,
)
    requires columns { (T.states ≤ length before.now) × (T.states ≤ length after.now) }
    ensures zero { (b : ℕ) → b < T.bits stage.now.trellis.now → Joins W.ops (candidate W.ops (entry_of W.ops before.now) (entry_of W.ops after.now) ((T.meaning stage.now.trellis.now).edges stage.now.number)) (edges_with ((T.meaning stage.now.trellis.now).edges stage.now.number) b 0) (slice_index_or room.new.bits b (neither W.ops)).zero }
    ensures one { (b : ℕ) → b < T.bits stage.now.trellis.now → Joins W.ops (candidate W.ops (entry_of W.ops before.now) (entry_of W.ops after.now) ((T.meaning stage.now.trellis.now).edges stage.now.number)) (edges_with ((T.meaning stage.now.trellis.now).edges stage.now.number) b 1) (slice_index_or room.new.bits b (neither W.ops)).one }
    ensures room { Leaves W.ops T.states (T.bits stage.now.trellis.now) ((T.meaning stage.now.trellis.now).edges stage.now.number) (entry_of W.ops before.now) (entry_of W.ops after.now) room.old room.new }
{
    let states = T::state_count();
    let bits = stage.trellis.bits();
    lay_frame::<W>(&before[..states], &after[..states], &mut room.frame[..]);
    clear::<W>(bits, &mut room.words);
    gather::<T, W>(stage, &room.frame, &mut room.costs, &mut room.words);
    fold::<W>(bits, &mut room.words, &mut room.bits);
}

/// The same over a semiring, between the forward column before the stage and the backward column after it: the joins over all
/// paths on which a bit of the word of the stage is 0, and on which it is 1.
pub fn bit_joins<T: Trellis, W: Semiring>(
    stage: &Stage<T>,
    before: &[W::Value],
    after: &[W::Value],
    room: &mut Room<W::Value>,
)
    requires columns { (T.states ≤ length before.now) × (T.states ≤ length after.now) }
    requires forth { (s : ℕ) → s < T.states → slice_index_or before.now s W.Weights.ops.none ≡ forward W.Weights.ops T.states (T.meaning stage.now.trellis.now) stage.now.number s }
    requires back { (s : ℕ) → s < T.states → slice_index_or after.now s W.Weights.ops.none ≡ backward W.Weights.ops T.states (T.meaning stage.now.trellis.now) (suc stage.now.number) s }
    ensures zero { (b : ℕ) → b < T.bits stage.now.trellis.now → (slice_index_or room.new.bits b (neither W.Weights.ops)).zero ≡ path_join W.Weights.ops (paths_with T.states (T.meaning stage.now.trellis.now) stage.now.number b 0) }
    ensures one { (b : ℕ) → b < T.bits stage.now.trellis.now → (slice_index_or room.new.bits b (neither W.Weights.ops)).one ≡ path_join W.Weights.ops (paths_with T.states (T.meaning stage.now.trellis.now) stage.now.number b 1) }
    ensures room { Leaves W.Weights.ops T.states (T.bits stage.now.trellis.now) ((T.meaning stage.now.trellis.now).edges stage.now.number) (entry_of W.Weights.ops before.now) (entry_of W.Weights.ops after.now) room.old room.new }
{
    marginals::<T, W>(stage, before, after, room);
}
