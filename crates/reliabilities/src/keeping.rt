//! The two ways of keeping least costs: as they are, and modulo 65,536.

ghost use Rattle.std.specs.Prelude.{◌≡◌, ℕ, suc, ◌+◌, ◌*◌, ◌<◌, ◌≤◌, length, ℤ, Option, slice_index, slice_index_or};
ghost use Rattle.paths.specs.Paths.{path_join, paths_with, before, after};
ghost use Rattle.paths.specs.Joins.{Joins, candidate, edges_with};
ghost use Rattle.paths.specs.Least.{least};
ghost use Rattle.marginals.specs.Rooms.{Leaves};
ghost use Rattle.marginals.specs.Words.{entry_of, neither};
ghost use Rattle.modulo.specs.Modulo.{reliability, reliability_modulo};
ghost use Rattle.modulo.specs.Spread.{IsModest, Near};
ghost use Rattle.reliabilities.specs.Kept.{kept_modulo, Tells};
ghost use Rattle.reliabilities.specs.LeastTells.{least_tells};
ghost use Rattle.reliabilities.specs.ModuloTells.{modulo_tells};

use marginals::{Room, bit_joins, marginals};
use modulo::{ModuloCost, least_reliability, reliability_of};
use paths::{LeastCost, Stage, Trellis, Weights};

/// Weights that keep least costs, find what they keep of a bit's two, and tell its reliability from that.
pub trait CostKeeping: Weights<Value = u32> {
    // what is kept of a least cost
    ghost kept: { ℕ → ℕ };

    // the trellises that are served, by their reach and their highest cost
    ghost Serves: { ℕ → ℕ → Type 0 };

    // two costs that a reliability can be told from
    ghost CanTell: { ℕ → ℕ → Type 0 };

    ghost told: { ℕ → ℕ → Option ℤ };

    /// What is kept of the two least costs of each bit of the word of a stage, into the room, between a column that keeps the least costs
    /// before the stage and one that keeps those after it.
    fn find<T: Trellis>(stage: &Stage<T>, front: &[u32], back: &[u32], room: &mut Room<u32>)
        requires columns { (T.states ≤ length front.now) × (T.states ≤ length back.now) }
        requires served { Serves T.reach T.ceiling }
        requires forth { (s : ℕ) → s < T.states → slice_index front.now s ≡ kept (path_join least (before T.states (T.meaning stage.now.trellis.now) stage.now.number s)) }
        requires onward { (s : ℕ) → s < T.states → slice_index back.now s ≡ kept (path_join least (after (T.meaning stage.now.trellis.now) (suc stage.now.number) s)) }
        ensures zero { (b : ℕ) → b < T.bits stage.now.trellis.now → Joins Self.Weights.ops (candidate Self.Weights.ops (entry_of Self.Weights.ops front.now) (entry_of Self.Weights.ops back.now) ((T.meaning stage.now.trellis.now).edges stage.now.number)) (edges_with ((T.meaning stage.now.trellis.now).edges stage.now.number) b 0) (slice_index_or room.new.bits b (neither Self.Weights.ops)).zero }
        ensures one { (b : ℕ) → b < T.bits stage.now.trellis.now → Joins Self.Weights.ops (candidate Self.Weights.ops (entry_of Self.Weights.ops front.now) (entry_of Self.Weights.ops back.now) ((T.meaning stage.now.trellis.now).edges stage.now.number)) (edges_with ((T.meaning stage.now.trellis.now).edges stage.now.number) b 1) (slice_index_or room.new.bits b (neither Self.Weights.ops)).one }
        ensures found { (b : ℕ) → b < T.bits stage.now.trellis.now → slice_index_or room.new.bits b (neither Self.Weights.ops) ≡ record { zero = kept (path_join least (paths_with T.states (T.meaning stage.now.trellis.now) stage.now.number b 0)); one = kept (path_join least (paths_with T.states (T.meaning stage.now.trellis.now) stage.now.number b 1)) } }
        ensures room { Leaves Self.Weights.ops T.states (T.bits stage.now.trellis.now) ((T.meaning stage.now.trellis.now).edges stage.now.number) (entry_of Self.Weights.ops front.now) (entry_of Self.Weights.ops back.now) room.old room.new };

    /// The reliability of a bit from what is kept of its least costs; none where it is forced.
    fn reliability(zero: u32, one: u32) -> Option<i32>
        requires { CanTell zero one }
        ensures { result ≡ told zero one };

    // what is told is the true reliability
    ghost tells: { Tells Self.Weights.ops kept Serves CanTell told };
}

impl CostKeeping for LeastCost {
    ghost kept = { λ x. x };

    ghost Serves = { λ reach ceiling. ceiling < 131072 };

    ghost CanTell = { Near 2147483647 };

    ghost told = { reliability };

    fn find<T: Trellis>(stage: &Stage<T>, front: &[u32], back: &[u32], room: &mut Room<u32>) {
        bit_joins::<T, LeastCost>(stage, front, back, room);
    }

    fn reliability(zero: u32, one: u32) -> Option<i32> {
        least_reliability(zero, one)
    }

    ghost tells = { least_tells };
}

impl CostKeeping for ModuloCost {
    ghost kept = { kept_modulo };

    ghost Serves = { IsModest };

    ghost CanTell = { λ zero one. Unit {0} };

    ghost told = { reliability_modulo };

    fn find<T: Trellis>(stage: &Stage<T>, front: &[u32], back: &[u32], room: &mut Room<u32>) {
        marginals::<T, ModuloCost>(stage, front, back, room);
    }

    fn reliability(zero: u32, one: u32) -> Option<i32> {
        reliability_of(zero, one).map(i32::from)
    }

    ghost tells = { modulo_tells };
}
