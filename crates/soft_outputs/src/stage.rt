//! The reliabilities of one stage, from the work table of any way.

ghost use Rattle.std.specs.Prelude.{◌≡◌, ℕ, suc, ◌+◌, ◌*◌, ◌<◌, ◌≤◌, length, None, slice_index, slice_index_or};
ghost use Rattle.paths.specs.Paths.{path_join, paths_with, before, after};
ghost use Rattle.paths.specs.Least.{least};
ghost use Rattle.modulo.specs.Modulo.{reliability};
ghost use Rattle.modulo.specs.Spread.{IsModest};
ghost use Rattle.passes.specs.Tables.{columns_size};
ghost use Rattle.ways.specs.declared.names.Way.{Way};
ghost use Rattle.ways.specs.declared.names.Way.TheVariants.{Modular};
ghost use Rattle.ways.specs.Ways.{ops_as, kept_as};
ghost use Rattle.ways.specs.WorkTables.{work_entry};
ghost use Rattle.marginals.specs.Rooms.{Leaves};
ghost use Rattle.marginals.specs.Words.{neither};

use marginals::Room;
use modulo::ModuloCost;
use paths::{LeastCost, Stage, Trellis};
use reliabilities::stage_bits;
use ways::Way;

/// The reliability of every bit of a stage, from the columns that `ways::work` left in the table: the same numbers in every
/// way, the least cost over all paths with the bit 0 less that with the bit 1, or none where the bit is forced.
pub fn stage_reliabilities<T: Trellis>(
    way: Way,
    stage: &Stage<T>,
    table: &[u32],
    room: &mut Room<u32>,
    out: &mut [Option<i32>; 8],
)
    requires long { columns_size T.states (T.meaning stage.now.trellis.now).stages + columns_size T.states (T.meaning stage.now.trellis.now).stages ≤ length table.now }
    requires worked { (p : ℕ) → p < columns_size T.states (T.meaning stage.now.trellis.now).stages + columns_size T.states (T.meaning stage.now.trellis.now).stages → slice_index table.now p ≡ work_entry way T.states (T.meaning stage.now.trellis.now) p }
    requires cheap { T.ceiling < 131072 }
    requires served { way ≡ Modular → IsModest T.reach T.ceiling }
    ensures told { (b : ℕ) → b < T.bits stage.now.trellis.now → slice_index_or out.new b None ≡ reliability (path_join least (paths_with T.states (T.meaning stage.now.trellis.now) stage.now.number b 0)) (path_join least (paths_with T.states (T.meaning stage.now.trellis.now) stage.now.number b 1)) }
    ensures rest { (b : ℕ) → T.bits stage.now.trellis.now ≤ b → slice_index_or out.new b None ≡ slice_index_or out.old b None }
    ensures found { (b : ℕ) → b < T.bits stage.now.trellis.now → slice_index_or room.new.bits b (neither (ops_as way)) ≡ record { zero = kept_as way (path_join least (paths_with T.states (T.meaning stage.now.trellis.now) stage.now.number b 0)); one = kept_as way (path_join least (paths_with T.states (T.meaning stage.now.trellis.now) stage.now.number b 1)) } }
    ensures room { Leaves (ops_as way) T.states (T.bits stage.now.trellis.now) ((T.meaning stage.now.trellis.now).edges stage.now.number) (λ s. kept_as way (path_join least (before T.states (T.meaning stage.now.trellis.now) stage.now.number s))) (λ s. kept_as way (path_join least (after (T.meaning stage.now.trellis.now) (suc stage.now.number) s))) room.old room.new }
{
    let states = T::state_count();
    let at = stage.number * states;
    let behind = stage.trellis.stages() * states + states + at + states;
    let front = &table[at..at + states];
    let back = &table[behind..behind + states];
    // A way comes as a value, and becomes a type parameter at this one match; a closure or a `dyn` for each way would be chosen by the same match.
    match way {
        Way::Columns | Way::Metastages => stage_bits::<T, LeastCost>(stage, front, back, room, out),
        Way::Modular => stage_bits::<T, ModuloCost>(stage, front, back, room, out),
    }
}
