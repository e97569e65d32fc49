//! The work table of a pass, as each way leaves it.

ghost use Rattle.std.specs.Prelude.{◌≡◌, ℕ, ◌+◌, ◌*◌, ◌<◌, ◌≤◌, length, slice_index};
ghost use Rattle.modulo.specs.Spread.{IsModest};
ghost use Rattle.passes.specs.Tables.{columns_size, Stages, Forward, Backward};
ghost use Rattle.passes.specs.Levels.{levels_room};
ghost use Rattle.ways.specs.WorkTables.{work_entry, work_table};

use super::names::Way;
use modulo::ModuloCost;
use passes::{backward, forward, lay_stages, levels, place_of};
use paths::{LeastCost, Trellis, Weights};

// Lays the metastages of the stages behind the room of the columns, then both columns. Answers where the metastages begin.
fn sweep<T: Trellis, W: Weights>(t: &T, table: &mut [W::Value]) -> usize
    requires { columns_size T.states (T.meaning t.now).stages + columns_size T.states (T.meaning t.now).stages + levels_room T.states (T.meaning t.now).stages ≤ length table.old }
    ensures base { result ≡ columns_size T.states (T.meaning t.now).stages + columns_size T.states (T.meaning t.now).stages }
    ensures stages { Stages W.ops T.states (T.meaning t.now) result table.new }
    ensures forth { Forward W.ops T.states (T.meaning t.now) table.new }
    ensures back { Backward W.ops T.states (T.meaning t.now) table.new }
{
    let states = T::state_count();
    let base = 2 * (t.stages() * states + states);
    lay_stages::<T, W>(t, table, base);
    forward::<T, W>(t, table, base);
    backward::<T, W>(t, table, base);
    base
}

// Clears every entry from `from` on.
fn zero_from(table: &mut [u32], from: usize)
    requires { from ≤ length table.old }
    ensures kept { (p : ℕ) → p < from → slice_index table.new p ≡ slice_index table.old p }
    ensures zero { (p : ℕ) → from ≤ p → p < length table.new → slice_index table.new p ≡ 0 }
{
    table[from..].fill(0);
}

/// Works a pass in the way that is named, and leaves its columns and metastages in the table; whatever else stood there is cleared.
pub fn work<T: Trellis>(way: Way, t: &T, table: &mut [u32])
    requires room { columns_size T.states (T.meaning t.now).stages + columns_size T.states (T.meaning t.now).stages + levels_room T.states (T.meaning t.now).stages ≤ length table.old }
    requires served { way ≡ Way.Modular → IsModest T.reach T.ceiling }
    ensures table { (p : ℕ) → p < length table.new → slice_index table.new p ≡ work_entry way T.states (T.meaning t.now) p }
    ensures whole { table.new ≡ work_table way T.states (T.meaning t.now) (length table.old) }
{
    // A way comes as a value, and becomes a type parameter at this one match; a closure or a `dyn` for each way would be chosen by the same match.
    let used = match way {
        Way::Columns => sweep::<T, LeastCost>(t, table),
        Way::Metastages => {
            let base = sweep::<T, LeastCost>(t, table);
            let level = levels::<T, LeastCost>(t, table, base);
            place_of(base, T::state_count(), t.stages(), level, 1)
        }
        Way::Modular => sweep::<T, ModuloCost>(t, table),
    };
    zero_from(table, used);
}
