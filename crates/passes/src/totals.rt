//! The join over all paths, three ways: by the last forward column, by the last metastage, and by two columns in turn.

ghost use Rattle.std.specs.Prelude.{◌≡◌, ℕ, ◌+◌, ◌-◌, ◌*◌, ◌%◌, ◌<◌, ◌≤◌, ◌⊎◌, length, slice_index_or, slice_set};
ghost use Rattle.paths.specs.Paths.{paths, path_join};
ghost use Rattle.paths.specs.Columns.{forward};
ghost use Rattle.paths.specs.Metastages.{level_size};
ghost use Rattle.passes.specs.Tables.{Kept, columns_size, Forward};
ghost use Rattle.passes.specs.Levels.{Levels, levels_room};
ghost use Rattle.passes.specs.Totals.{in_last, from_first, by_edges};

use super::columns::border;
use super::metastages::place_of;
use paths::{Semiring, Stage, Trellis, Weights};
use std::mem;

// The join of a column's entries in last states.
fn last_states<T: Trellis, W: Weights>(t: &T, column: &[W::Value]) -> W::Value
    requires { length column.now ≡ T.states }
    ensures { result ≡ in_last W.ops T.states (T.meaning t.now) column.now }
{
    let mut sum = W::none();
    for (s, x) in column.iter().enumerate() {
        let x = if t.last(s) { *x } else { W::none() };
        sum = W::join(sum, x);
    }
    sum
}

// The join of a metastage's entries from first to last states.
pub(crate) fn first_to_last<T: Trellis, W: Weights>(t: &T, metastage: &[W::Value]) -> W::Value
    requires { length metastage.now ≡ T.states * T.states }
    ensures { result ≡ from_first W.ops T.states (T.meaning t.now) metastage.now }
{
    let states = T::state_count();
    let mut sum = W::none();
    // By `chunks_exact(states).enumerate()` the proof did not close: that the iterator counts no further than its rows was not found.
    for s in 0..states {
        let x = if t.first(s) {
            last_states::<T, W>(t, &metastage[s * states..(s + 1) * states])
        } else {
            W::none()
        };
        sum = W::join(sum, x);
    }
    sum
}

/// The join over all paths, from the forward columns: their last one, in last states.
pub fn by_columns<T: Trellis, W: Semiring>(t: &T, table: &[W::Value]) -> W::Value
    requires room { columns_size T.states (T.meaning t.now).stages ≤ length table.now }
    requires made { Forward W.Weights.ops T.states (T.meaning t.now) table.now }
    ensures { result ≡ path_join W.Weights.ops (paths T.states (T.meaning t.now)) }
{
    let states = T::state_count();
    let last = t.stages() * states;
    last_states::<T, W>(t, &table[last..last + states])
}

/// The join over all paths, from the levels of metastages: the one of the last level, from first to last states.
pub fn by_levels<T: Trellis, W: Semiring>(
    t: &T,
    table: &[W::Value],
    base: usize,
    level: usize,
) -> W::Value
    requires room { base + levels_room T.states (T.meaning t.now).stages ≤ length table.now }
    requires few { level ≤ 14 }
    requires one { level_size (T.meaning t.now).stages level ≡ 1 }
    requires made { Levels W.Weights.ops T.states (T.meaning t.now) base level table.now }
    ensures { result ≡ path_join W.Weights.ops (paths T.states (T.meaning t.now)) }
{
    let states = T::state_count();
    let place = place_of(base, states, t.stages(), level, 0);
    first_to_last::<T, W>(t, &table[place..place + states * states])
}

// The column behind a stage from that before it, edge by edge.
fn carry_stage<T: Trellis, W: Weights>(
    stage: &Stage<T>,
    before: &[W::Value],
    after: &mut [W::Value],
)
    requires { (length before.now ≡ T.states) × (length after.old ≡ T.states) }
    ensures { (s : ℕ) → s < T.states → slice_index_or after.new s W.ops.none ≡ by_edges W.ops before.now ((T.meaning stage.now.trellis.now).edges stage.now.number) s }
{
    after.fill_with(|| W::none());
    // By number: the edges are asked of the trellis, and no slice holds them.
    for i in 0..stage.edge_count() {
        let e = stage.edge(i);
        let more = W::chain(before[e.from], W::value(e.cost));
        after[e.to] = W::join(after[e.to], more);
    }
}

/// The join over all paths, by two columns in turn: no table of the block, each edge asked once.
pub fn total<T: Trellis, W: Semiring>(t: &T, columns: &mut [W::Value]) -> W::Value
    requires { T.states + T.states ≤ length columns.old }
    ensures joined { result ≡ path_join W.Weights.ops (paths T.states (T.meaning t.now)) }
    ensures last { (s : ℕ) → s < T.states → slice_index_or columns.new ((T.meaning t.now).stages % 2 * T.states + s) W.Weights.ops.none ≡ forward W.Weights.ops T.states (T.meaning t.now) (T.meaning t.now).stages s }
    ensures before { (s : ℕ) → s < T.states → slice_index_or columns.new (((T.meaning t.now).stages + 1) % 2 * T.states + s) W.Weights.ops.none ≡ forward W.Weights.ops T.states (T.meaning t.now) ((T.meaning t.now).stages - 1) s }
    ensures rest { (p : ℕ) → T.states + T.states ≤ p → slice_index_or columns.new p W.Weights.ops.none ≡ slice_index_or columns.old p W.Weights.ops.none }
{
    let states = T::state_count();
    border::<W, _>(&mut columns[..states], |s| t.first(s));
    // Where the columns before and behind a stage begin.
    let (mut before, mut after) = (0, states);
    // By number: the stages are asked of the trellis, and no slice holds them.
    for k in 0..t.stages() {
        let stage = Stage::new(t, k);
        let (left, right) = columns.split_at_mut(states);
        if before < after {
            carry_stage::<T, W>(&stage, left, &mut right[..states]);
        } else {
            carry_stage::<T, W>(&stage, &right[..states], left);
        }
        mem::swap(&mut before, &mut after);
    }
    last_states::<T, W>(t, &columns[before..before + states])
}
