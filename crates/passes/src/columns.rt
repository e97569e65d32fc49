//! Forward and backward columns, from the metastages of the stages.

ghost use Rattle.std.specs.Prelude.{◌≡◌, ℕ, ◌+◌, ◌*◌, ◌<◌, ◌≤◌, ◌⊎◌, Bool, length, if◌then◌else◌, slice_index_or};
ghost use Rattle.passes.specs.Tables.{Outside, Kept, columns_size, Stages, Forward, Backward, dotted};

use paths::{Trellis, Weights};

// One entry: over every state, a column's entry chained with a metastage's.
pub(crate) fn dot<W: Weights>(
    table: &[W::Value],
    from: usize,
    meta: usize,
    row: usize,
    states: usize,
) -> W::Value
    requires column { from + states ≤ length table.now }
    requires entries { (x : ℕ) → x < states → meta + x * row < length table.now }
    ensures { result ≡ dotted W.ops states table.now from meta row }
{
    let mut sum = W::none();
    // By `table[meta..].iter().step_by(row)` a row of 0 would have to be ruled out, which no caller has to.
    for (x, left) in table[from..from + states].iter().enumerate() {
        sum = W::join(sum, W::chain(*left, table[meta + x * row]));
    }
    sum
}

// Where a metastage lies, and how far apart its rows and its columns: exchanged, these read it as the reversal does.
#[derive(Clone, Copy)]
pub(crate) struct Metastage {
    pub(crate) place: usize,
    pub(crate) row: usize,
    pub(crate) col: usize,
}

// A whole column, from its neighbour and the metastage between them.
// The number of states is passed: asked of a trellis it would be a further type parameter here and in each caller, for no other answer of it.
pub(crate) fn column<W: Weights>(
    table: &mut [W::Value],
    from: usize,
    metastage: Metastage,
    to: usize,
    states: usize,
)
    requires room { (from + states ≤ length table.old) × (to + states ≤ length table.old) × ((from + states ≤ to) ⊎ (to + states ≤ from)) }
    requires entries { (x y : ℕ) → x < states → y < states → (metastage.place + y * metastage.col + x * metastage.row < length table.old) × Outside to states (metastage.place + y * metastage.col + x * metastage.row) }
    ensures kept { Kept W.ops to states table.old table.new }
    ensures made { (y : ℕ) → y < states → slice_index_or table.new (to + y) W.ops.none ≡ dotted W.ops states table.old from (metastage.place + y * metastage.col) metastage.row }
{
    // By index: each entry is made of others of the same table.
    for y in 0..states {
        let meta = metastage.place + y * metastage.col;
        table[to + y] = dot::<W>(table, from, meta, metastage.row, states);
    }
}

// The column before the first stage or behind the last: unit where a path may begin, or end.
pub(crate) fn border<W: Weights, F: Fn(usize) -> bool>(column: &mut [W::Value], may: F)
    requires { F.IsAlwaysCallable may }
    ensures { (s : ℕ) → s < length column.old → (b : Bool) × F.post may s b × (slice_index_or column.new s W.ops.none ≡ (if b then W.ops.unit else W.ops.none)) }
{
    for (s, x) in column.iter_mut().enumerate() {
        *x = if may(s) { W::unit() } else { W::none() };
    }
}

// The trellis, the table and the base of its metastages stay three parameters, here and in `backward`, `levels` and `by_levels`: a struct
// that holds the lent table, with the fact that the metastages stand, would be made anew after each call, as each adds a fact to it.
/// Lays the forward columns: entry s of column k joins what leads through the first `k` stages to s.
pub fn forward<T: Trellis, W: Weights>(t: &T, table: &mut [W::Value], base: usize)
    requires room { (columns_size T.states (T.meaning t.now).stages ≤ base) × (base + (T.meaning t.now).stages * (T.states * T.states) ≤ length table.old) }
    requires stages { Stages W.ops T.states (T.meaning t.now) base table.old }
    ensures kept { Kept W.ops 0 (columns_size T.states (T.meaning t.now).stages) table.old table.new }
    ensures made { Forward W.ops T.states (T.meaning t.now) table.new }
{
    let states = T::state_count();
    let square = states * states;
    border::<W, _>(&mut table[..states], |s| t.first(s));
    // By index: each column is made of the one before it, in the same table.
    for k in 0..t.stages() {
        let from = k * states;
        let metastage = Metastage {
            place: base + k * square,
            row: states,
            col: 1,
        };
        column::<W>(table, from, metastage, from + states, states);
    }
}

/// Lays the backward columns behind the forward columns: entry s of column k joins what leads from s through the stages from `k` on.
/// The same step as forward, with the metastage's rows and columns exchanged: the forward columns of the reversal.
pub fn backward<T: Trellis, W: Weights>(t: &T, table: &mut [W::Value], base: usize)
    requires room { (columns_size T.states (T.meaning t.now).stages + columns_size T.states (T.meaning t.now).stages ≤ base) × (base + (T.meaning t.now).stages * (T.states * T.states) ≤ length table.old) }
    requires stages { Stages W.ops T.states (T.meaning t.now) base table.old }
    ensures kept { Kept W.ops (columns_size T.states (T.meaning t.now).stages) (columns_size T.states (T.meaning t.now).stages) table.old table.new }
    ensures made { Backward W.ops T.states (T.meaning t.now) table.new }
{
    let states = T::state_count();
    let square = states * states;
    let stages = t.stages();
    let front = stages * states + states;
    let last = front + stages * states;
    border::<W, _>(&mut table[last..last + states], |s| t.last(s));
    // By index: each column is made of the one behind it, in the same table.
    for k in (0..stages).rev() {
        let to = front + k * states;
        let metastage = Metastage {
            place: base + k * square,
            row: 1,
            col: states,
        };
        column::<W>(table, to + states, metastage, to, states);
    }
}
