//! Levels of metastages: trellis stages combined in pairs, level after level, until one metastage is left.

ghost use Rattle.std.specs.Prelude.{◌≡◌, ℕ, ◌+◌, ◌-◌, ◌*◌, ◌/◌, ◌%◌, ◌^◌, ◌<◌, ◌≤◌, ◌⊎◌, length, slice_index_or};
ghost use Rattle.paths.specs.Metastages.{level_size, metastage_at};
ghost use Rattle.passes.specs.Tables.{Beside, Kept, Stages, dotted};
ghost use Rattle.passes.specs.Levels.{Levels, levels_room};

use super::columns::{Metastage, column};
use paths::{Semiring, Trellis, Weights};

// The same numbers in another place.
pub(crate) fn copy<W: Weights>(table: &mut [W::Value], from: usize, to: usize, many: usize)
    requires room { (from + many ≤ length table.old) × (to + many ≤ length table.old) }
    requires apart { (from + many ≤ to) ⊎ (to + many ≤ from) }
    ensures kept { Kept W.ops to many table.old table.new }
    ensures same { (i : ℕ) → i < many → slice_index_or table.new (to + i) W.ops.none ≡ slice_index_or table.old (from + i) W.ops.none }
{
    table.copy_within(from..from + many, to);
}

// Two neighbouring metastages made one, row by row as columns are made.
pub(crate) fn product<W: Weights>(
    table: &mut [W::Value],
    left: usize,
    right: usize,
    to: usize,
    states: usize,
)
    requires room { (left + states * states ≤ length table.old) × (right + states * states ≤ length table.old) × (to + states * states ≤ length table.old) }
    requires apart { ((left + states * states ≤ to) ⊎ (to + states * states ≤ left)) × ((right + states * states ≤ to) ⊎ (to + states * states ≤ right)) }
    ensures kept { Kept W.ops to (states * states) table.old table.new }
    ensures made { (s t : ℕ) → s < states → t < states → slice_index_or table.new (to + (s * states + t)) W.ops.none ≡ dotted W.ops states table.old (left + s * states) (right + t) states }
{
    let metastage = Metastage {
        place: right,
        row: states,
        col: 1,
    };
    // By index: each row is made of two parts of the same table.
    for s in 0..states {
        column::<W>(table, left + s * states, metastage, to + s * states, states);
    }
}

// The number of states and where parts begin are passed as at `column`.
// A level's neighbours in pairs, a last odd one stored again unchanged.
fn pairs<W: Weights>(table: &mut [W::Value], from: usize, to: usize, many: usize, states: usize)
    requires few { states ≤ 16 }
    requires room { to + (many + 1) / 2 * (states * states) ≤ length table.old }
    requires apart { from + many * (states * states) ≤ to }
    ensures kept { Kept W.ops to ((many + 1) / 2 * (states * states)) table.old table.new }
    ensures made { (j s t : ℕ) → j < many / 2 → s < states → t < states → slice_index_or table.new (to + j * (states * states) + (s * states + t)) W.ops.none ≡ dotted W.ops states table.old (from + 2 * j * (states * states) + s * states) (from + 2 * j * (states * states) + states * states + t) states }
    ensures odd { many % 2 ≡ 1 → (i : ℕ) → i < states * states → slice_index_or table.new (to + many / 2 * (states * states) + i) W.ops.none ≡ slice_index_or table.old (from + (many - 1) * (states * states) + i) W.ops.none }
{
    let square = states * states;
    // By index: each product is made of two neighbours in the same table.
    for j in 0..many / 2 {
        let left = from + 2 * j * square;
        product::<W>(table, left, left + square, to + j * square, states);
    }
    if many % 2 == 1 {
        copy::<W>(
            table,
            from + (many - 1) * square,
            to + many / 2 * square,
            square,
        );
    }
}

/// Lays level after level behind the metastages of the stages, until one is left. Answers the level of that one, the first with one.
pub fn levels<T: Trellis, W: Semiring>(t: &T, table: &mut [W::Value], base: usize) -> usize
    requires room { base + levels_room T.states (T.meaning t.now).stages ≤ length table.old }
    requires stages { Stages W.Weights.ops T.states (T.meaning t.now) base table.old }
    ensures kept { (p : ℕ) → Beside (base + (T.meaning t.now).stages * (T.states * T.states)) (metastage_at base T.states (T.meaning t.now).stages (result + 1) 0) p → slice_index_or table.new p W.Weights.ops.none ≡ slice_index_or table.old p W.Weights.ops.none }
    ensures few { result ≤ 14 }
    ensures one { level_size (T.meaning t.now).stages result ≡ 1 }
    ensures first { (l : ℕ) → l < result → 1 < level_size (T.meaning t.now).stages l }
    ensures made { Levels W.Weights.ops T.states (T.meaning t.now) base result table.new }
{
    let states = T::state_count();
    let square = states * states;
    let mut level = 0;
    let mut many = t.stages();
    let mut from = base;
    // No range says how many levels there are: each has half as many metastages as the one before.
    while many > 1 {
        let to = from + many * square;
        pairs::<W>(table, from, to, many, states);
        from = to;
        many = (many + 1) / 2;
        level += 1;
    }
    level
}

/// Where metastage `j` of a level lies.
pub fn place_of(base: usize, states: usize, stages: usize, level: usize, j: usize) -> usize
    requires few { (states ≤ 16) × (stages ≤ 16384) × (level ≤ 14) × (j ≤ 16384) }
    requires fits { metastage_at base states stages level j < 2 ^ 64 }
    ensures { result ≡ metastage_at base states stages level j }
{
    let mut begin = 0;
    let mut many = stages;
    for _ in 0..level {
        begin += many;
        many = (many + 1) / 2;
    }
    base + (begin + j) * (states * states)
}
