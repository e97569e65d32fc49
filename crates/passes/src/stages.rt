//! The metastage of each stage: its parallel edges joined first, which decoders call super-gammas.

ghost use Rattle.std.specs.Prelude.{◌≡◌, ℕ, ◌+◌, ◌*◌, ◌<◌, ◌≤◌, length, slice_index_or, slice_set};
ghost use Rattle.paths.specs.Columns.{parallel};
ghost use Rattle.passes.specs.Tables.{Kept, Stages};

use paths::{Stage, Trellis, Weights};

// Joins the value of a cost to an entry: one of several parallel edges.
fn relax<W: Weights>(entry: &mut W::Value, cost: u32)
    ensures { entry.new ≡ W.ops.join entry.old (W.ops.value cost) }
{
    *entry = W::join(*entry, W::value(cost));
}

// The metastage of a stage: the costs are asked at once, then each edge for its two states.
fn lay_stage<T: Trellis, W: Weights>(
    stage: &Stage<T>,
    costs: &mut [u32; 512],
    metastage: &mut [W::Value],
)
    requires { length metastage.old ≡ T.states * T.states }
    ensures { (x y : ℕ) → x < T.states → y < T.states → slice_index_or metastage.new (x * T.states + y) W.ops.none ≡ parallel W.ops ((T.meaning stage.now.trellis.now).edges stage.now.number) x y }
{
    let states = T::state_count();
    metastage.fill_with(|| W::none());
    stage.costs(costs);
    for (i, cost) in costs[..stage.edge_count()].iter().enumerate() {
        let e = stage.edge(i);
        relax::<W>(&mut metastage[e.from * states + e.to], *cost);
    }
}

/// Lays the metastage of every stage, one after another from `base` on: entry x, y joins the parallel edges from x to y.
pub fn lay_stages<T: Trellis, W: Weights>(t: &T, table: &mut [W::Value], base: usize)
    requires { base + (T.meaning t.now).stages * (T.states * T.states) ≤ length table.old }
    ensures kept { Kept W.ops base ((T.meaning t.now).stages * (T.states * T.states)) table.old table.new }
    ensures made { Stages W.ops T.states (T.meaning t.now) base table.new }
{
    let states = T::state_count();
    let square = states * states;
    let mut costs = [0; 512];
    // By `chunks_exact_mut(square).enumerate()` the proof did not close: that it gives a chunk for each stage and no more, and what the chunks hold in the end.
    for k in 0..t.stages() {
        let place = base + k * square;
        lay_stage::<T, W>(
            &Stage::new(t, k),
            &mut costs,
            &mut table[place..place + square],
        );
    }
}
