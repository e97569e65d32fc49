//! The edges of a stage gathered by their words.

ghost use Rattle.std.specs.Prelude.{◌≡◌, ℕ, ◌+◌, ◌*◌, ◌^◌, ◌<◌, ◌≤◌, length, Some, slice_index, slice_index_or};
ghost use Rattle.std.specs.List.{slice_get};
ghost use Rattle.paths.specs.declared.edges.Edge.{Edge};
ghost use Rattle.paths.specs.Joins.{Joins};
ghost use Rattle.marginals.specs.Words.{word_is, framed};

use paths::{Stage, Trellis, Weights};

// What an edge between two states offers at a cost.
fn offer<W: Weights>(
    frame: &[W::Value; 256],
    states: usize,
    from: usize,
    to: usize,
    cost: u32,
) -> W::Value
    requires { (states ≤ 16) × (from < states) × (to < states) }
    ensures { result ≡ W.ops.chain (slice_index_or frame.now (from * states + to) W.ops.none) (W.ops.value cost) }
{
    W::chain(frame[from * states + to], W::value(cost))
}

/// Asks the costs of a stage once and each edge once, and joins what the edge offers to its word.
pub(crate) fn gather<T: Trellis, W: Weights>(
    stage: &Stage<T>,
    frame: &[W::Value; 256],
    costs: &mut [u32; 512],
    words: &mut [W::Value; 256],
)
    requires clear { (w : ℕ) → w < 2 ^ T.bits stage.now.trellis.now → slice_index_or words.old w W.ops.none ≡ W.ops.none }
    ensures words { (w : ℕ) → w < 2 ^ T.bits stage.now.trellis.now → Joins W.ops (framed W.ops T.states frame.now ((T.meaning stage.now.trellis.now).edges stage.now.number)) (word_is ((T.meaning stage.now.trellis.now).edges stage.now.number) w) (slice_index_or words.new w W.ops.none) }
    ensures words_rest { (w : ℕ) → 2 ^ T.bits stage.now.trellis.now ≤ w → slice_index_or words.new w W.ops.none ≡ slice_index_or words.old w W.ops.none }
    ensures costs { (i : ℕ) (e : Edge) → slice_get ((T.meaning stage.now.trellis.now).edges stage.now.number) i ≡ Some e → slice_index costs.new i ≡ e.cost }
    ensures costs_rest { (i : ℕ) → length ((T.meaning stage.now.trellis.now).edges stage.now.number) ≤ i → slice_index costs.new i ≡ slice_index costs.old i }
{
    let states = T::state_count();
    stage.costs(costs);
    for (i, cost) in costs[..stage.edge_count()].iter().enumerate() {
        let e = stage.edge(i);
        let more = offer::<W>(frame, states, e.from, e.to, *cost);
        let w = usize::from(e.word);
        words[w] = W::join(words[w], more);
    }
}
