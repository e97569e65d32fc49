//! One stage of a trellis.

ghost use Rattle.std.specs.Prelude.{◌≡◌, ℕ, ◌^◌, ◌<◌, ◌≤◌, Some, length, slice_index};
ghost use Rattle.std.specs.List.{slice_get};
ghost use Rattle.paths.specs.declared.edges.Edge.{Edge};

use super::edges::Edge;
use super::trellis::Trellis;

/// A stage that a trellis has.
#[derive(Drop)]
pub struct Stage<'t, T: Trellis> {
    pub trellis: &'t T,
    pub number: usize,
    ghost inside: { number < (T.meaning trellis.now).stages },
}

impl<'t, T: Trellis> Stage<'t, T> {
    /// Stage `number` of a trellis.
    pub fn new(trellis: &'t T, number: usize) -> Stage<'t, T>
        requires { number < (T.meaning trellis.now).stages }
        ensures trellis { result.trellis.now ≡ trellis.now }
        ensures number { result.number ≡ number }
    {
        Stage { trellis, number }
    }

    /// How many edges it has.
    pub fn edge_count(&self) -> usize
        ensures value { result ≡ length ((T.meaning self.now.trellis.now).edges self.now.number) }
        ensures bound { result ≤ 512 }
    {
        self.trellis.edge_count(self.number).unwrap()
    }

    /// Its edge `i`, between states of the trellis and with a word of its bits.
    pub fn edge(&self, i: usize) -> Edge
        requires { i < length ((T.meaning self.now.trellis.now).edges self.now.number) }
        ensures value { slice_get ((T.meaning self.now.trellis.now).edges self.now.number) i ≡ Some result }
        ensures states { (result.from < T.states) × (result.to < T.states) }
        ensures word { result.word < 2 ^ T.bits self.now.trellis.now }
    {
        self.trellis.edge(self.number, i).unwrap()
    }

    /// Lays the cost of each edge at the edge's place; the rest stays.
    pub fn costs(&self, out: &mut [u32; 512])
        ensures laid { (i : ℕ) (e : Edge) → slice_get ((T.meaning self.now.trellis.now).edges self.now.number) i ≡ Some e → slice_index out.new i ≡ e.cost }
        ensures rest { (i : ℕ) → length ((T.meaning self.now.trellis.now).edges self.now.number) ≤ i → slice_index out.new i ≡ slice_index out.old i }
    {
        self.trellis.costs(self.number, out);
    }
}
