//! What every trellis answers.

ghost use Rattle.std.specs.Prelude.{◌≡◌, ℕ, ◌<◌, ◌≤◌, Some, length, slice_index};
ghost use Rattle.paths.specs.declared.edges.Edge.{Edge};
ghost use Rattle.paths.specs.Trellises.{Meaning, count_at, edge_at, Lawful, Reaches};

use super::edges::Edge;

/// A trellis: stages of edges between its states, from first states to last states.
pub trait Trellis {
    /// How many states it has.
    const STATES: usize;
    /// The highest cost of an edge.
    const CEILING: u32;
    /// In how many stages every state is reached from every state, or 0.
    const REACH: usize;

    ghost states: { ℕ };

    ghost ceiling: { ℕ };

    ghost reach: { ℕ };

    ghost bits: { Self → ℕ };

    ghost meaning: { Self → Meaning };

    ghost lawful: { (t : Self) → Lawful states ceiling (bits t) (meaning t) };

    ghost reaches: { (t : Self) → Reaches states reach (meaning t) };

    // A clause can name a constant by a ghost member of its name, but the check does not tie the two in an impl with a
    // lifetime, as those of the trellises over lent tables are: so each constant has a function, with a ghost number.
    /// How many states it has: `STATES`.
    fn state_count() -> usize
        ensures { result ≡ states };

    /// The highest cost of an edge: `CEILING`.
    fn cost_ceiling() -> u32
        ensures { result ≡ ceiling };

    /// In how many stages every state is reached from every state, or 0: `REACH`.
    fn stage_reach() -> usize
        ensures { result ≡ reach };

    /// How many bits the word of an edge has.
    fn bits(&self) -> usize
        ensures { result ≡ bits self.now };

    fn stages(&self) -> usize
        ensures { result ≡ (meaning self.now).stages };

    /// Whether a path may begin in `s`.
    fn first(&self, s: usize) -> bool
        ensures { result ≡ (meaning self.now).first s };

    /// Whether a path may end in `s`.
    fn last(&self, s: usize) -> bool
        ensures { result ≡ (meaning self.now).last s };

    fn edge_count(&self, k: usize) -> Option<usize>
        ensures { result ≡ count_at (meaning self.now) k };

    fn edge(&self, k: usize, i: usize) -> Option<Edge>
        ensures { result ≡ edge_at (meaning self.now) k i };

    // An array as long as the largest stage asks, here and wherever costs, words or the bits of a word are laid: a pass allocates nothing.
    /// Lays the cost of each edge of stage `k` at the edge's place; the rest stays, and beyond the last stage all.
    fn costs(&self, k: usize, out: &mut [u32; 512])
        ensures laid { (i : ℕ) (e : Edge) → edge_at (meaning self.now) k i ≡ Some e → slice_index out.new i ≡ e.cost }
        ensures rest { (i : ℕ) → k < (meaning self.now).stages → length ((meaning self.now).edges k) ≤ i → slice_index out.new i ≡ slice_index out.old i }
        ensures same { (meaning self.now).stages ≤ k → out.new ≡ out.old };
}
