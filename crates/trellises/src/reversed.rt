//! A trellis read from its end.

ghost use Rattle.std.specs.Prelude.{◌≡◌, ◌+◌, ◌≤◌, ◌↔◌, IsNone, IfSome};
ghost use Rattle.paths.specs.Trellises.{reversed};
ghost use Rattle.paths.proofs.Reverses.{reversed_lawful, reversed_reaches};

use paths::{Edge, Trellis};

/// The trellis with its stages backwards, and from and to, first and last exchanged.
#[derive(Drop)]
pub struct Reversed<'a, T> {
    pub inner: &'a T,
}

impl<'a, T: Trellis> Reversed<'a, T> {
    /// The stage of the trellis that is read backwards which is stage `k` here.
    fn mirrored(&self, k: usize) -> Option<usize>
        ensures beyond { IsNone result ↔ ((T.Trellis.meaning self.now.inner.now).stages ≤ k) }
        ensures mirrored { IfSome result (λ j. j + 1 + k ≡ (T.Trellis.meaning self.now.inner.now).stages) }
    {
        let n = self.inner.stages();
        (k < n).then(|| n - 1 - k)
    }
}

impl<'a, T: Trellis> Trellis for Reversed<'a, T> {
    const STATES: usize = T::STATES;

    const CEILING: u32 = T::CEILING;

    const REACH: usize = T::REACH;

    ghost states = { T.Trellis.states };

    ghost ceiling = { T.Trellis.ceiling };

    ghost reach = { T.Trellis.reach };

    ghost bits = { λ r. T.Trellis.bits r.inner.now };

    ghost meaning = { λ r. reversed (T.Trellis.meaning r.inner.now) };

    ghost lawful = { λ r. reversed_lawful (T.Trellis.lawful r.inner.now) };

    ghost reaches = { λ r. reversed_reaches T.Trellis.states T.Trellis.reach (T.Trellis.meaning r.inner.now) (T.Trellis.reaches r.inner.now) };

    fn state_count() -> usize
        ensures { result ≡ T.Trellis.states }
    {
        T::state_count()
    }

    fn cost_ceiling() -> u32
        ensures { result ≡ T.Trellis.ceiling }
    {
        T::cost_ceiling()
    }

    fn stage_reach() -> usize
        ensures { result ≡ T.Trellis.reach }
    {
        T::stage_reach()
    }

    fn bits(&self) -> usize {
        self.inner.bits()
    }

    fn stages(&self) -> usize {
        self.inner.stages()
    }

    fn first(&self, s: usize) -> bool {
        self.inner.last(s)
    }

    fn last(&self, s: usize) -> bool {
        self.inner.first(s)
    }

    fn edge_count(&self, k: usize) -> Option<usize> {
        self.inner.edge_count(self.mirrored(k)?)
    }

    fn edge(&self, k: usize, i: usize) -> Option<Edge> {
        let e = self.inner.edge(self.mirrored(k)?, i)?;
        Some(Edge {
            from: e.to,
            to: e.from,
            ..e
        })
    }

    fn costs(&self, k: usize, out: &mut [u32; 512]) {
        if let Some(mirrored) = self.mirrored(k) {
            self.inner.costs(mirrored, out);
        }
    }
}
