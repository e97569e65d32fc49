//! The outer trellis: the convolutional code of rate one half.

ghost use Rattle.std.specs.Prelude.{◌≡◌, ℕ, ◌+◌, ◌*◌, ◌<◌, ◌≤◌, length, slice_index};
ghost use Rattle.trellises.specs.Priors.{penalty};
ghost use Rattle.trellises.specs.Outer.{outer, first_coded, second_coded, outer_cost};
ghost use Rattle.trellises.specs.OuterLaws.{outer_lawful, outer_reaches};

use super::priors::penalty;
use paths::{Edge, Trellis};

/// `n` data bits, and a prior for each of their two coded bits.
#[derive(Drop)]
pub struct Outer<'a> {
    pub n: usize,
    pub priors: &'a [i16],
    ghost sizes: { (1 ≤ n) × (n ≤ 16384) },
    ghost there: { 2 * n ≤ length priors.now },
}

/// The two coded bits: the first taps the data bit and the one two before it, the second the one before it too.
fn coded(state: usize, u: usize) -> (usize, usize)
    requires { (state < 4) × (u < 2) }
    ensures first { result.0 ≡ first_coded state u }
    ensures second { result.1 ≡ second_coded state u }
{
    ((u + state / 2) % 2, (u + state % 2 + state / 2) % 2)
}

/// What a coded bit costs as zero and as one.
fn either(prior: i16) -> [u32; 2]
    ensures { (b : ℕ) → b < 2 → slice_index result b ≡ penalty prior b }
{
    [penalty(prior, 0), penalty(prior, 1)]
}

impl<'a> Outer<'a> {
    /// The trellis of these priors.
    pub fn new(n: usize, priors: &'a [i16]) -> Outer<'a>
        requires sizes { (1 ≤ n) × (n ≤ 16384) }
        requires there { 2 * n ≤ length priors.now }
        ensures numbers { result.n ≡ n }
        ensures tables { result.priors.now ≡ priors.now }
        ensures means { outer result.n result.priors.now ≡ outer n priors.now }
    {
        Outer { n, priors }
    }

    // That `k` is below `n` is asked here as in the inner trellis.
    /// What the two coded bits of data bit `k` cost by their priors.
    fn cost(&self, k: usize, state: usize, u: usize) -> u32
        requires { (k < self.now.n) × ((state < 4) × (u < 2)) }
        ensures { result ≡ outer_cost self.now.priors.now k state u }
    {
        let (first, second) = coded(state, u);
        penalty(self.priors[2 * k], first) + penalty(self.priors[2 * k + 1], second)
    }
}

impl<'a> Trellis for Outer<'a> {
    const STATES: usize = 4;

    const CEILING: u32 = 1022;

    const REACH: usize = 2;

    ghost states = { 4 };

    ghost ceiling = { 1022 };

    ghost reach = { 2 };

    ghost bits = { λ _. 3 };

    ghost meaning = { λ t. outer t.n t.priors.now };

    ghost lawful = { λ t. outer_lawful t.n t.priors.now t.sizes };

    ghost reaches = { λ t. outer_reaches t.n t.priors.now };

    fn state_count() -> usize
        ensures { result ≡ 4 }
    {
        Self::STATES
    }

    fn cost_ceiling() -> u32
        ensures { result ≡ 1022 }
    {
        Self::CEILING
    }

    fn stage_reach() -> usize
        ensures { result ≡ 2 }
    {
        Self::REACH
    }

    fn bits(&self) -> usize {
        3
    }

    fn stages(&self) -> usize {
        self.n
    }

    fn first(&self, s: usize) -> bool {
        s == 0
    }

    fn last(&self, s: usize) -> bool {
        s == 0
    }

    fn edge_count(&self, k: usize) -> Option<usize> {
        (k < self.n).then_some(8)
    }

    fn edge(&self, k: usize, i: usize) -> Option<Edge> {
        if k >= self.n || i >= 8 {
            return None;
        }
        let state = i / 2;
        let u = i % 2;
        let (first, second) = coded(state, u);
        let word = first + 2 * second + 4 * u;
        Some(Edge {
            from: state,
            to: u + 2 * (state % 2),
            word: word as u8,
            cost: self.cost(k, state, u),
        })
    }

    #[tactic(auto, using(crate::specs::Bounds::penalty_low))]
    fn costs(&self, k: usize, out: &mut [u32; 512]) {
        if k < self.n {
            // Not `self.cost` for each edge: asking each prior once is a fifth faster.
            let first = either(self.priors[2 * k]);
            let second = either(self.priors[2 * k + 1]);
            for (i, cost) in out[..8].iter_mut().enumerate() {
                let (a, b) = coded(i / 2, i % 2);
                *cost = first[a] + second[b];
            }
        }
    }
}
