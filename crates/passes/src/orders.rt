//! Any grouping of neighbouring stages: made one at the boundaries between them, in any order.

ghost use Rattle.std.specs.Prelude.{◌≡◌, ℕ, ◌+◌, ◌-◌, ◌*◌, ◌<◌, ◌≤◌, ◌≢◌, length, if◌then◌else◌, Some, None, slice_index_or};
ghost use Rattle.paths.specs.Paths.{paths, across, path_join};
ghost use Rattle.passes.specs.Tables.{Outside, stage_at, Spare, dotted};
ghost use Rattle.passes.specs.Orders.{complete_order, span_at, ends_at, begins_before, is_open, made_one, spans_after, ends_after, last_after};

use super::metastages::{copy, product};
use super::stages::lay_stages;
use super::totals::first_to_last;
use paths::{Semiring, Trellis, Weights};

/// What is remembered of a stage: where the block that begins with it ends, 0 where none begins (no block ends there),
/// and where the block that ends with it begins.
// `end` is a number and no `Option`: no block ends at 0, and an end is compared and counted with wherever it is read.
#[derive(Clone, Copy, PartialEq, Eq, Debug)]
pub struct Span {
    pub end: usize,
    pub begin: usize,
}

// Each stage is a block of its own.
fn single_blocks(spans: &mut [Span])
    ensures { (k : ℕ) → k < length spans.old → span_at spans.new k ≡ record { end = k + 1; begin = k } }
{
    for (k, span) in spans.iter_mut().enumerate() {
        *span = Span {
            end: k + 1,
            begin: k,
        };
    }
}

// Whether `j` is a boundary at which blocks still end and begin.
fn is_open(spans: &[Span], j: usize) -> bool
    ensures { result ≡ is_open (length spans.now) spans.now j }
{
    0 < j && j < spans.len() && 0 < spans[j].end
}

// Two metastages made one in the earlier's place, by way of a spare place.
fn replace<W: Weights>(
    table: &mut [W::Value],
    left: usize,
    right: usize,
    spare: usize,
    states: usize,
)
    requires { (left + states * states ≤ right) × (right + states * states ≤ spare) × (spare + states * states ≤ length table.old) }
    ensures kept { (p : ℕ) → p < spare → Outside left (states * states) p → slice_index_or table.new p W.ops.none ≡ slice_index_or table.old p W.ops.none }
    ensures made { (s t : ℕ) → s < states → t < states → slice_index_or table.new (left + (s * states + t)) W.ops.none ≡ dotted W.ops states table.old (left + s * states) (right + t) states }
    ensures spare { (s t : ℕ) → s < states → t < states → slice_index_or table.new (spare + (s * states + t)) W.ops.none ≡ dotted W.ops states table.old (left + s * states) (right + t) states }
    ensures rest { (p : ℕ) → spare + states * states ≤ p → slice_index_or table.new p W.ops.none ≡ slice_index_or table.old p W.ops.none }
{
    product::<W>(table, left, right, spare, states);
    copy::<W>(table, spare, left, states * states);
}

// Remembers that the blocks on both sides of boundary `j` are one.
fn close(spans: &mut [Span], j: usize)
    requires boundary { (0 < j) × (j < length spans.old) }
    requires sound { (begins_before spans.old j < length spans.old) × (0 < ends_at spans.old j) × (ends_at spans.old j ≤ length spans.old) }
    ensures { spans.new ≡ made_one spans.old j }
{
    let first = spans[j - 1].begin;
    let last = spans[j].end;
    spans[first].end = last;
    spans[last - 1].begin = first;
    spans[j].end = 0;
}

/// The join over all paths, by any grouping: makes one of the neighbours on both sides of each boundary, in the given order.
/// Answers None unless the order has each boundary once and nothing else. The table needs room for one metastage more than there are stages,
/// and there is a span for each stage.
pub fn by_order<T: Trellis, W: Semiring>(
    t: &T,
    order: &[usize],
    table: &mut [W::Value],
    spans: &mut [Span],
) -> Option<W::Value>
    requires table { (T.meaning t.now).stages * (T.states * T.states) + T.states * T.states ≤ length table.old }
    requires spans { (T.meaning t.now).stages ≤ length spans.old }
    ensures answer { result ≡ (if complete_order (T.meaning t.now).stages order.now then Some (path_join W.Weights.ops (paths T.states (T.meaning t.now))) else None) }
    ensures short { length order.now ≢ (T.meaning t.now).stages - 1 → (table.new ≡ table.old) × (spans.new ≡ spans.old) }
    ensures spans_front { length order.now ≡ (T.meaning t.now).stages - 1 → (k : ℕ) → k < (T.meaning t.now).stages → span_at spans.new k ≡ span_at (spans_after (T.meaning t.now).stages order.now) k }
    ensures table_front { length order.now ≡ (T.meaning t.now).stages - 1 → (k x y : ℕ) → k < (T.meaning t.now).stages → x < T.states → y < T.states → slice_index_or table.new (stage_at 0 T.states k x y) W.Weights.ops.none ≡ path_join W.Weights.ops (across (T.meaning t.now) k (ends_after (T.meaning t.now).stages order.now k) x y) }
    ensures table_spare { length order.now ≡ (T.meaning t.now).stages - 1 → Spare W.Weights.ops T.states (T.meaning t.now).stages (last_after (T.meaning t.now).stages order.now) table.old table.new }
    ensures table_rest { (p : ℕ) → (T.meaning t.now).stages * (T.states * T.states) + T.states * T.states ≤ p → slice_index_or table.new p W.Weights.ops.none ≡ slice_index_or table.old p W.Weights.ops.none }
    ensures spans_rest { (k : ℕ) → (T.meaning t.now).stages ≤ k → span_at spans.new k ≡ span_at spans.old k }
{
    let states = T::state_count();
    let square = states * states;
    let stages = t.stages();
    if order.len() != stages - 1 {
        return None;
    }
    let spans = &mut spans[..stages];
    lay_stages::<T, W>(t, table, 0);
    single_blocks(spans);
    for j in order {
        if !is_open(spans, *j) {
            return None;
        }
        let first = spans[*j - 1].begin;
        replace::<W>(table, first * square, *j * square, stages * square, states);
        close(spans, *j);
    }
    Some(first_to_last::<T, W>(t, &table[..square]))
}
