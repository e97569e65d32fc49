//! One inner pass: what is sent on about every interleaved bit of a block.

#![tactic(auto)]

ghost use Rattle.std.specs.Prelude.{◌≡◌, ◌+◌, ◌*◌, ◌^◌, ◌≤◌, map, length, take, drop, pos, None, slice_index_or};
ghost use Rattle.std.specs.List.{range_with_len};
ghost use Rattle.modulo.specs.Priors.{told_of};
ghost use Rattle.trellises.specs.Inner.{inner};
ghost use Rattle.ways.specs.WorkTables.{work_table};
ghost use Rattle.inner_pass.specs.InnerPass.{inner_extrinsics};

use marginals::Room;
use modulo::told;
use paths::Stage;
use soft_outputs::stage_reliabilities;
use trellises::Inner;
use ways::{Way, work};

// What is sent on about the bits of a stage, by their reliabilities and their priors.
fn lay(bits: &[Option<i32>; 8], priors: &[i16], out: &mut [i16])
    requires few { length out.old ≤ 8 }
    requires beside { length priors.now ≡ length out.old }
    ensures { out.new ≡ map (λ b. told_of (slice_index_or bits.now b None) (slice_index_or priors.now b (pos 0))) (range_with_len 0 (length out.old)) }
{
    // By `zip` an invariant could not name what is written, as in `lay_row` of marginals.
    for (b, sent) in out.iter_mut().enumerate() {
        *sent = told(bits[b], priors[b]);
    }
}

/// Works the inner pass over a trellis in the way that is named, and lays what is sent on about every interleaved bit into the
/// front of `out`: the same numbers in every way. The work table is left in `table`.
pub fn inner_pass(way: Way, t: &Inner, table: &mut [u32], out: &mut [i16])
    requires room { (12 * t.now.n + 60 ≤ length table.old) × (t.now.n * t.now.m ≤ length out.old) }
    ensures front { take (t.now.n * t.now.m) out.new ≡ inner_extrinsics t.now.m t.now.n t.now.rows.now t.now.priors.now }
    ensures tail { drop (t.now.n * t.now.m) out.new ≡ drop (t.now.n * t.now.m) out.old }
    ensures table { table.new ≡ work_table way 2 (inner t.now.m t.now.n t.now.rows.now t.now.priors.now) (length table.old) }
{
    work(way, t, table);
    let mut room = Room::new(0);
    let mut bits = [None; 8];
    // By number: the stages are asked of the trellis. The outer pass has the same loop; of one function that calls a closure for each
    // stage a proof would know nothing of what the closure wrote.
    for k in 0..t.n {
        stage_reliabilities(way, &Stage::new(t, k), table, &mut room, &mut bits);
        let at = k * t.m;
        lay(&bits, &t.priors[at..at + t.m], &mut out[at..at + t.m]);
    }
}
