//! The outer pass.

ghost use Rattle.std.specs.Prelude.{◌≡◌, ℕ, ◌+◌, ◌*◌, ◌<◌, ◌≤◌, length, take, drop};
ghost use Rattle.trellises.specs.Outer.{outer};
ghost use Rattle.ways.specs.WorkTables.{work_table};
ghost use Rattle.outer_pass.specs.OuterPass.{outer_extrinsics, data_reliabilities, decisions};

use super::read::{decide, narrow};
use marginals::Room;
use modulo::told;
use paths::Stage;
use soft_outputs::stage_reliabilities;
use trellises::Outer;
use ways::{Way, work};

/// The outer pass over a trellis. Into the front of `out` it lays what is sent on about each coded bit, into the front of `found`
/// the reliability of each data bit, 0 where it is forced, and into the front of `decided` each data bit as decided, 2 where it
/// is forced. The same numbers in every way; what the way worked with is left in `table`.
pub fn outer_pass(
    way: Way,
    t: &Outer,
    table: &mut [u32],
    out: &mut [i16],
    found: &mut [i16],
    decided: &mut [u8],
)
    requires sizes { 4 ≤ t.now.n }
    requires room { (40 * t.now.n + 232 ≤ length table.old) × (2 * t.now.n ≤ length out.old) × (t.now.n ≤ length found.old) × (t.now.n ≤ length decided.old) }
    ensures sent { take (2 * t.now.n) out.new ≡ outer_extrinsics t.now.n t.now.priors.now }
    ensures sent_tail { drop (2 * t.now.n) out.new ≡ drop (2 * t.now.n) out.old }
    ensures reliabilities { take t.now.n found.new ≡ data_reliabilities t.now.n t.now.priors.now }
    ensures reliabilities_tail { drop t.now.n found.new ≡ drop t.now.n found.old }
    ensures bits { take t.now.n decided.new ≡ decisions t.now.n t.now.priors.now }
    ensures bits_tail { drop t.now.n decided.new ≡ drop t.now.n decided.old }
    ensures worked { table.new ≡ work_table way 4 (outer t.now.n t.now.priors.now) (length table.old) }
{
    work(way, t, table);
    let mut room = Room::new(0);
    let mut bits = [None; 8];
    // By number: the stages are asked of the trellis. `found` and `decided` are two buffers, as C lends them.
    for k in 0..t.n {
        stage_reliabilities(way, &Stage::new(t, k), table, &mut room, &mut bits);
        out[2 * k] = told(bits[0], t.priors[2 * k]);
        out[2 * k + 1] = told(bits[1], t.priors[2 * k + 1]);
        found[k] = narrow(bits[2]);
        decided[k] = decide(bits[2]);
    }
}
