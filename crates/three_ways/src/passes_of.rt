//! One pass in one way.

ghost use Rattle.std.specs.Prelude.{◌≡◌, ◌≤◌, length};

use marginals::Room;
use paths::Stage;
use soft_outputs::stage_reliabilities;
use std::io;
use trellises::Inner;
use ways::{Way, work};

/// Works two symbols of two bits, prints the table and the reliabilities, and answers these; a forced bit has none.
pub(crate) fn show_pass(
    rt: &HostRuntime,
    way: Way,
    t: &Inner,
    table: &mut [u32],
) -> io::Result<[Option<i32>; 4]>
    requires small { (t.now.m ≡ 2) × (t.now.n ≡ 2) }
    requires room { 84 ≤ length table.old }
{
    work(way, t, table);
    println!(rt; "way {}", u8::from(way))?;
    show_entries(rt, "forward", &table[..6])?;
    show_entries(rt, "backward", &table[6..12])?;
    show_entries(rt, "behind", &table[12..26])?;
    let mut room = Room::new(0);
    let mut bits = [None; 8];
    let mut found = [None; 4];
    // By number: the stages are asked of the trellis.
    for k in 0..2 {
        stage_reliabilities(way, &Stage::new(t, k), table, &mut room, &mut bits);
        found[2 * k..2 * k + 2].copy_from_slice(&bits[..2]);
    }
    for (j, reliability) in found.iter().enumerate() {
        show_bit(rt, j, *reliability)?;
    }
    Ok(found)
}

fn show_entries(rt: &HostRuntime, name: &str, entries: &[u32]) -> io::Result<()> {
    print!(rt; "{name}")?;
    for x in entries {
        print!(rt; " {x}")?;
    }
    println!(rt; "")
}

fn show_bit(rt: &HostRuntime, j: usize, reliability: Option<i32>) -> io::Result<()> {
    match reliability {
        Some(r) => println!(rt; "bit {j} reliability {r}"),
        None => println!(rt; "bit {j} forced"),
    }
}
