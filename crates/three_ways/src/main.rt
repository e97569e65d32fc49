//! Works a small inner trellis in all three ways and by several groupings, prints what each leaves, and finds that they agree.

#![tactic(auto)]

mod groupings;
mod passes_of;

use groupings::show_groupings;
use passes_of::show_pass;
use trellises::Inner;
use ways::Way;

fn main(rt: HostRuntime) -> anyhow::Result<()> {
    run(&rt)
}

fn run(rt: &HostRuntime) -> anyhow::Result<()> {
    let rows = [0u8, 3, 5, 9, 2, 0, 4, 1];
    let priors = [0i16; 4];
    let t = Inner::new(2, 2, &rows, &priors);
    let mut table = vec![in rt.alloc(); 0u32; 96]?;
    let mut passes = [[None; 4]; 3];
    for (i, way) in [Way::Columns, Way::Metastages, Way::Modular]
        .iter()
        .enumerate()
    {
        passes[i] = show_pass(rt, *way, &t, table.as_mut_slice())?;
    }
    let same = passes.windows(2).all(|two| two[0] == two[1]);
    println!(rt; "reliabilities of all ways the same: {same}")?;
    show_groupings(rt)
}
