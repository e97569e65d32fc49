//! The join over all paths of five symbols, by several orders of making neighbours one.

ghost use Rattle.std.specs.Prelude.{◌≡◌, ◌≤◌, length};

use passes::{Span, by_order, total};
use paths::{LeastCostWithTies, Tied, Weights};
use std::io;
use trellises::Inner;

/// Prints the least cost and its ties by each order, and by two columns.
pub(crate) fn show_groupings(rt: &HostRuntime) -> anyhow::Result<()> {
    let rows = [1u8, 1, 2, 3, 0, 2, 2, 0, 4, 4, 1, 1, 3, 0, 0, 3, 2, 2, 2, 2];
    let priors = [1i16, -1, 0, 2, -2, 0, 0, 1, -1, 0];
    let t = Inner::new(2, 5, &rows, &priors);
    let mut table = vec![in rt.alloc(); LeastCostWithTies::none(); 64]?;
    let mut spans = vec![in rt.alloc(); Span { end: 0, begin: 0 }; 8]?;
    let all = two_columns(&t, table.as_mut_slice());
    println!(rt; "two columns: cost {} ties {}", all.cost, all.count)?;
    let table = table.as_mut_slice();
    let spans = spans.as_mut_slice();
    let orders: [&[usize]; 5] = [
        &[1, 2, 3, 4],
        &[4, 3, 2, 1],
        &[2, 4, 1, 3],
        &[3, 1, 4, 2],
        &[1, 1, 2, 3],
    ];
    for order in orders {
        show_order(rt, order, one_order(&t, order, table, spans))?;
    }
    Ok(())
}

// By two columns in turn.
fn two_columns(t: &Inner, table: &mut [Tied]) -> Tied
    requires { 4 ≤ length table.old }
{
    total::<Inner, LeastCostWithTies>(t, table)
}

// By neighbours made one in this order; none where it is not complete.
fn one_order(t: &Inner, order: &[usize], table: &mut [Tied], spans: &mut [Span]) -> Option<Tied>
    requires { (t.now.n ≡ 5) × (24 ≤ length table.old) × (5 ≤ length spans.old) }
{
    by_order::<Inner, LeastCostWithTies>(t, order, table, spans)
}

fn show_order(rt: &HostRuntime, order: &[usize], made: Option<Tied>) -> io::Result<()> {
    print!(rt; "order")?;
    for j in order {
        print!(rt; " {j}")?;
    }
    match made {
        Some(x) => println!(rt; ": cost {} ties {}", x.cost, x.count),
        None => println!(rt; ": not complete"),
    }
}
