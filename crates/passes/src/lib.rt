//! Passes over any trellis with any weights: columns, metastages and totals in one lent table.

#![tactic(auto)]

mod columns;
mod metastages;
mod orders;
mod stages;
mod totals;

pub use columns::{backward, forward};
pub use metastages::{levels, place_of};
pub use orders::{Span, by_order};
pub use stages::lay_stages;
pub use totals::{by_columns, by_levels, total};
