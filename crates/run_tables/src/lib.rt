//! What the calls of a run do with single tables.

#![tactic(auto)]

mod bits;
mod fronts;
mod interleaving;

pub use bits::{remainder_of, take_payload};
pub use fronts::{clear, lay_row, none_missing};
pub use interleaving::{gather, place};
