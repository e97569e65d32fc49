//! The marginals of every bit of a stage's word: each edge is asked once, and the words are folded by halves.

#![tactic(auto)]

mod bits;
mod frame;
mod gather;
mod halves;
mod room;

pub use bits::{bit_joins, marginals};
pub use room::{ByBit, Room};
