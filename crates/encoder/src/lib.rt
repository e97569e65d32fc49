//! The encoder: a payload's way to the slots of its symbols, and the costs of a block without noise.

#![tactic(auto)]

mod bits;
mod block;
mod clean;

pub use block::encode;
pub use clean::lay_clean;
