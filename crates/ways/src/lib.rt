//! The three ways of working a pass.

#![tactic(auto)]

mod names;
mod tables;

pub use names::{UnknownWay, Way};
pub use tables::work;
