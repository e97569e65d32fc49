//! A whole outer pass: what it sends on about every coded bit, and what it finds of every data bit.

#![tactic(auto)]

mod pass;
mod read;

pub use pass::outer_pass;
