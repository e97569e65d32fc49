//! The reliability of every bit of a stage's word, from columns of least costs and from columns of numbers modulo 65,536.

#![tactic(auto)]

mod bits;
mod keeping;

pub use bits::stage_bits;
pub use keeping::CostKeeping;
