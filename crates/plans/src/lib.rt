//! The plan of a block: its numbers, the questions that a plan has to pass, and the interleaver.

#![tactic(auto)]

mod accepted;
mod divisor;
mod refusals;
mod values;

pub use accepted::Plan;
pub use divisor::common_divisor;
pub use refusals::Refusal;
pub use values::PlanValues;
