//! The cost file: a plan, the slot costs of each symbol and perhaps the payload, each a record with a check.

#![tactic(auto)]

mod faults;
mod judging;
mod layout;
mod opening;
mod reader;
mod records;
mod walk;
mod writer;

pub use faults::{Fault, Layer};
pub use opening::{open, open_within};
pub use reader::CostFile;
pub use records::Record;
pub use writer::write;
