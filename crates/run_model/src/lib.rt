//! The calls of a run, their answers, and the model that every run is measured by.

#![tactic(auto)]

mod answers;
mod calls;
mod kinds;
mod state;

pub use answers::{Answer, Reading};
pub use calls::Call;
pub use kinds::{Kind, UnknownKind};
pub use state::{RunState, Standing};
