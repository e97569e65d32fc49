//! What a pass gives: the reliability of every bit, whichever way its table was worked.

#![tactic(auto)]

mod stage;

pub use stage::stage_reliabilities;
