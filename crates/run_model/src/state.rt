//! The numbers of a run. Its tables are lent to each call.

use plans::Plan;

/// What stands in a run, for the calls that need it.
#[derive(Clone, Copy, PartialEq, Eq, Debug)]
pub enum Standing {
    /// Since the run was opened, or a row came, no pass was made.
    Nothing,
    /// The inner extrinsics, after an inner pass.
    Extrinsics,
    /// The decisions, after an outer pass.
    Decisions,
}

/// The plan of a run, the outer passes made, the tie count of the last one, and what stands.
#[derive(Clone, Copy)]
pub struct RunState {
    pub plan: Plan,
    pub passes: u32,
    pub ties: u8,
    pub standing: Standing,
}
