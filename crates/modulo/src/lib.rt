//! The least cost in numbers modulo 65,536, and the spread bound that makes them suffice.

#![tactic(auto)]

mod cost;
mod laws;
mod modular;
mod reliabilities;

pub use cost::ModuloCost;
pub use laws::{
    bits_fit_hold, bits_near_hold, bits_stand_hold, columns_stand_hold, prior_left_out_holds,
    spread_holds,
};
pub use modular::{nearer_of, reliability_of, sum_of};
pub use reliabilities::{least_reliability, sent_on, told};
