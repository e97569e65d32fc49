//! Trellises, semirings and paths: what every pass is measured by.

#![tactic(auto)]

mod edges;
mod laws;
mod least;
mod semiring;
mod stage;
mod ties;
mod trellis;

pub use edges::{Edge, word_count};
pub use laws::{
    bits_hold, columns_hold, groupings_hold, levels_hold, marginals_hold, paths_hold, products_hold,
};
pub use least::LeastCost;
pub use semiring::{Semiring, Weights};
pub use stage::Stage;
pub use ties::{LeastCostWithTies, Tied};
pub use trellis::Trellis;
