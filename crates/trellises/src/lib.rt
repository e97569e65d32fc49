//! The trellises of the block: the inner one of symbols, the outer one of the convolutional code, and any one read backwards.

#![tactic(auto)]

mod forced;
mod inner;
mod outer;
mod priors;
mod reversed;
mod rows;
mod slots;
mod words;

pub use forced::{coded_bits_free, data_bits_free, interleaved_bits_free, last_bits_zero};
pub use inner::Inner;
pub use outer::Outer;
pub use priors::penalty;
pub use reversed::Reversed;
