//! Rows of a table against what the program answers, by its one call.

mod base;
mod numbers;
mod sources;
mod ways;

pub use base::is_read;
pub use ways::answer;
