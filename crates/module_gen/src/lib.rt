//! Modules that are made and not read.
#![tactic(auto)]

mod drill;
mod laws;
mod numbers;

pub use drill::drill_module;
pub use laws::numbers_are_short;
