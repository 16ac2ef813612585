//! Reads a module from a source, and validates or compiles it while its bytes come: on the caller's thread up to the bodies, and these
//! in parallel by workers, where there are any.
#![tactic(auto)]

mod answer;
mod beside;
mod chunk;
mod intake;
mod reading;

pub use answer::{Answer, CheckAnswer};
pub use reading::judge_source;
