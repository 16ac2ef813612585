//! Laws of verdicts: each body is valid or has an error, and any bytes are a module or have an
//! error.
#![tactic(auto)]

mod verdicts;

pub use verdicts::{each_code_is_judged, each_has_a_verdict, no_fault_is_a_module};
