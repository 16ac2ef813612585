//! Reads a module outside its function bodies (WebAssembly Core 1.0, 5.5) while its bytes come, in one pass: the items that
//! its sections list, and its error, if it has one there.
#![tactic(auto)]

mod entries;
mod entry_fields;
mod entry_waits;
mod front;
mod functions;
mod items;
mod laws;
mod rows;
mod sections;
mod seen;
mod stage;
mod steps;
mod wait;

pub use front::Front;
pub use functions::Functions;
pub use laws::outlines_have_the_items;
