//! Validates and compiles one module whose bytes are handed in, however they are cut.
//!
//! Whoever has bytes feeds them to a `Compilation`. It takes what is outside bodies item by item, and validates and compiles bodies as their
//! batches close; or it hands its cutter out, and takes the bodies later, with the rows that workers made of them. It reads no source
//! and starts no thread.
#![tactic(auto)]

mod bodies;
mod built;
mod codes;
mod compilation;
mod limits;
mod settings;
mod shared;

pub use built::{Built, Checked};
pub use codes::Codes;
pub use compilation::Compilation;
pub use limits::MAX_READ;
pub use settings::Settings;
