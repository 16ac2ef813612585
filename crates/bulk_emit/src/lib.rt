//! The instruction words of `memory.fill`, `memory.copy`, `memory.init` and `data.drop` (WebAssembly Core 2.0, 2.4.6).
//! `BulkWords` of `frame_layout` has the words.
#![tactic(auto)]

mod bulk;
mod drop;
mod parts;

pub use bulk::{emit_bulk, emit_copy, emit_fill, emit_init};
pub use drop::emit_drop;
