//! Calls (WebAssembly Core 1.0, 4.4.5.10 and 4.4.5.11), the beginning and the end of a function, and the stub of an imported one.
//! `Templates` of `frame_layout` has the instruction words.
#![tactic(auto)]

mod call;
mod frames;
mod import;
mod indirect;
mod prologue;
mod returning;
mod room;

pub use call::emit_call;
pub use import::emit_import_stub;
pub use indirect::emit_indirect;
pub use prologue::emit_prologue;
pub use returning::emit_return;
