//! A caller of the library, as a program would be that embeds it: it compiles a module whose bytes are in memory, and calls a function
//! of it with a host of its own.
//!
//! [`call_module`] is the whole: [`compile_bytes`] compiles, [`call_image`] loads the image and runs it, and [`ListHost`] answers the
//! calls that the module makes of its imports. `docs/EMBEDDING.md` says what their contracts give to a caller.
#![tactic(auto)]

mod calling;
mod compiling;
mod list_host;
#[cfg(test)]
mod tests;

pub use calling::{Called, call_image, call_module};
pub use compiling::{Compiled, compile_bytes};
pub use list_host::ListHost;
