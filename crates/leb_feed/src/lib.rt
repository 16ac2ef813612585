//! LEB128 numbers and the other fields of a module, read from a slice (WebAssembly Core 1.0, 5.2 and 5.3).
#![tactic(auto)]

mod fields;
mod leb;
mod number;
mod stop;
mod text;

pub use fields::Fields;
pub use leb::{Fed, Leb};
pub use number::{ReadAt, read_at};
pub use stop::Stop;
pub use text::{between, state_after};
