//! The instruction words of integer instructions (WebAssembly Core 1.0, 2.4.1, 4.3.2 and 4.3.4; sign extension: Core 2.0, 4.3.2):
//! constants, and the operations by their sorts. `Bodies` and `Templates` of `frame_layout` have the words.
#![tactic(auto)]

mod binary;
mod compare;
mod constant;
mod convert;
mod extension;
mod frames;
mod unary;

pub use binary::emit_binary;
pub use compare::emit_compare;
pub use constant::emit_const;
pub use convert::emit_convert;
pub use unary::emit_unary;
