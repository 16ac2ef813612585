//! What validation and compilation come to.

use module_stream::{Built, Checked};
use wasm_defs::Refusal;

/// What compiling comes to.
#[derive(Drop)]
pub enum Answer {
    /// The bytes are a module, and this is its image.
    Image(Built),
    /// They are none: this is the error of least offset.
    Refused(Refusal),
    /// The source failed, and the bytes that came have no error that more bytes don't mend.
    ReadFault,
    /// Memory ran out.
    NoMemory,
}

/// What validation comes to.
#[derive(Drop)]
pub enum CheckAnswer {
    /// The bytes are a module.
    Valid(Checked),
    /// They are none: this is the error of least offset.
    Refused(Refusal),
    /// The source failed, and the bytes that came have no error that more bytes don't mend.
    ReadFault,
    /// Memory ran out.
    NoMemory,
}
