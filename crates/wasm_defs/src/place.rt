//! Source locations in a module, which say where a run trapped.

/// A function of a module and a byte of the module's.
#[derive(Clone, Copy, Debug, PartialEq, Eq)]
pub struct Place {
    /// The function's index.
    pub function: u32,
    /// The byte's offset in the module.
    pub offset: u64,
}
