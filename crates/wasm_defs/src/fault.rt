//! Errors of a module.

/// What is wrong with a module. Where one field fails in several ways, the kind that comes first here is meant.
#[derive(Clone, Copy, Debug, PartialEq, Eq)]
pub enum Kind {
    /// The binary grammar (Core 5) has no such bytes.
    Malformed,
    /// A part of WebAssembly that is left out.
    Unsupported,
    /// A limit of this implementation is passed (Core, appendix "Implementation Limitations").
    Limit,
    /// A rule of validation (Core 3) is broken.
    Invalid,
    /// The bytes end where more are expected.
    Ended,
}

/// The error of a module: what it is, and the offset of the byte that it is at, counted from the module's first.
#[derive(Clone, Copy, Debug, PartialEq, Eq)]
pub struct Refusal {
    pub offset: u64,
    pub kind: Kind,
}
