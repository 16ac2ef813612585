//! How much of a module is read.

/// The most bytes of a module that are read: those that it may have, and the five of a section's size that begins there. So many decide
/// about any module.
// Why: docs/DECISIONS.md, "`check` reads up to 67,108,869 bytes"
pub const MAX_READ: usize = 67_108_869;
