//! How much one input holds.

/// Modules of one input.
pub const MAX_MODULES: u32 = 64;

/// Bytes of one input: 1 GiB.
pub const MAX_INPUT: u64 = 1_073_741_824;
