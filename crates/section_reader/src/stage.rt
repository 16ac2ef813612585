//! Where a push reader is in a module.
//!
//! ```text
//! Preamble ---> Between ---header---> Contents(p) ----count---> Entries(p, n) ----item---> Entries(p, n - 1)
//!                  ^                                                  |
//!                  +---------------- section's end ------------ Entries(p, 0)
//! ```
//!
//! A custom section has no entries, and the code section one, its count: what these two have left is passed over in
//! `Entries(p, 0)` as it comes.

/// Where reading is.
#[derive(Clone, Copy, Debug, PartialEq, Eq)]
pub enum Stage {
    /// Before the magic bytes.
    Preamble,
    /// Between two sections.
    Between,
    /// After a section's size.
    Contents(u8),
    /// Before so many entries of a section.
    Entries(u8, u64),
}
