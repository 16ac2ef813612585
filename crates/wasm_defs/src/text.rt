//! UTF-8 (Core 5.2.4), byte by byte.

/// Where reading is inside a character: how many bytes are due, and between which two the next one is.
#[derive(Clone, Copy, Debug, PartialEq, Eq)]
pub struct Inside {
    pub due: u8,
    pub least: u8,
    pub most: u8,
}
