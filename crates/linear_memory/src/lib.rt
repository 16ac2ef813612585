//! The bytes of RV64IM regions: numbers in them, and a linear memory that stores only the bytes that were touched.
#![tactic(auto)]

mod bytes;
mod memory;

pub use bytes::{
    extend_byte, extend_half, extend_word, load_from, load_value, load_width, read_8, store_to,
    store_value, store_width,
};
pub use memory::LinearMemory;
