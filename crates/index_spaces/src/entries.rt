//! What a module imports and exports, and what it writes into its table and its memory.

use wasm_defs::{Bytes, Extern, Indices, Name};

/// An imported function (Core 2.5.11): the offset of its first byte in the module, the two parts of its name, and the index of its
/// type.
#[derive(Debug, Drop)]
pub struct Import {
    pub offset: u64,
    pub module: Name,
    pub name: Name,
    pub type_index: u32,
}

/// An export (Core 2.5.10): its name, the sort of what is exported, and the index in that sort's space.
#[derive(Debug, Drop)]
pub struct Export {
    pub name: Name,
    pub kind: Extern,
    pub index: u32,
}

/// An element segment (Core 2.5.7): the row of the table that it begins at, and the functions that it writes from there on. The
/// row is the value of an `i32` constant as an unsigned number, so it is below 2^32 wherever the constant has that type's range.
#[derive(Debug, Drop)]
pub struct ElementRow {
    pub place: u64,
    pub functions: Indices,
}

/// A data segment (Core 2.0, 2.5.8): its bytes, and for an active one the address in the memory that it writes them to. The address
/// is the value of an `i32` constant as an unsigned number, so it is below 2^32 wherever the constant has that type's range.
#[derive(Debug, Drop)]
pub struct DataRow {
    pub place: Option<u64>,
    pub bytes: Bytes,
}
