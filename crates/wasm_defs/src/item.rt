//! Items: what the sections of a module list (Core 5.5). A field is a pair of its offset and its value.

use crate::lists::{Bytes, Indices, Name};
use crate::types::{FuncType, ValType};

/// What an export names (Core 5.5.10).
#[derive(Clone, Copy, Debug, PartialEq, Eq)]
pub enum Extern {
    Function,
    Table,
    Memory,
    Global,
}

/// Limits (Core 5.3.4): the flag's offset, and the minimum and the maximum in rows or pages.
#[derive(Clone, Copy, Debug, PartialEq, Eq)]
pub struct Limits {
    pub flag: u64,
    pub min: (u64, u32),
    pub max: Option<(u64, u32)>,
}

/// A constant expression (Core 5.4.6): the offset of its opcode, its number, and the offset of its `end`.
#[derive(Clone, Copy, Debug, PartialEq, Eq)]
pub struct Constant {
    pub opcode: u64,
    pub value: (u64, i64),
    pub end: u64,
}

/// An item, with the offsets of its fields. The types of a function type and the indices of an element segment follow
/// one another after their count, whose offset alone is kept.
#[derive(Debug, Drop)]
pub enum Item {
    /// A function type (Core 5.3.3): the offsets of its form and of the two counts.
    Signature {
        form: u64,
        params: u64,
        results: u64,
        ty: FuncType,
    },
    /// An imported function (Core 5.5.5).
    Imported {
        module: (u64, Name),
        name: (u64, Name),
        kind: u64,
        type_index: (u64, u32),
    },
    /// A declared function (Core 5.5.6).
    Function {
        type_index: (u64, u32),
    },
    /// A table (Core 5.5.7).
    Table {
        element: u64,
        limits: Limits,
    },
    /// A memory (Core 5.5.8).
    Memory {
        limits: Limits,
    },
    /// A global (Core 5.5.9).
    Global {
        ty: (u64, ValType),
        mutable: (u64, bool),
        init: Constant,
    },
    /// An export (Core 5.5.10).
    Exported {
        name: (u64, Name),
        kind: (u64, Extern),
        index: (u64, u32),
    },
    /// The start function (Core 5.5.11).
    Start {
        index: (u64, u32),
    },
    /// An element segment (Core 5.5.12).
    Element {
        table: (u64, u32),
        place: Constant,
        functions: (u64, Indices),
    },
    /// The code section (Core 5.5.13): its count, and the offset where it ends.
    Code {
        count: (u64, u32),
        end: u64,
    },
    /// The data count: the number of data segments, which comes before the code (Core 2.0, 5.5.15).
    DataCount {
        count: (u64, u32),
    },
    /// A passive data segment: the offset of its form, and its bytes (Core 2.0, 5.5.14).
    Passive {
        form: u64,
        bytes: (u64, Bytes),
    },
    /// An active data segment: the offset of its form, and the index of its memory, where the form has one (Core 2.0, 5.5.14).
    Segment {
        form: u64,
        memory: Option<(u64, u32)>,
        place: Constant,
        bytes: (u64, Bytes),
    },
}
