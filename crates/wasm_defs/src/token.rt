//! The tokens of a body: its instructions, and the `else` and `end` that close them (Core 2.4 and 5.4).

use crate::lists::Labels;
use crate::operation::{LoadOp, Operation, StoreOp};
use crate::types::ValType;

/// The type of a block: no result or one, or a type of the module, by its index (Core 2.0, 2.4.8).
#[derive(Clone, Copy, Debug, PartialEq, Eq)]
pub enum BlockType {
    Empty,
    Value(ValType),
    Index(u32),
}

/// Where a load or a store reaches (Core 2.4.4): the alignment is a power of two, the offset counts bytes.
#[derive(Clone, Copy, Debug, PartialEq, Eq)]
pub struct MemArg {
    pub align: u32,
    pub offset: u32,
}

/// The instructions that write many bytes of the memory (Core 2.0, 2.4.6).
#[derive(Clone, Copy, Debug, PartialEq, Eq)]
pub enum BulkOp {
    /// `memory.fill`
    Fill,
    /// `memory.copy`
    Copy,
    /// `memory.init`, from the data segment of an index.
    Init(u32),
}

/// An instruction that holds no others, with its immediates (Core 2.4, and `plaininstr` of 6.5).
#[derive(Debug, Drop)]
pub enum Plain {
    Unreachable,
    Nop,
    /// Labels count from the innermost, which is 0.
    Br(u32),
    BrIf(u32),
    /// The labels, and the last one, which is taken at every other index.
    BrTable(Labels, u32),
    Return,
    /// A function's index.
    Call(u32),
    /// A type's index, and a table's.
    CallIndirect(u32, u32),
    /// `drop`
    Drop,
    Select,
    LocalGet(u32),
    LocalSet(u32),
    LocalTee(u32),
    GlobalGet(u32),
    GlobalSet(u32),
    Load(LoadOp, MemArg),
    Store(StoreOp, MemArg),
    MemorySize,
    MemoryGrow,
    Bulk(BulkOp),
    /// `data.drop`, of a data segment's index.
    DataDrop(u32),
    /// The number as a signed one.
    Const(ValType, i64),
    Numeric(Operation),
}

/// What a body is encoded from.
#[derive(Debug, Drop)]
pub enum Token {
    Plain(Plain),
    Block(BlockType),
    Loop(BlockType),
    If(BlockType),
    Else,
    End,
}
