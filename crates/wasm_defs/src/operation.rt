//! Operations: instructions without immediates that compute, and those that load and store (Core 2.4.1, 2.4.4). The tables
//! of `opcodes.rt` have a row for each.

use crate::types::ValType;

/// Operations on the bits of one operand.
#[derive(Clone, Copy, Debug, PartialEq, Eq)]
pub enum UnaryOp {
    Clz,
    Ctz,
    Popcnt,
}

/// Operations on two operands. `S` takes them as signed numbers, `U` as unsigned ones.
#[derive(Clone, Copy, Debug, PartialEq, Eq)]
pub enum BinaryOp {
    Add,
    Sub,
    Mul,
    DivS,
    DivU,
    RemS,
    RemU,
    And,
    Or,
    Xor,
    Shl,
    ShrS,
    ShrU,
    Rotl,
    Rotr,
}

/// Comparisons of two operands.
#[derive(Clone, Copy, Debug, PartialEq, Eq)]
pub enum CompareOp {
    Eq,
    Ne,
    LtS,
    LtU,
    GtS,
    GtU,
    LeS,
    LeU,
    GeS,
    GeU,
}

/// Conversions between the two types: `i32.wrap_i64`, `i64.extend_i32_s` and `i64.extend_i32_u`.
#[derive(Clone, Copy, Debug, PartialEq, Eq)]
pub enum ConvertOp {
    Wrap,
    ExtendS,
    ExtendU,
}

/// Sign extensions: the low bits of an operand, as a signed number of its type (Core 2.0, 2.4.1).
#[derive(Clone, Copy, Debug, PartialEq, Eq)]
pub enum ExtendOp {
    I32Extend8S,
    I32Extend16S,
    I64Extend8S,
    I64Extend16S,
    I64Extend32S,
}

/// A numeric instruction without an immediate, by its sort (Core 2.4.1): on operands of one type, or a conversion.
#[derive(Clone, Copy, Debug, PartialEq, Eq)]
pub enum Operation {
    Unary(ValType, UnaryOp),
    /// `eqz`
    Test(ValType),
    Binary(ValType, BinaryOp),
    Compare(ValType, CompareOp),
    Convert(ConvertOp),
    Extend(ExtendOp),
}

/// Loads (Core 2.4.4), by what is loaded and how it is extended.
#[derive(Clone, Copy, Debug, PartialEq, Eq)]
pub enum LoadOp {
    I32Load,
    I64Load,
    I32Load8S,
    I32Load8U,
    I32Load16S,
    I32Load16U,
    I64Load8S,
    I64Load8U,
    I64Load16S,
    I64Load16U,
    I64Load32S,
    I64Load32U,
}

/// Stores (Core 2.4.4).
#[derive(Clone, Copy, Debug, PartialEq, Eq)]
pub enum StoreOp {
    I32Store,
    I64Store,
    I32Store8,
    I32Store16,
    I64Store8,
    I64Store16,
    I64Store32,
}

/// A load or a store.
#[derive(Clone, Copy, Debug, PartialEq, Eq)]
pub enum Access {
    Load(LoadOp),
    Store(StoreOp),
}

/// The operands of a numeric instruction, the last of which is topmost.
#[derive(Clone, Copy, Debug, PartialEq, Eq)]
pub enum Operands {
    One(ValType),
    Two(ValType, ValType),
}

/// The type of a numeric instruction (Core 2.0, 3.3.1).
#[derive(Clone, Copy, Debug, PartialEq, Eq)]
pub struct NumericType {
    pub operands: Operands,
    pub result: ValType,
}

/// What a load or store accesses (Core 3.3.4.1 to 3.3.4.4): the type of the value, and the greatest alignment, as a power of two.
#[derive(Clone, Copy, Debug, PartialEq, Eq)]
pub struct AccessType {
    pub value: ValType,
    pub alignment: u32,
}
