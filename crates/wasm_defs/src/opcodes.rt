//! The tables of opcodes (Core 2.0, 5.4.6 and 5.4.7; their names: 6.5.7 and 6.5.8), a row for each opcode. The reader, the
//! grammar, tests and documents read them, and `rows_have_types` says that the types which they state are those of typing.

ghost use Rattle.std.specs.Prelude.{◌≡◌, ◌-◌, ◌≤◌, slice_get};
ghost use Rattle.wasm_defs.specs.Opcodes.{operations, accesses, row_type, row_access};

use crate::operation::Access::*;
use crate::operation::BinaryOp::*;
use crate::operation::CompareOp::*;
use crate::operation::ConvertOp::*;
use crate::operation::ExtendOp::*;
use crate::operation::LoadOp::*;
use crate::operation::Operation::*;
use crate::operation::StoreOp::*;
use crate::operation::UnaryOp::*;
use crate::operation::{Access, AccessType, NumericType, Operands, Operation};
use crate::types::ValType::*;

/// Numeric instructions without an immediate: the opcode, the name, the operation, and the types of its operands and its
/// result. Those on floats, which are left out, have an opcode and a name.
macro_rules! numeric_rows {
    ($read:ident $($operation:ident)?) => {
        $read! {
            $($operation)?
            0x45 "i32.eqz" Test(I32) [I32] -> I32;
            0x46 "i32.eq" Compare(I32, Eq) [I32 I32] -> I32;
            0x47 "i32.ne" Compare(I32, Ne) [I32 I32] -> I32;
            0x48 "i32.lt_s" Compare(I32, LtS) [I32 I32] -> I32;
            0x49 "i32.lt_u" Compare(I32, LtU) [I32 I32] -> I32;
            0x4A "i32.gt_s" Compare(I32, GtS) [I32 I32] -> I32;
            0x4B "i32.gt_u" Compare(I32, GtU) [I32 I32] -> I32;
            0x4C "i32.le_s" Compare(I32, LeS) [I32 I32] -> I32;
            0x4D "i32.le_u" Compare(I32, LeU) [I32 I32] -> I32;
            0x4E "i32.ge_s" Compare(I32, GeS) [I32 I32] -> I32;
            0x4F "i32.ge_u" Compare(I32, GeU) [I32 I32] -> I32;
            0x50 "i64.eqz" Test(I64) [I64] -> I32;
            0x51 "i64.eq" Compare(I64, Eq) [I64 I64] -> I32;
            0x52 "i64.ne" Compare(I64, Ne) [I64 I64] -> I32;
            0x53 "i64.lt_s" Compare(I64, LtS) [I64 I64] -> I32;
            0x54 "i64.lt_u" Compare(I64, LtU) [I64 I64] -> I32;
            0x55 "i64.gt_s" Compare(I64, GtS) [I64 I64] -> I32;
            0x56 "i64.gt_u" Compare(I64, GtU) [I64 I64] -> I32;
            0x57 "i64.le_s" Compare(I64, LeS) [I64 I64] -> I32;
            0x58 "i64.le_u" Compare(I64, LeU) [I64 I64] -> I32;
            0x59 "i64.ge_s" Compare(I64, GeS) [I64 I64] -> I32;
            0x5A "i64.ge_u" Compare(I64, GeU) [I64 I64] -> I32;
            0x5B "f32.eq";
            0x5C "f32.ne";
            0x5D "f32.lt";
            0x5E "f32.gt";
            0x5F "f32.le";
            0x60 "f32.ge";
            0x61 "f64.eq";
            0x62 "f64.ne";
            0x63 "f64.lt";
            0x64 "f64.gt";
            0x65 "f64.le";
            0x66 "f64.ge";
            0x67 "i32.clz" Unary(I32, Clz) [I32] -> I32;
            0x68 "i32.ctz" Unary(I32, Ctz) [I32] -> I32;
            0x69 "i32.popcnt" Unary(I32, Popcnt) [I32] -> I32;
            0x6A "i32.add" Binary(I32, Add) [I32 I32] -> I32;
            0x6B "i32.sub" Binary(I32, Sub) [I32 I32] -> I32;
            0x6C "i32.mul" Binary(I32, Mul) [I32 I32] -> I32;
            0x6D "i32.div_s" Binary(I32, DivS) [I32 I32] -> I32;
            0x6E "i32.div_u" Binary(I32, DivU) [I32 I32] -> I32;
            0x6F "i32.rem_s" Binary(I32, RemS) [I32 I32] -> I32;
            0x70 "i32.rem_u" Binary(I32, RemU) [I32 I32] -> I32;
            0x71 "i32.and" Binary(I32, And) [I32 I32] -> I32;
            0x72 "i32.or" Binary(I32, Or) [I32 I32] -> I32;
            0x73 "i32.xor" Binary(I32, Xor) [I32 I32] -> I32;
            0x74 "i32.shl" Binary(I32, Shl) [I32 I32] -> I32;
            0x75 "i32.shr_s" Binary(I32, ShrS) [I32 I32] -> I32;
            0x76 "i32.shr_u" Binary(I32, ShrU) [I32 I32] -> I32;
            0x77 "i32.rotl" Binary(I32, Rotl) [I32 I32] -> I32;
            0x78 "i32.rotr" Binary(I32, Rotr) [I32 I32] -> I32;
            0x79 "i64.clz" Unary(I64, Clz) [I64] -> I64;
            0x7A "i64.ctz" Unary(I64, Ctz) [I64] -> I64;
            0x7B "i64.popcnt" Unary(I64, Popcnt) [I64] -> I64;
            0x7C "i64.add" Binary(I64, Add) [I64 I64] -> I64;
            0x7D "i64.sub" Binary(I64, Sub) [I64 I64] -> I64;
            0x7E "i64.mul" Binary(I64, Mul) [I64 I64] -> I64;
            0x7F "i64.div_s" Binary(I64, DivS) [I64 I64] -> I64;
            0x80 "i64.div_u" Binary(I64, DivU) [I64 I64] -> I64;
            0x81 "i64.rem_s" Binary(I64, RemS) [I64 I64] -> I64;
            0x82 "i64.rem_u" Binary(I64, RemU) [I64 I64] -> I64;
            0x83 "i64.and" Binary(I64, And) [I64 I64] -> I64;
            0x84 "i64.or" Binary(I64, Or) [I64 I64] -> I64;
            0x85 "i64.xor" Binary(I64, Xor) [I64 I64] -> I64;
            0x86 "i64.shl" Binary(I64, Shl) [I64 I64] -> I64;
            0x87 "i64.shr_s" Binary(I64, ShrS) [I64 I64] -> I64;
            0x88 "i64.shr_u" Binary(I64, ShrU) [I64 I64] -> I64;
            0x89 "i64.rotl" Binary(I64, Rotl) [I64 I64] -> I64;
            0x8A "i64.rotr" Binary(I64, Rotr) [I64 I64] -> I64;
            0x8B "f32.abs";
            0x8C "f32.neg";
            0x8D "f32.ceil";
            0x8E "f32.floor";
            0x8F "f32.trunc";
            0x90 "f32.nearest";
            0x91 "f32.sqrt";
            0x92 "f32.add";
            0x93 "f32.sub";
            0x94 "f32.mul";
            0x95 "f32.div";
            0x96 "f32.min";
            0x97 "f32.max";
            0x98 "f32.copysign";
            0x99 "f64.abs";
            0x9A "f64.neg";
            0x9B "f64.ceil";
            0x9C "f64.floor";
            0x9D "f64.trunc";
            0x9E "f64.nearest";
            0x9F "f64.sqrt";
            0xA0 "f64.add";
            0xA1 "f64.sub";
            0xA2 "f64.mul";
            0xA3 "f64.div";
            0xA4 "f64.min";
            0xA5 "f64.max";
            0xA6 "f64.copysign";
            0xA7 "i32.wrap_i64" Convert(Wrap) [I64] -> I32;
            0xA8 "i32.trunc_f32_s";
            0xA9 "i32.trunc_f32_u";
            0xAA "i32.trunc_f64_s";
            0xAB "i32.trunc_f64_u";
            0xAC "i64.extend_i32_s" Convert(ExtendS) [I32] -> I64;
            0xAD "i64.extend_i32_u" Convert(ExtendU) [I32] -> I64;
            0xAE "i64.trunc_f32_s";
            0xAF "i64.trunc_f32_u";
            0xB0 "i64.trunc_f64_s";
            0xB1 "i64.trunc_f64_u";
            0xB2 "f32.convert_i32_s";
            0xB3 "f32.convert_i32_u";
            0xB4 "f32.convert_i64_s";
            0xB5 "f32.convert_i64_u";
            0xB6 "f32.demote_f64";
            0xB7 "f64.convert_i32_s";
            0xB8 "f64.convert_i32_u";
            0xB9 "f64.convert_i64_s";
            0xBA "f64.convert_i64_u";
            0xBB "f64.promote_f32";
            0xBC "i32.reinterpret_f32";
            0xBD "i64.reinterpret_f64";
            0xBE "f32.reinterpret_i32";
            0xBF "f64.reinterpret_i64";
            0xC0 "i32.extend8_s" Extend(I32Extend8S) [I32] -> I32;
            0xC1 "i32.extend16_s" Extend(I32Extend16S) [I32] -> I32;
            0xC2 "i64.extend8_s" Extend(I64Extend8S) [I64] -> I64;
            0xC3 "i64.extend16_s" Extend(I64Extend16S) [I64] -> I64;
            0xC4 "i64.extend32_s" Extend(I64Extend32S) [I64] -> I64;
        }
    };
}

/// Loads and stores: the opcode, the name, the access, the type of the value, and the greatest alignment, as a power of two.
macro_rules! access_rows {
    ($read:ident $($access:ident)?) => {
        $read! {
            $($access)?
            0x28 "i32.load" Load(I32Load) I32 2;
            0x29 "i64.load" Load(I64Load) I64 3;
            0x2A "f32.load";
            0x2B "f64.load";
            0x2C "i32.load8_s" Load(I32Load8S) I32 0;
            0x2D "i32.load8_u" Load(I32Load8U) I32 0;
            0x2E "i32.load16_s" Load(I32Load16S) I32 1;
            0x2F "i32.load16_u" Load(I32Load16U) I32 1;
            0x30 "i64.load8_s" Load(I64Load8S) I64 0;
            0x31 "i64.load8_u" Load(I64Load8U) I64 0;
            0x32 "i64.load16_s" Load(I64Load16S) I64 1;
            0x33 "i64.load16_u" Load(I64Load16U) I64 1;
            0x34 "i64.load32_s" Load(I64Load32S) I64 2;
            0x35 "i64.load32_u" Load(I64Load32U) I64 2;
            0x36 "i32.store" Store(I32Store) I32 2;
            0x37 "i64.store" Store(I64Store) I64 3;
            0x38 "f32.store";
            0x39 "f64.store";
            0x3A "i32.store8" Store(I32Store8) I32 0;
            0x3B "i32.store16" Store(I32Store16) I32 1;
            0x3C "i64.store8" Store(I64Store8) I64 0;
            0x3D "i64.store16" Store(I64Store16) I64 1;
            0x3E "i64.store32" Store(I64Store32) I64 2;
        }
    };
}

macro_rules! if_any {
    () => {
        None
    };
    ($value:expr) => {
        Some($value)
    };
}

macro_rules! operands {
    ($t:ident) => {
        Operands::One($t)
    };
    ($t:ident $u:ident) => {
        Operands::Two($t, $u)
    };
}

macro_rules! operations_of {
    ($($code:literal $name:literal $($op:ident ($($x:ident),*) [$($t:ident)*] -> $r:ident)?;)*) => {
        [$(if_any!($($op($($x),*))?)),*]
    };
}

macro_rules! types_of {
    ($($code:literal $name:literal $($op:ident ($($x:ident),*) [$($t:ident)*] -> $r:ident)?;)*) => {
        [$(if_any!($(NumericType { operands: operands!($($t)*), result: $r })?)),*]
    };
}

macro_rules! accesses_of {
    ($($code:literal $name:literal $($op:ident ($x:ident) $t:ident $most:literal)?;)*) => {
        [$(if_any!($($op($x))?)),*]
    };
}

macro_rules! access_types_of {
    ($($code:literal $name:literal $($op:ident ($x:ident) $t:ident $most:literal)?;)*) => {
        [$(if_any!($(AccessType { value: $t, alignment: $most })?)),*]
    };
}

/// The type of an operation, by its row.
macro_rules! operation_type {
    ($operation:ident $($code:literal $name:literal $($op:ident ($($x:ident),*) [$($t:ident)*] -> $r:ident)?;)*) => {
        match $operation {
            $($($op($($x),*) => NumericType { operands: operands!($($t)*), result: $r },)?)*
        }
    };
}

/// The type of an access, by its row.
macro_rules! access_type {
    ($access:ident $($code:literal $name:literal $($op:ident ($x:ident) $t:ident $most:literal)?;)*) => {
        match $access {
            $($($op($x) => AccessType { value: $t, alignment: $most },)?)*
        }
    };
}

macro_rules! names_of {
    ($($code:literal $name:literal $($op:ident ($($x:ident),*) [$($t:ident)*] -> $r:ident)?;)*) => {
        [$($name),*]
    };
}

macro_rules! codes_of {
    ($($code:literal $name:literal $($op:ident ($($x:ident),*) [$($t:ident)*] -> $r:ident)?;)*) => {
        [$($code),*]
    };
}

macro_rules! access_names_of {
    ($($code:literal $name:literal $($op:ident ($x:ident) $t:ident $most:literal)?;)*) => {
        [$($name),*]
    };
}

macro_rules! access_codes_of {
    ($($code:literal $name:literal $($op:ident ($x:ident) $t:ident $most:literal)?;)*) => {
        [$($code),*]
    };
}

/// The operations by their opcodes, from 0x45 to 0xC4 (Core 2.0, 5.4.7). Those on floats are left out.
pub const OPERATIONS: [Option<Operation>; 128] = numeric_rows!(operations_of);

/// The names of the opcodes from 0x45 to 0xC4 in the text format (Core 2.0, 6.5.8), those on floats among them.
pub const OPERATION_NAMES: [&str; 128] = numeric_rows!(names_of);

/// The types of the operations (Core 2.0, 3.3.1), by their opcodes from 0x45 to 0xC4.
pub const OPERATION_TYPES: [Option<NumericType>; 128] = numeric_rows!(types_of);

/// The opcodes of the rows of operations.
pub(crate) const OPERATION_CODES: [u8; 128] = numeric_rows!(codes_of);

/// The loads and stores by their opcodes, from 0x28 to 0x3E (Core 2.0, 5.4.6). Those of floats are left out.
pub const ACCESSES: [Option<Access>; 23] = access_rows!(accesses_of);

/// The names of the opcodes from 0x28 to 0x3E in the text format (Core 2.0, 6.5.7), those of floats among them.
pub const ACCESS_NAMES: [&str; 23] = access_rows!(access_names_of);

/// What loads and stores access (Core 2.0, 3.3.7), by their opcodes from 0x28 to 0x3E.
pub const ACCESS_TYPES: [Option<AccessType>; 23] = access_rows!(access_types_of);

/// The opcodes of the rows of loads and stores.
pub(crate) const ACCESS_CODES: [u8; 23] = access_rows!(access_codes_of);

fn operation_at(rows: &[Option<Operation>], row: usize) -> Option<Option<Operation>>
    ensures { result ≡ slice_get rows.now row }
{
    rows.get(row).copied()
}

fn access_at(rows: &[Option<Access>], row: usize) -> Option<Option<Access>>
    ensures { result ≡ slice_get rows.now row }
{
    rows.get(row).copied()
}

impl Operation {
    /// The types of its operands and its result, as its row has them.
    pub fn ty(self) -> NumericType
        ensures { result ≡ row_type self }
    {
        numeric_rows!(operation_type self)
    }

    /// The operation of an opcode from 0x45 on: `None` past the table, `Some(None)` for one that is left out.
    pub fn of_opcode(opcode: u8) -> Option<Option<Operation>>
        requires { 0x45 ≤ opcode }
        ensures { result ≡ slice_get operations (opcode - 0x45) }
    {
        operation_at(&OPERATIONS, opcode as usize - 0x45)
    }
}

impl Access {
    /// What it accesses, as its row has it.
    pub fn ty(self) -> AccessType
        ensures { result ≡ row_access self }
    {
        access_rows!(access_type self)
    }

    /// The load or store of an opcode from 0x28 on: `None` past the table, `Some(None)` for one that is left out.
    pub fn of_opcode(opcode: u8) -> Option<Option<Access>>
        requires { 0x28 ≤ opcode }
        ensures { result ≡ slice_get accesses (opcode - 0x28) }
    {
        access_at(&ACCESSES, opcode as usize - 0x28)
    }
}
