//! How many instruction words a token has, without making them.

ghost use Rattle.std.specs.Prelude.{◌≡◌, ◌≤◌, ◌+◌, false, length, ℕ, List};
ghost use Rattle.frame_layout.specs.declared.layout.Layout.{Layout as LayoutGiven};
ghost use Rattle.frame_layout.specs.Bodies.{unary_body, binary_body, compare_body, extend_body};
ghost use Rattle.frame_layout.specs.BulkWords.{bulk_words};
ghost use Rattle.frame_layout.specs.Templates.{Declarations, EmitContext, Label, convert_words, operate_words, words, prologue, epilogue};
ghost use Rattle.body_compiler.specs.Steps.{branches_plain, max_lift};

use wasm_defs::{
    BinaryOp, BulkOp, CompareOp, ConvertOp, ExtendOp, Operation, Plain, UnaryOp, ValType,
};

fn unary_words(op: UnaryOp, ty: ValType) -> u32
    ensures { result ≡ length (unary_body op ty) }
{
    match (op, ty) {
        (UnaryOp::Clz, _) => 70,
        (UnaryOp::Ctz, ValType::I32) => 61,
        (UnaryOp::Ctz, ValType::I64) => 59,
        (UnaryOp::Popcnt, ValType::I32) => 58,
        (UnaryOp::Popcnt, ValType::I64) => 56,
    }
}

fn binary_words(op: BinaryOp, ty: ValType) -> u32
    ensures { result ≡ length (binary_body op ty) }
{
    match (op, ty) {
        (BinaryOp::DivS, ValType::I32) => 12,
        (BinaryOp::DivS, ValType::I64) => 13,
        (BinaryOp::DivU | BinaryOp::RemS | BinaryOp::RemU, _) => 5,
        (BinaryOp::Rotl | BinaryOp::Rotr, _) => 4,
        _ => 1,
    }
}

fn compare_words(op: CompareOp) -> u32
    ensures { result ≡ length (compare_body op) }
{
    match op {
        CompareOp::LtS | CompareOp::LtU | CompareOp::GtS | CompareOp::GtU => 1,
        _ => 2,
    }
}

fn convert_words(op: ConvertOp) -> u32
    ensures { (w : EmitContext) (h : ℕ) → result ≡ length (convert_words w h op) }
{
    match op {
        ConvertOp::Wrap => 7,
        ConvertOp::ExtendS => 0,
        ConvertOp::ExtendU => 8,
    }
}

fn extend_words(op: ExtendOp) -> u32
    ensures { result ≡ length (extend_body op) }
{
    match op {
        ExtendOp::I64Extend32S => 1,
        _ => 2,
    }
}

/// Those of a numeric operation: three for each operand, three for the result, and its own.
#[inline(always)]
fn operation_words(operation: &Operation) -> u32
    ensures { (w : EmitContext) (h : ℕ) → result ≡ length (operate_words w h operation.now) }
{
    match operation {
        Operation::Unary(ty, op) => 6 + unary_words(*op, *ty),
        Operation::Test(_) => 7,
        Operation::Binary(ty, op) => 9 + binary_words(*op, *ty),
        Operation::Compare(_, op) => 9 + compare_words(*op),
        Operation::Convert(op) => convert_words(*op),
        Operation::Extend(op) => 6 + extend_words(*op),
    }
}

fn bulk_words(op: BulkOp) -> u32
    ensures { (l : LayoutGiven) (globals h : ℕ) → result ≡ length (bulk_words l globals h op) }
{
    match op {
        BulkOp::Fill => 24,
        BulkOp::Copy => 44,
        BulkOp::Init(_) => 40,
    }
}

/// How many instruction words an instruction has at a reachable point that is no branch. It is the same wherever it stands.
#[inline(always)]
pub(crate) fn plain_words(plain: &Plain) -> u32
    requires { branches_plain plain.now ≡ false }
    ensures { (w : EmitContext) (d : Declarations) (labels : List Label) (h : ℕ) → result ≡ length (words w d labels h 0 plain.now) }
{
    match plain {
        Plain::Unreachable => 3,
        Plain::Nop | Plain::Drop => 0,
        Plain::Call(_) => 14,
        Plain::CallIndirect(_, _) => 44,
        Plain::Select => 10,
        Plain::LocalGet(_) | Plain::LocalSet(_) | Plain::LocalTee(_) => 6,
        Plain::GlobalGet(_) | Plain::GlobalSet(_) => 6,
        Plain::Load(_, _) | Plain::Store(_, _) => 21,
        Plain::MemorySize => 4,
        Plain::MemoryGrow => 8,
        Plain::Bulk(op) => bulk_words(*op),
        Plain::DataDrop(_) => 3,
        Plain::Const(ValType::I32, _) => 8,
        Plain::Const(ValType::I64, _) => 14,
        Plain::Numeric(operation) => operation_words(operation),
        Plain::Br(_) | Plain::BrIf(_) | Plain::BrTable(_, _) | Plain::Return => unreachable!(),
    }
}

/// How many begin and end a function with so many declared locals and results.
pub(crate) fn frame_words(locals: u32, results: u32) -> u32
    requires few { results ≤ max_lift }
    ensures { (l : LayoutGiven) → l.locals ≡ locals → result ≡ length (prologue l) + length (epilogue l results) }
{
    let results = 6 * results;
    if locals == 0 {
        17 + results
    } else {
        32 + results
    }
}
