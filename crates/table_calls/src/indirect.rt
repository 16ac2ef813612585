//! Calls of functions by their index in the table (Core 4.4.5.11).

ghost use Rattle.std.specs.Prelude.{◌≡◌, ◌+◌, ◌-◌, ◌<◌, ◌≤◌, ◌^◌, ℕ, ◌++◌, map, OnOk, OnErr};
ghost use Rattle.rv_isa.specs.Words.{word_of};
ghost use Rattle.frame_layout.specs.Slots.{operand};
ghost use Rattle.rv_isa.specs.declared.operations.LoadOp.TheVariants.{Ld as LdGiven};
ghost use Rattle.rv_isa.specs.declared.operations.Op.TheVariants.{Load as LoadGiven};
ghost use Rattle.frame_layout.specs.Macros.{t0, s4};
ghost use Rattle.frame_layout.specs.Templates.{EmitContext, indirect_words};
ghost use Rattle.table_calls.specs.IndirectParts.{index_words, row_words, going_words};

use crate::frames::{back, shift};
use frame_layout::words::{const_32, slot_load, trap, zero_extend};
use frame_layout::{Layout, macros};
use rv_isa::{
    BranchOp, Imm12, LoadOp, Op, RegOp, Register, ShiftOp, WordBuffer, encode_branch, encode_jalr,
};
use std::alloc::AllocError;
use wasm_defs::TrapKind;

/// The address of the table's first row.
fn table() -> Register
    ensures { result ≡ s4 }
{
    Register::new(20)
}

/// The instruction words that bring the index in a slot into t0, and trap where the table hasn't so many rows.
fn index_within(slot: u32, rows: u32) -> [u32; 14]
    ensures { result ≡ map word_of (index_words slot rows) }
{
    let [a, b, c] = slot_load(Register::T0, slot);
    let [d, e] = zero_extend(Register::T0);
    let [f, g, h, i, j] = const_32(Register::T1, u64::from(rows));
    let past = encode_branch(BranchOp::Bltu, Register::T0, Register::T1, Imm12::new(8));
    let [x, y, z] = trap(TrapKind::UndefinedElement);
    [a, b, c, d, e, f, g, h, i, j, past, x, y, z]
}

/// A doubleword of the row at t0.
fn row_load(rd: Register, offset: u16) -> Op
    requires { offset < 2 ^ 12 }
    ensures { result ≡ LoadGiven LdGiven rd t0 offset }
{
    Op::Load {
        op: LoadOp::Ld,
        rd,
        rs1: Register::T0,
        imm: Imm12::new(offset),
    }
}

/// The instruction words that bring the function of the row of that index into t1, and trap where there is none or one of another
/// type.
fn function_of_row(like: u32) -> [Op; 17]
    ensures { result ≡ row_words like }
{
    let [a, b, c] = macros::trap(TrapKind::UninitializedElement);
    let [d, e, f, g, h] = macros::const_32(Register::T2, u64::from(like));
    let [x, y, z] = macros::trap(TrapKind::TypeMismatch);
    [
        macros::shift(ShiftOp::Slli, Register::T0, Register::T0, 4),
        macros::reg(RegOp::Add, Register::T0, Register::T0, table()),
        row_load(Register::T1, 0),
        macros::branch(BranchOp::Bne, Register::T1, Register::ZERO, 16),
        a,
        b,
        c,
        row_load(Register::T0, 8),
        d,
        e,
        f,
        g,
        h,
        macros::branch(BranchOp::Beq, Register::T0, Register::T2, 16),
        x,
        y,
        z,
    ]
}

/// The instruction words that call the function in t1, with its frame so many slots on.
fn call_within(slots: u32) -> [u32; 13]
    ensures { result ≡ map word_of (going_words slots) }
{
    let [a, b, c, d, e, f] = shift(slots);
    let jump = encode_jalr(Register::RA, Register::T1, Imm12::new(0));
    let [u, v, w, x, y, z] = back(slots);
    [a, b, c, d, e, f, jump, u, v, w, x, y, z]
}

/// Appends the instruction words of an indirect call with so many operands on the stack, of which the topmost is the index and
/// those below it are the arguments, or none if memory runs out. They trap where the index isn't one of the table's rows, the row
/// has no function, or its function's type isn't the one of that number: the least index of an equal type.
pub fn emit_indirect(
    buffer: &mut WordBuffer,
    layout: &Layout,
    height: u32,
    arguments: u32,
    table_minimum: u32,
    like: u32,
) -> Result<(), AllocError>
    requires operands { arguments + 1 ≤ height }
    requires fits { operand layout.now (height - 1) < 2 ^ 32 }
    ensures ok { (w : EmitContext) (type : ℕ) → w.layout ≡ layout.now → w.rows ≡ table_minimum → w.like type ≡ like
        → OnOk result (buffer.new ≡ buffer.old ++ map word_of (indirect_words w height type arguments)) }
    ensures err { OnErr result (buffer.new ≡ buffer.old) }
{
    let index = index_within(layout.operand(height - 1), table_minimum);
    let call = call_within(layout.operand(height - 1 - arguments));
    buffer.append_around(&index, &function_of_row(like), &call)
}
