//! Conversions between the two types.

ghost use Rattle.std.specs.Prelude.{◌≡◌, ◌<◌, ◌≤◌, ◌-◌, ◌^◌, ◌++◌, map, OnOk, OnErr};
ghost use Rattle.rv_isa.specs.Words.{word_of};
ghost use Rattle.frame_layout.specs.Slots.{operand};
ghost use Rattle.frame_layout.specs.Templates.{EmitContext, convert_words};
ghost use Rattle.integer_emit.specs.Sorts.{IsConversion, operation_words};

use crate::frames::on_one;
use frame_layout::Layout;
use frame_layout::macros::zero_extend;
use rv_isa::{Imm12, Op, Register, WordBuffer};
use std::alloc::AllocError;
use wasm_defs::{ConvertOp, Operation, Plain, Token};

/// The table of the conversions. An i32 is kept extended by its sign, so that extension has no
/// instruction words.
fn convert(
    buffer: &mut WordBuffer,
    layout: &Layout,
    height: u32,
    op: ConvertOp,
) -> Result<(), AllocError>
    requires operand { 1 ≤ height }
    requires fits { operand layout.now (height - 1) < 2 ^ 32 }
    ensures ok { (w : EmitContext) → w.layout ≡ layout.now → OnOk result (buffer.new ≡ buffer.old ++ map word_of (convert_words w height op)) }
    ensures err { OnErr result (buffer.new ≡ buffer.old) }
{
    let low = Op::Addiw {
        rd: Register::T0,
        rs1: Register::T0,
        imm: Imm12::new(0),
    };
    match op {
        ConvertOp::Wrap => on_one(buffer, layout, height, &[low]),
        // Why: docs/DECISIONS.md, "`i64.extend_i32_s` has no words"
        ConvertOp::ExtendS => Ok(()),
        ConvertOp::ExtendU => on_one(buffer, layout, height, &zero_extend(Register::T0)),
    }
}

/// Appends the instruction words of a conversion, or none if memory runs out.
pub fn emit_convert(
    buffer: &mut WordBuffer,
    layout: &Layout,
    height: u32,
    token: &Token,
) -> Result<(), AllocError>
    requires sort { IsConversion token.now }
    requires operand { 1 ≤ height }
    requires fits { operand layout.now (height - 1) < 2 ^ 32 }
    ensures ok { (w : EmitContext) → w.layout ≡ layout.now → OnOk result (buffer.new ≡ buffer.old ++ map word_of (operation_words w height token.now)) }
    ensures err { OnErr result (buffer.new ≡ buffer.old) }
{
    match token {
        Token::Plain(Plain::Numeric(Operation::Convert(op))) => {
            convert(buffer, layout, height, *op)
        }
        _ => unreachable!(),
    }
}
