//! Sign extensions.

ghost use Rattle.std.specs.Prelude.{◌≡◌, ◌<◌, ◌≤◌, ◌-◌, ◌^◌, ◌++◌, map, OnOk, OnErr};
ghost use Rattle.rv_isa.specs.Words.{word_of};
ghost use Rattle.frame_layout.specs.Slots.{operand};
ghost use Rattle.rv_isa.specs.declared.operations.Op.TheVariants.{Shift};
ghost use Rattle.rv_isa.specs.declared.operations.ShiftOp.TheVariants.{Slli, Srai};
ghost use Rattle.frame_layout.specs.Macros.{t0};
ghost use Rattle.frame_layout.specs.Bodies.{extend_body};
ghost use Rattle.frame_layout.specs.Templates.{EmitContext, on_one};

use crate::frames::on_one;
use frame_layout::Layout;
use frame_layout::macros::shift;
use rv_isa::{Imm12, Op, Register, ShiftOp, WordBuffer};
use std::alloc::AllocError;
use wasm_defs::ExtendOp;

/// The bits above go out upward.
fn left(amount: u8) -> Op
    requires { amount < 2 ^ 6 }
    ensures { result ≡ Shift Slli t0 t0 amount }
{
    shift(ShiftOp::Slli, Register::T0, Register::T0, amount)
}

/// And the sign comes in.
fn right(amount: u8) -> Op
    requires { amount < 2 ^ 6 }
    ensures { result ≡ Shift Srai t0 t0 amount }
{
    shift(ShiftOp::Srai, Register::T0, Register::T0, amount)
}

/// The table of the sign extensions.
pub fn extend(
    buffer: &mut WordBuffer,
    layout: &Layout,
    height: u32,
    op: ExtendOp,
) -> Result<(), AllocError>
    requires operand { 1 ≤ height }
    requires fits { operand layout.now (height - 1) < 2 ^ 32 }
    ensures ok { (w : EmitContext) → w.layout ≡ layout.now → OnOk result (buffer.new ≡ buffer.old ++ map word_of (on_one w height (extend_body op))) }
    ensures err { OnErr result (buffer.new ≡ buffer.old) }
{
    let low = Op::Addiw {
        rd: Register::T0,
        rs1: Register::T0,
        imm: Imm12::new(0),
    };
    match op {
        ExtendOp::I32Extend8S | ExtendOp::I64Extend8S => {
            on_one(buffer, layout, height, &[left(56), right(56)])
        }
        ExtendOp::I32Extend16S | ExtendOp::I64Extend16S => {
            on_one(buffer, layout, height, &[left(48), right(48)])
        }
        ExtendOp::I64Extend32S => on_one(buffer, layout, height, &[low]),
    }
}
