//! The beginning of a function.

ghost use Rattle.std.specs.Prelude.{◌≡◌, ℕ, suc, ◌<◌, ◌^◌, ◌++◌, map, OnOk, OnErr};
ghost use Rattle.rv_isa.specs.Words.{word_of};
ghost use Rattle.frame_layout.specs.Slots.{link, need};
ghost use Rattle.frame_layout.specs.Templates.{prologue, zero_locals};

use crate::room::room;
use frame_layout::Layout;
use frame_layout::macros::{branch_back, const_32, imm, reg};
use frame_layout::words::slot_store;
use rv_isa::{BranchOp, Imm12, ImmOp, Op, RegOp, Register, StoreOp, WordBuffer};
use std::alloc::AllocError;

/// A loop that stores zeros into the slots of the declared locals, of which there are some.
fn zeros(layout: &Layout) -> [Op; 15]
    requires { link layout.now < 2 ^ 32 }
    ensures { (n : ℕ) → result ≡ zero_locals layout.now (suc n) }
{
    let [a, b, c, d, e] = const_32(Register::T0, 8 * u64::from(layout.params));
    let [f, g, h, i, j] = const_32(Register::T1, 8 * u64::from(layout.link()));
    [
        a,
        b,
        c,
        d,
        e,
        reg(RegOp::Add, Register::T0, Register::T0, Register::S0),
        f,
        g,
        h,
        i,
        j,
        reg(RegOp::Add, Register::T1, Register::T1, Register::S0),
        Op::Store {
            op: StoreOp::Sd,
            rs1: Register::T0,
            rs2: Register::ZERO,
            imm: Imm12::new(0),
        },
        imm(ImmOp::Addi, Register::T0, Register::T0, 8),
        branch_back(BranchOp::Bne, Register::T0, Register::T1, 8),
    ]
}

/// Appends the instruction words at the beginning of a function, or none if memory runs out: they trap where the stack has no
/// room for its frame, keep the return address, and make its declared locals zero.
pub fn emit_prologue(buffer: &mut WordBuffer, layout: &Layout) -> Result<(), AllocError>
    requires { need layout.now < 2 ^ 32 }
    ensures ok { OnOk result (buffer.new ≡ buffer.old ++ map word_of (prologue layout.now)) }
    ensures err { OnErr result (buffer.new ≡ buffer.old) }
{
    let [a, b, c, d, e, f, g, h, i, j] = room(u64::from(layout.need()));
    let [x, y, z] = slot_store(Register::RA, layout.link());
    let front = [a, b, c, d, e, f, g, h, i, j, x, y, z];
    if layout.locals == 0 {
        buffer.append(&front)
    } else {
        buffer.append_around(&front, &zeros(layout), &[])
    }
}
