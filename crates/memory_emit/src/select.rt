//! `select` (Core 4.4.2).

ghost use Rattle.std.specs.Prelude.{◌≡◌, ◌<◌, ◌≤◌, ◌-◌, ◌^◌, ◌++◌, map, OnOk, OnErr};
ghost use Rattle.rv_isa.specs.Words.{word_of};
ghost use Rattle.frame_layout.specs.Slots.{operand};
ghost use Rattle.frame_layout.specs.Templates.{EmitContext, select_words};

use frame_layout::Layout;
use frame_layout::words::{slot_load, slot_store};
use rv_isa::{BranchOp, Imm12, Register, WordBuffer, encode_branch};
use std::alloc::AllocError;

/// Appends the instruction words of `select`, or none if memory runs out. Of the three topmost operands the topmost is the
/// condition: where it is zero, the second one moves into the slot of the first.
pub fn emit_select(buffer: &mut WordBuffer, layout: &Layout, height: u32) -> Result<(), AllocError>
    requires operands { 3 ≤ height }
    requires fits { operand layout.now (height - 1) < 2 ^ 32 }
    ensures ok { (w : EmitContext) → w.layout ≡ layout.now → OnOk result (buffer.new ≡ buffer.old ++ map word_of (select_words w height)) }
    ensures err { OnErr result (buffer.new ≡ buffer.old) }
{
    let [a, b, c] = slot_load(Register::T0, layout.operand(height - 1));
    let over = encode_branch(BranchOp::Bne, Register::T0, Register::ZERO, Imm12::new(14));
    // Why: docs/DECISIONS.md, "`select` writes nothing where its condition isn't zero"
    let [d, e, f] = slot_load(Register::T0, layout.operand(height - 2));
    let [x, y, z] = slot_store(Register::T0, layout.operand(height - 3));
    buffer.append(&[a, b, c, over, d, e, f, x, y, z])
}
