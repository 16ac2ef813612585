//! Locals (Core 4.4.3).

ghost use Rattle.std.specs.Prelude.{◌≡◌, ◌<◌, ◌≤◌, ◌-◌, ◌^◌, ◌++◌, map, OnOk, OnErr};
ghost use Rattle.rv_isa.specs.Words.{word_of};
ghost use Rattle.frame_layout.specs.Slots.{operand};
ghost use Rattle.frame_layout.specs.Templates.{EmitContext, local_get_words, local_set_words};

use frame_layout::Layout;
use frame_layout::words::{slot_load, slot_store};
use rv_isa::{Register, WordBuffer};
use std::alloc::AllocError;

/// Appends the instruction words of `local.get` with so many operands on the stack, or none if memory runs out.
pub fn emit_local_get(
    buffer: &mut WordBuffer,
    layout: &Layout,
    height: u32,
    index: u32,
) -> Result<(), AllocError>
    requires { operand layout.now height < 2 ^ 32 }
    ensures ok { (w : EmitContext) → w.layout ≡ layout.now → OnOk result (buffer.new ≡ buffer.old ++ map word_of (local_get_words w height index)) }
    ensures err { OnErr result (buffer.new ≡ buffer.old) }
{
    let [a, b, c] = slot_load(Register::T0, layout.local(index));
    let [x, y, z] = slot_store(Register::T0, layout.operand(height));
    buffer.append(&[a, b, c, x, y, z])
}

/// Appends the instruction words of `local.set`, which takes the topmost of so many operands, or none if memory runs out.
pub fn emit_local_set(
    buffer: &mut WordBuffer,
    layout: &Layout,
    height: u32,
    index: u32,
) -> Result<(), AllocError>
    requires operand { 1 ≤ height }
    requires fits { operand layout.now (height - 1) < 2 ^ 32 }
    ensures ok { (w : EmitContext) → w.layout ≡ layout.now → OnOk result (buffer.new ≡ buffer.old ++ map word_of (local_set_words w height index)) }
    ensures err { OnErr result (buffer.new ≡ buffer.old) }
{
    let [a, b, c] = slot_load(Register::T0, layout.operand(height - 1));
    let [x, y, z] = slot_store(Register::T0, layout.local(index));
    buffer.append(&[a, b, c, x, y, z])
}

/// Appends the instruction words of `local.tee`, or none if memory runs out: those of `local.set`, since the operand stays
/// where it is.
pub fn emit_local_tee(
    buffer: &mut WordBuffer,
    layout: &Layout,
    height: u32,
    index: u32,
) -> Result<(), AllocError>
    requires operand { 1 ≤ height }
    requires fits { operand layout.now (height - 1) < 2 ^ 32 }
    ensures ok { (w : EmitContext) → w.layout ≡ layout.now → OnOk result (buffer.new ≡ buffer.old ++ map word_of (local_set_words w height index)) }
    ensures err { OnErr result (buffer.new ≡ buffer.old) }
{
    emit_local_set(buffer, layout, height, index)
}
