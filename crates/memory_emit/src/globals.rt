//! Globals (Core 4.4.3).

ghost use Rattle.std.specs.Prelude.{◌≡◌, ◌<◌, ◌≤◌, ◌-◌, ◌^◌, ◌++◌, map, OnOk, OnErr};
ghost use Rattle.rv_isa.specs.Words.{word_of};
ghost use Rattle.frame_layout.specs.Slots.{operand};
ghost use Rattle.frame_layout.specs.Templates.{EmitContext, global_get_words, global_set_words};

use frame_layout::Layout;
use frame_layout::registers::globals;
use frame_layout::words::{load_behind, slot_load, slot_store, store_behind};
use rv_isa::{Register, WordBuffer};
use std::alloc::AllocError;

/// Appends the instruction words of `global.get` with so many operands on the stack, or none if memory runs
/// out.
pub fn emit_global_get(
    buffer: &mut WordBuffer,
    layout: &Layout,
    height: u32,
    index: u32,
) -> Result<(), AllocError>
    requires { operand layout.now height < 2 ^ 32 }
    ensures ok { (w : EmitContext) → w.layout ≡ layout.now → OnOk result (buffer.new ≡ buffer.old ++ map word_of (global_get_words w height index)) }
    ensures err { OnErr result (buffer.new ≡ buffer.old) }
{
    let [a, b, c] = load_behind(Register::T0, globals(), 8 * u64::from(index));
    let [x, y, z] = slot_store(Register::T0, layout.operand(height));
    buffer.append(&[a, b, c, x, y, z])
}

/// Appends the instruction words of `global.set`, which takes the topmost of so many operands, or none if
/// memory runs out.
pub fn emit_global_set(
    buffer: &mut WordBuffer,
    layout: &Layout,
    height: u32,
    index: u32,
) -> Result<(), AllocError>
    requires operand { 1 ≤ height }
    requires fits { operand layout.now (height - 1) < 2 ^ 32 }
    ensures ok { (w : EmitContext) → w.layout ≡ layout.now → OnOk result (buffer.new ≡ buffer.old ++ map word_of (global_set_words w height index)) }
    ensures err { OnErr result (buffer.new ≡ buffer.old) }
{
    let [a, b, c] = slot_load(Register::T0, layout.operand(height - 1));
    let [x, y, z] = store_behind(Register::T0, Register::T3, globals(), 8 * u64::from(index));
    buffer.append(&[a, b, c, x, y, z])
}
