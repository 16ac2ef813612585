//! The memory's size, and growing (Core 4.4.4).

ghost use Rattle.std.specs.Prelude.{◌≡◌, ◌<◌, ◌≤◌, ◌-◌, ◌^◌, ◌++◌, map, OnOk, OnErr};
ghost use Rattle.rv_isa.specs.Words.{word_of};
ghost use Rattle.frame_layout.specs.Slots.{operand};
ghost use Rattle.frame_layout.specs.Templates.{EmitContext, size_words, grow_words};

use frame_layout::Layout;
use frame_layout::registers::memory_size;
use frame_layout::words::{slot_load, slot_store};
use rv_isa::{
    Imm12, ImmOp, Register, Shamt6, ShiftOp, WordBuffer, encode_ecall, encode_imm, encode_shift,
};
use std::alloc::AllocError;

/// Appends the instruction words of `memory.size` with so many operands on the stack, or none if memory runs out: pages of 65,536
/// bytes are counted.
pub fn emit_size(buffer: &mut WordBuffer, layout: &Layout, height: u32) -> Result<(), AllocError>
    requires { operand layout.now height < 2 ^ 32 }
    ensures ok { (w : EmitContext) → w.layout ≡ layout.now → OnOk result (buffer.new ≡ buffer.old ++ map word_of (size_words w height)) }
    ensures err { OnErr result (buffer.new ≡ buffer.old) }
{
    let pages = encode_shift(ShiftOp::Srli, Register::T0, memory_size(), Shamt6::new(16));
    let [x, y, z] = slot_store(Register::T0, layout.operand(height));
    buffer.append(&[pages, x, y, z])
}

/// Appends the instruction words of `memory.grow`, which takes the topmost of so many operands, or none if memory runs out: the
/// environment is asked for so many pages, and its answer, the pages before or -1, is the result.
pub fn emit_grow(buffer: &mut WordBuffer, layout: &Layout, height: u32) -> Result<(), AllocError>
    requires operand { 1 ≤ height }
    requires fits { operand layout.now (height - 1) < 2 ^ 32 }
    ensures ok { (w : EmitContext) → w.layout ≡ layout.now → OnOk result (buffer.new ≡ buffer.old ++ map word_of (grow_words w height)) }
    ensures err { OnErr result (buffer.new ≡ buffer.old) }
{
    let slot = layout.operand(height - 1);
    let [a, b, c] = slot_load(Register::A0, slot);
    let ask = encode_imm(ImmOp::Addi, Register::A7, Register::ZERO, Imm12::new(2));
    let [x, y, z] = slot_store(Register::A0, slot);
    buffer.append(&[a, b, c, ask, encode_ecall(), x, y, z])
}
