//! `memory.fill`, `memory.copy` and `memory.init` (Core 2.0, 4.4.7).

ghost use Rattle.std.specs.Prelude.{◌≡◌, ◌<◌, ◌≤◌, ◌+◌, ◌*◌, ◌-◌, ◌^◌, ◌++◌, map, OnOk, OnErr};
ghost use Rattle.rv_isa.specs.declared.operations.Op.TheVariants.{Reg as RegGiven};
ghost use Rattle.rv_isa.specs.declared.operations.RegOp.TheVariants.{Add};
ghost use Rattle.rv_isa.specs.Words.{word_of};
ghost use Rattle.frame_layout.specs.BulkWords.{fill_words, copy_words, init_words, load_three, bulk_words};
ghost use Rattle.frame_layout.specs.Slots.{operand};

use crate::drop::length_at;
use crate::parts::{bound, down_loop, fill_loop, number, up_loop};
use frame_layout::Layout;
use frame_layout::registers::{self, memory};
use frame_layout::words::{load_behind, slot_load, trap};
use rv_isa::{BranchOp, Imm12, RegOp, Register, WordBuffer, encode_branch, encode_reg};
use std::alloc::AllocError;
use wasm_defs::{BulkOp, TrapKind};

/// The first register becomes the sum of both.
#[inline(always)]
fn sum(rd: Register, rs2: Register) -> u32
    ensures { result ≡ word_of (RegGiven Add rd rd rs2) }
{
    encode_reg(RegOp::Add, rd, rd, rs2)
}

/// Appends the instruction words of `memory.fill`, which takes the three topmost of so many operands, or none if memory runs out.
pub fn emit_fill(buffer: &mut WordBuffer, layout: &Layout, height: u32) -> Result<(), AllocError>
    requires operands { 3 ≤ height }
    requires fits { operand layout.now (height - 1) < 2 ^ 32 }
    ensures ok { OnOk result (buffer.new ≡ buffer.old ++ map word_of (fill_words layout.now height)) }
    ensures err { OnErr result (buffer.new ≡ buffer.old) }
{
    let [a, b, c, d, e] = number(Register::T0, layout, height - 3);
    let [f, g, h, i, j] = number(Register::T1, layout, height - 1);
    let [k, l, m, n, o] = bound(Register::T0, Register::T1, Register::T2);
    let first = sum(Register::T0, memory());
    let end = sum(Register::T2, memory());
    let [p, q, r] = slot_load(Register::T1, layout.operand(height - 2));
    let [w, x, y, z] = fill_loop();
    buffer.append(&[
        a, b, c, d, e, f, g, h, i, j, k, l, m, n, o, first, end, p, q, r, w, x, y, z,
    ])
}

/// t0, t1 and t2 become the numbers in the three topmost operands.
fn three(layout: &Layout, height: u32) -> [u32; 15]
    requires operands { 3 ≤ height }
    requires fits { operand layout.now (height - 1) < 2 ^ 32 }
    ensures { result ≡ map word_of (load_three layout.now height) }
{
    let [a, b, c, d, e] = number(Register::T0, layout, height - 3);
    let [f, g, h, i, j] = number(Register::T1, layout, height - 2);
    let [k, l, m, n, o] = number(Register::T2, layout, height - 1);
    [a, b, c, d, e, f, g, h, i, j, k, l, m, n, o]
}

/// Appends the instruction words of `memory.copy`, which takes the three topmost of so many operands, or none if memory runs out.
/// They go downward where the destination is above the source, and else upward.
pub fn emit_copy(buffer: &mut WordBuffer, layout: &Layout, height: u32) -> Result<(), AllocError>
    requires operands { 3 ≤ height }
    requires fits { operand layout.now (height - 1) < 2 ^ 32 }
    ensures ok { OnOk result (buffer.new ≡ buffer.old ++ map word_of (copy_words layout.now height)) }
    ensures err { OnErr result (buffer.new ≡ buffer.old) }
{
    let [a, b, c, d, e, f, g, h, i, j, k, l, m, n, o] = three(layout, height);
    let [p, q, r, s, t] = bound(Register::T0, Register::T2, Register::T3);
    let [u, v, w, x, y] = bound(Register::T1, Register::T2, Register::T3);
    let to = sum(Register::T0, memory());
    let from = sum(Register::T1, memory());
    let is_above = encode_branch(BranchOp::Bltu, Register::T1, Register::T0, Imm12::new(16));
    let end = sum(Register::T2, Register::T0);
    let [aa, ab, ac, ad, ae, af] = up_loop(Imm12::new(30));
    let to_end = sum(Register::T0, Register::T2);
    let from_end = sum(Register::T1, Register::T2);
    let [ba, bb, bc, bd, be, bf, bg] = down_loop();
    buffer.append(&[
        a, b, c, d, e, f, g, h, i, j, k, l, m, n, o, p, q, r, s, t, u, v, w, x, y, to, from,
        is_above, end, aa, ab, ac, ad, ae, af, to_end, from_end, ba, bb, bc, bd, be, bf, bg,
    ])
}

/// Appends the instruction words of `memory.init` in a module of so many globals, which takes the three topmost of so many operands,
/// or none if memory runs out.
pub fn emit_init(
    buffer: &mut WordBuffer,
    layout: &Layout,
    height: u32,
    globals: u32,
    segment: u32,
) -> Result<(), AllocError>
    requires operands { 3 ≤ height }
    requires fits { operand layout.now (height - 1) < 2 ^ 32 }
    ensures ok { OnOk result (buffer.new ≡ buffer.old ++ map word_of (init_words layout.now height (8 * (globals + 2 * segment)))) }
    ensures err { OnErr result (buffer.new ≡ buffer.old) }
{
    let [a, b, c, d, e, f, g, h, i, j, k, l, m, n, o] = three(layout, height);
    let length = length_at(globals, segment);
    let [p, q, r] = load_behind(Register::T3, registers::globals(), length);
    let sum_of = encode_reg(RegOp::Add, Register::A0, Register::T1, Register::T2);
    let within = encode_branch(BranchOp::Bgeu, Register::T3, Register::A0, Imm12::new(8));
    let [s, t, u] = trap(TrapKind::MemoryBounds);
    let [v, w, x, y, z] = bound(Register::T0, Register::T2, Register::A0);
    let to = sum(Register::T0, memory());
    let [aa, ab, ac] = load_behind(Register::A0, registers::globals(), length + 8);
    let from = sum(Register::T1, Register::A0);
    let end = sum(Register::T2, Register::T0);
    let [ba, bb, bc, bd, be, bf] = up_loop(Imm12::new(12));
    buffer.append(&[
        a, b, c, d, e, f, g, h, i, j, k, l, m, n, o, p, q, r, sum_of, within, s, t, u, v, w, x, y,
        z, to, aa, ab, ac, from, end, ba, bb, bc, bd, be, bf,
    ])
}

/// Appends the instruction words of `memory.fill`, `memory.copy` or `memory.init` in a module of so many globals, which takes the
/// three topmost of so many operands, or none if memory runs out.
pub fn emit_bulk(
    buffer: &mut WordBuffer,
    layout: &Layout,
    height: u32,
    globals: u32,
    op: BulkOp,
) -> Result<(), AllocError>
    requires operands { 3 ≤ height }
    requires fits { operand layout.now (height - 1) < 2 ^ 32 }
    ensures ok { OnOk result (buffer.new ≡ buffer.old ++ map word_of (bulk_words layout.now globals height op)) }
    ensures err { OnErr result (buffer.new ≡ buffer.old) }
{
    match op {
        BulkOp::Fill => emit_fill(buffer, layout, height),
        BulkOp::Copy => emit_copy(buffer, layout, height),
        BulkOp::Init(segment) => emit_init(buffer, layout, height, globals, segment),
    }
}
