//! Runs of instruction words of branches.

ghost use Rattle.std.specs.Prelude.{◌≡◌, ◌+◌, ◌-◌, ◌*◌, ◌^◌, ◌<◌, ◌++◌, ◌∷◌, [], map, length, OnOk, OnErr};
ghost use Rattle.rv_isa.specs.declared.operations.Op.TheVariants.{Branch as BranchGiven};
ghost use Rattle.rv_isa.specs.declared.operations.BranchOp.TheVariants.{Bne as BneGiven};
ghost use Rattle.rv_isa.specs.Words.{word_of};
ghost use Rattle.frame_layout.specs.Slots.{operand};
ghost use Rattle.frame_layout.specs.Macros.{x0, t0, distance, far, forward};
ghost use Rattle.frame_layout.specs.Templates.{EmitContext, load_operand, store_operand, move_words, unless_words, scale_words, table_front};
ghost use Rattle.control_emit.specs.Choices.{count_words, choice_words};
ghost use Rattle.control_emit.specs.Emits.{IsFront};

use crate::words::far;
use frame_layout::Layout;
use frame_layout::macros::{branch, const_32, imm, reg, shift, zero_extend};
use frame_layout::words::{slot_load, slot_store};
use rv_isa::{
    BranchOp, Imm12, Imm20, ImmOp, Op, RegOp, Register, ShiftOp, WordBuffer, encode_branch,
};
use std::alloc::AllocError;

/// So many values are the most that one branch passes over, with the jump that takes them along.
const MOST_PASSED: u32 = 170;

/// The index of the instruction word that is appended next.
pub fn place_in(buffer: &WordBuffer) -> usize
    ensures is { result ≡ length buffer.now }
    ensures small { result < 2 ^ 62 }
{
    buffer.len()
}

/// Appends the instruction words that move a value from one operand's slot to another's.
fn append_move(
    buffer: &mut WordBuffer,
    layout: &Layout,
    from: u32,
    to: u32,
) -> Result<(), AllocError>
    requires from { operand layout.now from < 2 ^ 32 }
    requires to { operand layout.now to < 2 ^ 32 }
    ensures ok { (w : EmitContext) → w.layout ≡ layout.now → OnOk result
        (buffer.new ≡ buffer.old ++ map word_of (load_operand w t0 from ++ store_operand w t0 to)) }
    ensures err { OnErr result (buffer.new ≡ buffer.old) }
{
    let [a, b, c] = slot_load(Register::T0, layout.operand(from));
    let [d, e, f] = slot_store(Register::T0, layout.operand(to));
    buffer.append(&[a, b, c, d, e, f])
}

/// Appends the instruction words that move so many values, from operand j upward to a label's base and upward, or, if memory runs
/// out, those of some.
pub fn append_moves(
    buffer: &mut WordBuffer,
    layout: &Layout,
    takes: u32,
    j: u32,
    base: u32,
) -> Result<(), AllocError>
    requires from { operand layout.now (j + takes) < 2 ^ 32 }
    requires to { operand layout.now (base + takes) < 2 ^ 32 }
    ensures ok { (w : EmitContext) → w.layout ≡ layout.now → OnOk result (buffer.new ≡ buffer.old ++ map word_of (move_words w takes j base)) }
    ensures front { IsFront buffer.old buffer.new }
{
    for i in 0..takes {
        append_move(buffer, layout, j + i, base + i)?;
    }
    Ok(())
}

/// Appends the instruction words that bring the topmost of so many operands into t0.
pub fn append_topmost(
    buffer: &mut WordBuffer,
    layout: &Layout,
    height: u32,
) -> Result<(), AllocError>
    requires { operand layout.now height < 2 ^ 32 }
    ensures ok { (w : EmitContext) → w.layout ≡ layout.now → OnOk result (buffer.new ≡ buffer.old ++ map word_of (load_operand w t0 (height - 1))) }
    ensures err { OnErr result (buffer.new ≡ buffer.old) }
{
    buffer.append(&slot_load(Register::T0, layout.operand(height.saturating_sub(1))))
}

/// Appends the instruction words that pass over a jump, which takes so many values along, where t0 is zero.
pub fn append_unless(buffer: &mut WordBuffer, takes: u32) -> Result<(), AllocError>
    ensures ok { (w : EmitContext) → OnOk result (buffer.new ≡ buffer.old ++ map word_of (unless_words w (length buffer.old) takes)) }
    ensures err { OnErr result (buffer.new ≡ buffer.old) }
{
    if takes <= MOST_PASSED {
        let bytes = 12 + 24 * takes as u16;
        let offset = Imm12::new(bytes / 2);
        return buffer.push(encode_branch(BranchOp::Beq, Register::T0, Register::ZERO, offset));
    }
    let here = place_in(buffer);
    let past = here + 5 + 6 * takes as usize;
    let past_jump = Imm12::new(6);
    let over = encode_branch(BranchOp::Bne, Register::T0, Register::ZERO, past_jump);
    let [upper, lower] = far(here + 1, past);
    buffer.append(&[over, upper, lower])
}

/// Appends the instruction words that pass over a jump where the topmost operand isn't zero, and a jump that leads to itself.
pub fn append_test(buffer: &mut WordBuffer, layout: &Layout, height: u32) -> Result<(), AllocError>
    requires { operand layout.now height < 2 ^ 32 }
    ensures ok { (w : EmitContext) → w.layout ≡ layout.now → OnOk result (
        let here = length buffer.old + 4 in
        buffer.new ≡ buffer.old ++ (map word_of (load_operand w t0 (height - 1) ++ (BranchGiven BneGiven t0 x0 (forward 12) ∷ [])) ++ map word_of
        (far (distance here here)))) }
    ensures err { OnErr result (buffer.new ≡ buffer.old) }
{
    let here = place_in(buffer) + 4;
    let [a, b, c] = slot_load(Register::T0, layout.operand(height.saturating_sub(1)));
    let over = encode_branch(BranchOp::Bne, Register::T0, Register::ZERO, Imm12::new(6));
    let [upper, lower] = far(here, here);
    buffer.append(&[a, b, c, over, upper, lower])
}

/// Appends the instruction words that make of an index in t0 the count, where it is no less.
fn append_count(buffer: &mut WordBuffer, count: usize) -> Result<(), AllocError>
    ensures ok { OnOk result (buffer.new ≡ buffer.old ++ map word_of (count_words count)) }
    ensures err { OnErr result (buffer.new ≡ buffer.old) }
{
    buffer.append_ops(&[
        &zero_extend(Register::T0),
        &const_32(Register::T1, count as u64),
        &[
            branch(BranchOp::Bltu, Register::T0, Register::T1, 8),
            imm(ImmOp::Addi, Register::T0, Register::T1, 0),
        ],
    ])
}

/// Appends the instruction words that make of an index in t0 the bytes of so many jumps, each of which takes so many values
/// along.
fn append_scale(buffer: &mut WordBuffer, takes: u32) -> Result<(), AllocError>
    ensures ok { (w : EmitContext) → OnOk result (buffer.new ≡ buffer.old ++ map word_of (scale_words w takes)) }
    ensures err { OnErr result (buffer.new ≡ buffer.old) }
{
    match takes {
        0 => buffer.append_ops(&[&[shift(ShiftOp::Slli, Register::T0, Register::T0, 3)]]),
        1 => buffer.append_ops(&[&[shift(ShiftOp::Slli, Register::T0, Register::T0, 5)]]),
        _ => buffer.append_ops(&[
            &const_32(Register::T2, 8 + 24 * u64::from(takes)),
            &[reg(RegOp::Mul, Register::T0, Register::T0, Register::T2)],
        ]),
    }
}

/// Appends the instruction words that go so many bytes on from what follows them.
fn append_choice(buffer: &mut WordBuffer) -> Result<(), AllocError>
    ensures ok { OnOk result (buffer.new ≡ buffer.old ++ map word_of choice_words) }
    ensures err { OnErr result (buffer.new ≡ buffer.old) }
{
    buffer.append_ops(&[&[
        Op::Auipc {
            rd: Register::T1,
            imm: Imm20::new(0),
        },
        reg(RegOp::Add, Register::T1, Register::T1, Register::T0),
        Op::Jalr {
            rd: Register::ZERO,
            rs1: Register::T1,
            imm: Imm12::new(12),
        },
    ]])
}

/// Appends the instruction words that choose one of so many jumps, which take so many values along, or, if memory runs out, the
/// first of them.
pub fn append_front(
    buffer: &mut WordBuffer,
    layout: &Layout,
    height: u32,
    count: usize,
    takes: u32,
) -> Result<(), AllocError>
    requires { operand layout.now height < 2 ^ 32 }
    ensures ok { (w : EmitContext) → w.layout ≡ layout.now → OnOk result (buffer.new ≡ buffer.old ++ map word_of (table_front w height count takes)) }
    ensures front { IsFront buffer.old buffer.new }
{
    append_topmost(buffer, layout, height)?;
    append_count(buffer, count)?;
    append_scale(buffer, takes)?;
    append_choice(buffer)
}
