//! Counts of bits. Each is a count of ones, of the operand or of a number that is made from it.

ghost use Rattle.std.specs.Prelude.{◌≡◌, ◌<◌, ◌≤◌, ◌-◌, ◌^◌, [], ◌∷◌, ◌++◌, map, OnOk, OnErr};
ghost use Rattle.rv_isa.specs.declared.operations.ImmOp.TheVariants.{Addi, Xori};
ghost use Rattle.rv_isa.specs.declared.operations.ShiftOp.TheVariants.{Srli};
ghost use Rattle.rv_isa.specs.declared.operations.RegOp.TheVariants.{Add, Sub, And, Mul};
ghost use Rattle.rv_isa.specs.declared.operations.Op.TheVariants.{Reg as RegGiven, Imm as ImmGiven, Shift as ShiftGiven};
ghost use Rattle.rv_isa.specs.Words.{word_of};
ghost use Rattle.wasm_defs.specs.declared.types.ValType.TheVariants.{I32};
ghost use Rattle.frame_layout.specs.Slots.{operand};
ghost use Rattle.frame_layout.specs.Macros.{x0, t0, t1, t2, minus_one};
ghost use Rattle.frame_layout.specs.Bodies.{population, cut, smear, unary_body};
ghost use Rattle.frame_layout.specs.Templates.{EmitContext, load_operand, store_operand, on_one};
ghost use Rattle.integer_emit.specs.Sorts.{IsUnary, operation_words};

use crate::extension::extend;
use frame_layout::Layout;
use frame_layout::macros::{const_64, imm, reg, shift, slot_load, slot_store, zero_extend};
use rv_isa::{ImmOp, Op, RegOp, Register, ShiftOp, WordBuffer};
use std::alloc::AllocError;
use wasm_defs::{Operation, Plain, Token, UnaryOp, ValType};

/// t1 gets the bits of t0 that are so many positions higher.
fn higher(amount: u8) -> Op
    requires { amount < 2 ^ 6 }
    ensures { result ≡ ShiftGiven Srli t1 t0 amount }
{
    shift(ShiftOp::Srli, Register::T1, Register::T0, amount)
}

/// t0 with t1.
fn with_t1(op: RegOp) -> Op
    ensures { result ≡ RegGiven op t0 t0 t1 }
{
    reg(op, Register::T0, Register::T0, Register::T1)
}

/// t0 with t2.
fn with_t2(op: RegOp) -> Op
    ensures { result ≡ RegGiven op t0 t0 t2 }
{
    reg(op, Register::T0, Register::T0, Register::T2)
}

/// t1 keeps those bits that t2 has.
fn masked() -> Op
    ensures { result ≡ RegGiven And t1 t1 t2 }
{
    reg(RegOp::And, Register::T1, Register::T1, Register::T2)
}

/// Each bit is copied onto the one that is so many positions lower.
fn smear(amount: u8) -> [Op; 2]
    requires { amount < 2 ^ 6 }
    ensures { result ≡ smear amount }
{
    [higher(amount), with_t1(RegOp::Or)]
}

/// Every bit below the uppermost one becomes a one: the number has as many zeros as there were before it.
fn smeared() -> [Op; 10]
    ensures { result ≡ smear 1 ++ (smear 2 ++ (smear 4 ++ (smear 8 ++ smear 16))) }
{
    let [a, b] = smear(1);
    let [c, d] = smear(2);
    let [e, f] = smear(4);
    let [g, h] = smear(8);
    let [i, j] = smear(16);
    [a, b, c, d, e, f, g, h, i, j]
}

fn leading_32() -> [Op; 12]
    ensures { result ≡ cut I32 ++ (smear 1 ++ (smear 2 ++ (smear 4 ++ (smear 8 ++ smear 16)))) }
{
    let [x, y] = zero_extend(Register::T0);
    let [a, b, c, d, e, f, g, h, i, j] = smeared();
    [x, y, a, b, c, d, e, f, g, h, i, j]
}

fn leading_64() -> [Op; 12]
    ensures { result ≡ smear 1 ++ (smear 2 ++ (smear 4 ++ (smear 8 ++ (smear 16 ++ smear 32)))) }
{
    let [a, b, c, d, e, f, g, h, i, j] = smeared();
    let [k, l] = smear(32);
    [a, b, c, d, e, f, g, h, i, j, k, l]
}

/// The zeros are the bits of the width that are no ones.
fn others(width: u8) -> [Op; 2]
    requires { width < 2 ^ 7 }
    ensures { result ≡ ImmGiven Addi t1 x0 width ∷ RegGiven Sub t0 t1 t0 ∷ [] }
{
    [
        imm(ImmOp::Addi, Register::T1, Register::ZERO, u16::from(width)),
        reg(RegOp::Sub, Register::T0, Register::T1, Register::T0),
    ]
}

/// The zeros below the lowest one become ones, and all other bits zeros.
fn trailing() -> [Op; 3]
    ensures { result ≡ ImmGiven Xori t1 t0 minus_one ∷ ImmGiven Addi t0 t0 minus_one ∷ RegGiven And t0 t0 t1 ∷ [] }
{
    [
        imm(ImmOp::Xori, Register::T1, Register::T0, 0xFFF),
        imm(ImmOp::Addi, Register::T0, Register::T0, 0xFFF),
        with_t1(RegOp::And),
    ]
}

fn trailing_32() -> [Op; 5]
    ensures { result ≡ ImmGiven Xori t1 t0 minus_one ∷ ImmGiven Addi t0 t0 minus_one ∷ RegGiven And t0 t0 t1 ∷ cut I32 }
{
    let [a, b, c] = trailing();
    let [x, y] = zero_extend(Register::T0);
    [a, b, c, x, y]
}

/// Appends a count of ones of the topmost operand, with other instruction words before it and after it. Pairs of bits, then
/// fours, then bytes become the numbers of their ones, and a product adds the bytes.
fn count_ones(
    buffer: &mut WordBuffer,
    layout: &Layout,
    height: u32,
    before: &[Op],
    after: &[Op],
) -> Result<(), AllocError>
    requires operand { 1 ≤ height }
    requires fits { operand layout.now (height - 1) < 2 ^ 32 }
    ensures ok { (w : EmitContext) → w.layout ≡ layout.now → OnOk result
        (buffer.new ≡ buffer.old ++ map word_of (load_operand w t0 (height - 1) ++
        (before.now ++ (population ++ (after.now ++ store_operand w t0 (height - 1)))))) }
    ensures err { OnErr result (buffer.new ≡ buffer.old) }
{
    let slot = layout.operand(height - 1);
    buffer.append_ops(&[
        &slot_load(Register::T0, slot),
        before,
        &const_64(Register::T2, 0x5555_5555_5555_5555),
        &[higher(1), masked(), with_t1(RegOp::Sub)],
        &const_64(Register::T2, 0x3333_3333_3333_3333),
        &[
            higher(2),
            masked(),
            with_t2(RegOp::And),
            with_t1(RegOp::Add),
        ],
        &const_64(Register::T2, 0x0F0F_0F0F_0F0F_0F0F),
        &[higher(4), with_t1(RegOp::Add), with_t2(RegOp::And)],
        &const_64(Register::T2, 0x0101_0101_0101_0101),
        &[
            with_t2(RegOp::Mul),
            shift(ShiftOp::Srli, Register::T0, Register::T0, 56),
        ],
        after,
        &slot_store(Register::T0, slot),
    ])
}

fn count(
    buffer: &mut WordBuffer,
    layout: &Layout,
    height: u32,
    op: UnaryOp,
    ty: ValType,
) -> Result<(), AllocError>
    requires operand { 1 ≤ height }
    requires fits { operand layout.now (height - 1) < 2 ^ 32 }
    ensures ok { (w : EmitContext) → w.layout ≡ layout.now → OnOk result (buffer.new ≡ buffer.old ++ map word_of (on_one w height (unary_body op ty))) }
    ensures err { OnErr result (buffer.new ≡ buffer.old) }
{
    match (op, ty) {
        (UnaryOp::Clz, ValType::I32) => {
            count_ones(buffer, layout, height, &leading_32(), &others(32))
        }
        (UnaryOp::Clz, ValType::I64) => {
            count_ones(buffer, layout, height, &leading_64(), &others(64))
        }
        (UnaryOp::Ctz, ValType::I32) => { count_ones(buffer, layout, height, &trailing_32(), &[]) }
        (UnaryOp::Ctz, ValType::I64) => count_ones(buffer, layout, height, &trailing(), &[]),
        (UnaryOp::Popcnt, ValType::I32) => {
            count_ones(buffer, layout, height, &zero_extend(Register::T0), &[])
        }
        (UnaryOp::Popcnt, ValType::I64) => count_ones(buffer, layout, height, &[], &[]),
    }
}

/// Appends the instruction words of a count of bits or of a sign extension, or none if memory runs out.
pub fn emit_unary(
    buffer: &mut WordBuffer,
    layout: &Layout,
    height: u32,
    token: &Token,
) -> Result<(), AllocError>
    requires sort { IsUnary token.now }
    requires operand { 1 ≤ height }
    requires fits { operand layout.now (height - 1) < 2 ^ 32 }
    ensures ok { (w : EmitContext) → w.layout ≡ layout.now → OnOk result (buffer.new ≡ buffer.old ++ map word_of (operation_words w height token.now)) }
    ensures err { OnErr result (buffer.new ≡ buffer.old) }
{
    match token {
        Token::Plain(Plain::Numeric(Operation::Unary(ty, op))) => {
            count(buffer, layout, height, *op, *ty)
        }
        Token::Plain(Plain::Numeric(Operation::Extend(op))) => {
            extend(buffer, layout, height, *op)
        }
        _ => unreachable!(),
    }
}
