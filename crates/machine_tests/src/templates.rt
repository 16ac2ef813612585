//! The words of the compiler's templates, with random operands.
ghost use Rattle.std.specs.Prelude.{◌<◌};

use crate::assembly::{
    A7, ADD, ADDI, ADDIW, AUIPC, BEQ, BGEU, BLTU, BNE, JALR, LD, LENGTH, OR, ORI, RA, S0, S1, S2,
    S3, S4, S5, SD, SLLI, SLTIU, SLTU, SRLI, SUB, T0, T1, T2, T3, Text, X0, XORI,
};
use crate::random::{below, next};

/// The operations on two registers: those of 64 bits, and from index 18 on those of 32 bits.
const REG: [u32; 28] = [
    0x33,
    0x4000_0033,
    0x1033,
    0x2033,
    0x3033,
    0x4033,
    0x5033,
    0x4000_5033,
    0x6033,
    0x7033,
    0x200_0033,
    0x200_1033,
    0x200_2033,
    0x200_3033,
    0x200_4033,
    0x200_5033,
    0x200_6033,
    0x200_7033,
    0x3B,
    0x4000_003B,
    0x103B,
    0x503B,
    0x4000_503B,
    0x200_003B,
    0x200_403B,
    0x200_503B,
    0x200_603B,
    0x200_703B,
];

/// The branches.
const BRANCHES: [u32; 6] = [0x63, 0x1063, 0x4063, 0x5063, 0x6063, 0x7063];

/// The loads and how many bytes each reads.
const LOADS: [(u32, u64); 7] = [
    (0x3, 1),
    (0x1003, 2),
    (0x2003, 4),
    (0x3003, 8),
    (0x4003, 1),
    (0x5003, 2),
    (0x6003, 4),
];

/// The stores and how many bytes each writes.
const STORES: [(u32, u64); 4] = [(0x23, 1), (0x1023, 2), (0x2023, 4), (0x3023, 8)];

/// How many kinds of templates there are.
const KINDS: u64 = 38;

/// LBU and SB.
const LBU: u32 = 0x4003;

const SB: u32 = 0x23;

/// Jumps back by 3, 5 and 6 words.
const BACK_3: u32 = 0xFF5F_F06F;

const BACK_5: u32 = 0xFEDF_F06F;

const BACK_6: u32 = 0xFE9F_F06F;

/// An offset of a slot: mostly one of the first eight.
fn slot(seed: &mut u64) -> u64
    ensures { result < 5000 }
{
    let far = if below(seed, 24) == 0 { 4072 } else { 0 };
    below(seed, 8) * 8 + far
}

/// A number of 32 bits, extended by its sign: small, or any.
fn number(seed: &mut u64) -> u64 {
    match below(seed, 4) {
        0 => next(seed) % 0x1_0000_0000,
        1 => (next(seed) % 0x8000_0000).wrapping_sub(0x8000_0000),
        2 => below(seed, 100),
        _ => below(seed, 4),
    }
}

/// A distance of a jump, in bytes.
fn distance(seed: &mut u64) -> u64 {
    (below(seed, 64) * 4).wrapping_sub(128)
}

/// An operation on two registers.
fn any_reg(seed: &mut u64) -> u32 {
    REG[(next(seed) / 0x100 % 28) as usize]
}

/// A branch.
fn any_branch(seed: &mut u64) -> u32 {
    BRANCHES[(next(seed) / 0x100 % 6) as usize]
}

/// A rotation of t0 by t1.
fn rotation(text: &mut Text, seed: &mut u64) {
    text.reg(any_reg(seed), T2, T0, T1);
    text.reg(SUB, T1, X0, T1);
    text.reg(any_reg(seed), T0, T0, T1);
    text.reg(OR, T0, T0, T2);
}

/// t0 and t1 make t0.
fn body(text: &mut Text, seed: &mut u64) {
    let op = any_reg(seed);
    match below(seed, 10) {
        0 => text.reg(op, T0, T1, T0),
        1 => {
            text.reg(op, T0, T0, T1);
            text.imm(XORI, T0, T0, 1);
        }
        2 => {
            text.reg(op, T0, T1, T0);
            text.imm(XORI, T0, T0, 1);
        }
        3 => {
            text.reg(SUB, T0, T0, T1);
            text.imm(SLTIU, T0, T0, 1);
        }
        4 => {
            text.reg(SUB, T0, T0, T1);
            text.reg(SLTU, T0, X0, T0);
        }
        5 => rotation(text, seed),
        _ => text.reg(op, T0, T0, T1),
    }
}

/// Two slots in a row make the first, past a trap where the second is zero if that is wanted.
fn binary(text: &mut Text, seed: &mut u64, at: u64, guarded: bool)
    requires { at < 5000 }
{
    text.load_slot(T0, S0, at);
    text.load_slot(T1, S0, at + 8);
    if guarded {
        text.guard(BNE, T1, X0, 2);
    }
    body(text, seed);
    text.store_slot(T0, S0, at);
}

/// A slot is changed.
fn unary(text: &mut Text, seed: &mut u64) {
    let at = slot(seed);
    text.load_slot(T0, S0, at);
    match below(seed, 3) {
        0 => text.imm(SLTIU, T0, T0, 1),
        1 => text.imm(ADDIW, T0, T0, 0),
        _ => text.low_half(),
    }
    text.store_slot(T0, S0, at);
}

/// A slot is the address of so many bytes of the memory, which comes into t0.
fn address(text: &mut Text, seed: &mut u64, at: u64, width: u64) {
    text.load_slot(T0, S0, at);
    text.low_half();
    text.number(T1, below(seed, 20));
    text.reg(ADD, T0, T0, T1);
    text.imm(ADDI, T1, T0, width);
    text.guard(BGEU, S2, T1, 4);
    text.reg(ADD, T0, T0, S1);
}

/// A load of the memory.
fn load(text: &mut Text, seed: &mut u64) {
    let (op, width) = LOADS[(next(seed) / 0x100 % 7) as usize];
    let at = slot(seed);
    address(text, seed, at, width);
    text.imm(op, T0, T0, 0);
    text.store_slot(T0, S0, at);
}

/// A store in the memory.
fn store(text: &mut Text, seed: &mut u64) {
    let (op, width) = STORES[(next(seed) / 0x100 % 4) as usize];
    let at = slot(seed);
    address(text, seed, at, width);
    text.load_slot(T2, S0, at + 8);
    text.store(op, T0, T2, 0);
}

/// A number of 64 bits into a slot.
fn wide(text: &mut Text, seed: &mut u64) {
    let value = next(seed);
    // the first nine bits, extended by their sign
    let top = value >> 55;
    text.imm(ADDI, T0, X0, if top < 0x100 { top } else { top + 0xE00 });
    text.append(T0, value >> 44);
    text.append(T0, value >> 33);
    text.append(T0, value >> 22);
    text.append(T0, value >> 11);
    text.append(T0, value);
    text.store_slot(T0, S0, slot(seed));
}

/// A slot is the index of a jump.
fn choose(text: &mut Text, seed: &mut u64) {
    text.load_slot(T0, S0, slot(seed));
    text.low_half();
    text.number(T1, below(seed, 5));
    text.branch(BLTU, T0, T1, 2);
    text.imm(ADDI, T0, T1, 0);
    text.imm(SLLI, T0, T0, 3);
    text.upper(AUIPC, T1, 0);
    text.reg(ADD, T1, T1, T0);
    text.imm(JALR, X0, T1, 12);
}

/// A slot is the index of a row of the table, whose function comes into t1.
fn table_row(text: &mut Text, seed: &mut u64) {
    text.load_slot(T0, S0, slot(seed));
    text.low_half();
    text.number(T1, below(seed, 6));
    text.guard(BLTU, T0, T1, 5);
    text.imm(SLLI, T0, T0, 4);
    text.reg(ADD, T0, T0, S4);
    text.imm(LD, T1, T0, 0);
    text.guard(BNE, T1, X0, 6);
    text.imm(LD, T0, T0, 8);
    text.number(T2, below(seed, 2));
    text.guard(BEQ, T0, T2, 7);
}

/// Doublewords from t0 to t1 become zero.
fn clear(text: &mut Text) {
    text.store(SD, T0, X0, 0);
    text.imm(ADDI, T0, T0, 8);
    // a branch by two words back
    text.push(0xFE62_9CE3);
}

/// A byte is stored at each of some addresses, which are in the memory or near its end.
fn fill(text: &mut Text) {
    text.reg(ADD, T2, T2, T0);
    text.branch(BEQ, T0, T2, 4);
    text.store(SB, T0, T1, 0);
    text.imm(ADDI, T0, T0, 1);
    text.push(BACK_3);
}

/// Bytes are copied upward. The branch out of the loop is by the words of one of the templates, or by others.
fn copy_up(text: &mut Text, seed: &mut u64) {
    text.reg(ADD, T2, T2, T0);
    text.branch(BEQ, T0, T2, below(seed, 2) * 9 + 6 + below(seed, 8) / 7);
    text.imm(LBU, T3, T1, 0);
    text.store(SB, T0, T3, 0);
    text.imm(ADDI, T0, T0, 1);
    text.imm(ADDI, T1, T1, 1);
    text.push(BACK_5);
}

/// Bytes are copied downward.
fn copy_down(text: &mut Text) {
    text.branch(BEQ, T2, X0, 7);
    text.imm(ADDI, T0, T0, 0xFFF);
    text.imm(ADDI, T1, T1, 0xFFF);
    text.imm(LBU, T3, T1, 0);
    text.store(SB, T0, T3, 0);
    text.imm(ADDI, T2, T2, 0xFFF);
    text.push(BACK_6);
}

/// A loop that stores one byte a turn.
fn loop_template(text: &mut Text, seed: &mut u64, kind: u64) {
    text.number(T0, below(seed, 76));
    text.reg(ADD, T0, T0, S1);
    text.number(T1, below(seed, 76));
    text.reg(ADD, T1, T1, S1);
    text.number(T2, below(seed, 48));
    match kind {
        0 => fill(text),
        1 => copy_up(text, seed),
        _ => copy_down(text),
    }
}

/// s0 moves by a number of bytes.
fn frame(text: &mut Text, seed: &mut u64, op: u32) {
    text.number(T0, below(seed, 12) * 8);
    text.reg(op, S0, S0, T0);
}

/// A trap where so many bytes after s0 aren't in the stack.
fn room(text: &mut Text, seed: &mut u64) {
    text.number(T0, below(seed, 64) * 8);
    text.reg(ADD, T0, T0, S0);
    text.guard(BGEU, S5, T0, 8);
}

/// A move between slots.
fn move_slot(text: &mut Text, seed: &mut u64) {
    text.load_slot(T0, S0, slot(seed));
    text.store_slot(T0, S0, slot(seed));
}

/// A slot is tested by a branch over so many words.
fn test(text: &mut Text, seed: &mut u64, op: u32, at: u64, skip: u64) {
    text.load_slot(T0, S0, at);
    text.branch(op, T0, X0, skip);
}

/// Two operands come into slots in a row, which become one. In half of the cases its value then comes into another slot.
fn operands(text: &mut Text, seed: &mut u64) {
    let at = slot(seed);
    text.load_slot(T0, S0, slot(seed));
    text.store_slot(T0, S0, at);
    match below(seed, 2) {
        0 => text.load_slot(T0, S0, slot(seed)),
        _ => text.number(T0, number(seed)),
    }
    text.store_slot(T0, S0, at + 8);
    binary(text, seed, at, false);
    if below(seed, 2) == 0 {
        text.load_slot(T0, S0, at);
        text.store_slot(T0, S0, slot(seed));
    }
}

/// A template that computes.
fn value_template(text: &mut Text, seed: &mut u64, kind: u64) {
    match kind {
        0 | 1 => move_slot(text, seed),
        2 => {
            text.number(T0, number(seed));
            text.store_slot(T0, S0, slot(seed));
        }
        3..=5 => {
            let at = slot(seed);
            binary(text, seed, at, false);
        }
        6 => {
            let at = slot(seed);
            binary(text, seed, at, true);
        }
        7 => unary(text, seed),
        8 => load(text, seed),
        9 => store(text, seed),
        10 => wide(text, seed),
        11 => {
            text.load_slot(T0, S3, slot(seed));
            text.store_slot(T0, S0, slot(seed));
        }
        12 => {
            text.load_slot(T0, S0, slot(seed));
            text.store_slot(T0, S3, slot(seed));
        }
        13 => {
            text.imm(SRLI, T0, S2, 16);
            text.store_slot(T0, S0, slot(seed));
        }
        14 => clear(text),
        15 => {
            text.number(T1, number(seed));
            text.reg(ADD, T1, T1, S0);
        }
        16 => text.load_slot(A7, S0, slot(seed)),
        17 => text.store_slot(T1, S0, slot(seed)),
        18 => operands(text, seed),
        19 => {
            move_slot(text, seed);
            let at = slot(seed);
            binary(text, seed, at, false);
        }
        20 => {
            text.number(T0, number(seed));
            text.reg(ADD, T0, T0, S0);
            text.number(T1, number(seed));
            text.reg(ADD, T1, T1, S0);
        }
        _ => text.number(T2, number(seed)),
    }
}

/// A template that branches.
fn branch_template(text: &mut Text, seed: &mut u64, kind: u64) {
    let at = slot(seed);
    match kind {
        0 => {
            let (op, skip) = (any_branch(seed), below(seed, 12));
            test(text, seed, op, at, skip);
        }
        1 => {
            let op = any_branch(seed);
            test(text, seed, op, at, 3);
            text.far(T3, X0, distance(seed));
        }
        2 => {
            test(text, seed, BNE, at + 16, 7);
            text.load_slot(T0, S0, at + 8);
            text.store_slot(T0, S0, at);
        }
        3 => choose(text, seed),
        4 => text.far(T3, X0, distance(seed)),
        _ => room(text, seed),
    }
}

/// A template that calls or returns.
fn call_template(text: &mut Text, seed: &mut u64, kind: u64) {
    match kind {
        0 => table_row(text, seed),
        1 => {
            frame(text, seed, ADD);
            text.far(RA, RA, distance(seed));
        }
        2 => {
            frame(text, seed, ADD);
            text.imm(JALR, RA, T1, 0);
        }
        3 => {
            room(text, seed);
            text.store_slot(RA, S0, slot(seed));
        }
        4 => {
            text.load_slot(RA, S0, slot(seed));
            text.imm(JALR, X0, RA, 0);
        }
        5 => {
            text.load_slot(RA, S0, slot(seed));
            move_slot(text, seed);
            text.imm(JALR, X0, RA, 0);
        }
        _ => frame(text, seed, SUB),
    }
}

/// A random template.
fn template(text: &mut Text, seed: &mut u64) {
    let kind = below(seed, KINDS);
    match kind {
        0..=21 => value_template(text, seed, kind),
        22..=27 => branch_template(text, seed, kind - 22),
        28..=34 => call_template(text, seed, kind - 28),
        _ => loop_template(text, seed, kind - 35),
    }
}

/// A text of random templates. So many of 64 words stand after the next one in place of before it, and in as many a bit is
/// another one: so there are other orders, other registers, and words of no template.
pub(crate) fn random_text(seed: &mut u64, changed: u64) -> Text {
    let mut text = Text::new();
    for _ in 0..64 {
        template(&mut text, seed);
    }
    for i in 1..LENGTH {
        if below(seed, 64) < changed {
            text.words.swap(i - 1, i);
        }
    }
    for word in &mut text.words {
        if below(seed, 64) < changed {
            *word ^= 1 << (next(seed) / 0x100 % 32);
        }
    }
    text
}
