//! Runs of instruction words that the templates share.

ghost use Rattle.std.specs.Prelude.{ℕ, ◌≡◌, ◌<◌, ◌^◌, map};
ghost use Rattle.rv_isa.specs.declared.operations.ImmOp.TheVariants.{Addi};
ghost use Rattle.rv_isa.specs.declared.operations.Op.TheVariants.{Imm as ImmGiven, Jal as JalGiven};
ghost use Rattle.rv_isa.specs.Words.{word_of};
ghost use Rattle.frame_layout.specs.BulkWords.{bound, fill_loop, up_loop, down_loop, load_number};
ghost use Rattle.frame_layout.specs.Macros.{forward, minus_one};
ghost use Rattle.frame_layout.specs.Slots.{operand};

use frame_layout::Layout;
use frame_layout::registers::memory_size;
use frame_layout::words::{slot_load, trap, zero_extend};
use rv_isa::{
    BranchOp, Imm12, Imm20, ImmOp, LoadOp, Op, RegOp, Register, StoreOp, encode, encode_branch,
    encode_imm, encode_load, encode_reg, encode_store,
};
use wasm_defs::TrapKind;

/// A register becomes the number in an operand.
pub fn number(rd: Register, layout: &Layout, place: u32) -> [u32; 5]
    requires { operand layout.now place < 2 ^ 32 }
    ensures { result ≡ map word_of (load_number layout.now rd place) }
{
    let [a, b, c] = slot_load(rd, layout.operand(place));
    let [d, e] = zero_extend(rd);
    [a, b, c, d, e]
}

/// A third register becomes the sum of two. The words trap where that is past the end of the memory.
pub fn bound(a: Register, b: Register, r: Register) -> [u32; 5]
    ensures { result ≡ map word_of (bound a b r) }
{
    let sum = encode_reg(RegOp::Add, r, a, b);
    let within = encode_branch(BranchOp::Bgeu, memory_size(), r, Imm12::new(8));
    let [x, y, z] = trap(TrapKind::MemoryBounds);
    [sum, within, x, y, z]
}

/// A jump back.
#[inline(always)]
#[tactic(auto, unfolding(rv_isa::specs::Words::word_of))]
fn jump(offset: Imm20) -> u32
    ensures { result ≡ word_of (JalGiven 0 offset) }
{
    encode(Op::Jal {
        rd: Register::ZERO,
        offset,
    })
}

/// One is added to a register.
#[inline(always)]
fn one_more(rd: Register) -> u32
    ensures { result ≡ word_of (ImmGiven Addi rd rd 1) }
{
    encode_imm(ImmOp::Addi, rd, rd, Imm12::new(1))
}

/// One is taken from a register.
#[inline(always)]
fn one_less(rd: Register) -> u32
    ensures { result ≡ word_of (ImmGiven Addi rd rd minus_one) }
{
    encode_imm(ImmOp::Addi, rd, rd, Imm12::new(0xFFF))
}

/// The byte in t1 is stored at each address from t0 up to t2.
pub fn fill_loop() -> [u32; 4]
    ensures { result ≡ map word_of fill_loop }
{
    [
        encode_branch(BranchOp::Beq, Register::T0, Register::T2, Imm12::new(8)),
        encode_store(StoreOp::Sb, Register::T0, Register::T1, Imm12::new(0)),
        one_more(Register::T0),
        jump(Imm20::new(0xF_FFFA)),
    ]
}

/// The bytes from t1 on are stored at the addresses from t0 up to t2. Then the words branch by an offset.
pub fn up_loop(exit: Imm12) -> [u32; 6]
    ensures { (bytes : ℕ) → forward bytes ≡ exit → result ≡ map word_of (up_loop bytes) }
{
    [
        encode_branch(BranchOp::Beq, Register::T0, Register::T2, exit),
        encode_load(LoadOp::Lbu, Register::T3, Register::T1, Imm12::new(0)),
        encode_store(StoreOp::Sb, Register::T0, Register::T3, Imm12::new(0)),
        one_more(Register::T0),
        one_more(Register::T1),
        jump(Imm20::new(0xF_FFF6)),
    ]
}

/// t0 and t1 go down t2 times, and each byte at t1 is stored at t0.
pub fn down_loop() -> [u32; 7]
    ensures { result ≡ map word_of down_loop }
{
    [
        encode_branch(BranchOp::Beq, Register::T2, Register::ZERO, Imm12::new(14)),
        one_less(Register::T0),
        one_less(Register::T1),
        encode_load(LoadOp::Lbu, Register::T3, Register::T1, Imm12::new(0)),
        encode_store(StoreOp::Sb, Register::T0, Register::T3, Imm12::new(0)),
        one_less(Register::T2),
        jump(Imm20::new(0xF_FFF4)),
    ]
}
