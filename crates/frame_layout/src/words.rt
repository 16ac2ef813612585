//! The instruction words of runs of operations, for templates that are appended by one `WordBuffer::append`. Where the registers
//! are known, a word is a constant and the bits of an offset.

ghost use Rattle.std.specs.Prelude.{◌≡◌, ◌/◌, ◌%◌, ◌*◌, ◌^◌, ◌<◌, map};
ghost use Rattle.rv_isa.specs.Words.{word_of};
ghost use Rattle.rv_isa.specs.Runs.{hi, lo, load_behind, store_behind};
ghost use Rattle.wasm_defs.specs.Values.{trap_number};
ghost use Rattle.frame_layout.specs.Macros.{load_slot, store_slot, append_bits, const_32, const_64, trap, zero_extend};

use crate::macros::{hi, lo, top_bits};
use rv_isa::{
    Imm12, ImmOp, LoadOp, RegOp, Register, Shamt6, ShiftOp, StoreOp, encode_ecall, encode_imm,
    encode_load, encode_lui, encode_reg, encode_shift, encode_store,
};
use wasm_defs::TrapKind;

/// A doubleword at an offset from the base comes into a register.
#[inline(always)]
#[tactic(auto, unfolding(rv_isa::specs::Words::word_of))]
pub fn load_behind(rd: Register, base: Register, offset: u64) -> [u32; 3]
    requires { offset < 2 ^ 63 }
    ensures { result ≡ map word_of (load_behind rd base offset) }
{
    [
        encode_lui(rd, hi(offset)),
        encode_reg(RegOp::Add, rd, rd, base),
        encode_load(LoadOp::Ld, rd, rd, lo(offset)),
    ]
}

/// A register is stored as a doubleword at an offset from the base. The address is made in another register.
#[inline(always)]
#[tactic(auto, unfolding(rv_isa::specs::Words::word_of))]
pub fn store_behind(rs2: Register, address: Register, base: Register, offset: u64) -> [u32; 3]
    requires { offset < 2 ^ 63 }
    ensures { result ≡ map word_of (store_behind rs2 address base offset) }
{
    [
        encode_lui(address, hi(offset)),
        encode_reg(RegOp::Add, address, address, base),
        encode_store(StoreOp::Sd, address, rs2, lo(offset)),
    ]
}

/// A slot of the frame comes into a register.
#[inline(always)]
pub fn slot_load(rd: Register, slot: u32) -> [u32; 3]
    ensures { result ≡ map word_of (load_slot rd slot) }
{
    load_behind(rd, Register::S0, 8 * u64::from(slot))
}

/// A register is stored into a slot of the frame. The address is made in t3.
#[inline(always)]
pub fn slot_store(rs2: Register, slot: u32) -> [u32; 3]
    ensures { result ≡ map word_of (store_slot rs2 slot) }
{
    store_behind(rs2, Register::T3, Register::S0, 8 * u64::from(slot))
}

/// Eleven more bits.
#[inline(always)]
fn append_bits(rd: Register, bits: u64) -> [u32; 2]
    ensures { result ≡ map word_of (append_bits rd bits) }
{
    [
        encode_shift(ShiftOp::Slli, rd, rd, Shamt6::new(11)),
        encode_imm(ImmOp::Ori, rd, rd, Imm12::new((bits % 0x800) as u16)),
    ]
}

/// A constant of 34 bits, extended by its sign, as that of a number of 32 bits that is extended by its sign or by zeros.
#[inline(always)]
pub fn const_32(rd: Register, value: u64) -> [u32; 5]
    ensures { result ≡ map word_of (const_32 rd value) }
{
    let upper = Imm12::new(((value >> 22) % 0x1000) as u16);
    let top = encode_imm(ImmOp::Addi, rd, Register::ZERO, upper);
    let [a, b] = append_bits(rd, value >> 11);
    let [c, d] = append_bits(rd, value);
    [top, a, b, c, d]
}

/// A constant of 64 bits.
#[inline(always)]
pub fn const_64(rd: Register, value: u64) -> [u32; 11]
    ensures { result ≡ map word_of (const_64 rd value) }
{
    let top = encode_imm(ImmOp::Addi, rd, Register::ZERO, Imm12::new(top_bits(value)));
    let [a, b] = append_bits(rd, value >> 44);
    let [c, d] = append_bits(rd, value >> 33);
    let [e, f] = append_bits(rd, value >> 22);
    let [g, h] = append_bits(rd, value >> 11);
    let [i, j] = append_bits(rd, value);
    [top, a, b, c, d, e, f, g, h, i, j]
}

/// What traps.
#[inline(always)]
pub fn trap(kind: TrapKind) -> [u32; 3]
    ensures { result ≡ map word_of (trap (trap_number kind)) }
{
    let number = Imm12::new(u16::from(kind.number()));
    [
        encode_imm(ImmOp::Addi, Register::A0, Register::ZERO, number),
        encode_imm(ImmOp::Addi, Register::A7, Register::ZERO, Imm12::new(1)),
        encode_ecall(),
    ]
}

/// The bits of a register above the low 32 become zeros.
#[inline(always)]
pub fn zero_extend(rd: Register) -> [u32; 2]
    ensures { result ≡ map word_of (zero_extend rd) }
{
    let half = Shamt6::new(32);
    [
        encode_shift(ShiftOp::Slli, rd, rd, half),
        encode_shift(ShiftOp::Srli, rd, rd, half),
    ]
}
