//! The operation of an instruction word (sections 2.2 and 2.3, chapter 24).
ghost use Rattle.std.specs.Prelude.{◌≡◌, ◌↔◌, ◌^◌, ◌<◌, ◌+◌, IsNone};
ghost use Rattle.rv_isa.specs.declared.operations.Op.{Op};
ghost use Rattle.rv_isa.specs.Words.{field, rd, rs1, rs2, funct3, r_code, shift_code, i_imm, s_imm, b_imm, u_imm, j_imm, jalr_of, branch_of, load_of, store_of};
ghost use Rattle.rv_isa.specs.Words.{funct, shift_op, shift_w_op, reg_op, reg_w_op, shift_of, imm_of, imm_w_of};
ghost use Rattle.rv_isa.specs.Words.{reg_of, reg_w_of, fence_of, system_of, with_opcode, decoded, Encodes};

use crate::fields::{Imm12, Imm20, Register, Shamt5, Shamt6};
use crate::operations::{BranchOp, ImmOp, LoadOp, Op, RegOp, RegOpW, ShiftOp, ShiftOpW, StoreOp};
use crate::table::{ADDIW_FUNCT3, EBREAK, ECALL, FENCE_FUNCT3, JALR_FUNCT3, Opcode};

/// So many bits of an instruction word, from the bit `low` upward.
#[inline(always)]
pub fn field(word: u32, low: u32, width: u32) -> u32
    requires low_is_a_bit { low < 32 }
    requires width_fits { width < 32 }
    ensures value { result ≡ field word low width }
    ensures small { result < 2 ^ width }
{
    (word >> low) & ((1 << width) - 1)
}

/// The field rd.
#[inline(always)]
pub fn rd(word: u32) -> Register
    ensures { result ≡ rd word }
{
    Register::new(field(word, 7, 5) as u8)
}

/// The field rs1.
#[inline(always)]
pub fn rs1(word: u32) -> Register
    ensures { result ≡ rs1 word }
{
    Register::new(field(word, 15, 5) as u8)
}

/// The field rs2.
#[inline(always)]
pub fn rs2(word: u32) -> Register
    ensures { result ≡ rs2 word }
{
    Register::new(field(word, 20, 5) as u8)
}

#[inline(always)]
fn funct3(word: u32) -> u32
    ensures value { result ≡ funct3 word }
    ensures small { result < 2 ^ 3 }
{
    field(word, 12, 3)
}

/// funct7 and funct3 as one number.
#[inline(always)]
fn r_code(word: u32) -> u32
    ensures { result ≡ r_code word }
{
    field(word, 25, 7) * 8 + funct3(word)
}

/// The same of a shift of 64 bits, whose amount has the lowest bit of funct7.
#[inline(always)]
fn shift_code(word: u32) -> u32
    ensures { result ≡ shift_code word }
{
    field(word, 26, 6) * 2 * 8 + funct3(word)
}

#[inline(always)]
fn i_imm(word: u32) -> Imm12
    ensures { result ≡ i_imm word }
{
    Imm12::new(field(word, 20, 12) as u16)
}

/// The immediate of the S format.
#[inline(always)]
pub fn s_imm(word: u32) -> Imm12
    ensures { result ≡ s_imm word }
{
    Imm12::new((field(word, 25, 7) * 0x20 + field(word, 7, 5)) as u16)
}

/// The immediate of the B format.
#[inline(always)]
pub fn b_imm(word: u32) -> Imm12
    ensures { result ≡ b_imm word }
{
    let sign = field(word, 31, 1) * 0x800;
    Imm12::new(
        (sign + field(word, 7, 1) * 0x400 + field(word, 25, 6) * 0x10 + field(word, 8, 4)) as u16,
    )
}

/// The immediate of the U format.
#[inline(always)]
pub fn u_imm(word: u32) -> Imm20
    ensures { result ≡ u_imm word }
{
    Imm20::new(field(word, 12, 20))
}

/// The immediate of the J format.
#[inline(always)]
pub fn j_imm(word: u32) -> Imm20
    ensures { result ≡ j_imm word }
{
    let sign = field(word, 31, 1) * 0x8_0000;
    Imm20::new(sign + field(word, 12, 8) * 0x800 + field(word, 20, 1) * 0x400 + field(word, 21, 10))
}

#[inline(always)]
fn jalr_of(word: u32) -> Option<Op>
    ensures { result ≡ jalr_of word }
{
    if funct3(word) == JALR_FUNCT3 {
        Some(Op::Jalr {
            rd: rd(word),
            rs1: rs1(word),
            imm: i_imm(word),
        })
    } else {
        None
    }
}

#[inline(always)]
fn branch_of(word: u32) -> Option<Op>
    ensures { result ≡ branch_of word }
{
    let op = BranchOp::with_funct3(funct3(word))?;
    Some(Op::Branch {
        op,
        rs1: rs1(word),
        rs2: rs2(word),
        offset: b_imm(word),
    })
}

#[inline(always)]
fn load_of(word: u32) -> Option<Op>
    ensures { result ≡ load_of word }
{
    let op = LoadOp::with_funct3(funct3(word))?;
    Some(Op::Load {
        op,
        rd: rd(word),
        rs1: rs1(word),
        imm: i_imm(word),
    })
}

#[inline(always)]
fn store_of(word: u32) -> Option<Op>
    ensures { result ≡ store_of word }
{
    let op = StoreOp::with_funct3(funct3(word))?;
    Some(Op::Store {
        op,
        rs1: rs1(word),
        rs2: rs2(word),
        imm: s_imm(word),
    })
}

/// The amount of a shift of 64 bits.
#[inline(always)]
pub fn shamt6(word: u32) -> Shamt6
    ensures { result ≡ field word 20 6 }
{
    Shamt6::new(field(word, 20, 6) as u8)
}

/// The amount of a shift of 32 bits.
#[inline(always)]
pub fn shamt5(word: u32) -> Shamt5
    ensures { result ≡ rs2 word }
{
    Shamt5::new(field(word, 20, 5) as u8)
}

/// Which shift of 64 bits a word of OP-IMM is.
#[inline(always)]
pub fn shift_op(word: u32) -> Option<ShiftOp>
    ensures { result ≡ shift_op (shift_code word) }
{
    ShiftOp::with_funct(shift_code(word))
}

/// Which shift of 32 bits a word of OP-IMM-32 is.
#[inline(always)]
pub fn shift_w_op(word: u32) -> Option<ShiftOpW>
    ensures { result ≡ shift_w_op (r_code word) }
{
    ShiftOpW::with_funct(r_code(word))
}

/// Which operation of OP a word with this funct3 is.
#[inline(always)]
pub fn reg_op(word: u32, funct3: u32) -> Option<RegOp>
    requires { funct3 < 2 ^ 3 }
    ensures { result ≡ reg_op (funct (field word 25 7) funct3) }
{
    RegOp::with_funct(field(word, 25, 7) * 8 + funct3)
}

/// Which operation of OP-32 a word is.
#[inline(always)]
pub fn reg_w_op(word: u32) -> Option<RegOpW>
    ensures { result ≡ reg_w_op (r_code word) }
{
    RegOpW::with_funct(r_code(word))
}

#[inline(always)]
fn shift_of(word: u32) -> Option<Op>
    ensures { result ≡ shift_of word }
{
    let op = shift_op(word)?;
    Some(Op::Shift {
        op,
        rd: rd(word),
        rs1: rs1(word),
        amount: shamt6(word),
    })
}

#[inline(always)]
fn imm_of(word: u32) -> Option<Op>
    ensures { result ≡ imm_of word }
{
    match ImmOp::with_funct3(funct3(word)) {
        Some(op) => Some(Op::Imm {
            op,
            rd: rd(word),
            rs1: rs1(word),
            imm: i_imm(word),
        }),
        None => shift_of(word),
    }
}

#[inline(always)]
fn imm_w_of(word: u32) -> Option<Op>
    ensures { result ≡ imm_w_of word }
{
    if funct3(word) == ADDIW_FUNCT3 {
        return Some(Op::Addiw {
            rd: rd(word),
            rs1: rs1(word),
            imm: i_imm(word),
        });
    }
    let op = shift_w_op(word)?;
    Some(Op::ShiftW {
        op,
        rd: rd(word),
        rs1: rs1(word),
        amount: shamt5(word),
    })
}

#[inline(always)]
fn reg_of(word: u32) -> Option<Op>
    ensures { result ≡ reg_of word }
{
    let op = reg_op(word, funct3(word))?;
    Some(Op::Reg {
        op,
        rd: rd(word),
        rs1: rs1(word),
        rs2: rs2(word),
    })
}

#[inline(always)]
fn reg_w_of(word: u32) -> Option<Op>
    ensures { result ≡ reg_w_of word }
{
    let op = reg_w_op(word)?;
    Some(Op::RegW {
        op,
        rd: rd(word),
        rs1: rs1(word),
        rs2: rs2(word),
    })
}

#[inline(always)]
fn fence_of(word: u32) -> Option<Op>
    ensures { result ≡ fence_of word }
{
    if funct3(word) == FENCE_FUNCT3 {
        Some(Op::Fence {
            rd: rd(word),
            rs1: rs1(word),
            imm: i_imm(word),
        })
    } else {
        None
    }
}

#[inline(always)]
fn system_of(word: u32) -> Option<Op>
    ensures { result ≡ system_of word }
{
    match word {
        ECALL => Some(Op::Ecall),
        EBREAK => Some(Op::Ebreak),
        _ => None,
    }
}

/// The operation of an instruction word with this opcode, if it has one.
#[inline(always)]
fn with_opcode(opcode: Option<Opcode>, word: u32) -> Option<Op>
    ensures { result ≡ with_opcode opcode word }
{
    match opcode? {
        Opcode::Load => load_of(word),
        Opcode::MiscMem => fence_of(word),
        Opcode::OpImm => imm_of(word),
        Opcode::Auipc => Some(Op::Auipc {
            rd: rd(word),
            imm: u_imm(word),
        }),
        Opcode::OpImm32 => imm_w_of(word),
        Opcode::Store => store_of(word),
        Opcode::Op => reg_of(word),
        Opcode::Lui => Some(Op::Lui {
            rd: rd(word),
            imm: u_imm(word),
        }),
        Opcode::Op32 => reg_w_of(word),
        Opcode::Branch => branch_of(word),
        Opcode::Jalr => jalr_of(word),
        Opcode::Jal => Some(Op::Jal {
            rd: rd(word),
            offset: j_imm(word),
        }),
        Opcode::System => system_of(word),
    }
}

/// The operation of an instruction word; none where no instruction of RV64IM has the word. A compressed
/// instruction's 16 bits are no word here, and a reserved encoding is none.
#[inline(always)]
pub fn decode(word: u32) -> Option<Op>
    ensures value { result ≡ decoded word }
    ensures exact { (op : Op) → (result ≡ Some op) ↔ Encodes op word }
    ensures none { IsNone result ↔ ((op : Op) → ¬ Encodes op word) }
{
    with_opcode(Opcode::with_bits(field(word, 0, 7)), word)
}
