//! The instruction word of an operation (sections 2.2 and 2.3, chapter 24).
ghost use Rattle.std.specs.Prelude.{◌≡◌, ◌^◌, ◌<◌};
ghost use Rattle.rv_isa.specs.declared.operations.Op.TheVariants.{Lui as LuiGiven, Auipc as AuipcGiven, Jalr as JalrGiven};
ghost use Rattle.rv_isa.specs.declared.operations.Op.TheVariants.{Ecall as EcallGiven, Branch as BranchGiven};
ghost use Rattle.rv_isa.specs.declared.operations.Op.TheVariants.{Load as LoadGiven, Store as StoreGiven, Imm as ImmGiven, Shift as ShiftGiven};
ghost use Rattle.rv_isa.specs.declared.operations.Op.TheVariants.{Reg as RegGiven, RegW as RegWGiven};
ghost use Rattle.rv_isa.specs.Words.{opcode_bits, r_type, i_type, shift_type, s_type, b_type, u_type, j_type, IsRegister, word_of, IsInRange};

use crate::fields::{Imm12, Imm20, Register, Shamt6};
use crate::operations::{BranchOp, ImmOp, LoadOp, Op, RegOp, RegOpW, ShiftOp, StoreOp};
use crate::table::{ADDIW_FUNCT3, EBREAK, ECALL, FENCE_FUNCT3, JALR_FUNCT3, Opcode};

/// An instruction word of the R format. The code is funct7 and funct3.
#[inline(always)]
fn r_type(opcode: Opcode, code: u32, rd: Register, rs1: Register, rs2: Register) -> u32
    requires { code < 2 ^ 10 }
    ensures word { result ≡ r_type (opcode_bits opcode) code rd rs1 rs2 }
    ensures in_range { IsRegister rd × IsRegister rs1 × IsRegister rs2 }
{
    opcode.bits()
        + (u32::from(rd.bits()) << 7)
        + ((code % 8) << 12)
        + (u32::from(rs1.bits()) << 15)
        + (u32::from(rs2.bits()) << 20)
        + ((code / 8) << 25)
}

/// An instruction word of the I format, with these bits as its immediate.
#[inline(always)]
fn i_type_with(opcode: Opcode, funct3: u32, rd: Register, rs1: Register, imm: u32) -> u32
    requires funct3_fits { funct3 < 2 ^ 3 }
    requires imm_fits { imm < 2 ^ 12 }
    ensures word { result ≡ i_type (opcode_bits opcode) funct3 rd rs1 imm }
    ensures in_range { IsRegister rd × IsRegister rs1 }
{
    opcode.bits()
        + (u32::from(rd.bits()) << 7)
        + (funct3 << 12)
        + (u32::from(rs1.bits()) << 15)
        + (imm << 20)
}

/// An instruction word of the I format.
#[inline(always)]
fn i_type(opcode: Opcode, funct3: u32, rd: Register, rs1: Register, imm: Imm12) -> u32
    requires { funct3 < 2 ^ 3 }
    ensures word { result ≡ i_type (opcode_bits opcode) funct3 rd rs1 imm }
    ensures in_range { IsRegister rd × IsRegister rs1 × (imm < 2 ^ 12) }
{
    i_type_with(opcode, funct3, rd, rs1, u32::from(imm.bits()))
}

/// The instruction word of a shift by an immediate: of the I format, with the amount below funct7.
#[inline(always)]
fn shift_type(opcode: Opcode, code: u32, rd: Register, rs1: Register, amount: u8) -> u32
    requires code_fits { code < 2 ^ 9 }
    requires amount_fits { amount < 2 ^ 6 }
    ensures word { result ≡ shift_type (opcode_bits opcode) code rd rs1 amount }
    ensures in_range { IsRegister rd × IsRegister rs1 }
{
    let imm = code / 8 * 0x20 + u32::from(amount);
    i_type_with(opcode, code % 8, rd, rs1, imm)
}

/// An instruction word of the S format.
#[inline(always)]
fn s_type(opcode: Opcode, funct3: u32, rs1: Register, rs2: Register, imm: Imm12) -> u32
    requires { funct3 < 2 ^ 3 }
    ensures word { result ≡ s_type (opcode_bits opcode) funct3 rs1 rs2 imm }
    ensures in_range { IsRegister rs1 × IsRegister rs2 × (imm < 2 ^ 12) }
{
    let imm = u32::from(imm.bits());
    opcode.bits()
        + ((imm % 0x20) << 7)
        + (funct3 << 12)
        + (u32::from(rs1.bits()) << 15)
        + (u32::from(rs2.bits()) << 20)
        + ((imm / 0x20) << 25)
}

/// An instruction word of the B format. The offset is in units of two bytes.
#[inline(always)]
fn b_type(opcode: Opcode, funct3: u32, rs1: Register, rs2: Register, offset: Imm12) -> u32
    requires { funct3 < 2 ^ 3 }
    ensures word { result ≡ b_type (opcode_bits opcode) funct3 rs1 rs2 offset }
    ensures in_range { IsRegister rs1 × IsRegister rs2 × (offset < 2 ^ 12) }
{
    let imm = u32::from(offset.bits());
    opcode.bits()
        + ((imm / 0x400 % 2) << 7)
        + ((imm % 0x10) << 8)
        + (funct3 << 12)
        + (u32::from(rs1.bits()) << 15)
        + (u32::from(rs2.bits()) << 20)
        + ((imm / 0x10 % 0x40) << 25)
        + ((imm / 0x800) << 31)
}

/// An instruction word of the U format.
#[inline(always)]
fn u_type(opcode: Opcode, rd: Register, imm: Imm20) -> u32
    ensures word { result ≡ u_type (opcode_bits opcode) rd imm }
    ensures in_range { IsRegister rd × (imm < 2 ^ 20) }
{
    opcode.bits() + (u32::from(rd.bits()) << 7) + (imm.bits() << 12)
}

/// An instruction word of the J format. The offset is in units of two bytes.
#[inline(always)]
fn j_type(opcode: Opcode, rd: Register, offset: Imm20) -> u32
    ensures word { result ≡ j_type (opcode_bits opcode) rd offset }
    ensures in_range { IsRegister rd × (offset < 2 ^ 20) }
{
    let imm = offset.bits();
    opcode.bits()
        + (u32::from(rd.bits()) << 7)
        + ((imm / 0x800 % 0x100) << 12)
        + ((imm / 0x400 % 2) << 20)
        + ((imm % 0x400) << 21)
        + ((imm / 0x8_0000) << 31)
}

/// The instruction word of an operation.
#[tactic(auto, unfolding(crate::specs::Words::word_of, crate::specs::Words::IsInRange))]
pub fn encode(op: Op) -> u32
    ensures word { result ≡ word_of op }
    ensures in_range { IsInRange op }
{
    match op {
        Op::Lui { rd, imm } => u_type(Opcode::Lui, rd, imm),
        Op::Auipc { rd, imm } => u_type(Opcode::Auipc, rd, imm),
        Op::Jal { rd, offset } => j_type(Opcode::Jal, rd, offset),
        Op::Jalr { rd, rs1, imm } => i_type(Opcode::Jalr, JALR_FUNCT3, rd, rs1, imm),
        Op::Branch {
            op,
            rs1,
            rs2,
            offset,
        } => b_type(Opcode::Branch, op.funct3(), rs1, rs2, offset),
        Op::Load { op, rd, rs1, imm } => i_type(Opcode::Load, op.funct3(), rd, rs1, imm),
        Op::Store { op, rs1, rs2, imm } => s_type(Opcode::Store, op.funct3(), rs1, rs2, imm),
        Op::Imm { op, rd, rs1, imm } => i_type(Opcode::OpImm, op.funct3(), rd, rs1, imm),
        Op::Shift {
            op,
            rd,
            rs1,
            amount,
        } => shift_type(Opcode::OpImm, op.funct(), rd, rs1, amount.bits()),
        Op::Addiw { rd, rs1, imm } => i_type(Opcode::OpImm32, ADDIW_FUNCT3, rd, rs1, imm),
        Op::ShiftW {
            op,
            rd,
            rs1,
            amount,
        } => shift_type(Opcode::OpImm32, op.funct(), rd, rs1, amount.bits()),
        Op::Reg { op, rd, rs1, rs2 } => r_type(Opcode::Op, op.funct(), rd, rs1, rs2),
        Op::RegW { op, rd, rs1, rs2 } => r_type(Opcode::Op32, op.funct(), rd, rs1, rs2),
        Op::Fence { rd, rs1, imm } => i_type(Opcode::MiscMem, FENCE_FUNCT3, rd, rs1, imm),
        Op::Ecall => ECALL,
        Op::Ebreak => EBREAK,
    }
}

// ---- the instruction words of single operations. Where fields are known, each folds to a constant and the bits of
// the others.

/// The instruction word of LUI.
#[inline(always)]
#[tactic(auto, unfolding(crate::specs::Words::word_of))]
pub fn encode_lui(rd: Register, imm: Imm20) -> u32
    ensures { result ≡ word_of (LuiGiven rd imm) }
{
    u_type(Opcode::Lui, rd, imm)
}

/// The instruction word of AUIPC.
#[inline(always)]
#[tactic(auto, unfolding(crate::specs::Words::word_of))]
pub fn encode_auipc(rd: Register, imm: Imm20) -> u32
    ensures { result ≡ word_of (AuipcGiven rd imm) }
{
    u_type(Opcode::Auipc, rd, imm)
}

/// The instruction word of a branch.
#[inline(always)]
#[tactic(auto, unfolding(crate::specs::Words::word_of))]
pub fn encode_branch(op: BranchOp, rs1: Register, rs2: Register, offset: Imm12) -> u32
    ensures { result ≡ word_of (BranchGiven op rs1 rs2 offset) }
{
    b_type(Opcode::Branch, op.funct3(), rs1, rs2, offset)
}

/// The instruction word of a load.
#[inline(always)]
#[tactic(auto, unfolding(crate::specs::Words::word_of))]
pub fn encode_load(op: LoadOp, rd: Register, rs1: Register, imm: Imm12) -> u32
    ensures { result ≡ word_of (LoadGiven op rd rs1 imm) }
{
    i_type(Opcode::Load, op.funct3(), rd, rs1, imm)
}

/// The instruction word of a store.
#[inline(always)]
#[tactic(auto, unfolding(crate::specs::Words::word_of))]
pub fn encode_store(op: StoreOp, rs1: Register, rs2: Register, imm: Imm12) -> u32
    ensures { result ≡ word_of (StoreGiven op rs1 rs2 imm) }
{
    s_type(Opcode::Store, op.funct3(), rs1, rs2, imm)
}

/// The instruction word of an operation on a register and an immediate.
#[inline(always)]
#[tactic(auto, unfolding(crate::specs::Words::word_of))]
pub fn encode_imm(op: ImmOp, rd: Register, rs1: Register, imm: Imm12) -> u32
    ensures { result ≡ word_of (ImmGiven op rd rs1 imm) }
{
    i_type(Opcode::OpImm, op.funct3(), rd, rs1, imm)
}

/// The instruction word of a shift by an immediate.
#[inline(always)]
#[tactic(auto, unfolding(crate::specs::Words::word_of))]
pub fn encode_shift(op: ShiftOp, rd: Register, rs1: Register, amount: Shamt6) -> u32
    ensures { result ≡ word_of (ShiftGiven op rd rs1 amount) }
{
    shift_type(Opcode::OpImm, op.funct(), rd, rs1, amount.bits())
}

/// The instruction word of an operation on two registers.
#[inline(always)]
#[tactic(auto, unfolding(crate::specs::Words::word_of))]
pub fn encode_reg(op: RegOp, rd: Register, rs1: Register, rs2: Register) -> u32
    ensures { result ≡ word_of (RegGiven op rd rs1 rs2) }
{
    r_type(Opcode::Op, op.funct(), rd, rs1, rs2)
}

/// The instruction word of an operation on the low 32 bits of two registers.
#[inline(always)]
#[tactic(auto, unfolding(crate::specs::Words::word_of))]
pub fn encode_reg_w(op: RegOpW, rd: Register, rs1: Register, rs2: Register) -> u32
    ensures { result ≡ word_of (RegWGiven op rd rs1 rs2) }
{
    r_type(Opcode::Op32, op.funct(), rd, rs1, rs2)
}

/// The instruction word of JALR.
#[inline(always)]
#[tactic(auto, unfolding(crate::specs::Words::word_of))]
pub fn encode_jalr(rd: Register, rs1: Register, imm: Imm12) -> u32
    ensures { result ≡ word_of (JalrGiven rd rs1 imm) }
{
    i_type(Opcode::Jalr, JALR_FUNCT3, rd, rs1, imm)
}

/// The instruction word of ECALL.
#[inline(always)]
#[tactic(auto, unfolding(crate::specs::Words::word_of))]
pub fn encode_ecall() -> u32
    ensures { result ≡ word_of EcallGiven }
{
    ECALL
}
