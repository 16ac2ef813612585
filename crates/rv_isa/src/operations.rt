//! The operations of RV64IM, grouped by format and opcode. An instruction is a row of its group's enum.
use crate::fields::{Imm12, Imm20, Register, Shamt5, Shamt6};

/// When a branch is taken (section 2.5).
#[derive(Clone, Copy, Debug, PartialEq, Eq)]
pub enum BranchOp {
    /// The registers are equal.
    Beq,
    /// They differ.
    Bne,
    /// rs1 is less than rs2 as signed numbers.
    Blt,
    /// rs1 is at least rs2 as signed numbers.
    Bge,
    /// rs1 is less than rs2 as unsigned numbers.
    Bltu,
    /// rs1 is at least rs2 as unsigned numbers.
    Bgeu,
}

/// How many bytes a load reads, and whether they are extended by their sign or by zeros (sections 2.6 and 5.3).
#[derive(Clone, Copy, Debug, PartialEq, Eq)]
pub enum LoadOp {
    /// One byte, by its sign.
    Lb,
    /// Two bytes, by their sign.
    Lh,
    /// Four bytes, by their sign.
    Lw,
    /// Eight bytes.
    Ld,
    /// One byte, by zeros.
    Lbu,
    /// Two bytes, by zeros.
    Lhu,
    /// Four bytes, by zeros.
    Lwu,
}

/// How many bytes a store writes (sections 2.6 and 5.3).
#[derive(Clone, Copy, Debug, PartialEq, Eq)]
pub enum StoreOp {
    /// One byte.
    Sb,
    /// Two bytes.
    Sh,
    /// Four bytes.
    Sw,
    /// Eight bytes.
    Sd,
}

/// What is computed from a register and an immediate (section 2.4).
#[derive(Clone, Copy, Debug, PartialEq, Eq)]
pub enum ImmOp {
    /// The sum.
    Addi,
    /// 1 where the register is less as signed numbers, else 0.
    Slti,
    /// 1 where the register is less as unsigned numbers, else 0.
    Sltiu,
    /// The exclusive or of the bits.
    Xori,
    /// The or of the bits.
    Ori,
    /// The and of the bits.
    Andi,
}

/// A shift of 64 bits by an immediate (section 5.2).
#[derive(Clone, Copy, Debug, PartialEq, Eq)]
pub enum ShiftOp {
    /// To the left.
    Slli,
    /// To the right, with zeros.
    Srli,
    /// To the right, with the sign.
    Srai,
}

/// A shift of the low 32 bits by an immediate (section 5.2).
#[derive(Clone, Copy, Debug, PartialEq, Eq)]
pub enum ShiftOpW {
    /// To the left.
    Slliw,
    /// To the right, with zeros.
    Srliw,
    /// To the right, with the sign.
    Sraiw,
}

/// What is computed from two registers (section 2.4, chapter 7).
#[derive(Clone, Copy, Debug, PartialEq, Eq)]
pub enum RegOp {
    /// The sum.
    Add,
    /// The difference.
    Sub,
    /// rs1 shifted to the left by the low six bits of rs2.
    Sll,
    /// 1 where rs1 is less than rs2 as signed numbers, else 0.
    Slt,
    /// 1 where rs1 is less than rs2 as unsigned numbers, else 0.
    Sltu,
    /// The exclusive or of the bits.
    Xor,
    /// rs1 shifted to the right with zeros by the low six bits of rs2.
    Srl,
    /// rs1 shifted to the right with the sign by the low six bits of rs2.
    Sra,
    /// The or of the bits.
    Or,
    /// The and of the bits.
    And,
    /// The low 64 bits of the product.
    Mul,
    /// The high 64 bits of the product of signed numbers.
    Mulh,
    /// The high 64 bits of the product of rs1 as a signed and rs2 as an unsigned number.
    Mulhsu,
    /// The high 64 bits of the product of unsigned numbers.
    Mulhu,
    /// The quotient of signed numbers.
    Div,
    /// The quotient of unsigned numbers.
    Divu,
    /// The remainder of signed numbers.
    Rem,
    /// The remainder of unsigned numbers.
    Remu,
}

/// What is computed from the low 32 bits of two registers, and extended by its sign (section 5.2, chapter 7).
#[derive(Clone, Copy, Debug, PartialEq, Eq)]
pub enum RegOpW {
    /// The sum.
    Addw,
    /// The difference.
    Subw,
    /// rs1 shifted to the left by the low five bits of rs2.
    Sllw,
    /// rs1 shifted to the right with zeros by the low five bits of rs2.
    Srlw,
    /// rs1 shifted to the right with the sign by the low five bits of rs2.
    Sraw,
    /// The low 32 bits of the product.
    Mulw,
    /// The quotient of signed numbers.
    Divw,
    /// The quotient of unsigned numbers.
    Divuw,
    /// The remainder of signed numbers.
    Remw,
    /// The remainder of unsigned numbers.
    Remuw,
}

/// An operation of RV64IM: an instruction with its fields.
#[derive(Clone, Copy, Debug, PartialEq, Eq)]
pub enum Op {
    /// LUI: loads an upper immediate (section 2.4).
    Lui {
        rd: Register,
        imm: Imm20,
    },
    /// AUIPC: adds an upper immediate to the address of the instruction (section 2.4).
    Auipc {
        rd: Register,
        imm: Imm20,
    },
    /// JAL: jumps by an offset, in units of two bytes, and links the next address (section 2.5).
    Jal {
        rd: Register,
        offset: Imm20,
    },
    /// JALR: jumps to rs1 plus an immediate, and links the next address (section 2.5).
    Jalr {
        rd: Register,
        rs1: Register,
        imm: Imm12,
    },
    /// Jumps by an offset, in units of two bytes, where a condition holds (section 2.5).
    Branch {
        op: BranchOp,
        rs1: Register,
        rs2: Register,
        offset: Imm12,
    },
    /// Reads memory at rs1 plus an immediate (sections 2.6 and 5.3).
    Load {
        op: LoadOp,
        rd: Register,
        rs1: Register,
        imm: Imm12,
    },
    /// Writes rs2 into memory at rs1 plus an immediate (sections 2.6 and 5.3).
    Store {
        op: StoreOp,
        rs1: Register,
        rs2: Register,
        imm: Imm12,
    },
    /// Computes with an immediate (OP-IMM, section 2.4).
    Imm {
        op: ImmOp,
        rd: Register,
        rs1: Register,
        imm: Imm12,
    },
    /// Shifts by an immediate (OP-IMM, section 5.2).
    Shift {
        op: ShiftOp,
        rd: Register,
        rs1: Register,
        amount: Shamt6,
    },
    /// ADDIW: adds an immediate in 32 bits (OP-IMM-32, section 5.2).
    Addiw {
        rd: Register,
        rs1: Register,
        imm: Imm12,
    },
    /// Shifts the low 32 bits by an immediate (OP-IMM-32, section 5.2).
    ShiftW {
        op: ShiftOpW,
        rd: Register,
        rs1: Register,
        amount: Shamt5,
    },
    /// Computes with two registers (OP, section 2.4 and chapter 7).
    Reg {
        op: RegOp,
        rd: Register,
        rs1: Register,
        rs2: Register,
    },
    /// Computes with the low 32 bits of two registers (OP-32, section 5.2 and chapter 7).
    RegW {
        op: RegOpW,
        rd: Register,
        rs1: Register,
        rs2: Register,
    },
    /// FENCE: orders memory accesses (section 2.7), which one hart's own order does anyway. The immediate has the
    /// sets fm, pred and succ. All its fields are kept.
    Fence {
        rd: Register,
        rs1: Register,
        imm: Imm12,
    },
    /// ECALL: calls the environment (section 2.8).
    Ecall,
    /// EBREAK: breaks into the environment (section 2.8).
    Ebreak,
}
