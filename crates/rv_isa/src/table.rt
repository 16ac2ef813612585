//! The instruction table (chapter 24): each code of an instruction is here in one row, which `encode` and `decode`
//! read. funct7 and funct3 are read as one number of ten bits.
ghost use Rattle.std.specs.Prelude.{◌≡◌, ◌^◌, ◌<◌};
ghost use Rattle.rv_isa.specs.Words.{opcode_bits, opcode_with, funct, branch_funct3, branch_op, load_funct3, load_op, store_funct3, store_op, imm_funct3};
ghost use Rattle.rv_isa.specs.Words.{imm_op, shift_funct, shift_op, shift_w_funct, shift_w_op, reg_funct, reg_op, reg_w_funct, reg_w_op};

use crate::operations::{BranchOp, ImmOp, LoadOp, RegOp, RegOpW, ShiftOp, ShiftOpW, StoreOp};

/// funct3 of JALR.
pub(crate) const JALR_FUNCT3: u32 = 0b000;
/// funct3 of ADDIW.
pub(crate) const ADDIW_FUNCT3: u32 = 0b000;
/// funct3 of FENCE.
pub(crate) const FENCE_FUNCT3: u32 = 0b000;
/// The instruction word of ECALL.
pub(crate) const ECALL: u32 = 0x0000_0073;
/// The instruction word of EBREAK.
pub(crate) const EBREAK: u32 = 0x0010_0073;

/// The low seven bits of an instruction word, which give its format and group (table 24.1).
#[derive(Clone, Copy, Debug, PartialEq, Eq)]
pub enum Opcode {
    /// LOAD
    Load,
    /// MISC-MEM
    MiscMem,
    /// OP-IMM
    OpImm,
    /// AUIPC
    Auipc,
    /// OP-IMM-32
    OpImm32,
    /// STORE
    Store,
    /// OP
    Op,
    /// LUI
    Lui,
    /// OP-32
    Op32,
    /// BRANCH
    Branch,
    /// JALR
    Jalr,
    /// JAL
    Jal,
    /// SYSTEM
    System,
}

impl Opcode {
    const ALL: [Opcode; 13] = [
        Opcode::Load,
        Opcode::MiscMem,
        Opcode::OpImm,
        Opcode::Auipc,
        Opcode::OpImm32,
        Opcode::Store,
        Opcode::Op,
        Opcode::Lui,
        Opcode::Op32,
        Opcode::Branch,
        Opcode::Jalr,
        Opcode::Jal,
        Opcode::System,
    ];

    /// The opcode's bits.
    #[inline(always)]
    pub(crate) fn bits(self) -> u32
        ensures value { result ≡ opcode_bits self }
        ensures small { result < 2 ^ 7 }
    {
        match self {
            Opcode::Load => 0b0000011,
            Opcode::MiscMem => 0b0001111,
            Opcode::OpImm => 0b0010011,
            Opcode::Auipc => 0b0010111,
            Opcode::OpImm32 => 0b0011011,
            Opcode::Store => 0b0100011,
            Opcode::Op => 0b0110011,
            Opcode::Lui => 0b0110111,
            Opcode::Op32 => 0b0111011,
            Opcode::Branch => 0b1100011,
            Opcode::Jalr => 0b1100111,
            Opcode::Jal => 0b1101111,
            Opcode::System => 0b1110011,
        }
    }

    /// The opcode with these bits, if there is one.
    #[inline(always)]
    #[tactic(auto, unfolding(crate::specs::Words::opcode_with))]
    pub(crate) fn with_bits(bits: u32) -> Option<Opcode>
        ensures { result ≡ opcode_with bits }
    {
        Opcode::ALL
            .iter()
            .copied()
            .find(|opcode| opcode.bits() == bits)
    }
}

/// funct7 and funct3 as one number.
#[inline(always)]
fn funct(funct7: u32, funct3: u32) -> u32
    requires funct7_fits { funct7 < 2 ^ 7 }
    requires funct3_fits { funct3 < 2 ^ 3 }
    ensures { result ≡ funct funct7 funct3 }
{
    funct7 * 8 + funct3
}

impl BranchOp {
    const ALL: [BranchOp; 6] = [
        BranchOp::Beq,
        BranchOp::Bne,
        BranchOp::Blt,
        BranchOp::Bge,
        BranchOp::Bltu,
        BranchOp::Bgeu,
    ];

    /// funct3 of the instruction.
    #[inline(always)]
    pub(crate) fn funct3(self) -> u32
        ensures value { result ≡ branch_funct3 self }
        ensures small { result < 2 ^ 3 }
    {
        match self {
            BranchOp::Beq => 0b000,
            BranchOp::Bne => 0b001,
            BranchOp::Blt => 0b100,
            BranchOp::Bge => 0b101,
            BranchOp::Bltu => 0b110,
            BranchOp::Bgeu => 0b111,
        }
    }

    /// The instruction of this group with that code, if there is one.
    #[inline(always)]
    #[tactic(auto, unfolding(crate::specs::Words::branch_op))]
    pub(crate) fn with_funct3(funct3: u32) -> Option<BranchOp>
        ensures { result ≡ branch_op funct3 }
    {
        BranchOp::ALL
            .iter()
            .copied()
            .find(|op| op.funct3() == funct3)
    }
}

impl LoadOp {
    const ALL: [LoadOp; 7] = [
        LoadOp::Lb,
        LoadOp::Lh,
        LoadOp::Lw,
        LoadOp::Ld,
        LoadOp::Lbu,
        LoadOp::Lhu,
        LoadOp::Lwu,
    ];

    /// funct3 of the instruction.
    #[inline(always)]
    pub(crate) fn funct3(self) -> u32
        ensures value { result ≡ load_funct3 self }
        ensures small { result < 2 ^ 3 }
    {
        match self {
            LoadOp::Lb => 0b000,
            LoadOp::Lh => 0b001,
            LoadOp::Lw => 0b010,
            LoadOp::Ld => 0b011,
            LoadOp::Lbu => 0b100,
            LoadOp::Lhu => 0b101,
            LoadOp::Lwu => 0b110,
        }
    }

    /// The instruction of this group with that code, if there is one.
    #[inline(always)]
    #[tactic(auto, unfolding(crate::specs::Words::load_op))]
    pub(crate) fn with_funct3(funct3: u32) -> Option<LoadOp>
        ensures { result ≡ load_op funct3 }
    {
        LoadOp::ALL.iter().copied().find(|op| op.funct3() == funct3)
    }
}

impl StoreOp {
    const ALL: [StoreOp; 4] = [StoreOp::Sb, StoreOp::Sh, StoreOp::Sw, StoreOp::Sd];

    /// funct3 of the instruction.
    #[inline(always)]
    pub(crate) fn funct3(self) -> u32
        ensures value { result ≡ store_funct3 self }
        ensures small { result < 2 ^ 3 }
    {
        match self {
            StoreOp::Sb => 0b000,
            StoreOp::Sh => 0b001,
            StoreOp::Sw => 0b010,
            StoreOp::Sd => 0b011,
        }
    }

    /// The instruction of this group with that code, if there is one.
    #[inline(always)]
    #[tactic(auto, unfolding(crate::specs::Words::store_op))]
    pub(crate) fn with_funct3(funct3: u32) -> Option<StoreOp>
        ensures { result ≡ store_op funct3 }
    {
        StoreOp::ALL
            .iter()
            .copied()
            .find(|op| op.funct3() == funct3)
    }
}

impl ImmOp {
    const ALL: [ImmOp; 6] = [
        ImmOp::Addi,
        ImmOp::Slti,
        ImmOp::Sltiu,
        ImmOp::Xori,
        ImmOp::Ori,
        ImmOp::Andi,
    ];

    /// funct3 of the instruction.
    #[inline(always)]
    pub(crate) fn funct3(self) -> u32
        ensures value { result ≡ imm_funct3 self }
        ensures small { result < 2 ^ 3 }
    {
        match self {
            ImmOp::Addi => 0b000,
            ImmOp::Slti => 0b010,
            ImmOp::Sltiu => 0b011,
            ImmOp::Xori => 0b100,
            ImmOp::Ori => 0b110,
            ImmOp::Andi => 0b111,
        }
    }

    /// The instruction of this group with that code, if there is one.
    #[inline(always)]
    #[tactic(auto, unfolding(crate::specs::Words::imm_op))]
    pub(crate) fn with_funct3(funct3: u32) -> Option<ImmOp>
        ensures { result ≡ imm_op funct3 }
    {
        ImmOp::ALL.iter().copied().find(|op| op.funct3() == funct3)
    }
}

impl ShiftOp {
    const ALL: [ShiftOp; 3] = [ShiftOp::Slli, ShiftOp::Srli, ShiftOp::Srai];

    /// funct7 and funct3 of the instruction. The lowest bit of funct7 is one of the amount, and 0 here.
    #[inline(always)]
    pub(crate) fn funct(self) -> u32
        ensures value { result ≡ shift_funct self }
        ensures small { result < 2 ^ 9 }
    {
        match self {
            ShiftOp::Slli => funct(0b0000000, 0b001),
            ShiftOp::Srli => funct(0b0000000, 0b101),
            ShiftOp::Srai => funct(0b0100000, 0b101),
        }
    }

    /// The instruction of this group with that code, if there is one.
    #[inline(always)]
    #[tactic(auto, unfolding(crate::specs::Words::shift_op))]
    pub(crate) fn with_funct(funct: u32) -> Option<ShiftOp>
        ensures { result ≡ shift_op funct }
    {
        ShiftOp::ALL.iter().copied().find(|op| op.funct() == funct)
    }
}

impl ShiftOpW {
    const ALL: [ShiftOpW; 3] = [ShiftOpW::Slliw, ShiftOpW::Srliw, ShiftOpW::Sraiw];

    /// funct7 and funct3 of the instruction.
    #[inline(always)]
    pub(crate) fn funct(self) -> u32
        ensures value { result ≡ shift_w_funct self }
        ensures small { result < 2 ^ 9 }
    {
        match self {
            ShiftOpW::Slliw => funct(0b0000000, 0b001),
            ShiftOpW::Srliw => funct(0b0000000, 0b101),
            ShiftOpW::Sraiw => funct(0b0100000, 0b101),
        }
    }

    /// The instruction of this group with that code, if there is one.
    #[inline(always)]
    #[tactic(auto, unfolding(crate::specs::Words::shift_w_op))]
    pub(crate) fn with_funct(funct: u32) -> Option<ShiftOpW>
        ensures { result ≡ shift_w_op funct }
    {
        ShiftOpW::ALL.iter().copied().find(|op| op.funct() == funct)
    }
}

impl RegOp {
    const ALL: [RegOp; 18] = [
        RegOp::Add,
        RegOp::Sub,
        RegOp::Sll,
        RegOp::Slt,
        RegOp::Sltu,
        RegOp::Xor,
        RegOp::Srl,
        RegOp::Sra,
        RegOp::Or,
        RegOp::And,
        RegOp::Mul,
        RegOp::Mulh,
        RegOp::Mulhsu,
        RegOp::Mulhu,
        RegOp::Div,
        RegOp::Divu,
        RegOp::Rem,
        RegOp::Remu,
    ];

    /// funct7 and funct3 of the instruction.
    #[inline(always)]
    pub(crate) fn funct(self) -> u32
        ensures value { result ≡ reg_funct self }
        ensures small { result < 2 ^ 10 }
    {
        match self {
            RegOp::Add => funct(0b0000000, 0b000),
            RegOp::Sub => funct(0b0100000, 0b000),
            RegOp::Sll => funct(0b0000000, 0b001),
            RegOp::Slt => funct(0b0000000, 0b010),
            RegOp::Sltu => funct(0b0000000, 0b011),
            RegOp::Xor => funct(0b0000000, 0b100),
            RegOp::Srl => funct(0b0000000, 0b101),
            RegOp::Sra => funct(0b0100000, 0b101),
            RegOp::Or => funct(0b0000000, 0b110),
            RegOp::And => funct(0b0000000, 0b111),
            RegOp::Mul => funct(0b0000001, 0b000),
            RegOp::Mulh => funct(0b0000001, 0b001),
            RegOp::Mulhsu => funct(0b0000001, 0b010),
            RegOp::Mulhu => funct(0b0000001, 0b011),
            RegOp::Div => funct(0b0000001, 0b100),
            RegOp::Divu => funct(0b0000001, 0b101),
            RegOp::Rem => funct(0b0000001, 0b110),
            RegOp::Remu => funct(0b0000001, 0b111),
        }
    }

    /// The instruction of this group with that code, if there is one.
    #[inline(always)]
    #[tactic(auto, unfolding(crate::specs::Words::reg_op))]
    pub(crate) fn with_funct(funct: u32) -> Option<RegOp>
        ensures { result ≡ reg_op funct }
    {
        RegOp::ALL.iter().copied().find(|op| op.funct() == funct)
    }
}

impl RegOpW {
    const ALL: [RegOpW; 10] = [
        RegOpW::Addw,
        RegOpW::Subw,
        RegOpW::Sllw,
        RegOpW::Srlw,
        RegOpW::Sraw,
        RegOpW::Mulw,
        RegOpW::Divw,
        RegOpW::Divuw,
        RegOpW::Remw,
        RegOpW::Remuw,
    ];

    /// funct7 and funct3 of the instruction.
    #[inline(always)]
    pub(crate) fn funct(self) -> u32
        ensures value { result ≡ reg_w_funct self }
        ensures small { result < 2 ^ 10 }
    {
        match self {
            RegOpW::Addw => funct(0b0000000, 0b000),
            RegOpW::Subw => funct(0b0100000, 0b000),
            RegOpW::Sllw => funct(0b0000000, 0b001),
            RegOpW::Srlw => funct(0b0000000, 0b101),
            RegOpW::Sraw => funct(0b0100000, 0b101),
            RegOpW::Mulw => funct(0b0000001, 0b000),
            RegOpW::Divw => funct(0b0000001, 0b100),
            RegOpW::Divuw => funct(0b0000001, 0b101),
            RegOpW::Remw => funct(0b0000001, 0b110),
            RegOpW::Remuw => funct(0b0000001, 0b111),
        }
    }

    /// The instruction of this group with that code, if there is one.
    #[inline(always)]
    #[tactic(auto, unfolding(crate::specs::Words::reg_w_op))]
    pub(crate) fn with_funct(funct: u32) -> Option<RegOpW>
        ensures { result ≡ reg_w_op funct }
    {
        RegOpW::ALL.iter().copied().find(|op| op.funct() == funct)
    }
}
