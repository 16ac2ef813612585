//! Words of the GNU assembler and linker for RISC-V (binutils 2.40, `-march=rv64im`), and words that none of RV64IM has.
use code_list::CodeList;
use rv_isa::{
    BranchOp, Code, Imm12, Imm20, ImmOp, LoadOp, Op, RegOp, RegOpW, Register, Relocation,
    Relocations, Shamt5, Shamt6, ShiftOp, ShiftOpW, StoreOp, TrapSite, TrapSites, WordBuffer,
    Words, decode, encode,
};
use std::alloc::{AllocError, Global};
use std::process::Abort;
use std::test::Fail;

// ---- the word, the instruction, and its fields: rd, rs1, rs2

const REGISTER_WORDS: [(u32, RegOp, u8, u8, u8); 18] = [
    (0x01DF_0FB3, RegOp::Add, 31, 30, 29),
    (0x4031_00B3, RegOp::Sub, 1, 2, 3),
    (0x010F_9033, RegOp::Sll, 0, 31, 16),
    (0x0073_22B3, RegOp::Slt, 5, 6, 7),
    (0x01DF_3FB3, RegOp::Sltu, 31, 30, 29),
    (0x0031_40B3, RegOp::Xor, 1, 2, 3),
    (0x010F_D033, RegOp::Srl, 0, 31, 16),
    (0x4073_52B3, RegOp::Sra, 5, 6, 7),
    (0x01DF_6FB3, RegOp::Or, 31, 30, 29),
    (0x0031_70B3, RegOp::And, 1, 2, 3),
    (0x030F_8033, RegOp::Mul, 0, 31, 16),
    (0x0273_12B3, RegOp::Mulh, 5, 6, 7),
    (0x03DF_2FB3, RegOp::Mulhsu, 31, 30, 29),
    (0x0231_30B3, RegOp::Mulhu, 1, 2, 3),
    (0x030F_C033, RegOp::Div, 0, 31, 16),
    (0x0273_52B3, RegOp::Divu, 5, 6, 7),
    (0x03DF_6FB3, RegOp::Rem, 31, 30, 29),
    (0x0231_70B3, RegOp::Remu, 1, 2, 3),
];

const REGISTER_W_WORDS: [(u32, RegOpW, u8, u8, u8); 10] = [
    (0x01DF_0FBB, RegOpW::Addw, 31, 30, 29),
    (0x4031_00BB, RegOpW::Subw, 1, 2, 3),
    (0x010F_903B, RegOpW::Sllw, 0, 31, 16),
    (0x0073_52BB, RegOpW::Srlw, 5, 6, 7),
    (0x41DF_5FBB, RegOpW::Sraw, 31, 30, 29),
    (0x0231_00BB, RegOpW::Mulw, 1, 2, 3),
    (0x030F_C03B, RegOpW::Divw, 0, 31, 16),
    (0x0273_52BB, RegOpW::Divuw, 5, 6, 7),
    (0x03DF_6FBB, RegOpW::Remw, 31, 30, 29),
    (0x0231_70BB, RegOpW::Remuw, 1, 2, 3),
];

// ---- rd, rs1, immediate

const IMMEDIATE_WORDS: [(u32, ImmOp, u8, u8, u16); 11] = [
    (0x800F_0F93, ImmOp::Addi, 31, 30, 0x800),
    (0x7FFF_0F93, ImmOp::Addi, 31, 30, 0x7FF),
    (0xFFFF_0F93, ImmOp::Addi, 31, 30, 0xFFF),
    (0x000F_0F93, ImmOp::Addi, 31, 30, 0x000),
    (0x001F_0F93, ImmOp::Addi, 31, 30, 0x001),
    (0x555F_0F93, ImmOp::Addi, 31, 30, 0x555),
    (0x7FF1_2093, ImmOp::Slti, 1, 2, 0x7FF),
    (0xFFFF_B013, ImmOp::Sltiu, 0, 31, 0xFFF),
    (0x0003_4293, ImmOp::Xori, 5, 6, 0x000),
    (0x001F_6F93, ImmOp::Ori, 31, 30, 0x001),
    (0x5551_7093, ImmOp::Andi, 1, 2, 0x555),
];

// ---- rd, rs1, amount

const SHIFT_WORDS: [(u32, ShiftOp, u8, u8, u8); 12] = [
    (0x000F_1F93, ShiftOp::Slli, 31, 30, 0),
    (0x01FF_1F93, ShiftOp::Slli, 31, 30, 31),
    (0x020F_1F93, ShiftOp::Slli, 31, 30, 32),
    (0x03FF_1F93, ShiftOp::Slli, 31, 30, 63),
    (0x0001_5093, ShiftOp::Srli, 1, 2, 0),
    (0x01F1_5093, ShiftOp::Srli, 1, 2, 31),
    (0x0201_5093, ShiftOp::Srli, 1, 2, 32),
    (0x03F1_5093, ShiftOp::Srli, 1, 2, 63),
    (0x400F_D013, ShiftOp::Srai, 0, 31, 0),
    (0x41FF_D013, ShiftOp::Srai, 0, 31, 31),
    (0x420F_D013, ShiftOp::Srai, 0, 31, 32),
    (0x43FF_D013, ShiftOp::Srai, 0, 31, 63),
];

const SHIFT_W_WORDS: [(u32, ShiftOpW, u8, u8, u8); 6] = [
    (0x000F_1F9B, ShiftOpW::Slliw, 31, 30, 0),
    (0x01FF_1F9B, ShiftOpW::Slliw, 31, 30, 31),
    (0x0001_509B, ShiftOpW::Srliw, 1, 2, 0),
    (0x01F1_509B, ShiftOpW::Srliw, 1, 2, 31),
    (0x400F_D01B, ShiftOpW::Sraiw, 0, 31, 0),
    (0x41FF_D01B, ShiftOpW::Sraiw, 0, 31, 31),
];

// ---- rd, rs1, immediate

const LOAD_WORDS: [(u32, LoadOp, u8, u8, u16); 7] = [
    (0x800F_0F83, LoadOp::Lb, 31, 30, 0x800),
    (0x7FF1_1083, LoadOp::Lh, 1, 2, 0x7FF),
    (0xFFFF_A003, LoadOp::Lw, 0, 31, 0xFFF),
    (0x0003_3283, LoadOp::Ld, 5, 6, 0x000),
    (0x001F_4F83, LoadOp::Lbu, 31, 30, 0x001),
    (0x5551_5083, LoadOp::Lhu, 1, 2, 0x555),
    (0x008F_E003, LoadOp::Lwu, 0, 31, 0x008),
];

// ---- rs1, rs2, immediate

const STORE_WORDS: [(u32, StoreOp, u8, u8, u16); 9] = [
    (0x81EF_8023, StoreOp::Sb, 31, 30, 0x800),
    (0x7E20_9FA3, StoreOp::Sh, 1, 2, 0x7FF),
    (0xFFF0_2FA3, StoreOp::Sw, 0, 31, 0xFFF),
    (0x8062_B023, StoreOp::Sd, 5, 6, 0x800),
    (0x7E62_BFA3, StoreOp::Sd, 5, 6, 0x7FF),
    (0xFE62_BFA3, StoreOp::Sd, 5, 6, 0xFFF),
    (0x0062_BFA3, StoreOp::Sd, 5, 6, 0x01F),
    (0x0262_B023, StoreOp::Sd, 5, 6, 0x020),
    (0x5462_BAA3, StoreOp::Sd, 5, 6, 0x555),
];

// ---- rs1, rs2, half of the distance

const BRANCH_WORDS: [(u32, BranchOp, u8, u8, u16); 12] = [
    (0x81EF_8063, BranchOp::Beq, 31, 30, 0x800),
    (0x7FEF_8FE3, BranchOp::Beq, 31, 30, 0x7FF),
    (0xFFEF_8FE3, BranchOp::Beq, 31, 30, 0xFFF),
    (0x01EF_8063, BranchOp::Beq, 31, 30, 0x000),
    (0x01EF_8F63, BranchOp::Beq, 31, 30, 0x00F),
    (0x03EF_8063, BranchOp::Beq, 31, 30, 0x010),
    (0x01EF_80E3, BranchOp::Beq, 31, 30, 0x400),
    (0x7E20_9FE3, BranchOp::Bne, 1, 2, 0x7FF),
    (0xFFF0_4FE3, BranchOp::Blt, 0, 31, 0xFFF),
    (0x0062_D163, BranchOp::Bge, 5, 6, 0x001),
    (0x01EF_E863, BranchOp::Bltu, 31, 30, 0x008),
    (0x8020_F1E3, BranchOp::Bgeu, 1, 2, 0xC01),
];

// ---- rd, immediate

const LUI_WORDS: [(u32, u8, u32); 5] = [
    (0x0000_0FB7, 31, 0x00000),
    (0x0000_10B7, 1, 0x00001),
    (0x8000_0037, 0, 0x80000),
    (0xFFFF_F2B7, 5, 0xFFFFF),
    (0x1234_53B7, 7, 0x12345),
];

const AUIPC_WORDS: [(u32, u8, u32); 5] = [
    (0x0000_0F97, 31, 0x00000),
    (0x0000_1097, 1, 0x00001),
    (0x8000_0017, 0, 0x80000),
    (0xFFFF_F297, 5, 0xFFFFF),
    (0x1234_5397, 7, 0x12345),
];

// ---- rd, half of the distance

const JAL_WORDS: [(u32, u8, u32); 8] = [
    (0x8000_0FEF, 31, 0x80000),
    (0x7FFF_F0EF, 1, 0x7FFFF),
    (0xFFFF_F06F, 0, 0xFFFFF),
    (0x0000_02EF, 5, 0x00000),
    (0x7FE0_036F, 6, 0x003FF),
    (0x0010_03EF, 7, 0x00400),
    (0x0000_146F, 8, 0x00800),
    (0x6AAA_A4EF, 9, 0x55355),
];

// ---- rd, rs1, immediate

const JALR_WORDS: [(u32, u8, u8, u16); 4] = [
    (0x800F_0FE7, 31, 30, 0x800),
    (0x7FF1_00E7, 1, 2, 0x7FF),
    (0xFFFF_8067, 0, 31, 0xFFF),
    (0x0003_02E7, 5, 6, 0x000),
];

const ADDIW_WORDS: [(u32, u8, u8, u16); 4] = [
    (0x800F_0F9B, 31, 30, 0x800),
    (0x7FF1_009B, 1, 2, 0x7FF),
    (0xFFFF_801B, 0, 31, 0xFFF),
    (0x0003_029B, 5, 6, 0x000),
];

const FENCE_WORDS: [(u32, u8, u8, u16); 4] = [
    (0x0FF0_000F, 0, 0, 0x0FF),
    (0x0310_000F, 0, 0, 0x031),
    (0x8330_000F, 0, 0, 0x833),
    (0xFFEF_0F8F, 31, 30, 0xFFE),
];

const NO_WORDS: [u32; 26] = [
    // zeros, ones, and two whose low bits are no opcode of RV64IM
    0x0000_0000,
    0xFFFF_FFFF,
    0x0000_0001,
    0x0000_002F,
    // FENCE.I, CSRRW, WFI, LR.W, FADD.S, FLW, MRET, SRET
    0x0000_100F,
    0x3001_10F3,
    0x1050_0073,
    0x1003_22AF,
    0x0031_70D3,
    0x0001_2087,
    0x3020_0073,
    0x1020_0073,
    // amounts of more than five and six bits; SRAI with a seventh bit
    0x0203_129B,
    0x0403_1293,
    0x8003_5293,
    // funct3 and funct7 that no instruction has
    0x0000_9067,
    0x0003_7283,
    0x0053_4023,
    0x0062_A463,
    0x0473_02B3,
    0x4073_12B3,
    0x0073_22BB,
    0x0273_12BB,
    // SYSTEM with other fields, and FENCE with another funct3
    0x0020_0073,
    0x0000_00F3,
    0x0000_200F,
];

fn register(rt: &impl Abort, number: u8) -> Register {
    assert!(rt; number < 32);
    Register::new(number)
}

fn imm12(rt: &impl Abort, bits: u16) -> Imm12 {
    assert!(rt; bits < 0x1000);
    Imm12::new(bits)
}

fn imm20(rt: &impl Abort, bits: u32) -> Imm20 {
    assert!(rt; bits < 0x10_0000);
    Imm20::new(bits)
}

/// The word is decoded as the operation, and the operation encoded as the word.
fn assert_word(rt: &impl Abort, word: u32, op: &Op) {
    assert_eq!(rt; decode(word), Some(*op), "at {word:#010x}");
    assert_eq!(rt; encode(*op), word);
}

#[test]
fn register_words(rt: HostRuntime) {
    for (word, op, rd, rs1, rs2) in REGISTER_WORDS {
        let (rd, rs1, rs2) = (register(&rt, rd), register(&rt, rs1), register(&rt, rs2));
        assert_word(&rt, word, &Op::Reg { op, rd, rs1, rs2 });
    }
    for (word, op, rd, rs1, rs2) in REGISTER_W_WORDS {
        let (rd, rs1, rs2) = (register(&rt, rd), register(&rt, rs1), register(&rt, rs2));
        assert_word(&rt, word, &Op::RegW { op, rd, rs1, rs2 });
    }
}

#[test]
fn immediate_words(rt: HostRuntime) {
    for (word, op, rd, rs1, imm) in IMMEDIATE_WORDS {
        let (rd, rs1, imm) = (register(&rt, rd), register(&rt, rs1), imm12(&rt, imm));
        assert_word(&rt, word, &Op::Imm { op, rd, rs1, imm });
    }
    for (word, rd, rs1, imm) in ADDIW_WORDS {
        let (rd, rs1, imm) = (register(&rt, rd), register(&rt, rs1), imm12(&rt, imm));
        assert_word(&rt, word, &Op::Addiw { rd, rs1, imm });
    }
}

#[test]
fn shift_words(rt: HostRuntime) {
    for (word, op, rd, rs1, amount) in SHIFT_WORDS {
        assert!(rt; amount < 64);
        let (rd, rs1, amount) = (register(&rt, rd), register(&rt, rs1), Shamt6::new(amount));
        assert_word(
            &rt,
            word,
            &Op::Shift {
                op,
                rd,
                rs1,
                amount,
            },
        );
    }
    for (word, op, rd, rs1, amount) in SHIFT_W_WORDS {
        assert!(rt; amount < 32);
        let (rd, rs1, amount) = (register(&rt, rd), register(&rt, rs1), Shamt5::new(amount));
        assert_word(
            &rt,
            word,
            &Op::ShiftW {
                op,
                rd,
                rs1,
                amount,
            },
        );
    }
}

#[test]
fn memory_words(rt: HostRuntime) {
    for (word, op, rd, rs1, imm) in LOAD_WORDS {
        let (rd, rs1, imm) = (register(&rt, rd), register(&rt, rs1), imm12(&rt, imm));
        assert_word(&rt, word, &Op::Load { op, rd, rs1, imm });
    }
    for (word, op, rs1, rs2, imm) in STORE_WORDS {
        let (rs1, rs2, imm) = (register(&rt, rs1), register(&rt, rs2), imm12(&rt, imm));
        assert_word(&rt, word, &Op::Store { op, rs1, rs2, imm });
    }
}

#[test]
fn upper_words(rt: HostRuntime) {
    for (word, rd, imm) in LUI_WORDS {
        let (rd, imm) = (register(&rt, rd), imm20(&rt, imm));
        assert_word(&rt, word, &Op::Lui { rd, imm });
    }
    for (word, rd, imm) in AUIPC_WORDS {
        let (rd, imm) = (register(&rt, rd), imm20(&rt, imm));
        assert_word(&rt, word, &Op::Auipc { rd, imm });
    }
}

#[test]
fn jump_words(rt: HostRuntime) {
    for (word, rd, offset) in JAL_WORDS {
        let (rd, offset) = (register(&rt, rd), imm20(&rt, offset));
        assert_word(&rt, word, &Op::Jal { rd, offset });
    }
    for (word, rd, rs1, imm) in JALR_WORDS {
        let (rd, rs1, imm) = (register(&rt, rd), register(&rt, rs1), imm12(&rt, imm));
        assert_word(&rt, word, &Op::Jalr { rd, rs1, imm });
    }
    for (word, op, rs1, rs2, offset) in BRANCH_WORDS {
        let (rs1, rs2, offset) = (register(&rt, rs1), register(&rt, rs2), imm12(&rt, offset));
        assert_word(
            &rt,
            word,
            &Op::Branch {
                op,
                rs1,
                rs2,
                offset,
            },
        );
    }
}

#[test]
fn system_words(rt: HostRuntime) {
    for (word, rd, rs1, imm) in FENCE_WORDS {
        let (rd, rs1, imm) = (register(&rt, rd), register(&rt, rs1), imm12(&rt, imm));
        assert_word(&rt, word, &Op::Fence { rd, rs1, imm });
    }
    assert_word(&rt, 0x0000_0073, &Op::Ecall);
    assert_word(&rt, 0x0010_0073, &Op::Ebreak);
}

#[test]
fn words_of_no_instruction(rt: HostRuntime) {
    for word in NO_WORDS {
        assert_eq!(rt; decode(word), None, "at {word:#010x}");
    }
}

/// What a buffer has after each kind of appending and a patch.
fn buffered(alloc: Global) -> Result<Words, AllocError> {
    let mut buffer = WordBuffer::new(alloc)?;
    buffer.push(7)?;
    buffer.append(&[8, 9])?;
    if buffer.place() == 3 {
        buffer.patch(1, 5);
    }
    Ok(buffer.finish())
}

/// A code that has what was put in: a call and a trap.
fn coded(alloc: Global) -> Result<Code, AllocError> {
    let call = Relocation {
        place: 1,
        function: 4,
    };
    let trap = TrapSite {
        place: 2,
        offset: 31,
    };
    Ok(Code {
        words: buffered(alloc)?,
        relocations: Relocations::from_vec(Vec::from_slice(alloc, &[call])?),
        traps: TrapSites::from_vec(Vec::from_slice(alloc, &[trap])?),
        need: 2,
    })
}

/// This code three times, behind two words.
fn listed(alloc: Global) -> Result<CodeList, AllocError> {
    let mut codes = CodeList::new(alloc);
    codes.begin(2)?;
    codes.push_own(coded(alloc)?)?;
    codes.push_own(coded(alloc)?)?;
    codes.push(&coded(alloc)?)?;
    Ok(codes)
}

#[test]
fn lists_codes(rt: HostRuntime) -> Result<(), Fail> {
    let codes = listed(rt.alloc())?;
    assert_eq!(rt; codes.count(), 3);
    for index in 0..codes.count() {
        let code = codes.get(index);
        assert_eq!(rt; code.words, 3);
        assert_eq!(rt; code.traps.len(), 1);
    }
    let parts = codes.into_parts();
    let text = parts.text.to_vec(rt.alloc())?;
    assert_eq!(rt;
        text.as_slice(),
        [0, 0, 7, 5, 9, 7, 5, 9, 7, 5, 9].as_slice()
    );
    assert_eq!(rt; parts.calls.len(), 3);
    assert_eq!(rt; (parts.begin.words, parts.ends.len()), (2, 3));
    Ok(())
}

#[test]
fn words_are_their_bytes(rt: HostRuntime) -> Result<(), Fail> {
    let mut words = Words::new(rt.alloc());
    words.push(0x0123_4567)?;
    words.append(&buffered(rt.alloc())?)?;
    words.set(1, 0x89AB_CDEF);
    // an index past the last one changes nothing
    words.set(4, 1);
    assert_eq!(rt; (words.get(1), words.get(4)), (Some(0x89AB_CDEF), None));
    let want = [
        0x67, 0x45, 0x23, 0x01, 0xEF, 0xCD, 0xAB, 0x89, 5, 0, 0, 0, 9, 0, 0, 0,
    ];
    assert_eq!(rt; words.as_bytes(), want.as_slice());
    Ok(())
}

#[test]
fn buffers(rt: HostRuntime) -> Result<(), Fail> {
    let code = coded(rt.alloc())?;
    assert!(rt; code.is_same(&code));
    let told = format!(in rt.alloc(); "{code:?}")?;
    assert_eq!(rt;
        told.as_str(),
        "Code { words: Words { words: [[7, 0, 0, 0], [5, 0, 0, 0], [9, 0, 0, 0]] }, \
        relocations: Relocations { relocations: [Relocation { place: 1, function: 4 }] }, \
        traps: TrapSites { sites: [TrapSite { place: 2, offset: 31 }] }, need: 2 }"
    );
    let lens = (
        code.words.len(),
        code.relocations.into_vec().len(),
        code.traps.into_vec().len(),
    );
    assert_eq!(rt; lens, (3, 1, 1));
    Ok(())
}
