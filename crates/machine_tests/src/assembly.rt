//! A text that is written word by word, in the formats of the RISC-V manual, section 2.2.

/// Words of a text.
pub(crate) const LENGTH: usize = 256;

/// A text and how many of its words are written.
#[derive(Drop)]
pub(crate) struct Text {
    pub(crate) words: [u32; LENGTH],
    pub(crate) count: usize,
}

// words of instructions all of whose fields are zero
pub(crate) const LUI: u32 = 0x37;

pub(crate) const AUIPC: u32 = 0x17;

pub(crate) const JALR: u32 = 0x67;

pub(crate) const LD: u32 = 0x3003;

pub(crate) const SD: u32 = 0x3023;

pub(crate) const ADDI: u32 = 0x13;

pub(crate) const SLLI: u32 = 0x1013;

pub(crate) const SLTIU: u32 = 0x3013;

pub(crate) const XORI: u32 = 0x4013;

pub(crate) const SRLI: u32 = 0x5013;

pub(crate) const ORI: u32 = 0x6013;

pub(crate) const ADDIW: u32 = 0x1B;

pub(crate) const ADD: u32 = 0x33;

pub(crate) const SUB: u32 = 0x4000_0033;

pub(crate) const SLTU: u32 = 0x3033;

pub(crate) const OR: u32 = 0x6033;

pub(crate) const BEQ: u32 = 0x63;

pub(crate) const BNE: u32 = 0x1063;

pub(crate) const BLTU: u32 = 0x6063;

pub(crate) const BGEU: u32 = 0x7063;

pub(crate) const ECALL: u32 = 0x73;

// registers
pub(crate) const X0: u32 = 0;

pub(crate) const RA: u32 = 1;

pub(crate) const T0: u32 = 5;

pub(crate) const T1: u32 = 6;

pub(crate) const T2: u32 = 7;

pub(crate) const S0: u32 = 8;

pub(crate) const S1: u32 = 9;

pub(crate) const A0: u32 = 10;

pub(crate) const A6: u32 = 16;

pub(crate) const A7: u32 = 17;

pub(crate) const S2: u32 = 18;

pub(crate) const S3: u32 = 19;

pub(crate) const S4: u32 = 20;

pub(crate) const S5: u32 = 21;

pub(crate) const T3: u32 = 28;

pub(crate) const T4: u32 = 29;

pub(crate) const T5: u32 = 30;

impl Text {
    /// A text of which no word is written.
    pub(crate) fn new() -> Self {
        Text {
            words: [0; LENGTH],
            count: 0,
        }
    }

    /// Writes a word, unless the text is full.
    pub(crate) fn push(&mut self, word: u32) {
        if self.count < LENGTH {
            self.words[self.count] = word;
            self.count += 1;
        }
    }

    /// An operation on two registers.
    pub(crate) fn reg(&mut self, op: u32, rd: u32, rs1: u32, rs2: u32) {
        self.push(op | (rd << 7) | (rs1 << 15) | (rs2 << 20));
    }

    /// An operation on a register and an immediate, or a load.
    pub(crate) fn imm(&mut self, op: u32, rd: u32, rs1: u32, imm: u64) {
        self.push(op | (rd << 7) | (rs1 << 15) | (low(imm, 0x1000) << 20));
    }

    /// The upper part of an offset.
    pub(crate) fn upper(&mut self, op: u32, rd: u32, offset: u64) {
        self.push(op | (rd << 7) | (low(offset.wrapping_add(2048) / 4096, 0x10_0000) << 12));
    }

    /// A store of rs2.
    pub(crate) fn store(&mut self, op: u32, rs1: u32, rs2: u32, imm: u64) {
        let (bottom, top) = (low(imm, 32), low(imm / 32, 128));
        self.push(op | (bottom << 7) | (rs1 << 15) | (rs2 << 20) | (top << 25));
    }

    /// A branch by so many words, less than 512.
    pub(crate) fn branch(&mut self, op: u32, rs1: u32, rs2: u32, words: u64) {
        let (bottom, top) = (low(words % 8 * 2, 16), low(words / 8, 64));
        self.push(op | (bottom << 8) | (rs1 << 15) | (rs2 << 20) | (top << 25));
    }

    /// The doubleword at an offset from the register base comes into rd.
    pub(crate) fn load_slot(&mut self, rd: u32, base: u32, offset: u64) {
        self.upper(LUI, rd, offset);
        self.reg(ADD, rd, rd, base);
        self.imm(LD, rd, rd, offset);
    }

    /// The register rs comes into the doubleword at an offset from the register base.
    pub(crate) fn store_slot(&mut self, rs: u32, base: u32, offset: u64) {
        self.upper(LUI, T3, offset);
        self.reg(ADD, T3, T3, base);
        self.store(SD, T3, rs, offset);
    }

    /// Eleven more bits of a number.
    pub(crate) fn append(&mut self, rd: u32, bits: u64) {
        self.imm(SLLI, rd, rd, 11);
        self.imm(ORI, rd, rd, bits % 2048);
    }

    /// A number of 32 bits, extended by its sign or by zeros.
    pub(crate) fn number(&mut self, rd: u32, value: u64) {
        self.imm(ADDI, rd, X0, value >> 22);
        self.append(rd, value >> 11);
        self.append(rd, value);
    }

    /// A branch past a trap, and the trap.
    pub(crate) fn guard(&mut self, op: u32, rs1: u32, rs2: u32, kind: u64) {
        self.branch(op, rs1, rs2, 4);
        self.imm(ADDI, A0, X0, kind);
        self.imm(ADDI, A7, X0, 1);
        self.push(ECALL);
    }

    /// The low half of t0.
    pub(crate) fn low_half(&mut self) {
        self.imm(SLLI, T0, T0, 32);
        self.imm(SRLI, T0, T0, 32);
    }

    /// A jump by a distance in bytes.
    pub(crate) fn far(&mut self, scratch: u32, link: u32, distance: u64) {
        self.upper(AUIPC, scratch, distance);
        self.imm(JALR, link, scratch, distance);
    }
}

/// The lowest bits of a number.
fn low(number: u64, bound: u64) -> u32 {
    (number % bound.clamp(1, 0x10_0000)) as u32
}
