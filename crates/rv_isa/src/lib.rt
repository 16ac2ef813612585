//! RV64IM as instruction words and as operations: RV64I 2.1 and M 2.0 of
//! `The RISC-V Instruction Set Manual, Volume I: Unprivileged ISA`, document version 20191213. The section
//! numbers in this crate are that manual's.
//!
//! An [`Op`] is an instruction with its fields. [`encode`] gives its instruction word and [`decode`] the
//! operation of a word: each is the other's inverse. [`WordBuffer`] collects words. `specs/Words.antt` has the
//! words, and `specs/Values.antt` and `specs/Steps.antt` have what each operation does, with its laws in
//! [`laws`].
#![tactic(auto)]

mod buffer;
mod compiled;
pub mod decoding;
mod encoding;
mod fields;
pub mod laws;
mod operations;
mod stepping;
mod table;

pub use buffer::WordBuffer;
pub use compiled::{Code, Relocation, Relocations, TrapSite, TrapSites, Words};
pub use decoding::decode;
pub use encoding::{
    encode, encode_auipc, encode_branch, encode_ecall, encode_imm, encode_jalr, encode_load,
    encode_lui, encode_reg, encode_reg_w, encode_shift, encode_store,
};
pub use fields::{Imm12, Imm20, Register, Shamt5, Shamt6};
pub use operations::{BranchOp, ImmOp, LoadOp, Op, RegOp, RegOpW, ShiftOp, ShiftOpW, StoreOp};
pub use stepping::{FaultKind, Region};
pub use table::Opcode;
