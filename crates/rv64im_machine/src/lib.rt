//! An interpreter of RV64IM (The RISC-V Instruction Set Manual, Volume I: Unprivileged ISA, 20191213).
//!
//! A [`Machine`] has registers, an address of the next instruction word, a text of such words and five regions of bytes. A step
//! does what the step table of `rv_isa` says of one word, and a run makes many steps. Words are decoded once, into a
//! direct-mapped cache of fixed size, and sequences of words that the compiler's templates make are fused: a run makes their
//! steps at once, as far as no one of them faults, and what it does is what the single steps do.
#![tactic(auto)]

mod direct;
mod execution;
mod machine;
mod outcome;
mod running;
mod transition;
mod words;

pub use fused_steps::Regions;
pub use linear_memory::LinearMemory;
pub use machine::Machine;
pub use outcome::{Ran, Stepped};
pub use rv_isa::{FaultKind, Region};
