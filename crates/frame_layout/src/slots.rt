//! The instruction words that move a slot of the frame.

ghost use Rattle.std.specs.Prelude.{◌≡◌, ◌<◌, ◌++◌, map, OnOk, OnErr};
ghost use Rattle.rv_isa.specs.Words.{word_of};
ghost use Rattle.frame_layout.specs.Macros.{load_slot, store_slot};

use crate::macros::{slot_load, slot_store};
use rv_isa::{Register, WordBuffer};
use std::alloc::AllocError;

/// Appends the instruction words that load a slot into a register, or none if memory runs out.
pub fn load_slot(buffer: &mut WordBuffer, register: u8, slot: u32) -> Result<(), AllocError>
    requires { register < 32 }
    ensures ok { OnOk result (buffer.new ≡ buffer.old ++ map word_of (load_slot register slot)) }
    ensures err { OnErr result (buffer.new ≡ buffer.old) }
{
    buffer.append_ops(&[&slot_load(Register::new(register), slot)])
}

/// Appends the instruction words that store a register into a slot, or none if memory runs out.
/// They use t3.
pub fn store_slot(buffer: &mut WordBuffer, register: u8, slot: u32) -> Result<(), AllocError>
    requires { register < 32 }
    ensures ok { OnOk result (buffer.new ≡ buffer.old ++ map word_of (store_slot register slot)) }
    ensures err { OnErr result (buffer.new ≡ buffer.old) }
{
    buffer.append_ops(&[&slot_store(Register::new(register), slot)])
}
