//! The end of a function.

ghost use Rattle.std.specs.Prelude.{◌≡◌, ◌<◌, ◌^◌, ◌-◌, ◌++◌, map, take, length, OnOk, OnErr};
ghost use Rattle.std.specs.Bool.{OnTrue, OnFalse};
ghost use Rattle.rv_isa.specs.declared.operations.Op.TheVariants.{Jalr as JalrGiven};
ghost use Rattle.rv_isa.specs.Words.{word_of};
ghost use Rattle.frame_layout.specs.Slots.{link, operand};
ghost use Rattle.frame_layout.specs.Macros.{x0, ra, t0, load_slot, store_slot};
ghost use Rattle.frame_layout.specs.Templates.{result_words, epilogue};

use frame_layout::Layout;
use frame_layout::words::{slot_load, slot_store};
use rv_isa::{Imm12, Register, WordBuffer, encode_jalr};
use std::alloc::AllocError;

/// The instruction word of the jump to the address in ra.
pub fn jump_back() -> u32
    ensures { result ≡ word_of (JalrGiven x0 ra 0) }
{
    encode_jalr(Register::ZERO, Register::RA, Imm12::new(0))
}

/// Appends the instruction words that move the result of an index to its slot, or none if memory runs out.
fn move_result(buffer: &mut WordBuffer, layout: &Layout, index: u32) -> Result<(), AllocError>
    requires { operand layout.now index < 2 ^ 32 }
    ensures ok { OnOk result (buffer.new ≡ buffer.old ++ map word_of (load_slot t0 (operand layout.now index) ++ store_slot t0 index)) }
    ensures err { OnErr result (buffer.new ≡ buffer.old) }
{
    let [a, b, c] = slot_load(Register::T0, layout.operand(index));
    let [x, y, z] = slot_store(Register::T0, index);
    buffer.append(&[a, b, c, x, y, z])
}

/// Appends the instruction words that move so many results to the frame's first slots, or, if memory runs out, those of some,
/// and says whether all are there.
fn move_results(buffer: &mut WordBuffer, layout: &Layout, results: u32) -> bool
    requires { 0 < results → operand layout.now (results - 1) < 2 ^ 32 }
    ensures all { OnTrue result (buffer.new ≡ buffer.old ++ map word_of (result_words layout.now results 0)) }
    ensures some { OnFalse result (take (length buffer.old) buffer.new ≡ buffer.old) }
{
    for index in 0..results {
        match move_result(buffer, layout, index) {
            Ok(()) => {}
            Err(_) => return false,
        }
    }
    true
}

/// Appends the instruction words at the end of a function of so many results, or none if memory runs out: its results move to
/// the frame's first slots, and the machine goes to the return address.
pub fn emit_return(buffer: &mut WordBuffer, layout: &Layout, results: u32) -> Result<(), AllocError>
    requires link { link layout.now < 2 ^ 32 }
    requires result { 0 < results → operand layout.now (results - 1) < 2 ^ 32 }
    ensures ok { OnOk result (buffer.new ≡ buffer.old ++ map word_of (epilogue layout.now results)) }
    ensures err { OnErr result (buffer.new ≡ buffer.old) }
{
    let start = buffer.place();
    buffer.append(&slot_load(Register::RA, layout.link()))?;
    let is_whole = move_results(buffer, layout, results) && buffer.push(jump_back()).is_ok();
    if is_whole {
        return Ok(());
    }
    buffer.truncate(start);
    Err(AllocError)
}
