//! Calls of functions by their index (Core 4.4.5.10).

ghost use Rattle.std.specs.Prelude.{◌≡◌, ◌+◌, ◌-◌, ◌<◌, ◌≤◌, ◌^◌, ◌++◌, map, length, IfOk, OnErr};
ghost use Rattle.rv_isa.specs.Words.{word_of};
ghost use Rattle.frame_layout.specs.Slots.{operand};
ghost use Rattle.frame_layout.specs.Templates.{EmitContext, call_words};
ghost use Rattle.frame_layout.specs.Functions.{no_distance};

use crate::frames::{back, shift};
use frame_layout::Layout;
use frame_layout::macros::call;
use rv_isa::{Relocation, WordBuffer, encode};
use std::alloc::AllocError;

/// So many instruction words of a call come before its AUIPC.
const WORDS_BEFORE: usize = 6;

/// Appends the instruction words of a call with so many operands on the stack, of which the topmost are its arguments, or none
/// if memory runs out. Its distance is 0 until the function has an offset in a text. The answer is the index of its AUIPC, and
/// which function it calls.
pub fn emit_call(
    buffer: &mut WordBuffer,
    layout: &Layout,
    height: u32,
    arguments: u32,
    function: u32,
) -> Result<Relocation, AllocError>
    requires operands { arguments ≤ height }
    requires fits { operand layout.now (height - arguments) < 2 ^ 32 }
    ensures words { (w : EmitContext) → w.layout ≡ layout.now → w.distance_to ≡ no_distance
        → IfOk result (λ r. buffer.new ≡ buffer.old ++ map word_of (call_words w height (length buffer.old) function arguments)) }
    ensures relocation { IfOk result (λ r. r ≡ record { place = length buffer.old + 6; function = function }) }
    ensures err { OnErr result (buffer.new ≡ buffer.old) }
{
    let place = buffer.len() + WORDS_BEFORE;
    let slots = layout.operand(height - arguments);
    let [a, b, c, d, e, f] = shift(slots);
    let [upper, lower] = call(0);
    let upper = encode(upper);
    let lower = encode(lower);
    let [u, v, w, x, y, z] = back(slots);
    buffer.append(&[a, b, c, d, e, f, upper, lower, u, v, w, x, y, z])?;
    Ok(Relocation { place, function })
}
