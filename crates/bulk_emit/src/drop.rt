//! `data.drop` (Core 2.0, 4.4.7).

ghost use Rattle.std.specs.Prelude.{◌≡◌, ◌+◌, ◌*◌, ◌++◌, map, OnOk, OnErr};
ghost use Rattle.rv_isa.specs.Words.{word_of};
ghost use Rattle.frame_layout.specs.BulkWords.{drop_words};

use frame_layout::registers;
use frame_layout::words::store_behind;
use rv_isa::{Register, WordBuffer};
use std::alloc::AllocError;

/// The offset of a segment's length from the first global. After so many globals come two words for each segment: its length, and
/// the address of its bytes.
pub fn length_at(globals: u32, segment: u32) -> u64
    ensures { result ≡ 8 * (globals + 2 * segment) }
{
    8 * (u64::from(globals) + 2 * u64::from(segment))
}

/// Appends the instruction words of `data.drop` in a module of so many globals, or none if memory runs out: the segment's length
/// becomes zero.
pub fn emit_drop(buffer: &mut WordBuffer, globals: u32, segment: u32) -> Result<(), AllocError>
    ensures ok { OnOk result (buffer.new ≡ buffer.old ++ map word_of (drop_words (8 * (globals + 2 * segment)))) }
    ensures err { OnErr result (buffer.new ≡ buffer.old) }
{
    let length = length_at(globals, segment);
    let [a, b, c] = store_behind(Register::ZERO, Register::T3, registers::globals(), length);
    buffer.append(&[a, b, c])
}
