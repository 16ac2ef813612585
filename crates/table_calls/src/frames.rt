//! The caller's frame moves up for a call, and back after it.

ghost use Rattle.std.specs.Prelude.{◌≡◌, map};
ghost use Rattle.rv_isa.specs.Words.{word_of};
ghost use Rattle.frame_layout.specs.Macros.{shift, back};

use frame_layout::words::const_32;
use rv_isa::{RegOp, Register, encode_reg};

/// Moves the frame up by so many slots.
#[inline(always)]
pub fn shift(slots: u32) -> [u32; 6]
    ensures { result ≡ map word_of (shift slots) }
{
    let [a, b, c, d, e] = const_32(Register::T0, 8 * u64::from(slots));
    let up = encode_reg(RegOp::Add, Register::S0, Register::S0, Register::T0);
    [a, b, c, d, e, up]
}

/// Moves the frame back by so many slots.
#[inline(always)]
pub fn back(slots: u32) -> [u32; 6]
    ensures { result ≡ map word_of (back slots) }
{
    let [a, b, c, d, e] = const_32(Register::T0, 8 * u64::from(slots));
    let down = encode_reg(RegOp::Sub, Register::S0, Register::S0, Register::T0);
    [a, b, c, d, e, down]
}
