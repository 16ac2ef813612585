//! Room on the stack.

ghost use Rattle.std.specs.Prelude.{◌≡◌, ◌≤◌, ◌^◌, map};
ghost use Rattle.rv_isa.specs.Words.{word_of};
ghost use Rattle.frame_layout.specs.Templates.{room_words};

use frame_layout::words::{const_32, trap};
use rv_isa::{BranchOp, Imm12, RegOp, Register, encode_branch, encode_reg};
use wasm_defs::TrapKind;

/// The instruction words past the trap where the stack has so many slots from s0 on.
pub fn room(slots: u64) -> [u32; 10]
    requires { slots ≤ 2 ^ 32 }
    ensures { result ≡ map word_of (room_words slots) }
{
    let [a, b, c, d, e] = const_32(Register::T0, 8 * slots);
    let [x, y, z] = trap(TrapKind::StackExhausted);
    [
        a,
        b,
        c,
        d,
        e,
        encode_reg(RegOp::Add, Register::T0, Register::T0, Register::S0),
        encode_branch(BranchOp::Bgeu, Register::S5, Register::T0, Imm12::new(8)),
        x,
        y,
        z,
    ]
}
