//! The stub of an imported function.

ghost use Rattle.std.specs.Prelude.{◌≡◌, ◌++◌, map, OnOk, OnErr};
ghost use Rattle.rv_isa.specs.Words.{word_of};
ghost use Rattle.frame_layout.specs.Templates.{import_stub};

use crate::returning::jump_back;
use crate::room::room;
use frame_layout::words::const_32;
use rv_isa::{Imm12, ImmOp, Register, WordBuffer, encode_ecall, encode_imm};
use std::alloc::AllocError;

/// Appends the instruction words of an imported function's stub, or none if memory runs out: they trap where the stack has
/// no room for its parameters and a result, ask the environment for the import of that number, and return.
pub fn emit_import_stub(buffer: &mut WordBuffer, params: u32, import: u32) -> Result<(), AllocError>
    ensures ok { OnOk result (buffer.new ≡ buffer.old ++ map word_of (import_stub params import)) }
    ensures err { OnErr result (buffer.new ≡ buffer.old) }
{
    let [a, b, c, d, e, f, g, h, i, j] = room(u64::from(params) + 1);
    let [v, w, x, y, z] = const_32(Register::A0, u64::from(import));
    let ask = encode_imm(ImmOp::Addi, Register::A7, Register::ZERO, Imm12::new(3));
    buffer.append(&[
        a,
        b,
        c,
        d,
        e,
        f,
        g,
        h,
        i,
        j,
        v,
        w,
        x,
        y,
        z,
        ask,
        encode_ecall(),
        jump_back(),
    ])
}
