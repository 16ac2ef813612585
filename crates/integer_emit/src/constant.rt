//! Constants.

ghost use Rattle.std.specs.Prelude.{◌≡◌, ◌<◌, ◌^◌, ◌++◌, map, OnOk, OnErr};
ghost use Rattle.rv_isa.specs.Words.{word_of};
ghost use Rattle.wasm_defs.specs.declared.types.ValType.TheVariants.{I32};
ghost use Rattle.wasm_defs.specs.Values.{word, unsigned, value_of};
ghost use Rattle.frame_layout.specs.Slots.{operand};
ghost use Rattle.frame_layout.specs.Templates.{EmitContext, const_words};

use frame_layout::Layout;
use frame_layout::words::{const_32, const_64, slot_store};
use rv_isa::{Register, WordBuffer};
use std::alloc::AllocError;
use wasm_defs::Value;

/// An i32 extended by its sign.
fn extended(n: i32) -> u64
    ensures { result ≡ word I32 (unsigned I32 n) }
{
    let bits = u64::from(n.cast_unsigned());
    if bits < 0x8000_0000 {
        bits
    } else {
        bits + 0xFFFF_FFFF_0000_0000
    }
}

/// Appends the instruction words that put a constant on top of so many operands, or none if memory
/// runs out.
pub fn emit_const(
    buffer: &mut WordBuffer,
    layout: &Layout,
    height: u32,
    value: Value,
) -> Result<(), AllocError>
    requires { operand layout.now height < 2 ^ 32 }
    ensures ok { (w : EmitContext) → w.layout ≡ layout.now → OnOk result
        (buffer.new ≡ buffer.old ++ map word_of (const_words w height (value_of value).ty (value_of value).number)) }
    ensures err { OnErr result (buffer.new ≡ buffer.old) }
{
    let [x, y, z] = slot_store(Register::T0, layout.operand(height));
    match value {
        Value::I32(n) => {
            // Why: docs/DECISIONS.md, "Constants of an `i32` are extended by their sign"
            let [a, b, c, d, e] = const_32(Register::T0, extended(n));
            buffer.append(&[a, b, c, d, e, x, y, z])
        }
        Value::I64(n) => {
            let [a, b, c, d, e, f, g, h, i, j, k] = const_64(Register::T0, n.cast_unsigned());
            buffer.append(&[a, b, c, d, e, f, g, h, i, j, k, x, y, z])
        }
    }
}
