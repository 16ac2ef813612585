//! Words of 64 bits: as values, and in bytes, the low byte first.
ghost use Rattle.std.specs.Prelude.{◌≡◌, ◌+◌, ◌<◌, ◌≤◌, ◌++◌, All, IfOk, length};
ghost use Rattle.rv_isa.specs.Steps.{le_bytes, put};
ghost use Rattle.rv_isa.specs.declared.stepping.Region.TheVariants.{Stack, Memory};
ghost use Rattle.rv64im_machine.specs.Lending.{with_bytes};
ghost use Rattle.wasm_defs.specs.Values.{value_of, word_of};
ghost use Rattle.image_format.specs.Environment.{held};
ghost use Rattle.image_run.specs.States.{Keeps};

use rv64im_machine::{Machine, Region};
use std::alloc::AllocError;
use wasm_defs::{ValType, Value};

/// How a word holds a value: an i32 is extended by its sign.
pub(crate) fn word_of(value: Value) -> u64
    ensures { result ≡ word_of (value_of value) }
{
    match value {
        Value::I32(number) => i64::from(number).cast_unsigned(),
        Value::I64(number) => number.cast_unsigned(),
    }
}

/// The value of a type that a word holds: of an i32, the low 32 bits.
pub(crate) fn value_in(ty: ValType, word: u64) -> Value
    ensures { value_of result ≡ held ty word }
{
    match ty {
        ValType::I32 => Value::I32(((word % 0x1_0000_0000) as u32).cast_signed()),
        ValType::I64 => Value::I64(word.cast_signed()),
    }
}

/// Appends the eight bytes of a word.
pub(crate) fn push_word(bytes: &mut Vec<u8>, word: u64) -> Result<(), AllocError>
    ensures { IfOk result (λ _. bytes.new.items ≡ bytes.old.items ++ le_bytes 8 word) }
{
    bytes.extend_from_slice(&word.to_le_bytes())
}

/// Writes bytes over those of the stack from an index on.
fn write_stack(machine: &mut Machine, at: usize, bytes: &[u8])
    requires { at + length bytes.now ≤ length machine.old.bytes.stack }
    ensures kept { Keeps machine.old machine.new }
    ensures written { machine.new ≡ with_bytes machine.old Stack (put (length bytes.now) at machine.old.bytes.stack bytes.now) }
{
    let all = machine.bytes_mut(Region::Stack);
    all[at..at + bytes.len()].copy_from_slice(bytes);
}

/// Writes bytes over those of the memory from an address on, where they are stored.
pub(crate) fn write_memory(machine: &mut Machine, at: usize, bytes: &[u8])
    requires { at + length bytes.now ≤ machine.old.backed }
    ensures kept { Keeps machine.old machine.new }
    ensures bytes { All (λ b. b < 256) bytes.now }
    ensures written { machine.new ≡ with_bytes machine.old Memory (put (length bytes.now) at machine.old.bytes.memory bytes.now) }
{
    let all = machine.bytes_mut(Region::Memory);
    all[at..at + bytes.len()].copy_from_slice(bytes);
}

/// Writes the word that holds a value over the eight bytes of the stack from an index on.
pub(crate) fn write_value(machine: &mut Machine, at: usize, value: Value)
    requires { at + 8 ≤ length machine.old.bytes.stack }
    ensures kept { Keeps machine.old machine.new }
    ensures written { machine.new ≡ with_bytes machine.old Stack (put 8 at machine.old.bytes.stack (le_bytes 8 (word_of (value_of value)))) }
{
    write_stack(machine, at, &word_of(value).to_le_bytes());
}
