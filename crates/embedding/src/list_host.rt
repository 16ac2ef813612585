//! A host that answers from a list.
ghost use Rattle.std.specs.Prelude.{◌≡◌, true, map, slice_get};
ghost use Rattle.wasm_defs.specs.declared.types.ValType.TheVariants.{I32};
ghost use Rattle.wasm_defs.specs.Values.{unsigned, value_of};
ghost use Rattle.image_run.specs.Hosts.{reply_of};
ghost use Rattle.embedding.specs.Lists.{found, reply_to};

use image_run::{Host, Reply};
use wasm_defs::Value;

/// A host whose imports give the number of a list at the index that their first argument is, an i32 read as unsigned. It stops the run
/// where the list has none there, and where the first argument is no i32. An import whose result isn't one i64 stops the run too, as each
/// reply does that isn't of the import's type.
#[derive(Drop)]
pub struct ListHost<'a> {
    pub numbers: &'a [i64],
}

/// The number at an index, read as unsigned, or that there is none.
fn reply_at(numbers: &[i64], index: i32) -> Reply
    ensures { reply_of result ≡ found (slice_get numbers.now (unsigned I32 index)) }
{
    match numbers.get(index.cast_unsigned() as usize) {
        Some(number) => Reply::Value(Some(Value::I64(*number)), None),
        None => Reply::Stop,
    }
}

/// What a call with these arguments is answered.
fn reply_to(numbers: &[i64], arguments: &[Value]) -> Reply
    ensures { reply_of result ≡ reply_to numbers.now (map value_of arguments.now) }
{
    match arguments.first() {
        Some(Value::I32(index)) => reply_at(numbers, *index),
        _ => Reply::Stop,
    }
}

impl<'a> Host for ListHost<'a> {
    ghost is_ready = { λ _. true };

    ghost answers = { λ from call reply to. (to.numbers.now ≡ from.numbers.now) × (reply ≡ reply_to from.numbers.now call.arguments) };

    fn call(&mut self, _number: u32, arguments: &[Value], _memory: &[u8]) -> Reply {
        reply_to(self.numbers, arguments)
    }
}
