//! Arguments of calls.
ghost use Rattle.std.specs.Prelude.{◌≡◌, map};
ghost use Rattle.wasm_defs.specs.Values.{value_of};
ghost use Rattle.wasi_host.specs.Answers.{code_in, i32_of, write_in};

use crate::write_call::WriteCall;
use wasm_defs::Value;

/// The number of an i32, unsigned.
fn i32_of(value: Value) -> Option<u32>
    ensures { result ≡ i32_of (value_of value) }
{
    match value {
        Value::I32(number) => Some(number.cast_unsigned()),
        Value::I64(_) => None,
    }
}

/// The call of `fd_write` with these arguments, where they are of its types.
pub(crate) fn write_in(arguments: &[Value]) -> Option<WriteCall>
    ensures { result ≡ write_in (map value_of arguments.now) }
{
    match arguments {
        [fd, iovs, iovs_len, nwritten] => Some(WriteCall {
            fd: i32_of(*fd)?,
            iovs: i32_of(*iovs)?,
            iovs_len: i32_of(*iovs_len)?,
            nwritten: i32_of(*nwritten)?,
        }),
        _ => None,
    }
}

/// The exit code in the arguments of `proc_exit`, where they are of its types.
pub(crate) fn code_in(arguments: &[Value]) -> Option<u32>
    ensures { result ≡ code_in (map value_of arguments.now) }
{
    match arguments {
        [code] => i32_of(*code),
        _ => None,
    }
}
