//! Calls of functions that images export.

ghost use Rattle.std.specs.Prelude.{◌≡◌, ◌<◌, ◌^◌, ◌-◌, true, IfOk, OnErr, map, nat_lt};
ghost use Rattle.wasm_defs.specs.Host.{in_range, all_in_range};
ghost use Rattle.wasm_defs.specs.Values.{value_of as value};
ghost use Rattle.stream_compile.specs.Running.{IsTold, RunsAs};
ghost use Rattle.stream_compile.specs.Texts.{given_value};

use crate::output::unrunnable;
use crate::writing::{SINK_FAILED, write, write_end};
use command_words::{Argument, Call};
use image_format::Image;
use image_run::{Instance, run_checks};
use io_edges::Sink;
use std::alloc::{AllocError, Global};
use wasi_host::run_hosted;
use wasm_defs::Value;

fn value_of(argument: Argument) -> Value
    ensures value { result ≡ given_value argument }
    ensures range { in_range (value result) ≡ true }
{
    match argument {
        Argument::I32(n) => Value::I32(n),
        Argument::I64(n) => Value::I64(n),
    }
}

fn values_of(alloc: Global, arguments: &[Argument]) -> Result<Vec<Value>, AllocError>
    ensures values { IfOk result (λ values. values.items ≡ map given_value arguments.now) }
    ensures ranges { IfOk result (λ values. all_in_range (map value values.items) ≡ true) }
{
    let mut values = Vec::with_capacity(alloc, arguments.len())?;
    for argument in arguments {
        values.push(value_of(*argument))?;
    }
    Ok(values)
}

/// Calls the function of an image that the words name, and writes what its calls write and how it ended, or why there can be no
/// call. For a drill, which has so many functions, the line of a value says them. The result is the status.
///
/// All memory is taken before anything is written.
pub fn run_image<O: Sink>(
    alloc: Global,
    image: &Image,
    call: &Call,
    drill: Option<u64>,
    out: &mut O,
) -> Result<u8, AllocError>
    requires count { O.faults out.old < 2 ^ 64 - 1 }
    requires open { O.is_open out.old ≡ true }
    ensures told { IfOk result (λ status. IsTold (RunsAs drill image.now call.now) status (nat_lt (O.faults out.old) (O.faults out.new)) (O.written out.old)
        (O.written out.new)) }
    ensures kept { OnErr result (out.new ≡ out.old) }
{
    let values = values_of(alloc, call.arguments.as_slice())?;
    let name = call.export.as_str();
    if let Some(why) = run_checks(image, name, &values) {
        return Ok(write(out, &unrunnable(alloc, why)?));
    }
    let mut instance = Instance::load(alloc, image)?;
    match run_hosted(&mut instance, image, name, &values, out, call.steps) {
        Some(end) => Ok(write_end(out, drill, call.peek, end, &instance)),
        None => Ok(SINK_FAILED),
    }
}
