//! Calls of functions of modules.
ghost use Rattle.std.specs.Prelude.{IfOk};
ghost use Rattle.image_run.specs.Ends.{TellsCount};
ghost use Rattle.embedding.specs.Calls.{CallsImage, CallsModule, IsFirst};

use crate::compiling::{Compiled, compile_bytes};
use crate::list_host::ListHost;
use image_format::Image;
use image_run::{Instance, NotRunnable, Outcome, call_checks};
use std::alloc::{AllocError, Global};
use std::sync::Wait;
use std::thread::Threads;
use wasm_defs::{Refusal, Value};

/// What a call of a module's function comes to.
#[derive(Clone, Copy, Debug, PartialEq, Eq)]
pub enum Called {
    /// The bytes are no module: their first error.
    Refused(Refusal),
    /// The function isn't called, for this reason.
    NotRunnable(NotRunnable),
    /// It was called, and ended so, with this as its first result where it has one.
    Ended(Outcome, Option<Value>),
}

/// The first result of a run that ended so, where it returned any.
fn first_result(instance: &Instance<'_>, outcome: Outcome) -> Option<Value>
    requires { TellsCount outcome instance.now.results }
    ensures { IsFirst outcome result instance.now.results }
{
    match outcome {
        Outcome::Returned(count) if count > 0 => Some(instance.result(0)),
        _ => None,
    }
}

/// Loads an image and calls the function that it exports under a name with a number, for at most so many steps of the machine. The
/// host answers its calls of imports from a list.
pub fn call_image(
    alloc: Global,
    image: &Image,
    export: &str,
    argument: i32,
    numbers: &[i64],
    steps: u64,
) -> Result<Called, AllocError>
    ensures { IfOk result (CallsImage image.now export.now argument numbers.now steps) }
{
    let arguments = [Value::I32(argument)];
    if let Some(reason) = call_checks(image, export, &arguments) {
        return Ok(Called::NotRunnable(reason));
    }
    let mut instance = Instance::load(alloc, image)?;
    let mut host = ListHost { numbers };
    let outcome = instance.start_and_run(export, &arguments, &mut host, steps);
    Ok(Called::Ended(outcome, first_result(&instance, outcome)))
}

/// Compiles bytes that are in memory, and calls a function of the module that they are.
pub fn call_module<R: Threads + Wait + Sync>(
    rt: &R,
    alloc: Global,
    bytes: &[u8],
    export: &str,
    argument: i32,
    numbers: &[i64],
    steps: u64,
) -> Result<Called, AllocError>
    ensures { IfOk result (CallsModule bytes.now export.now argument numbers.now steps) }
{
    match compile_bytes(rt, alloc, bytes)? {
        Compiled::Refused(refusal) => Ok(Called::Refused(refusal)),
        Compiled::Image(image) => call_image(alloc, &image, export, argument, numbers, steps),
    }
}
