//! The command `drill`: a module that is made, compiled and run.

ghost use Rattle.std.specs.Prelude.{◌≡◌, ◌≤◌, ◌<◌, ◌^◌, ◌-◌, true, nat_lt, IfOk, OnErr};
ghost use Rattle.stream_compile.specs.Running.{IsTold};
ghost use Rattle.stream_compile.specs.Texts.{drill_call, OfDrill};

use crate::compiling::stream_compile;
use crate::output::{read_fault, rejected};
use crate::running::run_image;
use crate::writing::write;
use command_words::{Arguments, Call, Drill, Export};
use io_edges::{Flat, Gate, Sink};
use module_gen::drill_module;
use module_stream::Settings;
use source_reading::Answer;
use std::alloc::{AllocError, Global};
use std::sync::Wait;
use std::thread::Threads;

/// The call of the module's last function, which it exports under this name.
fn call_of(alloc: Global, drill: &Drill) -> Result<Call, AllocError>
    ensures { IfOk result (λ call. call ≡ drill_call drill.now.steps) }
{
    Ok(Call {
        export: Export::new(String::from_str(alloc, "run")?),
        arguments: Arguments::new(Vec::new(alloc)),
        steps: drill.steps,
        peek: None,
    })
}

/// Makes the module, compiles it as it compiles any source, and runs it. The result is the status.
pub fn drill<R: Threads + Wait + Sync, O: Sink, G: Gate>(
    rt: &R,
    alloc: Global,
    drill: &Drill,
    settings: Settings,
    out: &mut O,
    gate: &G,
) -> Result<u8, AllocError>
    requires least { 1 ≤ drill.now.count }
    requires most { drill.now.count ≤ 50000 }
    requires sink_count { O.faults out.old < 2 ^ 64 - 1 }
    requires sink_open { O.is_open out.old ≡ true }
    ensures told { IfOk result (λ status. IsTold (OfDrill drill.now) status (nat_lt (O.faults out.old) (O.faults out.new)) (O.written out.old)
        (O.written out.new)) }
    ensures kept { OnErr result (out.new ≡ out.old) }
{
    let bytes = drill_module(alloc, drill.count as u32)?;
    let call = call_of(alloc, drill)?;
    let mut source = Flat::new(bytes.as_slice());
    // Why: docs/DECISIONS.md, "`drill` compiles its module as any other"
    match stream_compile(rt, alloc, &mut source, gate, settings) {
        Answer::Image(built) => run_image(alloc, &built.image, &call, Some(built.functions), out),
        Answer::Refused(refusal) => Ok(write(out, &rejected(alloc, refusal)?)),
        Answer::ReadFault => Ok(write(out, &read_fault(alloc)?)),
        Answer::NoMemory => Err(AllocError),
    }
}
