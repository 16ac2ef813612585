//! Runs with the host.
ghost use Rattle.std.specs.Prelude.{◌≡◌, ◌<◌, ◌-◌, ◌^◌, true, false, None, IfSome, IsSome, MatchOption, OnSome, map};
ghost use Rattle.wasm_defs.specs.Values.{type_of, value_of};
ghost use Rattle.io_edges.specs.Causes.{Rose};
ghost use Rattle.image_format.specs.declared.image.Export.{Export};
ghost use Rattle.image_run.specs.Checks.{export_named, not_runnable};
ghost use Rattle.image_run.specs.declared.outcome.Outcome.TheVariants.{HostStopped};
ghost use Rattle.image_run.specs.Ends.{TellsCount, run_of_export};
ghost use Rattle.wasi_host.specs.Hosted.{HostsRun, code_of_end, outcome_of};

use crate::run_end::RunEnd;
use crate::wasi_host::WasiHost;
use image_format::Image;
use image_run::{Instance, Outcome};
use io_edges::Sink;
use wasm_defs::Value;

/// How a run ended, by its outcome and the exit code of `proc_exit`, which is there exactly where the host stopped it.
fn end_of(outcome: Outcome, exit: Option<u32>) -> RunEnd
    requires stopped { outcome ≡ HostStopped → IsSome exit }
    requires exited { IsSome exit → outcome ≡ HostStopped }
    ensures outcome { outcome_of result ≡ outcome }
    ensures code { code_of_end result ≡ exit }
{
    match (outcome, exit) {
        (Outcome::Returned(count), _) => RunEnd::Returned(count),
        (Outcome::Trapped(kind, place), _) => RunEnd::Trapped(kind, place),
        (Outcome::StepsSpent, _) => RunEnd::StepsSpent,
        (Outcome::HostStopped, Some(code)) => RunEnd::Exited(code),
        (Outcome::HostStopped, None) => unreachable!(),
        (Outcome::Fault(kind, pc), _) => RunEnd::Fault(kind, pc),
    }
}

/// Runs the start function of an image and the exported function of that name, as `Instance::start_and_run` does, with a
/// `WasiHost` that prints to a sink. It gives how the run ended; or nothing, where the sink failed.
///
/// The bytes of the calls that the run makes are written; where the sink failed, a prefix of those that a run makes whose calls
/// are all answered.
///
/// The conditions are that the instance is of this image and hasn't run, and that `run_checks` finds nothing.
pub fn run_hosted<O: Sink>(
    instance: &mut Instance,
    image: &Image,
    export: &str,
    arguments: &[Value],
    out: &mut O,
    steps: u64,
) -> Option<RunEnd>
    requires ready { instance.old.has_run ≡ false }
    requires same { instance.old.image ≡ image.now }
    requires count { O.faults out.old < 2 ^ 64 - 1 }
    requires open { O.is_open out.old ≡ true }
    requires fit { not_runnable image.now export.now (map type_of arguments.now) ≡ None }
    ensures image { instance.new.image ≡ image.now }
    ensures has_run { instance.new.has_run ≡ true }
    ensures count { IfSome result (λ end. TellsCount (outcome_of end) instance.new.results) }
    ensures faults { MatchOption result (Rose (O.faults out.old) (O.faults out.new)) (λ _. O.faults out.new ≡ O.faults out.old) }
    ensures open { OnSome result (O.is_open out.new ≡ true) }
    ensures run { (e : Export) × (export_named export.now image.now.exports ≡ Some e)
        × HostsRun result image.now.imports (λ rs. run_of_export image.now e (map value_of arguments.now) rs steps)
        instance.new.memory instance.new.results (O.written out.old) (O.written out.new) }
{
    let mut host = WasiHost::new(image, out);
    let outcome = instance.start_and_run(export, arguments, &mut host, steps);
    if host.is_open() {
        Some(end_of(outcome, host.exit_code()))
    } else {
        None
    }
}
