//! Validates or compiles the module that a source gives, while its bytes come.

ghost use Rattle.std.specs.Prelude.{◌≡◌, ◌<◌, ◌^◌, ◌-◌, true, nat_lt};
ghost use Rattle.io_edges.specs.Streams.{TookFront};
ghost use Rattle.module_stream.specs.ValidPrefixes.{closing_bytes};
ghost use Rattle.source_reading.specs.Compiling.{CompilesSource, ChecksSource};

use io_edges::{Gate, Source};
use module_stream::{Codes, Compilation, Settings};
use source_reading::{Answer, CheckAnswer, judge_source};
use std::alloc::Global;
use std::sync::Wait;
use std::thread::Threads;

/// Compiles the module whose bytes the source gives (WebAssembly Web API 1.0, streaming compilation): its one image, or its error
/// of least offset. The image behaves as the module does.
///
/// Bytes are read as they come, up to the first error, and no input is kept. With no workers a batch of bodies is validated as soon as it is
/// closed, before more bytes are asked for. The answer is the same for all settings, and however
/// the source cuts the bytes. Where the source failed, an error of the bytes that came decides, if there is one that more bytes
/// don't mend, and else the answer is `ReadFault`.
pub fn stream_compile<R: Threads + Wait + Sync, S: Source, G: Gate>(
    rt: &R,
    alloc: Global,
    source: &mut S,
    gate: &G,
    settings: Settings,
) -> Answer
    requires faults { S.faults source.old < 2 ^ 64 - 1 }
    requires open { S.is_open source.old ≡ true }
    ensures answer { CompilesSource (closing_bytes settings.workers settings.batch) (nat_lt (S.faults source.old) (S.faults source.new)) (S.left source.old)
        (S.left source.new) result }
    ensures front { TookFront (S.left source.old) (S.faults source.old) (S.left source.new) (S.faults source.new) }
{
    let mut compilation = Compilation::new(alloc, settings.batch, Codes::kept(alloc));
    match judge_source(rt, alloc, source, gate, settings.workers, &mut compilation) {
        CheckAnswer::Valid(_) => match compilation.build() {
            Ok(built) => Answer::Image(built),
            Err(_) => Answer::NoMemory,
        },
        CheckAnswer::Refused(refusal) => Answer::Refused(refusal),
        CheckAnswer::ReadFault => Answer::ReadFault,
        CheckAnswer::NoMemory => Answer::NoMemory,
    }
}

/// Validates the module whose bytes the source gives: how many functions it declares and how many bytes it has, or its error of
/// least offset.
///
/// It validates and compiles as `stream_compile` does, with the same answer to bytes that are no module and to a source that
/// fails, and keeps neither the input nor any code: the memory that it takes doesn't grow with the module but for what the module
/// declares outside its bodies.
pub fn stream_check<R: Threads + Wait + Sync, S: Source, G: Gate>(
    rt: &R,
    alloc: Global,
    source: &mut S,
    gate: &G,
    settings: Settings,
) -> CheckAnswer
    requires faults { S.faults source.old < 2 ^ 64 - 1 }
    requires open { S.is_open source.old ≡ true }
    ensures answer { ChecksSource (closing_bytes settings.workers settings.batch) (nat_lt (S.faults source.old) (S.faults source.new)) (S.left source.old)
        (S.left source.new) result }
    ensures front { TookFront (S.left source.old) (S.faults source.old) (S.left source.new) (S.faults source.new) }
{
    // Why: docs/DECISIONS.md, "`check` validates by the compiler itself"
    let mut compilation = Compilation::new(alloc, settings.batch, Codes::counted());
    judge_source(rt, alloc, source, gate, settings.workers, &mut compilation)
}
