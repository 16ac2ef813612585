//! Reads a source, and validates and compiles the module that it gives while its bytes come.

ghost use Rattle.std.specs.Prelude.{◌≡◌, ◌<◌, ◌^◌, ◌-◌, ℕ, Bool, true, false, List, [], Option, None, IsSome, OnOk, nat_lt};
ghost use Rattle.module_stream.specs.ValidPrefixes.{closing_bytes};
ghost use Rattle.io_edges.specs.Streams.{TookFront};
ghost use Rattle.source_reading.specs.Arriving.{IsArriving, Arrives, ReadsOn};
ghost use Rattle.module_stream.specs.Codes.{KeepsAlike};
ghost use Rattle.source_reading.specs.Reading.{Settled, Judged, answer_of, stopped_answer};
ghost use Rattle.module_stream.specs.Streaming.{IsErrorFree, IsUnread, AllWait};

use crate::answer::CheckAnswer;
use crate::beside::read_beside;
use crate::chunk::{Chunk, ReadStatus};
use io_edges::{Gate, Source};
use module_stream::{Checked, Compilation};
use std::alloc::Global;
use std::sync::Wait;
use std::thread::Threads;
use wasm_defs::{FrontStop, Kind};

/// What the bytes of a source came to.
#[derive(Drop)]
pub struct Ending {
    /// They are a module, or this is what is wrong.
    pub judged: Result<(), FrontStop>,
    /// The source failed after them.
    pub failed: bool,
}

/// Validates the bytes of a chunk that are still to be taken; where bodies begin, up to there alone if `up_to_bodies`.
fn take_pending(
    compilation: &mut Compilation,
    chunk: &mut Chunk,
    up_to_bodies: bool,
) -> Result<(), FrontStop>
    requires { (closing : Option ℕ) × (first : Option (List ℕ)) × (before : ℕ) × (left : Option (List ℕ)) × (now : ℕ) × (may_read : Bool)
        × IsArriving closing first before left now may_read compilation.old chunk.old }
    ensures arrives { (closing : Option ℕ) (first : Option (List ℕ)) (before : ℕ) (left : Option (List ℕ)) (now : ℕ) (may_read : Bool)
        → IsArriving closing first before left now may_read compilation.old chunk.old
        → Arrives closing result first before left now may_read compilation.new chunk.new }
    ensures all { OnOk result ((up_to_bodies ≡ false → chunk.new.pending ≡ []) × (compilation.new.cutter ≡ None → chunk.new.pending ≡ [])) }
    ensures no_error { OnOk result ((up_to_bodies ≡ false → IsErrorFree compilation.new) × (compilation.new.cutter ≡ None → IsErrorFree compilation.new)) }
    ensures waits { OnOk result (up_to_bodies ≡ false → AllWait compilation.new.cutter) }
    ensures batch { compilation.new.batch ≡ compilation.old.batch }
    ensures chunk { (chunk.new.count ≡ chunk.old.count) × (chunk.new.came ≡ chunk.old.came) }
    ensures kept { KeepsAlike compilation.old.codes compilation.new.codes }
{
    match compilation.feed(chunk.pending(), up_to_bodies) {
        Ok(taken) => {
            chunk.skip(taken);
            Ok(())
        }
        Err(stop) => Err(stop),
    }
}

/// Validates and compiles the bytes of a source as they come, up to their end or to the first error; or to the bodies' beginning,
/// if `up_to_bodies`, and then it gives none. No byte is asked for after the answer of the source or of the compilation that ends
/// the reading.
#[tactic(auto, using(crate::proofs::Fronts::took_nothing))]
fn read_on<S: Source>(
    source: &mut S,
    chunk: &mut Chunk,
    compilation: &mut Compilation,
    up_to_bodies: bool,
) -> Option<Ending>
    requires { (closing : Option ℕ) × (first : Option (List ℕ)) × (before : ℕ) × (IsSome closing → up_to_bodies ≡ false)
        × IsArriving closing first before (S.left source.old) (S.faults source.old) (S.is_open source.old) compilation.old chunk.old }
    ensures reads { (closing : Option ℕ) (first : Option (List ℕ)) (before : ℕ) → (IsSome closing → up_to_bodies ≡ false)
        → IsArriving closing first before (S.left source.old) (S.faults source.old) (S.is_open source.old) compilation.old chunk.old
        → ReadsOn closing result first before (S.left source.new) (S.faults source.new) (S.is_open source.new) compilation.new chunk.new }
    ensures some { up_to_bodies ≡ false → IsSome result }
    ensures kept { KeepsAlike compilation.old.codes compilation.new.codes }
    ensures front { TookFront (S.left source.old) (S.faults source.old) (S.left source.new) (S.faults source.new) }
{
    loop {
        match take_pending(compilation, chunk, up_to_bodies) {
            Ok(()) => {}
            // Why: docs/DECISIONS.md, "Reading ends at the first error that is found"
            Err(stop) => {
                return Some(Ending {
                    judged: Err(stop),
                    failed: chunk.has_failed(),
                });
            }
        }
        if compilation.stops(up_to_bodies) {
            return None;
        }
        let came = chunk.read(source);
        if came != ReadStatus::Bytes {
            return Some(Ending {
                judged: compilation.finish(),
                failed: chunk.has_failed(),
            });
        }
    }
}

/// Validates and compiles the bytes of a source as they come, up to their end or to the first error; its bodies in parallel by so
/// many workers.
#[tactic(auto, using(crate::proofs::Fronts::took_nothing))]
fn read_source<R: Threads + Wait + Sync, S: Source, G: Gate>(
    rt: &R,
    alloc: Global,
    source: &mut S,
    gate: &G,
    workers: u32,
    compilation: &mut Compilation,
) -> Ending
    requires faults { S.faults source.old < 2 ^ 64 - 1 }
    requires open { S.is_open source.old ≡ true }
    requires unread { IsUnread compilation.old }
    ensures settled { Settled (closing_bytes workers compilation.old.batch) result.failed result.judged compilation.new (S.left source.old) (S.left source.new)
        (S.faults source.old) (S.faults source.new) }
    ensures kept { KeepsAlike compilation.old.codes compilation.new.codes }
    ensures front { TookFront (S.left source.old) (S.faults source.old) (S.left source.new) (S.faults source.new) }
{
    let Ok(mut chunk) = Chunk::new(alloc) else {
        return Ending {
            judged: Err(FrontStop::NoMemory),
            failed: false,
        };
    };
    if let Some(ending) = read_on(source, &mut chunk, compilation, 0 < workers) {
        return ending;
    }
    match read_beside(rt, alloc, source, gate, workers, chunk, compilation) {
        Ok(chunk) => read_to_end(source, chunk, compilation),
        Err(ending) => ending,
    }
}

/// Validates and compiles the bytes of a source as they come, up to their end or to the first error.
fn read_to_end<S: Source>(source: &mut S, mut chunk: Chunk, compilation: &mut Compilation) -> Ending
    requires { (first : Option (List ℕ)) × (before : ℕ)
        × IsArriving None first before (S.left source.old) (S.faults source.old) (S.is_open source.old) compilation.old chunk }
    ensures settled { (first : Option (List ℕ)) (before : ℕ) → before < 2 ^ 64 - 1
        → IsArriving None first before (S.left source.old) (S.faults source.old) (S.is_open source.old) compilation.old chunk
        → Settled None result.failed result.judged compilation.new first (S.left source.new) before (S.faults source.new) }
    ensures kept { KeepsAlike compilation.old.codes compilation.new.codes }
    ensures front { TookFront (S.left source.old) (S.faults source.old) (S.left source.new) (S.faults source.new) }
{
    match read_on(source, &mut chunk, compilation, false) {
        Some(ending) => ending,
        None => unreachable!(),
    }
}

/// What bytes come to, read to their source's end.
fn answer_of(judged: Result<(), FrontStop>, checked: Checked) -> CheckAnswer
    ensures { result ≡ answer_of judged checked }
{
    match judged {
        Ok(()) => CheckAnswer::Valid(checked),
        Err(FrontStop::Refused(refusal)) => CheckAnswer::Refused(refusal),
        Err(FrontStop::NoMemory) => CheckAnswer::NoMemory,
    }
}

/// What bytes come to after which their source failed: that more of them are expected is no error then.
fn stopped(judged: Result<(), FrontStop>) -> CheckAnswer
    ensures { result ≡ stopped_answer judged }
{
    match judged {
        Ok(()) => CheckAnswer::ReadFault,
        Err(FrontStop::Refused(refusal)) => match refusal.kind {
            Kind::Malformed | Kind::Unsupported | Kind::Limit | Kind::Invalid => {
                CheckAnswer::Refused(refusal)
            }
            // Why: docs/DECISIONS.md, "Where the source failed, an error of what came decides"
            Kind::Ended => CheckAnswer::ReadFault,
        },
        Err(FrontStop::NoMemory) => CheckAnswer::NoMemory,
    }
}

/// Validates and compiles what a source gives, its bodies in parallel by so many workers. Where that is a module, its compilation
/// is done.
pub fn judge_source<R: Threads + Wait + Sync, S: Source, G: Gate>(
    rt: &R,
    alloc: Global,
    source: &mut S,
    gate: &G,
    workers: u32,
    compilation: &mut Compilation,
) -> CheckAnswer
    requires faults { S.faults source.old < 2 ^ 64 - 1 }
    requires open { S.is_open source.old ≡ true }
    requires unread { IsUnread compilation.old }
    ensures judged { Judged (closing_bytes workers compilation.old.batch) (nat_lt (S.faults source.old) (S.faults source.new)) (S.left source.old)
        (S.left source.new) result compilation.new }
    ensures kept { KeepsAlike compilation.old.codes compilation.new.codes }
    ensures front { TookFront (S.left source.old) (S.faults source.old) (S.left source.new) (S.faults source.new) }
{
    let ending = read_source(rt, alloc, source, gate, workers, compilation);
    if ending.failed {
        stopped(ending.judged)
    } else {
        answer_of(ending.judged, compilation.checked())
    }
}
