//! Compiles bodies: each is validated, and its instruction words are counted.

ghost use Rattle.std.specs.Prelude.{◌≡◌, ◌≤◌, ◌<◌, ◌+◌, ◌^◌, OnOk, Ok, ℕ, Bool, List, [], length};
ghost use Rattle.rv_isa.specs.declared.compiled.Code.{Code as GivenCode};
ghost use Rattle.wasm_defs.specs.Outside.{Run as RunGiven};
ghost use Rattle.section_reader.specs.Onward.{after_parts};
ghost use Rattle.body_cutter.specs.Bodies.{body_of};
ghost use Rattle.image_linker.specs.Judging.{limit_at};
ghost use Rattle.module_stream.specs.Codes.{KeepsAlike};
ghost use Rattle.module_stream.specs.CutBodies.{coded_all};
ghost use Rattle.module_stream.specs.Progress.{IsJudging, CanTake, CanTakeNext, CanTakeAll, stop_at, TakesBody, CountsBody, TakesCode, TakesPart, KeepsLimit};
ghost use Rattle.module_stream.specs.Limits.{max_read};

use crate::codes::Codes;
use body_compiler::{BodyStop, Scratch, compile, may_be_longer, measure};
use body_cutter::{Batch, BodyView, Cutter};
use image_linker::passes_limit;
use index_spaces::ContextBuilder;
use rv_isa::Code;
use std::alloc::Global;
use wasm_defs::{FrontStop, Kind, MAX_TEXT, Refusal};

/// The error of a body with whose instruction words the text passes its limit.
pub fn limit_at(body: BodyView<'_>) -> Refusal
    ensures { result ≡ limit_at body.entry.size }
{
    Refusal {
        offset: body.size,
        kind: Kind::Limit,
    }
}

/// Why nothing is taken after a body that isn't compiled.
fn stop_at(body: BodyView<'_>, stop: BodyStop) -> FrontStop
    ensures { result ≡ stop_at (body_of body.entry) stop }
{
    match stop {
        BodyStop::Refused(refusal) => FrontStop::Refused(refusal),
        BodyStop::TooLong => FrontStop::Refused(limit_at(body)),
        BodyStop::NoMemory => FrontStop::NoMemory,
    }
}

/// Compiles a body, before which so many bodies come.
fn take_body<'a>(
    scratch: &mut Scratch<'a>,
    spaces: &'a ContextBuilder,
    bodies: u32,
    body: BodyView<'_>,
) -> Result<Code, BodyStop>
    requires { CanTake spaces.now bodies (body_of body) }
    ensures { TakesBody spaces.now bodies (body_of body.entry) result }
{
    let context = spaces.context();
    let index = context.imported() + bodies;
    compile(scratch, context, index, body.bytes, body.first)
}

/// Counts the instruction words of a body's code, before which so many bodies come.
fn measure_body<'a>(
    scratch: &mut Scratch<'a>,
    spaces: &'a ContextBuilder,
    bodies: u32,
    body: BodyView<'_>,
) -> Result<u64, BodyStop>
    requires { CanTake spaces.now bodies (body_of body) }
    ensures { CountsBody spaces.now bodies (body_of body.entry) result }
{
    let context = spaces.context();
    let index = context.imported() + bodies;
    measure(scratch, context, index, body.bytes, body.first)
}

/// Whether a code of so many instruction words can follow these codes.
fn keep_limit(
    spaces: &ContextBuilder,
    codes: &Codes,
    body: BodyView<'_>,
    more: u64,
) -> Result<(), FrontStop>
    requires few { length spaces.now.functions < 2 ^ 32 }
    ensures { KeepsLimit spaces.now codes.now (body_of body.entry) more result }
{
    let words = u128::from(codes.words()) + u128::from(more);
    if passes_limit(u64::from(spaces.context().imported()), words) {
        return Err(FrontStop::Refused(limit_at(body)));
    }
    Ok(())
}

/// Takes the next body, whose code this is.
pub fn add_code(
    spaces: &ContextBuilder,
    codes: &mut Codes,
    body: BodyView<'_>,
    code: &Code,
) -> Result<(), FrontStop>
    requires can { CanTakeNext spaces.now codes.old (body_of body) }
    requires code { TakesBody spaces.now codes.old.count (body_of body) (Ok code.now) }
    ensures takes { TakesCode spaces.now codes.old (body_of body.entry) result codes.new }
    ensures kept { KeepsAlike codes.old codes.new }
{
    match keep_limit(spaces, codes, body, code.words.len() as u64) {
        Ok(()) => {}
        Err(stop) => return Err(stop),
    }
    match codes.add(spaces.context().imported(), code) {
        Ok(()) => Ok(()),
        Err(_) => Err(FrontStop::NoMemory),
    }
}

/// Takes the next body, whose code this is, as `add_code` does.
fn add_own_code(
    spaces: &ContextBuilder,
    codes: &mut Codes,
    body: BodyView<'_>,
    code: Code,
) -> Result<(), FrontStop>
    requires can { CanTakeNext spaces.now codes.old (body_of body) }
    requires code { TakesBody spaces.now codes.old.count (body_of body) (Ok code) }
    ensures takes { TakesCode spaces.now codes.old (body_of body.entry) result codes.new }
    ensures kept { KeepsAlike codes.old codes.new }
{
    match keep_limit(spaces, codes, body, code.words.len() as u64) {
        Ok(()) => {}
        Err(stop) => return Err(stop),
    }
    match codes.add_own(spaces.context().imported(), code) {
        Ok(()) => Ok(()),
        Err(_) => Err(FrontStop::NoMemory),
    }
}

/// Takes the next body, and keeps its code.
fn keep_code<'a>(
    scratch: &mut Scratch<'a>,
    spaces: &'a ContextBuilder,
    codes: &mut Codes,
    body: BodyView<'_>,
) -> Result<(), FrontStop>
    requires { CanTakeNext spaces.now codes.old (body_of body) }
    ensures takes { TakesCode spaces.now codes.old (body_of body.entry) result codes.new }
    ensures kept { KeepsAlike codes.old codes.new }
{
    match take_body(scratch, spaces, codes.count(), body) {
        Ok(code) => add_own_code(spaces, codes, body, code),
        Err(stop) => Err(stop_at(body, stop)),
    }
}

/// Takes the next body, whose code has so many instruction words: where codes are kept, they are made if the text keeps its limit with
/// them.
pub fn take_counted<'a>(
    scratch: &mut Scratch<'a>,
    spaces: &'a ContextBuilder,
    codes: &mut Codes,
    body: BodyView<'_>,
    words: u64,
) -> Result<(), FrontStop>
    requires can { CanTakeNext spaces.now codes.old (body_of body) }
    requires code { (code : GivenCode) × (words ≡ length code.words) × TakesBody spaces.now codes.old.count (body_of body) (Ok code) }
    ensures takes { TakesCode spaces.now codes.old (body_of body.entry) result codes.new }
    ensures kept { KeepsAlike codes.old codes.new }
{
    match keep_limit(spaces, codes, body, words) {
        Ok(()) => {}
        Err(stop) => return Err(stop),
    }
    if codes.are_kept() {
        return keep_code(scratch, spaces, codes, body);
    }
    codes.count_words(words);
    Ok(())
}

/// Takes the next body, once the instruction words of its code are counted.
fn take_measured<'a>(
    scratch: &mut Scratch<'a>,
    spaces: &'a ContextBuilder,
    codes: &mut Codes,
    body: BodyView<'_>,
) -> Result<(), FrontStop>
    requires { CanTakeNext spaces.now codes.old (body_of body) }
    ensures takes { TakesCode spaces.now codes.old (body_of body.entry) result codes.new }
    ensures kept { KeepsAlike codes.old codes.new }
{
    match measure_body(scratch, spaces, codes.count(), body) {
        Ok(words) => take_counted(scratch, spaces, codes, body, words),
        Err(stop) => Err(stop_at(body, stop)),
    }
}

/// Whether a body is so long that with the instruction words of its code and those of these codes the text may pass its limit.
fn may_pass_limit(spaces: &ContextBuilder, codes: &Codes, body: BodyView<'_>) -> bool {
    let left = u64::from(MAX_TEXT / 4).saturating_sub(codes.words());
    may_be_longer(spaces.context(), body, left)
}

/// Takes the next body, after those that have these codes.
pub fn take_code<'a>(
    scratch: &mut Scratch<'a>,
    spaces: &'a ContextBuilder,
    codes: &mut Codes,
    body: BodyView<'_>,
) -> Result<(), FrontStop>
    requires { CanTakeNext spaces.now codes.old (body_of body) }
    ensures takes { TakesCode spaces.now codes.old (body_of body.entry) result codes.new }
    ensures kept { KeepsAlike codes.old codes.new }
{
    // Why: docs/DECISIONS.md, "A body that may be too long is counted first"
    if !codes.are_kept() || may_pass_limit(spaces, codes, body) {
        take_measured(scratch, spaces, codes, body)
    } else {
        keep_code(scratch, spaces, codes, body)
    }
}

/// Takes the bodies of a batch in order, up to the first that has an error.
pub fn take_batch(
    alloc: Global,
    spaces: &ContextBuilder,
    codes: &mut Codes,
    batch: Batch,
) -> Result<(), FrontStop>
    requires { CanTakeAll spaces.now codes.old batch.bodies }
    ensures takes { (bytes : List ℕ) (left : RunGiven) (counted : Bool) → length bytes ≤ max_read
        → IsJudging bytes (after_parts (coded_all counted batch.bodies) left) spaces.now codes.old
        → TakesPart bytes result left spaces.now codes.new }
    ensures kept { KeepsAlike codes.old codes.new }
{
    let mut scratch = Scratch::new(alloc, spaces.context());
    for index in 0..batch.bodies.count() {
        let body = batch.bodies.get(index);
        match take_code(&mut scratch, spaces, codes, body) {
            Ok(()) => {}
            Err(stop) => return Err(stop),
        }
    }
    Ok(())
}

/// Takes the bodies of all batches that are closed.
pub fn take_batches(
    alloc: Global,
    spaces: &ContextBuilder,
    codes: &mut Codes,
    cutter: &mut Cutter,
) -> Result<(), FrontStop>
    requires { CanTakeAll spaces.now codes.old cutter.old.queue.closed }
    ensures place { cutter.new.place ≡ cutter.old.place }
    ensures queue { OnOk result ((cutter.new.queue.closed ≡ []) × (cutter.new.queue.begun ≡ cutter.old.queue.begun)
        × (cutter.new.queue.least ≡ cutter.old.queue.least)) }
    ensures takes { (bytes : List ℕ) (left : RunGiven) (counted : Bool) → length bytes ≤ max_read
        → IsJudging bytes (after_parts (coded_all counted cutter.old.queue.closed) left) spaces.now codes.old
        → TakesPart bytes result left spaces.now codes.new }
    ensures kept { KeepsAlike codes.old codes.new }
{
    while let Some(batch) = cutter.take_batch() {
        match take_batch(alloc, spaces, codes, batch) {
            Ok(()) => {}
            Err(stop) => return Err(stop),
        }
    }
    Ok(())
}
