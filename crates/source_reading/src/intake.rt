//! Reads bodies and keeps them, while workers compile them.

ghost use Rattle.std.specs.Prelude.{◌≡◌, ◌<◌, ◌++◌, ℕ, Bool, [], List, Option, None, OnOk};
ghost use Rattle.io_edges.specs.Streams.{TookFront};
ghost use Rattle.batch_pool.specs.Desks.{IsDesk, IsIdle};
ghost use Rattle.module_stream.specs.declared.compilation.Compilation.{Compilation};
ghost use Rattle.source_reading.specs.Arriving.{IsArriving};
ghost use Rattle.module_stream.specs.Kept.{kept_bodies};
ghost use Rattle.module_stream.specs.Streaming.{IsErrorFree};
ghost use Rattle.source_reading.specs.Keeping.{keeping, Keeps};

use crate::chunk::{Chunk, ReadStatus};
use batch_pool::{Desk, Feeder};
use body_cutter::{Batch, Cutter};
use cancel_drain::Board;
use index_spaces::Context;
use io_edges::Source;
use std::alloc::{AllocError, Global};
use std::sync::Arc;
use wasm_defs::FrontStop;

/// How long a round is, in which bodies are read.
#[derive(Clone, Copy)]
pub struct Round {
    /// It has so many bytes of the source,
    pub bytes: usize,
    /// and so many batches.
    pub batches: usize,
}

/// The bodies of a round that were read, none of which is validated so far.
#[derive(Drop)]
pub struct Intake {
    /// Cuts the bodies.
    pub cutter: Cutter,
    /// The batches that were closed, in order.
    pub kept: Vec<Arc<Batch, Global>>,
    /// The bytes that were read last.
    pub chunk: Chunk,
    /// The round ends once so many bytes of the source were read in all,
    pub limit: usize,
    /// and so many batches were closed.
    pub batches: usize,
}

/// A round is over with so many batches, however few bytes they have: what one thread does behind the joins takes longer where more of it
/// is in no cache.
const MOST_BATCHES: usize = 16_384;

impl Intake {
    /// Before the first body of a round.
    pub fn new(alloc: Global, cutter: Cutter, chunk: Chunk, round: Round) -> Intake
        ensures cutter { result.cutter ≡ cutter }
        ensures kept { result.kept.items ≡ [] }
        ensures chunk { result.chunk ≡ chunk }
    {
        let limit = chunk.count().saturating_add(round.bytes);
        Intake {
            cutter,
            kept: Vec::new(alloc),
            chunk,
            limit,
            batches: round.batches,
        }
    }

    /// Whether the round is over, however many bodies are to come.
    fn round_is_over(&self) -> bool {
        MOST_BATCHES <= self.kept.len()
            || self.limit <= self.chunk.count() && self.batches <= self.kept.len()
    }
}

/// Hands over the batches that are closed, and keeps them. Their numbers are those in the round.
fn hand_over(
    alloc: Global,
    board: &Board,
    context: &Context,
    desk: &mut Desk,
    feeder: &mut Feeder,
    intake: &mut Intake,
) -> Result<(), AllocError>
    requires desk { IsDesk context.now board.now desk.old }
    ensures desk { IsDesk context.now board.now desk.new }
    ensures parts { desk.new.seat.view.parts ≡ desk.old.seat.view.parts }
    ensures idle { IsIdle desk.old desk.new }
    ensures chunk { intake.new.chunk ≡ intake.old.chunk }
    ensures place { intake.new.cutter.place ≡ intake.old.cutter.place }
    ensures closed { OnOk result (intake.new.cutter.queue.closed ≡ []) }
    ensures begun { OnOk result (intake.new.cutter.queue.begun ≡ intake.old.cutter.queue.begun) }
    ensures least { OnOk result (intake.new.cutter.queue.least ≡ intake.old.cutter.queue.least) }
    ensures kept { OnOk result (kept_bodies intake.new.kept.items ≡ kept_bodies intake.old.kept.items ++ intake.old.cutter.queue.closed) }
{
    while let Some(batch) = intake.cutter.take_batch() {
        let mut batch = batch;
        batch.number = intake.kept.len().min(u32::MAX as usize) as u32;
        let batch = Arc::new(alloc, batch)?;
        desk.hand_over(board, context, feeder, &batch)?;
        intake.kept.push(batch)?;
    }
    feeder.flush();
    Ok(())
}

/// Cuts the bytes of the chunk that are still to be taken, as far as they are in the bodies' section, and hands over what closes.
fn take_piece(
    alloc: Global,
    board: &Board,
    context: &Context,
    desk: &mut Desk,
    feeder: &mut Feeder,
    intake: &mut Intake,
) -> Result<(), FrontStop>
    requires desk { IsDesk context.now board.now desk.old }
    ensures desk { IsDesk context.now board.now desk.new }
    ensures parts { desk.new.seat.view.parts ≡ desk.old.seat.view.parts }
    ensures idle { IsIdle desk.old desk.new }
    ensures all { OnOk result (intake.new.cutter.place.at < intake.new.cutter.place.end → intake.new.chunk.pending ≡ []) }
    ensures going { OnOk result (intake.new.cutter.place.stop ≡ None) }
    ensures no_error { OnOk result ((s : Compilation) → IsErrorFree (keeping s intake.new)) }
    ensures chunk { (intake.new.chunk.count ≡ intake.old.chunk.count) × (intake.new.chunk.came ≡ intake.old.chunk.came) }
    ensures keeps { (first : Option (List ℕ)) (before : ℕ) (left : Option (List ℕ)) (now : ℕ) (may_read : Bool) (s : Compilation)
        → IsArriving None first before left now may_read (keeping s intake.old) intake.old.chunk → Keeps result first before left now may_read s intake.new }
{
    match intake.cutter.feed(intake.chunk.pending()) {
        Ok(taken) => {
            intake.chunk.skip(taken);
            match hand_over(alloc, board, context, desk, feeder, intake) {
                Ok(()) => Ok(()),
                Err(_) => Err(FrontStop::NoMemory),
            }
        }
        Err(FrontStop::Refused(refusal)) => {
            match hand_over(alloc, board, context, desk, feeder, intake) {
                Ok(()) => Err(FrontStop::Refused(refusal)),
                Err(_) => Err(FrontStop::NoMemory),
            }
        }
        Err(FrontStop::NoMemory) => Err(FrontStop::NoMemory),
    }
}

/// Reads bodies, and hands their batches over, until their section is whole, an error was reported, no more bytes come, or the round
/// is over.
#[tactic(auto, using(crate::proofs::Fronts::took_nothing))]
pub fn read_bodies<S: Source>(
    alloc: Global,
    source: &mut S,
    board: &Board,
    context: &Context,
    desk: &mut Desk,
    feeder: &mut Feeder,
    intake: &mut Intake,
) -> Result<(), FrontStop>
    requires desk { IsDesk context.now board.now desk.old }
    requires arrives { (first : Option (List ℕ)) × (before : ℕ) × (s : Compilation)
        × IsArriving None first before (S.left source.old) (S.faults source.old) (S.is_open source.old) (keeping s intake.old) intake.old.chunk }
    ensures desk { IsDesk context.now board.now desk.new }
    ensures parts { desk.new.seat.view.parts ≡ desk.old.seat.view.parts }
    ensures idle { IsIdle desk.old desk.new }
    ensures keeps { (first : Option (List ℕ)) (before : ℕ) (s : Compilation)
        → IsArriving None first before (S.left source.old) (S.faults source.old) (S.is_open source.old) (keeping s intake.old) intake.old.chunk
        → Keeps result first before (S.left source.new) (S.faults source.new) (S.is_open source.new) s intake.new }
    ensures front { TookFront (S.left source.old) (S.faults source.old) (S.left source.new) (S.faults source.new) }
{
    loop {
        match take_piece(alloc, board, context, desk, feeder, intake) {
            Ok(()) => {}
            Err(stop) => return Err(stop),
        }
        if intake.cutter.is_whole() {
            return Ok(());
        }
        // Why: docs/DECISIONS.md, "The reader looks for a reported error after each piece that it read"
        if desk.sees_fault(board, context) {
            return Ok(());
        }
        let came = intake.chunk.read(source);
        if came != ReadStatus::Bytes {
            return Ok(());
        }
        if intake.round_is_over() {
            return Ok(());
        }
    }
}
