//! Reads bodies while workers compile them.

ghost use Rattle.std.specs.Prelude.{◌≡◌, ◌<◌, ℕ, Bool, true, [], List, Option, None, IfSome, IfOk};
ghost use Rattle.io_edges.specs.Streams.{TookFront};
ghost use Rattle.batch_pool.specs.Desks.{HasRead};
ghost use Rattle.module_stream.specs.declared.compilation.Compilation.{Compilation as Given};
ghost use Rattle.source_reading.specs.Arriving.{IsArriving};
ghost use Rattle.module_stream.specs.Codes.{KeepsAlike};
ghost use Rattle.source_reading.specs.Keeping.{keeping, Keeps, HasRightRows, Resumes};

use crate::chunk::Chunk;
use crate::intake::{Intake, Round, read_bodies};
use crate::reading::Ending;
use batch_pool::{
    BatchCompiler, Desk, Feeder, Pool, Reading, Ticket, by_number, keep_freed, run_beside, settle,
    workers_for,
};
use body_compiler::Row;
use body_cutter::Cutter;
use cancel_drain::{Board, BoardSeat};
use index_spaces::Context;
use io_edges::{Gate, Source};
use module_stream::Compilation;
use result_cells::Cells;
use std::alloc::{AllocError, Global};
use std::sync::Wait;
use std::thread::Threads;
use wasm_defs::{FrontStop, MAX_TEXT};

/// How many bytes of a round there are for each worker.
const WORKER_BYTES: usize = 262_144;

/// How many batches of a round there are for each worker.
const WORKER_BATCHES: usize = 8;

/// How many bytes a batch has in the mean, at least, that is handed to workers: handing over a smaller one takes longer than validating
/// its bodies.
const LEAST_BATCH: u64 = 128;

/// The same where one worker is asked for, beside which the reader has nothing to do but to hand over.
const LONE_BATCH: u64 = 512;

/// How many workers there are where one is asked for: that one and the thread that reads (`workers_for`).
const LONE_WORKERS: u32 = 2;

/// How many bodies are handed to workers in batches of any size: so few that nobody waits for it.
const FEW_BODIES: u32 = 4_096;

/// How many bytes of a round there are for each function.
const FUNCTION_BYTES: usize = 16;

/// Reads the bodies of a source.
#[derive(Drop)]
struct BodyReader<'a, S> {
    alloc: Global,
    source: &'a mut S,
    intake: Intake,
    /// Whether the reading met an error.
    read: Result<(), FrontStop>,
}

impl<'a, S: Source> BodyReader<'a, S> {
    /// Before the first read.
    fn new(alloc: Global, source: &'a mut S, intake: Intake) -> Self
        ensures same_reference { result.source.ghost_name ≡ source.entry.ghost_name }
        ensures source { result.source.now ≡ source.old }
        ensures intake { result.intake ≡ intake }
    {
        BodyReader {
            alloc,
            source,
            intake,
            read: Ok(()),
        }
    }
}

impl<'a, S: Source> Reading for BodyReader<'a, S> {
    ghost can_read = { λ r. (first : Option (List ℕ)) × (before : ℕ) × (s : Given)
        × IsArriving None first before (S.left r.source.now) (S.faults r.source.now) (S.is_open r.source.now) (keeping s r.intake) r.intake.chunk };

    ghost reads = { λ r t. (t.source.ghost_name ≡ r.source.ghost_name)
        × TookFront (S.left r.source.now) (S.faults r.source.now) (S.left t.source.now) (S.faults t.source.now)
        × ((first : Option (List ℕ)) (before : ℕ) (s : Given)
        → IsArriving None first before (S.left r.source.now) (S.faults r.source.now) (S.is_open r.source.now) (keeping s r.intake) r.intake.chunk
        → Keeps t.read first before (S.left t.source.now) (S.faults t.source.now) (S.is_open t.source.now) s t.intake) };

    fn read(&mut self, board: &Board, context: &Context, desk: &mut Desk, feeder: &mut Feeder) {
        self.read = read_bodies(
            self.alloc,
            self.source,
            board,
            context,
            desk,
            feeder,
            &mut self.intake,
        );
    }
}

/// What was read, and what is to be settled.
#[derive(Drop)]
struct UnsettledSection {
    intake: Intake,
    /// Whether the reading met an error.
    read: Result<(), FrontStop>,
    /// The last seat at the board.
    seat: BoardSeat,
    /// The tickets of all batches that were handed over.
    tickets: Vec<Ticket>,
    /// What the workers made.
    rows: Vec<Row>,
}

/// What was read, and what workers made of it.
#[derive(Drop)]
pub struct ReadSection {
    pub intake: Intake,
    /// Whether the reading met an error.
    pub read: Result<(), FrontStop>,
    /// The cells of the functions, where codes are kept.
    pub cells: Cells,
    /// The rows in the order of the batches that were kept, where they are at hand.
    pub rows: Vec<Option<Row>>,
}

/// Reads bodies while so many workers, as far as threads can be started, compile those that were handed over. None where memory
/// ran out.
#[tactic(auto, using(crate::proofs::Fronts::took_nothing))]
fn read_in_scope<R: Threads + Wait + Sync, S: Source, G: Gate>(
    rt: &R,
    source: &mut S,
    board: &Board,
    seat: BoardSeat,
    compiler: &BatchCompiler<'_, G>,
    workers: u32,
    intake: Intake,
) -> Option<UnsettledSection>
    requires table { seat.table ≡ board.now.table }
    requires first { (seat.view.feeder ≡ true) × (seat.view.running ≡ []) × (seat.view.published ≡ []) }
    requires parts { workers < seat.view.parts }
    requires arrives { (first : Option (List ℕ)) × (before : ℕ) × (s : Given)
        × IsArriving None first before (S.left source.old) (S.faults source.old) (S.is_open source.old) (keeping s intake) intake.chunk }
    ensures read { IfSome result (λ j. HasRead compiler.now.context.now compiler.now.cells.now board.now seat.view j.seat j.tickets.items j.rows.items) }
    ensures keeps { IfSome result (λ j. (first : Option (List ℕ)) (before : ℕ) (s : Given)
        → IsArriving None first before (S.left source.old) (S.faults source.old) (S.is_open source.old) (keeping s intake) intake.chunk
        → Keeps j.read first before (S.left source.new) (S.faults source.new) (S.is_open source.new) s j.intake) }
    ensures front { TookFront (S.left source.old) (S.faults source.old) (S.left source.new) (S.faults source.new) }
{
    let Ok((feeder, hands)) = Pool::new(compiler.alloc, workers) else {
        return None;
    };
    let reader = BodyReader::new(compiler.alloc, source, intake);
    match run_beside(rt, board, seat, compiler, hands, feeder, reader) {
        Ok(joined) => {
            let seat = joined.seat;
            let tickets = joined.kept;
            let rows = joined.rows;
            let reader = joined.reader;
            let intake = reader.intake;
            let read = reader.read;
            let _source = reader.source;
            Some(UnsettledSection {
                intake,
                read,
                seat,
                tickets,
                rows,
            })
        }
        Err(reader) => {
            let _intake = reader.intake;
            let _read = reader.read;
            let _source = reader.source;
            None
        }
    }
}

/// Reads bodies in parallel with so many workers, and does what these left over.
#[tactic(auto, using(crate::proofs::Fronts::took_nothing))]
fn read_with_workers<R: Threads + Wait + Sync, S: Source, G: Gate>(
    rt: &R,
    alloc: Global,
    source: &mut S,
    gate: &G,
    workers: u32,
    compilation: &Compilation,
    intake: Intake,
) -> Result<ReadSection, AllocError>
    requires arrives { (first : Option (List ℕ)) × (before : ℕ) × (s : Given)
        × IsArriving None first before (S.left source.old) (S.faults source.old) (S.is_open source.old) (keeping s intake) intake.chunk }
    ensures rows { IfOk result (HasRightRows compilation.now.spaces) }
    ensures keeps { IfOk result (λ m. (first : Option (List ℕ)) (before : ℕ) (s : Given)
        → IsArriving None first before (S.left source.old) (S.faults source.old) (S.is_open source.old) (keeping s intake) intake.chunk
        → Keeps m.read first before (S.left source.new) (S.faults source.new) (S.is_open source.new) s m.intake) }
    ensures front { TookFront (S.left source.old) (S.faults source.old) (S.left source.new) (S.faults source.new) }
{
    let context = compilation.context();
    let functions = context.type_indices().len().min(u32::MAX as usize) as u32;
    let stored = if compilation.keeps_codes() {
        functions
    } else {
        0
    };
    // The codes of a module have no more instruction words together than a text may have.
    let cells = Cells::new(alloc, stored, u64::from(MAX_TEXT) / 4)?;
    let (board, seat) = Board::new(alloc, functions, u64::from(workers) + 1)?;
    let compiler = BatchCompiler {
        alloc,
        context,
        cells: &cells,
        gate,
    };
    let Some(unsettled) = read_in_scope(rt, source, &board, seat, &compiler, workers, intake) else {
        return Err(AllocError);
    };
    let UnsettledSection {
        intake,
        read,
        seat,
        tickets,
        rows,
    } = unsettled;
    // Why: docs/DECISIONS.md, "Workers compile the code section's bodies, and are joined by its end"
    let Some(settled) = settle(board, seat, &compiler, rows, tickets) else {
        return Err(AllocError);
    };
    let rows = by_number(alloc, context, &cells, settled.rows, intake.kept.len())?;
    Ok(ReadSection {
        intake,
        read,
        cells,
        rows,
    })
}

/// How long a round is: so long that starting the workers, and making a cell for each function, costs little beside it.
fn round_of(workers: u32, compilation: &Compilation) -> Round {
    let workers = workers as usize;
    let functions = compilation.context().type_indices().len();
    let for_functions = functions.saturating_mul(FUNCTION_BYTES);
    Round {
        bytes: workers
            .saturating_mul(WORKER_BYTES)
            .saturating_add(for_functions),
        batches: workers.saturating_mul(WORKER_BATCHES),
    }
}

/// Whether the batches that are still to come are many, and so small that so many workers would only delay them.
fn are_small(cutter: &Cutter, workers: u32) -> bool {
    let least = if workers <= LONE_WORKERS {
        LONE_BATCH
    } else {
        LEAST_BATCH
    };
    FEW_BODIES < cutter.bodies_left() && cutter.mean_batch() < least
}

/// Where bodies come next, reads those of a round in parallel with so many workers, and validates them, so that the compilation can go
/// on after them; or says what the bytes come to. It reads none where their batches are many and small.
#[tactic(auto, using(crate::proofs::Fronts::took_nothing))]
fn read_round<R: Threads + Wait + Sync, S: Source, G: Gate>(
    rt: &R,
    alloc: Global,
    source: &mut S,
    gate: &G,
    workers: u32,
    chunk: Chunk,
    compilation: &mut Compilation,
) -> Result<Chunk, Ending>
    requires arrives { (first : Option (List ℕ)) × (before : ℕ)
        × IsArriving None first before (S.left source.old) (S.faults source.old) (S.is_open source.old) compilation.old chunk }
    ensures resumes { (first : Option (List ℕ)) (before : ℕ)
        → IsArriving None first before (S.left source.old) (S.faults source.old) (S.is_open source.old) compilation.old chunk
        → Resumes result first before (S.left source.new) (S.faults source.new) (S.is_open source.new) compilation.new }
    ensures kept { KeepsAlike compilation.old.codes compilation.new.codes }
    ensures front { TookFront (S.left source.old) (S.faults source.old) (S.left source.new) (S.faults source.new) }
{
    let Some(cutter) = compilation.take_cutter() else {
        return Ok(chunk);
    };
    // Why: docs/DECISIONS.md, "Many small batches are read without workers"
    if cutter.is_whole() || are_small(&cutter, workers) {
        compilation.put_cutter(cutter);
        return Ok(chunk);
    }
    let round = round_of(workers, compilation);
    let intake = Intake::new(alloc, cutter, chunk, round);
    let Ok(section) = read_with_workers(rt, alloc, source, gate, workers, compilation, intake)
    else {
        return Err(Ending {
            judged: Err(FrontStop::NoMemory),
            failed: false,
        });
    };
    judge_section(compilation, section)
}

/// Where bodies come next, reads them in parallel with so many workers, round by round, and validates them, so that the compilation can
/// go on after them; or says what the bytes come to.
#[tactic(auto, using(crate::proofs::Fronts::took_nothing))]
pub fn read_beside<R: Threads + Wait + Sync, S: Source, G: Gate>(
    rt: &R,
    alloc: Global,
    source: &mut S,
    gate: &G,
    workers: u32,
    chunk: Chunk,
    compilation: &mut Compilation,
) -> Result<Chunk, Ending>
    requires arrives { (first : Option (List ℕ)) × (before : ℕ)
        × IsArriving None first before (S.left source.old) (S.faults source.old) (S.is_open source.old) compilation.old chunk }
    ensures resumes { (first : Option (List ℕ)) (before : ℕ)
        → IsArriving None first before (S.left source.old) (S.faults source.old) (S.is_open source.old) compilation.old chunk
        → Resumes result first before (S.left source.new) (S.faults source.new) (S.is_open source.new) compilation.new }
    ensures kept { KeepsAlike compilation.old.codes compilation.new.codes }
    ensures front { TookFront (S.left source.old) (S.faults source.old) (S.left source.new) (S.faults source.new) }
{
    let workers = workers_for(rt, workers);
    // (codes are freed by threads that end, whose heaps would keep them)
    if !compilation.keeps_codes() {
        keep_freed(alloc);
    }
    // Why: docs/DECISIONS.md, "Bodies are read in rounds"
    let mut chunk = chunk;
    loop {
        let before = chunk.count();
        match read_round(rt, alloc, source, gate, workers, chunk, compilation) {
            Ok(rest) => chunk = rest,
            Err(ending) => return Err(ending),
        }
        // A round that ends before the section leaves bytes that it read and that are still to be taken.
        if chunk.pending().is_empty() {
            return Ok(chunk);
        }
        let read = chunk.count();
        if read <= before {
            return Ok(chunk);
        }
    }
}

/// Validates what was read in parallel with workers.
fn judge_section(compilation: &mut Compilation, section: ReadSection) -> Result<Chunk, Ending>
    requires rows { HasRightRows compilation.old.spaces section }
    requires keeps { (first : Option (List ℕ)) × (before : ℕ) × (left : Option (List ℕ)) × (now : ℕ) × (may_read : Bool)
        × Keeps section.read first before left now may_read compilation.old section.intake }
    ensures resumes { (first : Option (List ℕ)) (before : ℕ) (left : Option (List ℕ)) (now : ℕ) (may_read : Bool)
        → Keeps section.read first before left now may_read compilation.old section.intake
        → Resumes result first before left now may_read compilation.new }
    ensures kept { KeepsAlike compilation.old.codes compilation.new.codes }
{
    let ReadSection {
        intake,
        read,
        cells,
        rows,
    } = section;
    let Intake {
        cutter,
        kept,
        chunk,
        limit: _,
        batches: _,
    } = intake;
    let failed = chunk.has_failed();
    match read {
        Ok(()) => match compilation.judge_kept(&cells, kept, rows) {
            Ok(()) => {
                compilation.put_cutter(cutter);
                Ok(chunk)
            }
            Err(stop) => Err(Ending {
                judged: Err(stop),
                failed,
            }),
        },
        Err(FrontStop::Refused(refusal)) => match compilation.judge_kept(&cells, kept, rows) {
            Ok(()) => Err(Ending {
                judged: Err(FrontStop::Refused(refusal)),
                failed,
            }),
            Err(stop) => Err(Ending {
                judged: Err(stop),
                failed,
            }),
        },
        Err(FrontStop::NoMemory) => Err(Ending {
            judged: Err(FrontStop::NoMemory),
            failed,
        }),
    }
}
