//! Workers in threads, and the caller that hands batches over and settles.
ghost use Rattle.std.specs.Prelude.{◌≡◌, ◌+◌, ◌<◌, ⊤, [], true, All, length, IfOk};
ghost use Rattle.batch_pool.specs.Desks.{HasRead, IsDesk, IsIdle};
ghost use Rattle.batch_pool.specs.Settling.{AreKept};
ghost use Rattle.body_compiler.specs.BatchRows.{IsRowOf};
ghost use Rattle.cancel_drain.specs.Views.{first_view};

use crate::modules::two_functions;
use batch_pool::{
    BatchCompiler, Desk, Feeder, Joined, Pool, Reading, by_number, run_beside, settle,
};
use body_compiler::Row;
use body_cutter::{Batch, Bodies, BodyBlock};
use cancel_drain::{Board, BoardSeat, Closed};
use index_spaces::Context;
use io_edges::OpenGate;
use result_cells::Cells;
use std::alloc::{AllocError, Global};
use std::sync::{Arc, Wait};
use std::test::Fail;
use std::thread::Threads;
use wasm_defs::{Kind, Refusal};

const BATCHES: u32 = 200;

// A batch of one body, of function 0. Each fiftieth body from the fortieth on has an error.
fn batch(alloc: Global, number: u32) -> Result<Batch, AllocError> {
    let start = 100 + 10 * u64::from(number);
    let bytes: &[u8] = if number % 50 == 40 {
        &[0x00, 0x6A, 0x0B]
    } else {
        &[0x00, 0x41, 0x07, 0x0B]
    };
    let mut block = BodyBlock::new(alloc);
    block.extend(bytes)?;
    block.complete(0, start, start + 1)?;
    Ok(Batch {
        number,
        start,
        bodies: Bodies::new(block),
    })
}

// Hands all batches over, and says whether an error was seen then.
fn hand_all(
    alloc: Global,
    board: &Board,
    context: &Context,
    desk: &mut Desk,
    feeder: &mut Feeder,
) -> Result<bool, AllocError>
    requires desk { IsDesk context.now board.now desk.old }
    ensures desk { IsDesk context.now board.now desk.new }
    ensures parts { desk.new.seat.view.parts ≡ desk.old.seat.view.parts }
    ensures idle { IsIdle desk.old desk.new }
{
    for number in 0..BATCHES {
        let batch = Arc::new(alloc, batch(alloc, number)?)?;
        desk.hand_over(board, context, feeder, &batch)?;
    }
    Ok(desk.sees_fault(board, context))
}

#[derive(Drop)]
struct HandsAll {
    alloc: Global,
    // Whether an error was seen once all batches were handed over.
    saw: Result<bool, AllocError>,
}

impl Reading for HandsAll {
    ghost can_read = { λ _. ⊤ };

    ghost reads = { λ _ _. ⊤ };

    fn read(&mut self, board: &Board, context: &Context, desk: &mut Desk, feeder: &mut Feeder) {
        self.saw = hand_all(self.alloc, board, context, desk, feeder);
    }
}

// What there is after a run.
#[derive(Drop)]
struct Outcome {
    closed: Closed,
    // The rows by the numbers of their batches.
    rows: Vec<Option<Row>>,
    // How many batches were handed over.
    kept: usize,
    // Whether an error was seen once all were.
    saw: bool,
}

// Hands all batches over, beside so many workers.
fn read_beside<R: Threads + Wait + Sync>(
    rt: &R,
    compiler: &BatchCompiler<'_, OpenGate>,
    board: &Board,
    seat: BoardSeat,
    workers: u32,
) -> Result<Joined<HandsAll>, AllocError>
    requires table { seat.table ≡ board.now.table }
    requires view { seat.view ≡ first_view (workers + 1) }
    ensures read { IfOk result (λ j.
        HasRead compiler.now.context.now compiler.now.cells.now board.now seat.view j.seat j.kept.items j.rows.items) }
{
    let alloc = compiler.alloc;
    let (feeder, hands) = Pool::new(alloc, workers)?;
    let reading = HandsAll {
        alloc,
        saw: Ok(false),
    };
    match run_beside(rt, board, seat, compiler, hands, feeder, reading) {
        Ok(joined) => Ok(joined),
        Err(_) => Err(AllocError),
    }
}

// The thread that handed the batches over settles.
fn settle_all(
    board: Board,
    compiler: &BatchCompiler<'_, OpenGate>,
    joined: Joined<HandsAll>,
) -> Result<Outcome, AllocError>
    requires board { (board.functions ≡ 200) × (joined.seat.table ≡ board.table) }
    requires seat { (joined.seat.view.feeder ≡ true) × (joined.seat.view.running ≡ []) × (joined.seat.view.parts ≡ board.seats) }
    requires kept { AreKept compiler.now.context.now board.functions joined.seat.view.published joined.kept.items }
    requires rows { All (IsRowOf compiler.now.context.now compiler.now.cells.now) joined.rows.items }
    ensures states { IfOk result (λ o. length o.closed.states ≡ 200) }
    ensures rows { IfOk result (λ o. length o.rows.items ≡ 200) }
{
    let kept = joined.kept.len();
    let saw = joined.reader.saw?;
    let Some(settled) = settle(board, joined.seat, compiler, joined.rows, joined.kept) else {
        return Err(AllocError);
    };
    let rows = by_number(
        compiler.alloc,
        compiler.context,
        compiler.cells,
        settled.rows,
        BATCHES as usize,
    )?;
    Ok(Outcome {
        closed: settled.closed,
        rows,
        kept,
        saw,
    })
}

// What so many workers make of all batches, with the thread that settles after them.
fn run<R: Threads + Wait + Sync>(
    rt: &R,
    alloc: Global,
    context: &Context,
    workers: u32,
) -> Result<Outcome, AllocError>
    ensures states { IfOk result (λ o. length o.closed.states ≡ 200) }
    ensures rows { IfOk result (λ o. length o.rows.items ≡ 200) }
{
    let cells = Cells::new(alloc, 1, 1_000_000)?;
    let (board, seat) = Board::new(alloc, BATCHES, u64::from(workers) + 1)?;
    let compiler = BatchCompiler {
        alloc,
        context,
        cells: &cells,
        gate: &OpenGate,
    };
    let joined = read_beside(rt, &compiler, &board, seat, workers)?;
    settle_all(board, &compiler, joined)
}

// The error of batch 40.
const LEAST: Refusal = Refusal {
    offset: 502,
    kind: Kind::Invalid,
};

// Whether batch 40 has a row with its error, and each batch before it has one.
fn are_rows(rows: &[Option<Row>]) -> bool
    requires { 40 < length rows.now }
{
    for place in 0..40 {
        if rows[place].is_none() {
            return false;
        }
    }
    match &rows[40] {
        Some(row) => row.batch.number == 40 && row.fault == Some(LEAST),
        None => false,
    }
}

// Whether so many workers found the least error. With none, no error was seen before all batches were handed over.
fn is_right(outcome: &Outcome, workers: u32) -> bool
    requires states { 40 < length outcome.now.closed.states }
    requires rows { 40 < length outcome.now.rows.items }
{
    outcome.kept == 200
        && (0 < workers || !outcome.saw)
        && outcome.closed.least == Some(LEAST)
        && outcome.closed.states.word(40) == 8 * 500 + 3
        && are_rows(outcome.rows.as_slice())
}

// Whether 0, 1, 4 and 16 workers do.
fn find_least<R: Threads + Wait + Sync>(
    rt: &R,
    alloc: Global,
    context: &Context,
) -> Result<bool, AllocError> {
    for workers in [0u32, 1, 4, 16] {
        let outcome = run(rt, alloc, context, workers)?;
        if !is_right(&outcome, workers) {
            return Ok(false);
        }
    }
    Ok(true)
}

#[test]
fn the_least_fault_is_found_by_any_number_of_workers(rt: HostRuntime) -> Result<(), Fail> {
    match two_functions(rt.alloc()) {
        Some(context) => {
            assert!(rt; find_least(&rt, rt.alloc(), &context)?);
            Ok(())
        }
        None => Err(AllocError.into()),
    }
}
