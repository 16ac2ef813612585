//! Workers that serve the tickets of a pool.
ghost use Rattle.std.specs.Prelude.{◌≡◌, ◌≤◌, ◌<◌, IfOk, length};
ghost use Rattle.batch_pool.specs.Lanes.{AreSeated, AreApart};

use crate::modules::two_functions;
use batch_pool::{
    BatchCompiler, Feeder, Hand, Lane, LaneSeat, Pool, Seats, Ticket, Worked, WorkedMany, work,
    work_many,
};
use body_compiler::{Row, RowCode, Stored};
use body_cutter::{Batch, Bodies, BodyBlock};
use cancel_drain::{Board, BoardSeat, Closed};
use index_spaces::Context;
use io_edges::{Gate, OpenGate};
use result_cells::Cells;
use std::alloc::{AllocError, Global};
use std::sync::{Arc, Wait};
use std::test::Fail;
use std::thread;
use std::thread::Threads;
use test_gates::SecondFirst;
use wasm_defs::{Kind, Refusal};

// Puts a batch of one body into the pool, and answers whether it was taken. The batch starts at 23, or at 27 if it isn't the first; a body
// that isn't valid has its error two bytes later.
fn put(
    alloc: Global,
    feeder: &mut Feeder,
    module: u32,
    number: u32,
    is_valid: bool,
) -> Result<bool, AllocError> {
    let start = if number == 0 { 23 } else { 27 };
    let bytes: &[u8] = if is_valid {
        &[0x00, 0x41, 0x07, 0x0B]
    } else {
        &[0x00, 0x6A, 0x0B]
    };
    let mut block = BodyBlock::new(alloc);
    block.extend(bytes)?;
    block.complete(number, start, start + 1)?;
    let batch = Arc::new(
        alloc,
        Batch {
            number,
            start,
            bodies: Bodies::new(block),
        },
    )?;
    Ok(match Ticket::of(module, batch) {
        Some(ticket) => feeder.put(ticket).is_ok(),
        None => false,
    })
}

// Puts batches, each by its module, its number and whether its body is valid, and answers whether all were taken.
fn put_all(
    alloc: Global,
    feeder: &mut Feeder,
    batches: &[(u32, u32, bool)],
) -> Result<bool, AllocError> {
    for (module, number, is_valid) in batches {
        if !put(alloc, feeder, *module, *number, *is_valid)? {
            return Ok(false);
        }
    }
    Ok(true)
}

// The hands of a pool that has these batches and is closed.
fn filled(alloc: Global, count: u32, batches: &[(u32, u32, bool)]) -> Result<Vec<Hand>, Fail> {
    let (mut feeder, hands) = Pool::new(alloc, count)?;
    let all = put_all(alloc, &mut feeder, batches)?;
    feeder.close();
    if all {
        Ok(hands)
    } else {
        Err(Fail::new("a full pool"))
    }
}

// The only hand of such a pool.
fn only_hand(alloc: Global, batches: &[(u32, u32, bool)]) -> Result<Hand, Fail> {
    match filled(alloc, 1, batches)?.pop() {
        Some(hand) => Ok(hand),
        None => Err(Fail::new("no hand")),
    }
}

// A board at which two batches were published, and its seat, which has so many parts.
fn board_of_two(alloc: Global, parts: u64) -> Result<(Board, BoardSeat), AllocError>
    requires { 0 < parts }
    ensures board { IfOk result (λ b. (b.0.functions ≡ 2) × (b.0.seats ≡ parts)) }
    ensures table { IfOk result (λ b. b.1.table ≡ b.0.table) }
    ensures parts { IfOk result (λ b. b.1.view.parts ≡ parts) }
{
    let (board, mut seat) = Board::new(alloc, 2, parts)?;
    board.publish(&mut seat, 0, 23);
    board.publish(&mut seat, 1, 27);
    Ok((board, seat))
}

// Whether the first batch is done, the second one's word is this one, and the least error is that of the first, if it has one. A word of
// the board is eight times the batch's start, and 3 where the batch is done, or 4 where it is drained.
fn is_left(closed: &Closed, is_faulty: bool, second: u64) -> bool
    requires { 2 ≤ length closed.now.states }
{
    let least = if is_faulty { Some(FAULT) } else { None };
    closed.least == least && closed.states.word(0) == 187 && closed.states.word(1) == second
}

// The error of a body of the first batch.
const FAULT: Refusal = Refusal {
    offset: 25,
    kind: Kind::Invalid,
};

// What is wanted of a batch that was run.
#[derive(Clone, Copy)]
enum Want {
    // Its error.
    Faulty,
    // A code in its cell.
    Stored,
    // A code of 31 words, which found no room.
    NoRoom,
    // No code, since no room was left for any.
    Cut,
}

// Whether a row has the codes that are wanted.
fn has_codes(codes: &[RowCode], want: Want) -> bool {
    match want {
        Want::Faulty | Want::Cut => codes.is_empty(),
        Want::Stored => codes.len() == 1 && matches!(codes[0].stored, Stored::Cell(_, _)),
        Want::NoRoom => codes.len() == 1 && matches!(codes[0].stored, Stored::NoRoom(31, _)),
    }
}

// Whether a row is that of the batch of this number, and as is wanted.
fn is_row(row: &Row, number: u32, want: Want) -> bool {
    let fault = match want {
        Want::Faulty => Some(FAULT),
        _ => None,
    };
    row.batch.number == number
        && row.fault == fault
        && row.cut.is_some() == matches!(want, Want::Cut)
        && has_codes(row.codes.as_slice(), want)
}

// Whether the rows are those of the first batch and, if it was run, of the second.
fn are_rows(rows: &[Row], first: Want, second: Option<Want>) -> bool {
    match second {
        None => rows.len() == 1 && is_row(&rows[0], 0, first),
        Some(second) => rows.len() == 2
            && is_row(&rows[0], 0, first)
            && is_row(&rows[1], 1, second),
    }
}

// What bodies are compiled with.
fn compiler_of<'a, G: Gate>(
    alloc: Global,
    context: &'a Context,
    cells: &'a Cells,
    gate: &'a G,
) -> BatchCompiler<'a, G> {
    BatchCompiler {
        alloc,
        context,
        cells,
        gate,
    }
}

// What a worker makes of all that its hand finds.
fn serve<R: Threads + Wait + Sync, G: Gate>(
    rt: &R,
    mut hand: Hand,
    board: &Board,
    seat: BoardSeat,
    compiler: &BatchCompiler<'_, G>,
) -> Worked
    requires table { seat.table ≡ board.now.table }
    ensures table { result.seat.table ≡ seat.table }
    ensures parts { result.seat.view.parts ≡ seat.view.parts }
{
    work(rt, &mut hand, board, seat, compiler)
}

// Whether one worker leaves the board of two batches, and their rows, as is wanted.
fn serves<R: Threads + Wait + Sync>(
    rt: &R,
    hand: Hand,
    compiler: &BatchCompiler<'_, OpenGate>,
    first: Want,
    second: Option<Want>,
) -> Result<bool, AllocError> {
    let (board, seat) = board_of_two(compiler.alloc, 1)?;
    let worked = serve(rt, hand, &board, seat, compiler);
    let closed = board.close(worked.seat);
    let word = if second.is_some() { 219 } else { 220 };
    Ok(
        !worked.starved
            && is_left(&closed, matches!(first, Want::Faulty), word)
            && are_rows(worked.rows.as_slice(), first, second),
    )
}

// The same where the codes have room for so many words.
fn serves_within<R: Threads + Wait + Sync>(
    rt: &R,
    alloc: Global,
    room: u64,
    hand: Hand,
    context: &Context,
    first: Want,
    second: Option<Want>,
) -> Result<bool, AllocError> {
    let cells = Cells::new(alloc, 2, room)?;
    let compiler = compiler_of(alloc, context, &cells, &OpenGate);
    serves(rt, hand, &compiler, first, second)
}

// The same with two batches of one body each.
fn serves_two<R: Threads + Wait + Sync>(
    rt: &R,
    alloc: Global,
    room: u64,
    first: Want,
    second: Option<Want>,
) -> Result<bool, Fail> {
    let is_valid = !matches!(first, Want::Faulty);
    let hand = only_hand(alloc, &[(0, 0, is_valid), (0, 1, true)])?;
    match two_functions(alloc) {
        Some(context) => Ok(serves_within(rt, alloc, room, hand, &context, first, second)?),
        None => Err(Fail::new("no context")),
    }
}

// Where the first batch has an error, the second is drained.
#[test]
fn a_worker_serves_until_a_fault_and_while_codes_have_room(rt: HostRuntime) -> Result<(), Fail> {
    let cases = [
        (1_000, Want::Faulty, None),
        (1_000, Want::Stored, Some(Want::Stored)),
        (40, Want::Stored, Some(Want::NoRoom)),
        (31, Want::Stored, Some(Want::Cut)),
    ];
    for (room, first, second) in cases {
        assert!(rt; serves_two(&rt, rt.alloc(), room, first, second)?);
    }
    Ok(())
}

// What two workers make of two batches.
fn serve_beside<R: Threads + Wait + Sync>(
    rt: &R,
    hands: (Hand, Hand),
    board: &Board,
    mut seat: BoardSeat,
    compiler: &BatchCompiler<'_, SecondFirst>,
) -> (Worked, Worked)
    requires table { seat.table ≡ board.now.table }
    requires parts { seat.view.parts ≡ 2 }
    ensures tables { (result.0.seat.table ≡ board.now.table) × (result.1.seat.table ≡ board.now.table) }
    ensures parts { (result.0.seat.view.parts ≡ 1) × (result.1.seat.view.parts ≡ 1) }
{
    let (one, two) = hands;
    let other = board.split(&mut seat);
    // A closure that holds the compiler itself tells nothing of its result.
    let (alloc, x, c, g) = (
        compiler.alloc,
        compiler.context,
        compiler.cells,
        compiler.gate,
    );
    thread::join(
        rt,
        move || -> Worked
            requires table { seat.table ≡ board.now.table }
            requires parts { seat.view.parts ≡ 1 }
            ensures table { result.seat.table ≡ board.entry.now.table }
            ensures parts { result.seat.view.parts ≡ 1 }
        { serve(rt, one, board, seat, &compiler_of(alloc, x, c, g)) },
        move || -> Worked
            requires table { other.table ≡ board.now.table }
            requires parts { other.view.parts ≡ 1 }
            ensures table { result.seat.table ≡ board.entry.now.table }
            ensures parts { result.seat.view.parts ≡ 1 }
        { serve(rt, two, board, other, &compiler_of(alloc, x, c, g)) },
    )
}

// Whether each of two workers has one row, the error of the first batch was reported, and the second is done.
fn are_both_done(board: Board, first: Worked, second: Worked) -> bool
    requires board { (board.functions ≡ 2) × (board.seats ≡ 2) }
    requires tables { (first.seat.table ≡ board.table) × (second.seat.table ≡ board.table) }
    requires parts { (first.seat.view.parts ≡ 1) × (second.seat.view.parts ≡ 1) }
{
    let Worked {
        mut seat,
        rows,
        starved,
    } = first;
    let have_one = rows.as_slice().len() == 1 && second.rows.as_slice().len() == 1;
    board.join(&mut seat, second.seat);
    let closed = board.close(seat);
    have_one && !starved && is_left(&closed, true, 219)
}

// Whether two workers do both batches, where the gate holds the first, which has an error, until the second has finished.
fn run_beside<R: Threads + Wait + Sync>(
    rt: &R,
    alloc: Global,
    hands: (Hand, Hand),
    context: &Context,
    gate: &SecondFirst,
) -> Result<bool, AllocError> {
    let cells = Cells::new(alloc, 2, 1_000)?;
    let (board, seat) = board_of_two(alloc, 2)?;
    let compiler = compiler_of(alloc, context, &cells, gate);
    let (first, second) = serve_beside(rt, hands, &board, seat, &compiler);
    Ok(are_both_done(board, first, second))
}

// The hands of a closed pool that has two batches. The first batch has an error.
fn two_hands(alloc: Global) -> Result<(Hand, Hand), Fail> {
    let mut hands = filled(alloc, 2, &[(0, 0, false), (0, 1, true)])?;
    match (hands.pop(), hands.pop()) {
        (Some(one), Some(two)) => Ok((one, two)),
        _ => Err(Fail::new("no hands")),
    }
}

// The same with the two batches of a pool.
fn run_two<R: Threads + Wait + Sync>(
    rt: &R,
    alloc: Global,
    gate: &SecondFirst,
) -> Result<bool, Fail> {
    let hands = two_hands(alloc)?;
    match two_functions(alloc) {
        Some(context) => Ok(run_beside(rt, alloc, hands, &context, gate)?),
        None => Err(Fail::new("no context")),
    }
}

#[test]
fn batches_run_beside_each_other(rt: HostRuntime) -> Result<(), Fail> {
    let gate = SecondFirst::new();
    assert!(rt; run_two(&rt, rt.alloc(), &gate)?);
    assert!(rt; gate.is_through());
    Ok(())
}

// A lane of this module, at whose board two batches were published, and a seat there.
fn lane<'a>(
    alloc: Global,
    module: u32,
    context: &'a Context,
) -> Result<(Lane<'a>, LaneSeat), AllocError>
    ensures module { IfOk result (λ r. r.0.module ≡ «module») }
    ensures table { IfOk result (λ r. r.1.seat.table ≡ r.0.board.table) }
{
    let cells = Cells::new(alloc, 2, 1_000)?;
    let (board, seat) = board_of_two(alloc, 1)?;
    let lane = Lane {
        module,
        board,
        cells,
        context,
    };
    let rows = Vec::new(alloc);
    Ok((lane, LaneSeat { seat, rows }))
}

// Lanes of the modules 3 and 7, and a seat at each.
fn two_lanes<'a>(alloc: Global, context: &'a Context) -> Result<(Vec<Lane<'a>>, Seats), AllocError>
    ensures seated { IfOk result (λ r. AreSeated r.0.items r.1.items) }
    ensures apart { IfOk result (λ r. AreApart r.0.items) }
{
    let (three, first) = lane(alloc, 3, context)?;
    let (seven, second) = lane(alloc, 7, context)?;
    let lanes = Vec::from_array(alloc, [three, seven])?;
    let seats = Vec::from_array(alloc, [first, second])?;
    Ok((lanes, seats))
}

// What one worker makes of the batches of two modules.
fn serve_lanes<R: Threads + Wait + Sync>(
    rt: &R,
    alloc: Global,
    mut hand: Hand,
    context: &Context,
) -> Result<WorkedMany, AllocError> {
    let (lanes, seats) = two_lanes(alloc, context)?;
    Ok(work_many(rt, alloc, &mut hand, lanes.as_slice(), seats, &OpenGate))
}

// Whether the module whose first body has an error has the row of that one alone, and the other one both of its rows.
fn are_apart(seats: &[LaneSeat]) -> bool {
    seats.len() == 2
        && are_rows(seats[0].rows.as_slice(), Want::Faulty, None)
        && are_rows(seats[1].rows.as_slice(), Want::Stored, Some(Want::Stored))
}

// The same, where the first body of module 3 has an error.
fn serve_modules<R: Threads + Wait + Sync>(rt: &R, alloc: Global) -> Result<WorkedMany, Fail> {
    let batches = [(7, 0, true), (3, 0, false), (3, 1, true), (7, 1, true)];
    let hand = only_hand(alloc, &batches)?;
    match two_functions(alloc) {
        Some(context) => Ok(serve_lanes(rt, alloc, hand, &context)?),
        None => Err(Fail::new("no context")),
    }
}

// An error of one module drains that module's batches alone.
#[test]
fn a_worker_serves_two_modules(rt: HostRuntime) -> Result<(), Fail> {
    let worked = serve_modules(&rt, rt.alloc())?;
    assert!(rt; !worked.starved);
    assert!(rt; are_apart(worked.seats.as_slice()));
    Ok(())
}
