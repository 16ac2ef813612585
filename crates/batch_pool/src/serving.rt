//! What is done with one ticket.
//!
//! A worker looks at the board, and then tries the batch:
//!
//! ```text
//! look                    the least key that was reported
//! drain                   an error before the batch was seen: nobody runs it, and the ticket is done with
//!   or claim              Lost: another seat has it, and the ticket is done with
//!     enter(gate)         Won: the caller's gate may hold the worker back
//!     compile_batch       the bodies' codes, up to the first with an error
//!     report, finish      that error, if there is one, and then the word `done`
//!     finished(gate)
//! ```
//!
//! With a batch at 100 and one at 200, an error at 150 in the first one, and two workers: the second batch is run where its
//! worker claims it first, and drained where its worker sees that error first. Either way the error at 150 is the least one.
ghost use Rattle.std.specs.Prelude.{true, ℕ, ◌≡◌, ◌<◌, ◌^◌, ◌↔◌, All, IsTrue, IfOk, IfSome, OnOk, OnErr};
ghost use Rattle.std.specs.Arc.{arc_value};
ghost use Rattle.cancel_drain.specs.Views.{times};
ghost use Rattle.body_cutter.specs.Bodies.{body_of};
ghost use Rattle.body_compiler.specs.LowBatches.{IsLow};
ghost use Rattle.body_compiler.specs.BatchRows.{IsRowOf, FitsBody};
ghost use Rattle.batch_pool.specs.Working.{Fits, Grows, IsServed, AddsRowOf};
ghost use Rattle.batch_pool.specs.Serving.{Tries, Runs, told};

use crate::batch_compiler::BatchCompiler;
use crate::ticket::Ticket;
use body_compiler::{Row, compile_batch};
use body_cutter::{Batch, Bodies, BodyView};
use cancel_drain::{Board, BoardSeat, Claim, Drained};
use index_spaces::Context;
use io_edges::{Gate, Go};
use std::alloc::{AllocError, Global};
use std::sync::Arc;
use std::thread;
use wasm_defs::Refusal;

/// A batch runs after so many turns, whatever the gate answers.
const LAST_TURN: u32 = 1_048_576;

/// Whether the function of a body is in the context.
fn fits_body(context: &Context, body: BodyView<'_>) -> bool
    ensures { IsTrue result ↔ FitsBody context.now (body_of body.entry) }
{
    context.has_type_of_function(body.index)
}

/// Whether all bodies fit.
fn fit_all(context: &Context, bodies: &Bodies) -> bool
    ensures { IsTrue result ↔ All (FitsBody context.now) bodies.now }
{
    for index in 0..bodies.count() {
        let body = bodies.get(index);
        if !fits_body(context, body) {
            return false;
        }
    }
    true
}

/// Whether the board has an entry for a batch, and its bodies fit.
pub fn fits(board: &Board, context: &Context, ticket: &Ticket) -> bool
    ensures { IsTrue result ↔ Fits context.now board.now.functions ticket.now }
{
    ticket.number < board.functions() && fit_all(context, &ticket.batch.bodies)
}

/// Asks the gate until the batch may run.
fn enter<G: Gate>(gate: &G, number: u32) {
    for turn in 0..LAST_TURN + 1 {
        match gate.enter(number, turn) {
            Go::Run => return,
            Go::Hold => thread::yield_now(),
        }
    }
}

/// Drains the batch where an error before it was reported, or else claims it: whether it is this seat's to run.
fn try_claim(board: &Board, seat: &mut BoardSeat, number: u32, start: u64) -> bool
    requires table { seat.old.table ≡ board.now.table }
    requires number { number < board.now.functions }
    requires start { start < 2 ^ 60 }
    ensures table { seat.new.table ≡ seat.old.table }
    ensures tries { Tries seat.old.view number start result seat.new.view }
    ensures running { result ≡ true → 0 < times number start seat.new.view.running }
{
    let _ = board.look(seat);
    match board.drain(seat, number, start) {
        Drained::NotBehind => board.claim(seat, number, start) == Claim::Won,
        Drained::Yes | Drained::Lost => false,
    }
}

/// Reports an error, if there is one.
fn report(board: &Board, seat: &mut BoardSeat, fault: Option<Refusal>)
    requires table { seat.old.table ≡ board.now.table }
    requires low { IfSome fault (λ r. r.offset < 2 ^ 60) }
    ensures { (seen : ℕ) × (seat.new ≡ record seat.old { view = told seat.old.view fault seen }) }
{
    if let Some(refusal) = fault {
        board.report(seat, refusal);
    }
}

/// Runs a batch that was claimed.
fn run<G: Gate>(
    board: &Board,
    seat: &mut BoardSeat,
    compiler: &BatchCompiler<'_, G>,
    batch: Arc<Batch, Global>,
) -> Result<Row, AllocError>
    requires table { seat.old.table ≡ board.now.table }
    requires fits { All (FitsBody compiler.now.context.now) (arc_value batch).bodies }
    requires low { IsLow (arc_value batch) }
    requires running { 0 < times (arc_value batch).number (arc_value batch).start seat.old.view.running }
    ensures table { seat.new.table ≡ seat.old.table }
    ensures row { IfOk result (IsRowOf compiler.now.context.now compiler.now.cells.now) }
    ensures batch { IfOk result (λ row. arc_value row.batch ≡ arc_value batch) }
    ensures runs { IfOk result (λ row. Runs seat.old.view row seat.new.view) }
    ensures err { OnErr result (seat.new ≡ seat.old) }
{
    let number = batch.number;
    let start = batch.start;
    let row = compile_batch(compiler.alloc, compiler.cells, compiler.context, batch)?;
    report(board, seat, row.fault);
    board.finish(seat, number, start);
    Ok(row)
}

/// Takes a ticket that fits out of the work: its batch is drained where an error before it was reported, or else run, unless
/// another seat was first.
pub fn serve_fitting<G: Gate>(
    board: &Board,
    seat: &mut BoardSeat,
    compiler: &BatchCompiler<'_, G>,
    rows: &mut Vec<Row>,
    ticket: Ticket,
) -> Result<(), AllocError>
    requires table { seat.old.table ≡ board.now.table }
    requires fits { Fits compiler.now.context.now board.now.functions ticket }
    ensures table { seat.new.table ≡ seat.old.table }
    ensures grows { Grows compiler.now.context.now compiler.now.cells.now seat.old.view seat.new.view rows.old.items rows.new.items }
    ensures running { OnOk result (seat.new.view.running ≡ seat.old.view.running) }
    ensures served { OnOk result (IsServed seat.old.view seat.new.view ticket) }
    ensures batch { AddsRowOf ticket rows.old.items rows.new.items }
{
    rows.reserve(1)?;
    let Ticket {
        module: _,
        number,
        start,
        batch,
    } = ticket;
    if !try_claim(board, seat, number, start) {
        return Ok(());
    }
    enter(compiler.gate, number);
    let row = run(board, seat, compiler, batch)?;
    rows.push_reserved(row);
    compiler.gate.finished(number);
    Ok(())
}

/// Serves a ticket where it fits, and else passes it over.
pub fn serve<G: Gate>(
    board: &Board,
    seat: &mut BoardSeat,
    compiler: &BatchCompiler<'_, G>,
    rows: &mut Vec<Row>,
    ticket: Ticket,
) -> Result<(), AllocError>
    requires table { seat.old.table ≡ board.now.table }
    ensures table { seat.new.table ≡ seat.old.table }
    ensures grows { Grows compiler.now.context.now compiler.now.cells.now seat.old.view seat.new.view rows.old.items rows.new.items }
    ensures running { OnOk result (seat.new.view.running ≡ seat.old.view.running) }
    ensures served { OnOk result (Fits compiler.now.context.now board.now.functions ticket → IsServed seat.old.view seat.new.view ticket) }
    ensures batch { AddsRowOf ticket rows.old.items rows.new.items }
{
    // Why: docs/DECISIONS.md, "A ticket that doesn't fit is passed over"
    if !fits(board, compiler.context, &ticket) {
        return Ok(());
    }
    serve_fitting(board, seat, compiler, rows, ticket)
}
