//! The end: the thread that fed the workers tries each batch itself, and closes the board.
ghost use Rattle.std.specs.Prelude.{◌≡◌, ◌<◌, ℕ, [], ◌∷◌, ◌++◌, true, length, IfSome, OnOk, OnErr};
ghost use Rattle.batch_pool.specs.Working.{Grows, Fits};
ghost use Rattle.cancel_drain.specs.Views.{publishes, IsAbove};
ghost use Rattle.cancel_drain.specs.Closing.{IsTried, IsClosed, IsSettled};
ghost use Rattle.cancel_drain.specs.declared.view.View.{View};
ghost use Rattle.batch_pool.specs.Settling.{AreKept};

use crate::batch_compiler::BatchCompiler;
use crate::serving::serve_fitting;
use crate::ticket::Ticket;
use body_compiler::Row;
use cancel_drain::{Board, BoardSeat, Closed};
use index_spaces::Context;
use io_edges::Gate;
use std::alloc::AllocError;

/// Publishes the batch of a ticket that fits, and keeps the ticket. Where memory runs out, nothing has changed.
pub fn keep(
    board: &Board,
    seat: &mut BoardSeat,
    context: &Context,
    kept: &mut Vec<Ticket>,
    ticket: Ticket,
) -> Result<(), AllocError>
    requires table { seat.old.table ≡ board.now.table }
    requires feeder { seat.old.view.feeder ≡ true }
    requires number { ticket.number ≡ length seat.old.view.published }
    requires start { IsAbove seat.old.view.published ticket.start }
    requires fits { Fits context.now board.now.functions ticket }
    requires kept { AreKept context.now board.now.functions seat.old.view.published kept.old.items }
    ensures view { OnOk result (seat.new ≡ record seat.old { view = publishes seat.old.view ticket.start }) }
    ensures pushed { OnOk result (kept.new.items ≡ kept.old.items ++ ticket ∷ []) }
    ensures kept { OnOk result (AreKept context.now board.now.functions seat.new.view.published kept.new.items) }
    ensures err { OnErr result ((seat.new ≡ seat.old) × (kept.new.items ≡ kept.old.items)) }
{
    // (the contract alone needs it)
    let _ = context;
    kept.reserve(1)?;
    board.publish(seat, ticket.number, ticket.start);
    kept.push_reserved(ticket);
    Ok(())
}

/// Serves each kept batch. None where memory ran out.
fn try_all<G: Gate>(
    board: &Board,
    seat: &mut BoardSeat,
    compiler: &BatchCompiler<'_, G>,
    rows: &mut Vec<Row>,
    kept: Vec<Ticket>,
) -> Option<()>
    requires table { seat.old.table ≡ board.now.table }
    requires feeder { seat.old.view.feeder ≡ true }
    requires kept { AreKept compiler.now.context.now board.now.functions seat.old.view.published kept.items }
    ensures table { seat.new.table ≡ seat.old.table }
    ensures grows { Grows compiler.now.context.now compiler.now.cells.now seat.old.view seat.new.view rows.old.items rows.new.items }
    ensures running { IfSome result (λ _. seat.new.view.running ≡ seat.old.view.running) }
    ensures tried { IfSome result (λ _. (b : ℕ) → b < length seat.new.view.published → IsTried seat.new.view b) }
{
    for ticket in kept {
        match serve_fitting(board, seat, compiler, rows, ticket) {
            Ok(()) => {}
            Err(_) => return None,
        }
    }
    Some(())
}

/// What a board shows once all was settled, and all rows.
#[derive(Drop)]
pub struct Settled {
    /// The least error that was reported, and the word of each batch.
    pub closed: Closed,
    /// The rows that were given, with those of the batches that settling ran after them.
    pub rows: Vec<Row>,
}

/// Serves each kept batch on the last seat, which fed the others, and closes the board: each batch that was published is done
/// once, or drained after a reported error. None where memory ran out.
pub fn settle<G: Gate>(
    board: Board,
    seat: BoardSeat,
    compiler: &BatchCompiler<'_, G>,
    rows: Vec<Row>,
    kept: Vec<Ticket>,
) -> Option<Settled>
    requires table { seat.table ≡ board.table }
    requires seat { (seat.view.feeder ≡ true) × (seat.view.running ≡ []) × (seat.view.parts ≡ board.seats) }
    requires kept { AreKept compiler.now.context.now board.functions seat.view.published kept.items }
    ensures { IfSome result (λ s. (w : View)
        × Grows compiler.now.context.now compiler.now.cells.now seat.view w rows.items s.rows.items
        × IsClosed board.functions w s.closed.least s.closed.states × ((b : ℕ) → b < length w.published → IsSettled w s.closed.least b)) }
{
    let mut seat = seat;
    let mut rows = rows;
    try_all(&board, &mut seat, compiler, &mut rows, kept)?;
    let closed = board.close(seat);
    Some(Settled { closed, rows })
}
