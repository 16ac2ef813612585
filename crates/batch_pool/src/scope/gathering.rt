//! Gathers what workers made.
ghost use Rattle.std.specs.Prelude.{◌≡◌, ◌<◌, ◌+◌, ◌-◌, ◌^◌, All, vec_len, IfSome};
ghost use Rattle.cancel_drain.specs.Handles.{Sitter};
ghost use Rattle.batch_pool.specs.Gathering.{Gathers, IsFresh, AreOf};
ghost use Rattle.batch_pool.specs.Working.{IsWorked};

use crate::scope::labour::Labour;
use crate::worked::Worked;
use body_compiler::Row;
use cancel_drain::{Board, BoardSeat};
use index_spaces::Context;
use result_cells::Cells;
use std::thread::{PromisedHandle, Threads};

/// Takes in what a worker gave back. Nothing where memory ran out.
pub fn take_in(
    board: &Board,
    context: &Context,
    cells: &Cells,
    seat: &mut BoardSeat,
    rows: &mut Vec<Row>,
    worked: Worked,
) -> Option<()>
    requires table { seat.old.table ≡ board.now.table }
    requires room { seat.old.view.parts < 2 ^ 64 - 1 }
    requires worked { (s : Sitter) × IsFresh board.now.table s × IsWorked context.now cells.now s worked }
    ensures table { seat.new.table ≡ seat.old.table }
    ensures parts { seat.new.view.parts ≡ seat.old.view.parts + 1 }
    ensures gathers { IfSome result (λ _. Gathers context.now cells.now seat.old.view seat.new.view rows.old.items rows.new.items) }
{
    // (the contract alone needs these two)
    let _ = context;
    let _ = cells;
    let Worked {
        seat: other,
        rows: more,
        starved,
    } = worked;
    board.join(seat, other);
    if starved {
        return None;
    }
    rows.append(&mut more.into_vec()).ok()
}

/// Joins all threads, and takes in what they give back. None where memory ran out.
pub fn join_all<'a, R: Threads>(
    rt: &R,
    board: &Board,
    context: &Context,
    cells: &Cells,
    seat: &mut BoardSeat,
    rows: &mut Vec<Row>,
    handles: Vec<PromisedHandle<Worked, Labour<'a>>>,
) -> Option<()>
    requires table { seat.old.table ≡ board.now.table }
    requires room { seat.old.view.parts + vec_len handles < 2 ^ 64 }
    requires each { All (λ h. AreOf context.now cells.now board.now.table h.promise) handles.items }
    ensures table { seat.new.table ≡ seat.old.table }
    ensures parts { IfSome result (λ _. seat.new.view.parts ≡ seat.old.view.parts + vec_len handles.entry) }
    ensures gathers { IfSome result (λ _. Gathers context.now cells.now seat.old.view seat.new.view rows.old.items rows.new.items) }
{
    for handle in handles {
        take_in(board, context, cells, seat, rows, handle.join(rt))?;
    }
    Some(())
}
