//! What one thread does, and what is known of what it gives back.
ghost use Rattle.std.specs.Prelude.{◌≡◌};
ghost use Rattle.batch_pool.specs.Working.{IsWorked};

use crate::batch_compiler::BatchCompiler;
use crate::hand::Hand;
use crate::worked::Worked;
use crate::worker::work;
use body_compiler::Rows;
use cancel_drain::{Board, BoardSeat};
use index_spaces::Context;
use io_edges::Gate;
use result_cells::Cells;
use std::snapshot::Snapshot;
use std::sync::Wait;
use std::sync::atomic::AtomicU64;
use std::sync::atomic::Ordering::SeqCst;
use std::thread::{Promise, Threads};

/// What a thread promises: the rows and the seat of a worker that began with this seat.
#[derive(Drop)]
pub struct Labour<'a> {
    pub context: &'a Context,
    pub cells: &'a Cells,
    pub seat: Snapshot<BoardSeat>,
}

impl<'a> Promise<Worked> for Labour<'a> {
    ghost use Rattle.batch_pool.specs.Working.{IsWorked};

    ghost kept_by = { λ p r. IsWorked p.context.now p.cells.now p.seat.value r };
}

/// A worker's thread. Where it was refused, it gives its seat back at once.
pub fn labour_at<R: Threads + Wait + Sync, G: Gate>(
    rt: &R,
    hand: Hand,
    board: &Board,
    seat: BoardSeat,
    compiler: &BatchCompiler<'_, G>,
    number: u64,
    refused: &AtomicU64,
) -> Worked
    requires table { seat.table ≡ board.now.table }
    ensures { IsWorked compiler.now.context.now compiler.now.cells.now seat result }
{
    if refused.load(SeqCst) == number {
        return Worked {
            seat,
            rows: Rows::new(Vec::new(compiler.alloc)),
            starved: false,
        };
    }
    let mut hand = hand;
    work(rt, &mut hand, board, seat, compiler)
}
