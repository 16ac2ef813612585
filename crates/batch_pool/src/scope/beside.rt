//! Workers in threads of their own, in parallel with a caller that reads.
ghost use Rattle.std.specs.Prelude.{◌≡◌, ◌<◌, ◌^◌, ◌⊎◌, true, [], length, IfOk, IfErr, IfSome};
ghost use Rattle.batch_pool.specs.Desks.{IsDesk, IsIdle, HasRead};
ghost use Rattle.batch_pool.specs.Gathering.{Gathers};
ghost use Rattle.batch_pool.specs.Hands.{count_in};
ghost use Rattle.batch_pool.specs.Working.{IsWorked};

use crate::batch_compiler::BatchCompiler;
use crate::feeder::Feeder;
use crate::hand::{Hand, last_hand};
use crate::scope::desk::Desk;
use crate::scope::gathering::{join_all, take_in};
use crate::scope::labour::{Labour, labour_at};
use crate::ticket::Ticket;
use crate::worked::Worked;
use crate::worker::work;
use body_compiler::Row;
use cancel_drain::{Board, BoardSeat};
use index_spaces::Context;
use io_edges::Gate;
use std::snapshot::Snapshot;
use std::sync::Wait;
use std::sync::atomic::AtomicU64;
use std::sync::atomic::Ordering::SeqCst;
use std::thread;
use std::thread::{PromisedHandle, Threads};

/// What the thread that reads does while workers compile.
pub trait Reading {
    /// Whether it may begin.
    ghost can_read: { Self → Type 0 };

    /// What it is after the reading.
    ghost reads: { Self → Self → Type 0 };

    /// Reads, and hands batches over at the desk.
    fn read(&mut self, board: &Board, context: &Context, desk: &mut Desk, feeder: &mut Feeder)
        requires desk { IsDesk context.now board.now desk.old }
        requires can { can_read self.old }
        ensures desk { IsDesk context.now board.now desk.new }
        ensures parts { desk.new.seat.view.parts ≡ desk.old.seat.view.parts }
        ensures idle { IsIdle desk.old desk.new }
        ensures reads { reads self.old self.new };
}

/// What the thread that reads has once it joined the workers.
#[derive(Drop)]
pub struct Joined<T> {
    /// The reader, after its reading.
    pub reader: T,
    /// The last seat at the board.
    pub seat: BoardSeat,
    /// The tickets of all batches that were handed over.
    pub kept: Vec<Ticket>,
    /// What the workers made.
    pub rows: Vec<Row>,
}

/// Works with a hand, if there is one, until no more tickets come, and takes in what that made. None where memory ran out.
fn help<R: Threads + Wait + Sync, G: Gate>(
    rt: &R,
    board: &Board,
    compiler: &BatchCompiler<'_, G>,
    own: Option<Hand>,
    seat: &mut BoardSeat,
    rows: &mut Vec<Row>,
) -> Option<()>
    requires table { seat.old.table ≡ board.now.table }
    requires parts { count_in own < seat.old.view.parts }
    requires room { seat.old.view.parts < 2 ^ 64 }
    ensures table { seat.new.table ≡ seat.old.table }
    ensures parts { seat.new.view.parts ≡ seat.old.view.parts }
    ensures gathers { IfSome result (λ _. Gathers compiler.now.context.now compiler.now.cells.now seat.old.view seat.new.view rows.old.items rows.new.items) }
{
    let Some(hand) = own else {
        return Some(());
    };
    let mut hand = hand;
    let part = board.split(seat);
    let worked = work(rt, &mut hand, board, part, compiler);
    take_in(board, compiler.context, compiler.cells, seat, rows, worked)
}

/// Reads while workers work off what is handed over: a thread for each hand but the last, as far as threads can be started, and this
/// thread, with the last hand, once it has read. Err where memory ran out, with the reader as it is after its reading, or as it was.
pub fn run_beside<R: Threads + Wait + Sync, G: Gate, T: Reading + Drop>(
    rt: &R,
    board: &Board,
    seat: BoardSeat,
    compiler: &BatchCompiler<'_, G>,
    hands: Vec<Hand>,
    feeder: Feeder,
    reading: T,
) -> Result<Joined<T>, T>
    requires table { seat.table ≡ board.now.table }
    requires first { (seat.view.feeder ≡ true) × (seat.view.running ≡ []) × (seat.view.published ≡ []) }
    requires parts { length hands.items < seat.view.parts }
    requires can { T.can_read reading }
    ensures read { IfOk result (λ j. HasRead compiler.now.context.now compiler.now.cells.now board.now seat.view j.seat j.kept.items j.rows.items) }
    ensures made { IfOk result (λ j. T.reads reading j.reader) }
    ensures back { IfErr result (λ r. T.reads reading r ⊎ (r ≡ reading)) }
{
    let refused = AtomicU64::new(u64::MAX);
    let told = &refused;
    let _all = seat.parts();
    thread::scope(
        thread::scope_env(),
        rt,
        |scope| -> Result<Joined<T>, T>
            requires table { seat.table ≡ board.now.table }
            requires first { (seat.view.feeder ≡ true) × (seat.view.running ≡ []) × (seat.view.published ≡ []) }
            requires parts { (length hands.items < seat.view.parts) × (seat.view.parts < 2 ^ 64) }
            requires can { T.can_read reading }
            ensures read { IfOk result (λ j.
                HasRead compiler.entry.now.context.now compiler.entry.now.cells.now board.entry.now seat.view j.seat j.kept.items j.rows.items) }
            ensures made { IfOk result (λ j. T.reads reading j.reader) }
            ensures back { IfErr result (λ r. T.reads reading r ⊎ (r ≡ reading)) }
        {
            let (context, cells) = (compiler.context, compiler.cells);
            let (alloc, gate) = (compiler.alloc, compiler.gate);
            let mut seat = seat;
            let mut rows: Vec<Row> = Vec::new(alloc);
            let mut handles: Vec<PromisedHandle<Worked, Labour<'_>>> = Vec::new(alloc);
            let mut number = 0u64;
            let mut hands = hands;
            let own = last_hand(&mut hands);
            for hand in hands {
                let part = board.split(&mut seat);
                let promise = Labour {
                    context,
                    cells,
                    seat: Snapshot::of(&part),
                };
                let mine = number;
                match scope.spawn_with(
                    promise,
                    move || -> Worked
                        requires { part.table ≡ board.now.table }
                        ensures { IsWorked context.entry.now cells.entry.now part result }
                    {
                        let compiler = BatchCompiler {
                            alloc,
                            context,
                            cells,
                            gate,
                        };
                        labour_at(rt, hand, board, part, &compiler, mine, told)
                    },
                ) {
                    Ok(handle) => {
                        let Ok(()) = handles.push(handle) else {
                            return Err(reading);
                        };
                    }
                    Err(refusal) => {
                        // Why: docs/DECISIONS.md, "A thread that couldn't be started hands its closure back"
                        told.store(mine, SeqCst);
                        let worked = (refusal.value)();
                        let Some(()) = take_in(board, context, cells, &mut seat, &mut rows, worked)
                        else {
                            return Err(reading);
                        };
                    }
                }
                number = number.wrapping_add(1);
            }
            let mut desk = Desk::new(alloc, 0, board, context, seat);
            let mut feeder = feeder;
            let mut reader = reading;
            reader.read(board, context, &mut desk, &mut feeder);
            let Desk {
                module: _,
                mut seat,
                kept,
                last: _,
            } = desk;
            feeder.close();
            let Some(()) = help(rt, board, compiler, own, &mut seat, &mut rows) else {
                return Err(reader);
            };
            let Some(()) = join_all(rt, board, context, cells, &mut seat, &mut rows, handles) else {
                return Err(reader);
            };
            Ok(Joined {
                reader,
                seat,
                kept,
                rows,
            })
        },
    )
}
