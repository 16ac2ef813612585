//! What a worker does for several modules until no more tickets come.
ghost use Rattle.std.specs.Prelude.{◌≡◌, ◌≢◌, ◌<◌, ℕ, List, All, length, slice_index, false, OnOk, MatchOption};
ghost use Rattle.batch_pool.specs.declared.ticket.Ticket.{Ticket as Carried};
ghost use Rattle.batch_pool.specs.Ends.{HasRisen};
ghost use Rattle.batch_pool.specs.Hands.{queues, finds};
ghost use Rattle.batch_pool.specs.Working.{Took};
ghost use Rattle.batch_pool.specs.Lanes.{AreSeated, AreApart, IsOfLane, Each, Works, Runs, Serves, AddsIn, AddsOf, IsWorkedMany};

use crate::batch_compiler::BatchCompiler;
use crate::hand::Hand;
use crate::lanes::lane::{Lane, LaneSeat, Seats, WorkedMany};
use crate::serving::serve;
use crate::ticket::Ticket;
use io_edges::Gate;
use std::alloc::{AllocError, Global};
use std::sync::Wait;
use std::thread::Threads;

/// The index of a module's lane, if there is one.
pub fn lane_of(lanes: &[Lane<'_>], module: u32) -> Option<usize>
    ensures { MatchOption result (All (λ l. l.module ≢ «module») lanes.now) (λ k. IsOfLane lanes.now «module» k) }
{
    for k in 0..lanes.len() {
        if lanes[k].module == module {
            return Some(k);
        }
    }
    None
}

/// Serves a ticket where it fits the lane of its module, and else passes it over.
fn serve_lane<G: Gate>(
    alloc: Global,
    lanes: &[Lane<'_>],
    seats: &mut Vec<LaneSeat>,
    gate: &G,
    ticket: Ticket,
) -> Result<(), AllocError>
    requires seats { AreSeated lanes.now seats.old.items }
    requires apart { AreApart lanes.now }
    ensures seats { AreSeated lanes.now seats.new.items }
    ensures works { Each Works lanes.now seats.old.items seats.new.items }
    ensures rows { Each (AddsIn ticket) lanes.now seats.old.items seats.new.items }
    ensures running { OnOk result (Each Runs lanes.now seats.old.items seats.new.items) }
    ensures served { OnOk result (Each (Serves ticket) lanes.now seats.old.items seats.new.items) }
{
    let Some(k) = lane_of(lanes, ticket.module) else {
        return Ok(());
    };
    let lane = &lanes[k];
    let compiler = BatchCompiler {
        alloc,
        context: lane.context,
        cells: &lane.cells,
        gate,
    };
    let here = &mut seats[k];
    serve(
        &lane.board,
        &mut here.seat,
        &compiler,
        &mut here.rows,
        ticket,
    )
}

/// Takes tickets until no more come, and runs their batches, of whichever of the lanes' modules they are: each that no other seat runs,
/// and before which no error of its module was reported.
///
/// At each lane's seat the rows that are added are those of the batches of its module that this seat has done, each that of a ticket,
/// and the errors that it reported are theirs. Where memory runs out, it stops, and says that it starved; a batch may then be running
/// still.
pub fn work_many<R: Threads + Wait + Sync, G: Gate>(
    rt: &R,
    alloc: Global,
    hand: &mut Hand,
    lanes: &[Lane<'_>],
    seats: Seats,
    gate: &G,
) -> WorkedMany
    requires seats { AreSeated lanes.now seats.items }
    requires apart { AreApart lanes.now }
    ensures worked { IsWorkedMany lanes.now seats.items result.seats.items result.starved }
    ensures tickets { (tickets : List Carried) × Took hand.old tickets hand.new × Each (AddsOf tickets) lanes.now seats.items result.seats.items
        × (result.starved ≡ false → All (λ t. Each (Serves t) lanes.now seats.items result.seats.items) tickets) }
    ensures queues { queues hand.new ≡ queues hand.old }
    ensures found_empty { result.starved ≡ false → (k : ℕ) → k < length (finds hand.old)
        → HasRisen (slice_index (finds hand.old) k) (slice_index (finds hand.new) k) }
{
    let mut seats = seats;
    for _ in rt.forever() {
        let Some(ticket) = hand.take(rt) else {
            return WorkedMany {
                seats,
                starved: false,
            };
        };
        match serve_lane(alloc, lanes, &mut seats, gate, ticket) {
            Ok(()) => {}
            Err(_) => {
                return WorkedMany {
                    seats,
                    starved: true,
                };
            }
        }
    }
    unreachable!()
}
