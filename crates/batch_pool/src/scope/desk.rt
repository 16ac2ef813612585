//! Where the thread that reads hands batches over.
ghost use Rattle.std.specs.Prelude.{◌≡◌, ◌↔◌, ◌⊎◌, ◌<◌, ◌-◌, ◌^◌, true, [], IsTrue, OnOk, OnErr};
ghost use Rattle.std.specs.Arc.{arc_value};
ghost use Rattle.cancel_drain.specs.Plays.{IsFresh};
ghost use Rattle.cancel_drain.specs.Views.{looks};
ghost use Rattle.batch_pool.specs.Desks.{IsDesk, IsIdle, IsNext, Hands, IsAsBefore};

use crate::feeder::Feeder;
use crate::scope::settling::keep;
use crate::serving::fits;
use crate::ticket::Ticket;
use body_cutter::Batch;
use cancel_drain::{Board, BoardSeat};
use index_spaces::Context;
use std::alloc::{AllocError, Global};
use std::sync::Arc;

/// What the thread that reads hands the batches of a module over with.
#[derive(Drop)]
pub struct Desk {
    /// The module's number.
    pub module: u32,
    /// Its handle on the board, which it feeds.
    pub seat: BoardSeat,
    /// The tickets of all batches that were handed over, in order.
    pub kept: Vec<Ticket>,
    /// The start of the last one of them.
    pub last: u64,
}

impl Desk {
    /// Before the first batch.
    pub fn new(
        alloc: Global,
        module: u32,
        board: &Board,
        context: &Context,
        seat: BoardSeat,
    ) -> Desk
        requires table { seat.table ≡ board.now.table }
        requires feeder { seat.view.feeder ≡ true }
        requires nothing { (seat.view.running ≡ []) × (seat.view.published ≡ []) }
        ensures desk { IsDesk context.now board.now result }
        ensures seat { result.seat ≡ seat }
        ensures of_module { result.module ≡ «module» }
    {
        // (the contract alone needs these two)
        let _ = board;
        let _ = context;
        Desk {
            module,
            seat,
            kept: Vec::new(alloc),
            last: 0,
        }
    }

    /// Publishes a batch that comes next and fits, keeps its ticket, and puts another one into the queue; where the queue has no room
    /// for it, the batch is left to whoever settles. With any other batch, and where memory runs out, nothing has changed.
    pub fn hand_over(
        &mut self,
        board: &Board,
        context: &Context,
        feeder: &mut Feeder,
        batch: &Arc<Batch, Global>,
    ) -> Result<(), AllocError>
        requires desk { IsDesk context.now board.now self.old }
        ensures desk { IsDesk context.now board.now self.new }
        ensures parts { self.new.seat.view.parts ≡ self.old.seat.view.parts }
        ensures idle { IsIdle self.old self.new }
        ensures of_module { self.new.module ≡ self.old.module }
        ensures handed { OnOk result ((IsNext context.now board.now.functions self.old (arc_value batch.now)
            × Hands self.old feeder.old (arc_value batch.now) self.new feeder.new)
            ⊎ ((¬ IsNext context.now board.now.functions self.old (arc_value batch.now)) × IsAsBefore self.old feeder.old self.new feeder.new)) }
        ensures err { OnErr result (IsAsBefore self.old feeder.old self.new feeder.new) }
    {
        let Some(ticket) = Ticket::of(self.module, Arc::try_clone(batch)?) else {
            return Ok(());
        };
        let other = Ticket::new(self.module, Arc::try_clone(batch)?);
        let number = self.kept.len();
        if ticket.number as usize != number || (0 < number && ticket.start <= self.last) {
            return Ok(());
        }
        if !fits(board, context, &ticket) {
            return Ok(());
        }
        let start = ticket.start;
        keep(board, &mut self.seat, context, &mut self.kept, ticket)?;
        self.last = start;
        let _ = feeder.put(other);
        Ok(())
    }

    /// Looks at the board: whether its least key is an error's, so that one was reported. Nothing but what the seat has seen
    /// changes.
    pub fn sees_fault(&mut self, board: &Board, context: &Context) -> bool
        requires desk { IsDesk context.now board.now self.old }
        ensures desk { IsDesk context.now board.now self.new }
        ensures parts { self.new.seat.view.parts ≡ self.old.seat.view.parts }
        ensures idle { IsIdle self.old self.new }
        ensures seen { IsTrue result ↔ (self.new.seat.view.seen < 2 ^ 64 - 1) }
        ensures looked { self.new ≡ record self.old { seat = record self.old.seat { view = looks self.old.seat.view self.new.seat.view.seen } } }
        ensures fresh { IsFresh self.old.seat.view self.new.seat.view.seen }
    {
        // (the contract alone needs it)
        let _ = context;
        board.look(&mut self.seat) != u64::MAX
    }
}
