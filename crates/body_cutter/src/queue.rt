//! Batches that wait to be taken.

ghost use Rattle.std.specs.Prelude.{◌≡◌, ℕ, ◌+◌, ◌<◌, ◌≤◌, ◌^◌, [], ◌++◌, length, take, drop, All, None, OnOk, OnErr, IfSome, IfNone};
ghost use Rattle.body_cutter.specs.Queues.{batch_length, starts_at, IsFull};
ghost use Rattle.body_cutter.specs.Held.{last_of, waiting, IsLastIf};

use crate::batch::{Batch, Bodies};
use std::alloc::{AllocError, Global};
use std::collections::LinkedList;

/// Closed batches in order.
#[derive(Drop)]
pub struct Waiting {
    /// How many batches come before them.
    pub number: u32,
    /// Those that closed where their bodies had enough bytes.
    pub closed: LinkedList<Bodies>,
    /// The last batch, which closed where the section ends or has an error.
    pub last: Option<Bodies>,
}

impl Waiting {
    /// No batch yet.
    pub fn new(alloc: Global) -> Self
        ensures { (result.number ≡ 0) × (result.closed ≡ []) × (result.last ≡ None) }
    {
        Waiting {
            number: 0,
            closed: LinkedList::new(alloc),
            last: None,
        }
    }

    /// More batches, which are moved out of their list. Where memory runs out, nothing changes.
    pub fn append(&mut self, fresh: &mut LinkedList<Bodies>) -> Result<(), AllocError>
        ensures ok { OnOk result (self.new ≡ record self.old { closed = self.old.closed ++ fresh.old }) }
        ensures moved { OnOk result (fresh.new ≡ []) }
        ensures err { OnErr result ((self.new ≡ self.old) × (fresh.new ≡ fresh.old)) }
    {
        self.closed.append(fresh)?;
        Ok(())
    }

    /// The bodies of the first batch.
    fn pop(&mut self) -> Option<Bodies>
        ensures some { IfSome result (λ b. waiting self.old ≡ b ++ waiting self.new) }
        ensures batch { (least : ℕ) → All (IsFull least) self.old.closed → IsLastIf least self.old.last
            → IfSome result (λ b. (0 < length b) × (batch_length least (waiting self.old) ≡ length b)) }
        ensures others { (least : ℕ) → All (IsFull least) self.old.closed → IsLastIf least self.old.last
            → All (IsFull least) self.new.closed × IsLastIf least self.new.last }
        ensures kept { (self.new.number ≡ self.old.number) × (self.old.last ≡ None → self.new.last ≡ None) }
        ensures none { IfNone result ((waiting self.old ≡ []) × (self.new ≡ self.old)) }
    {
        match self.closed.pop_front() {
            Some(bodies) => Some(bodies),
            None => self.last.take(),
        }
    }

    /// The first batch. It takes no memory.
    pub fn take(&mut self, least: u32) -> Option<Batch>
        requires full { All (IsFull least) self.old.closed }
        requires last { IsLastIf least self.old.last }
        requires few { self.old.number + length (waiting self.old) < 2 ^ 32 }
        ensures some { IfSome result (λ b. (b.number ≡ self.old.number) × (b.bodies ≡ take (batch_length least (waiting self.old)) (waiting self.old))
            × (self.new.number ≡ self.old.number + 1) × (waiting self.new ≡ drop (batch_length least (waiting self.old)) (waiting self.old))) }
        ensures start { IfSome result (λ b. starts_at b.start (waiting self.old)) }
        ensures more { IfSome result (λ b. self.new.number + length (waiting self.new) ≤ self.old.number + length (waiting self.old)) }
        ensures kept { All (IsFull least) self.new.closed × IsLastIf least self.new.last × (self.old.last ≡ None → self.new.last ≡ None) }
        ensures none { IfNone result ((waiting self.old ≡ []) × (self.new ≡ self.old)) }
    {
        let bodies = self.pop()?;
        let start = bodies.get(0).size;
        let number = self.number;
        self.number += 1;
        Some(Batch {
            number,
            start,
            bodies,
        })
    }

    /// Nothing is to come: these bodies are the last batch, if there are any.
    pub fn close(&mut self, bodies: Bodies)
        requires { self.old.last ≡ None }
        ensures bodies { (last_of self.new.last ≡ bodies) × (bodies ≡ [] → self.new.last ≡ None) }
        ensures kept { (self.new.number ≡ self.old.number) × (self.new.closed ≡ self.old.closed) }
    {
        if 0 < bodies.count() {
            self.last = Some(bodies);
        }
    }
}
