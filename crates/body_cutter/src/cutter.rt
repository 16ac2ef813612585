//! The cutter: bytes go in as they come, and batches of bodies come out.
//!
//! Of a body it reads the size alone. A batch closes where its bodies have `batch_bytes` bytes, and where the section ends.
//! Here two bodies, of two and of three bytes, are in a section whose first size has the offset 20 and which ends at 27:
//!
//! ```text
//! Cutter::new(alloc, 2, 0, 20, 27, 4)
//! feed(02 00 0B 03)       Ok(4)   the first body, and the size of the second one
//! take_batch()            None    two bytes of bodies are less than four
//! feed(00 01 0B 0B 02)    Ok(3)   up to the section's end; what follows isn't taken
//! take_batch()            Some    batch 0, whose first size is at 20, with the bodies of functions 0 and 1
//! is_whole()              true
//! ```

ghost use Rattle.std.specs.Prelude.{◌≡◌, ◌<◌, ◌≤◌, ◌+◌, ◌^◌, ◌++◌, ℕ, List, length, take, true, false, None, [], OnOk, OnErr};
ghost use Rattle.body_cutter.specs.Sections.{bodies_from, Whole};
ghost use Rattle.body_cutter.specs.Bodies.{no_bodies};
ghost use Rattle.body_cutter.specs.Queues.{all_closed};
ghost use Rattle.body_cutter.specs.Held.{last_of, queue_of};
ghost use Rattle.body_cutter.specs.Cuttings.{left, handed, no_batch, is_whole, IsPrompt, Feeds, Ends, Takes};

use crate::batch::{Batch, Bodies};
use crate::block::BodyBlock;
use crate::queue::Waiting;
use crate::walk::Walk;
use std::alloc::{AllocError, Global};
use std::marker::Model;
use std::mem::replace;
use wasm_defs::{FrontStop, Kind, Refusal};

/// Cuts a code section into bodies, after its count. Contracts see of it what it still hands over (`left`).
#[derive(Drop)]
pub struct Cutter {
    walk: Walk,
    queue: Waiting,
}

impl Model for Cutter {
    ghost use Rattle.body_cutter.specs.Cuttings.{Cutting};
    ghost use Rattle.body_cutter.specs.Walks.{position_of};
    ghost use Rattle.body_cutter.specs.Held.{queue_of, IsHeld};

    ghost Value = { Cutting };

    ghost view = { λ c. record { place = position_of c.walk; queue = queue_of c.walk c.queue } };

    ghost invariant = { λ c. IsHeld c.walk c.queue };
}

impl Cutter {
    /// Before the first body's size, at `first_offset`, in a section of `count` bodies that ends at `section_end`. The first
    /// body is that of the function `first_index`. A batch closes where its bodies have `batch_bytes` bytes.
    pub fn new(
        alloc: Global,
        count: u32,
        first_index: u32,
        first_offset: u64,
        section_end: u64,
        batch_bytes: u32,
    ) -> Self
        requires indices { first_index + count < 2 ^ 32 }
        requires ahead { first_offset ≤ section_end }
        requires near { section_end < 2 ^ 60 }
        ensures left { (more : List ℕ) → left result more ≡ handed (no_batch batch_bytes)
            (bodies_from first_index count (record { at = first_offset; rest = more; end = section_end })) }
        ensures at { result.place.at ≡ first_offset }
        ensures end { result.place.end ≡ section_end }
    {
        Cutter {
            walk: Walk::new(
                alloc,
                first_index + count,
                count,
                first_offset,
                section_end,
                batch_bytes,
            ),
            queue: Waiting::new(alloc),
        }
    }

    /// The next bytes. All that are in the section are taken; it says how many. What they decide is reported at once, and with
    /// no bytes what is decided before the first one: that a section with no room left lacks a body.
    ///
    /// # Errors
    /// `Refused` where a size or the section's end is wrong (Core 5.5.13), and from then on, without taking memory, by each
    /// later `feed` and `end`. `NoMemory` leaves the cutter as it was.
    pub fn feed(&mut self, bytes: &[u8]) -> Result<usize, FrontStop>
        ensures { Feeds self.old bytes.now result self.new }
    {
        if let Some(refusal) = self.walk.stop {
            return Err(FrontStop::Refused(refusal));
        }
        // Why: docs/DECISIONS.md, "A cutter with a size owed and no byte of its section left refuses at once"
        let taken = first_of(bytes, self.walk.end - self.walk.at);
        if self.take_in(taken).is_err() {
            return Err(FrontStop::NoMemory);
        }
        if let Some(refusal) = self.walk.stop {
            return Err(FrontStop::Refused(refusal));
        }
        Ok(taken.len())
    }

    /// How many bodies are still to begin.
    pub fn bodies_left(&self) -> u32 {
        self.walk.count
    }

    /// How many bytes the bodies of a batch have in the mean, of those that are still to come: as many as a batch closes with, or as many
    /// as a body has where that is more.
    pub fn mean_batch(&self) -> u64 {
        let bytes = self.walk.end.saturating_sub(self.walk.at);
        let bodies = u64::from(self.walk.count.max(1));
        (bytes / bodies).max(u64::from(self.walk.least))
    }

    /// Bytes that are in the section.
    fn take_in(&mut self, piece: &[u8]) -> Result<(), AllocError>
        requires going { self.old.place.stop ≡ None }
        requires inside { self.old.place.at + length piece.now ≤ self.old.place.end }
        ensures same { OnOk result ((more : List ℕ) → left self.old (piece.now ++ more) ≡ left self.new more) }
        ensures prompt { OnOk result (IsPrompt self.new) }
        ensures place { OnOk result ((self.new.place.stop ≡ None → self.new.place.at ≡ self.old.place.at + length piece.now)
            × (self.new.place.end ≡ self.old.place.end)) }
        ensures err { OnErr result (self.new ≡ self.old) }
    {
        // Why: docs/DECISIONS.md, "Where memory runs out, the bytes of the body in hand are cut back"
        if self.walk.is_over() {
            return Ok(());
        }
        let saved = self.walk.save();
        if self.walk.run(piece).is_err() || self.queue.append(&mut self.walk.closed).is_err() {
            self.walk.restore(saved);
            return Err(AllocError);
        }
        if self.walk.is_over() {
            close_last(&mut self.walk, &mut self.queue);
        }
        Ok(())
    }

    /// Whether the section is whole: all its bytes came, and it has no error. Then no body is to come, and no bytes change
    /// that. Where it has no error and isn't whole, bytes of it are missing.
    pub fn is_whole(&self) -> bool
        ensures is { result ≡ is_whole self.now }
        ensures whole { result ≡ true → (more : List ℕ) → left self.now more ≡ record { queue = self.now.queue; ending = Whole } }
        ensures owed { result ≡ false → self.now.place.stop ≡ None → self.now.place.at < self.now.place.end }
    {
        self.walk.stop.is_none() && self.walk.is_over()
    }

    /// The offset at which the section ends.
    pub fn section_end(&self) -> u64
        ensures { result ≡ self.now.place.end }
    {
        self.walk.end
    }

    /// The first closed batch, or none where no batch is closed. It takes no memory.
    pub fn take_batch(&mut self) -> Option<Batch>
        ensures { Takes self.old result self.new }
    {
        self.queue.take(self.walk.least)
    }

    /// The bytes ended, or their source failed. It takes no memory.
    ///
    /// # Errors
    /// `Refused` where the section isn't whole: the error that was reported before, or else `Ended` at the number of bytes.
    pub fn end(&mut self) -> Result<(), FrontStop>
        ensures { Ends self.old result self.new }
    {
        if let Some(refusal) = self.walk.stop {
            return Err(FrontStop::Refused(refusal));
        }
        // Why: docs/DECISIONS.md, "`Cutter::end` and the readers of fields in `leb_feed` take no memory"
        if self.walk.is_over() {
            return Ok(());
        }
        let refusal = Refusal {
            offset: self.walk.at,
            kind: Kind::Ended,
        };
        self.walk.stop = Some(refusal);
        close_last(&mut self.walk, &mut self.queue);
        Err(FrontStop::Refused(refusal))
    }
}

/// Nothing is to come: the batch that is begun closes, without taking memory.
fn close_last(walk: &mut Walk, queue: &mut Waiting)
    requires { queue.old.last ≡ None }
    ensures walk { walk.new ≡ record walk.old { block = no_bodies } }
    ensures queue { queue_of walk.new queue.new ≡ all_closed (queue_of walk.old queue.old) }
    ensures last { (last_of queue.new.last ≡ walk.old.block.bodies) × (walk.old.block.bodies ≡ [] → queue.new.last ≡ None) }
    ensures kept { (queue.new.number ≡ queue.old.number) × (queue.new.closed ≡ queue.old.closed) }
{
    let block = replace(&mut walk.block, BodyBlock::new(walk.alloc));
    queue.close(Bodies::new(block));
}

/// So many bytes, or all of them where there are fewer.
fn first_of(bytes: &[u8], most: u64) -> &[u8]
    ensures { result.now ≡ take most bytes.now }
{
    if (bytes.len() as u64) < most {
        return bytes;
    }
    &bytes[..most as usize]
}
