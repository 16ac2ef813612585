//! A walk over the bytes of a code section.
//!
//! ```text
//! in a size ---right---> in a body ---its last byte---> in a size, or at the section's end
//! ```

ghost use Rattle.std.specs.Prelude.{◌≡◌, ◌<◌, ◌≤◌, ◌+◌, ◌-◌, ◌^◌, ℕ, List, [], ◌∷◌, ◌++◌, length, false, true, None, All, OnOk, OnErr, IfOk};
ghost use Rattle.std.specs.Prelude.{IfNone, pos, ◌≤ℤ◌, ◌<ℤ◌};
ghost use Rattle.leb_feed.specs.Feeding.{IsUnfinished};
ghost use Rattle.body_cutter.specs.Bodies.{Body, Block, mark_of, no_bodies};
ghost use Rattle.body_cutter.specs.Sections.{size_fault, bodies_from};
ghost use Rattle.body_cutter.specs.Queues.{bodies_in, with_begun, AreFew, IsFull as IsFullBatch};
ghost use Rattle.body_cutter.specs.Walks.{given, batches_of, after_batches, is_over, IsSound, IsBetween, IsFull, AreBatches, Starts};

use crate::batch::Bodies;
use crate::block::BodyBlock;
use crate::body::Mark;
use leb_feed::{Fed, Leb};
use std::alloc::{AllocError, Global};
use std::collections::LinkedList;
use std::mem::replace;
use wasm_defs::{Kind, MAX_BODY, Refusal};

/// Where reading is in the section, and the batches on the way.
#[derive(Drop)]
pub struct Walk {
    pub alloc: Global,
    /// The index of the function after the last body's.
    pub behind: u32,
    /// The offset where the section ends.
    pub end: u64,
    /// How many bodies are to come, the one in hand among them.
    pub count: u32,
    /// The offset of the next byte.
    pub at: u64,
    /// The offset of the size of the body in hand.
    pub size_at: u64,
    /// The bytes of that size, until it is whole.
    pub leb: Leb,
    /// Whether the size is whole.
    pub sized: bool,
    /// The size, if it is whole.
    pub len: u32,
    /// A batch closes where its bodies have so many bytes.
    pub least: u32,
    /// The bodies of the batch that is begun, and the bytes that came of the body in hand.
    pub block: BodyBlock,
    /// The batches that were closed on the way.
    pub closed: LinkedList<Bodies>,
    /// The first error.
    pub stop: Option<Refusal>,
}

/// Before the first byte of a size.
fn next_size() -> Leb
    ensures begun { result ≡ record { bits = 32; signed = false; bytes = [] } }
    ensures unfinished { IsUnfinished result }
{
    Leb::new(32, false)
}

fn natural(n: i128) -> u32
    requires low { pos 0 ≤ℤ n }
    requires high { n <ℤ pos (2 ^ 32) }
    ensures { pos result ≡ n }
{
    n as u32
}

/// What is wrong with a size after which the section has so many bytes.
fn size_fault(size: u32, room: u64) -> Option<Kind>
    ensures exact { result ≡ size_fault size room }
    ensures right { IfNone result ((2 ≤ size) × (size ≤ room) × (size ≤ MAX_BODY)) }
{
    if size < 2 || room < u64::from(size) {
        return Some(Kind::Malformed);
    }
    if MAX_BODY < size {
        return Some(Kind::Limit);
    }
    None
}

/// What a walk is put back to.
#[derive(Drop)]
pub struct Saved {
    count: u32,
    at: u64,
    size_at: u64,
    leb: Leb,
    sized: bool,
    len: u32,
    mark: Mark,
}

impl Walk {
    /// The state of the walk, to be put back where memory runs out on the way.
    pub fn save(&self) -> Saved
        ensures { result ≡ record {
          count = self.now.count;
          at = self.now.at;
          size_at = self.now.size_at;
          leb = self.now.leb;
          sized = self.now.sized;
          len = self.now.len;
          mark = mark_of self.now.block;
        } }
    {
        Saved {
            count: self.count,
            at: self.at,
            size_at: self.size_at,
            leb: self.leb.fork(),
            sized: self.sized,
            len: self.len,
            mark: self.block.mark(),
        }
    }

    /// Puts the walk back to a saved state, without copying bytes: the bodies and the bytes that there were are the first ones.
    pub fn restore(&mut self, saved: Saved)
        requires { (block : Block) × (saved.mark ≡ mark_of block) × Starts block self.old }
        ensures place { (self.new.count ≡ saved.count) × (self.new.at ≡ saved.at) × (self.new.size_at ≡ saved.size_at) × (self.new.leb ≡ saved.leb)
            × (self.new.sized ≡ saved.sized) × (self.new.len ≡ saved.len) }
        ensures block { (block : Block) → saved.mark ≡ mark_of block → Starts block self.old → self.new.block ≡ block }
        ensures rest { (self.new.closed ≡ []) × (self.new.stop ≡ None) × (self.new.behind ≡ self.old.behind) × (self.new.end ≡ self.old.end)
            × (self.new.least ≡ self.old.least) }
    {
        let Saved {
            count,
            at,
            size_at,
            leb,
            sized,
            len,
            mark,
        } = saved;
        self.count = count;
        self.at = at;
        self.size_at = size_at;
        self.leb = leb;
        self.sized = sized;
        self.len = len;
        self.stop = None;
        if let Some(first) = self.closed.pop_front() {
            self.block = first.into_block();
        }
        self.closed.clear();
        self.block.cut_back(mark);
    }

    /// Whether no byte of the section can follow: it is whole, or has an error.
    pub fn is_over(&self) -> bool
        requires { IsSound self.now }
        ensures { result ≡ is_over self.now }
    {
        self.stop.is_some() || (self.count == 0 && self.at == self.end)
    }

    /// Before the first of so many bodies, whose size has the offset `at`. The index of the function after the last body's
    /// is `behind`. A batch closes where its bodies have `least` bytes.
    pub fn new(alloc: Global, behind: u32, count: u32, at: u64, end: u64, least: u32) -> Self
        requires counted { count ≤ behind }
        requires inside { at ≤ end }
        requires fits { end < 2 ^ 60 }
        ensures given { (more : List ℕ) → given result more ≡ after_batches (batches_of result)
            (bodies_from (behind - count) count (record { at = at; rest = more; end = end })) }
        ensures sound { IsSound result }
        ensures place { (result.behind ≡ behind) × (result.count ≡ count) × (result.at ≡ at) × (result.end ≡ end) }
        ensures batches { (result.least ≡ least) × (result.closed ≡ []) × (result.block ≡ no_bodies) }
    {
        let mut walk = Walk {
            alloc,
            behind,
            end,
            count,
            at,
            size_at: at,
            leb: next_size(),
            sized: false,
            len: 0,
            least,
            block: BodyBlock::new(alloc),
            closed: LinkedList::new(alloc),
            stop: None,
        };
        walk.settle();
        walk
    }

    /// The next byte of a size, or one after the last body.
    pub fn size_byte(&mut self, byte: u8)
        requires sound { IsSound self.old }
        requires in_size { self.old.sized ≡ false }
        requires going { self.old.stop ≡ None }
        requires inside { self.old.at < self.old.end }
        ensures same { (more : List ℕ) → given self.old (byte ∷ more) ≡ given self.new more }
        ensures sound { IsSound self.new }
        ensures place { (self.new.end ≡ self.old.end) × (self.new.behind ≡ self.old.behind) }
        ensures kept { (self.new.closed ≡ self.old.closed) × (self.new.block ≡ self.old.block) × (self.new.least ≡ self.old.least)
            × (self.new.count ≡ self.old.count) }
        ensures taken { self.new.stop ≡ None → self.new.at ≡ self.old.at + 1 }
    {
        if self.count == 0 {
            self.stop = Some(Refusal {
                offset: self.at,
                kind: Kind::Malformed,
            });
            return;
        }
        self.at += 1;
        match self.leb.feed(byte) {
            Fed::More => {
                if self.at == self.end {
                    self.stop = Some(Refusal {
                        offset: self.size_at,
                        kind: Kind::Malformed,
                    });
                }
            }
            Fed::Bad => {
                self.stop = Some(Refusal {
                    offset: self.size_at,
                    kind: Kind::Malformed,
                });
            }
            Fed::Done(n) => {
                let size = natural(n);
                match size_fault(size, self.end - self.at) {
                    Some(kind) => {
                        self.stop = Some(Refusal {
                            offset: self.size_at,
                            kind,
                        });
                    }
                    None => {
                        self.len = size;
                        self.sized = true;
                    }
                }
            }
        }
    }

    /// Between two bodies: a size that is missing where the section has no byte left is malformed there.
    pub fn settle(&mut self)
        requires { IsBetween self.old }
        ensures same { (more : List ℕ) → given self.old more ≡ given self.new more }
        ensures sound { IsSound self.new }
        ensures only { self.new ≡ record self.old { stop = self.new.stop } }
    {
        if 0 < self.count && self.at == self.end {
            self.stop = Some(Refusal {
                offset: self.at,
                kind: Kind::Malformed,
            });
        }
    }

    /// Closes the batch that is begun where it has enough bytes. No body is in hand.
    fn close_full(&mut self) -> Result<(), AllocError>
        requires { self.old.block.rest ≡ [] }
        ensures ok { OnOk result (self.new ≡ record self.old { block = self.new.block; closed = self.new.closed }) }
        ensures batches { OnOk result (batches_of self.new ≡ with_begun (batches_of self.old) self.old.block.bodies) }
        ensures rest { OnOk result (self.new.block.rest ≡ []) }
        ensures full { OnOk result ((before : List Body) (body : Body) → self.old.block.bodies ≡ before ++ body ∷ [] → AreFew self.old.least before
            → All (IsFullBatch self.old.least) self.old.closed → AreBatches self.new) }
        ensures err { OnErr result (self.new ≡ self.old) }
        ensures starts { (saved : Block) → Starts saved self.old → Starts saved self.new }
    {
        if self.block.len() < self.least as usize {
            return Ok(());
        }
        let block = replace(&mut self.block, BodyBlock::new(self.alloc));
        match self.closed.push_back(Bodies::new(block)) {
            Ok(()) => Ok(()),
            Err(failed) => {
                self.block = failed.value.into_block();
                Err(AllocError)
            }
        }
    }

    /// The body in hand is complete. Where memory runs out, the bodies and the bytes that came before are still there.
    fn complete(&mut self) -> Result<(), AllocError>
        requires { IsFull self.old }
        ensures same { OnOk result ((more : List ℕ) → given self.old more ≡ given self.new more) }
        ensures sound { OnOk result (IsSound self.new) }
        ensures batches { OnOk result (AreBatches self.old → AreBatches self.new) }
        ensures at { OnOk result (self.new.at ≡ self.old.at) }
        ensures kept { (self.new.end ≡ self.old.end) × (self.new.behind ≡ self.old.behind) × (self.new.least ≡ self.old.least) }
        ensures counts { OnOk result (length (bodies_in (batches_of self.new)) + self.new.count ≡ length (bodies_in (batches_of self.old)) + self.old.count) }
        ensures starts { (saved : Block) → Starts saved self.old → Starts saved self.new }
    {
        let index = self.behind - self.count;
        let first = self.at - u64::from(self.len);
        self.block.complete(index, self.size_at, first)?;
        self.close_full()?;
        self.count -= 1;
        self.sized = false;
        self.size_at = self.at;
        self.leb = next_size();
        self.settle();
        Ok(())
    }

    /// The next bytes of a body. Where memory runs out, the bytes that came before are still there.
    fn body_bytes(&mut self, piece: &[u8]) -> Result<(), AllocError>
        requires sound { IsSound self.old }
        requires in_body { self.old.sized ≡ true }
        requires going { self.old.stop ≡ None }
        requires fits { length self.old.block.rest + length piece.now ≤ self.old.len }
        ensures same { OnOk result ((more : List ℕ) → given self.old (piece.now ++ more) ≡ given self.new more) }
        ensures sound { OnOk result (IsSound self.new) }
        ensures batches { OnOk result (AreBatches self.old → AreBatches self.new) }
        ensures kept { (self.new.end ≡ self.old.end) × (self.new.behind ≡ self.old.behind) × (self.new.least ≡ self.old.least) }
        ensures counts { OnOk result (length (bodies_in (batches_of self.new)) + self.new.count ≡ length (bodies_in (batches_of self.old)) + self.old.count) }
        ensures at { OnOk result (self.new.at ≡ self.old.at + length piece.now) }
        ensures starts { (saved : Block) → Starts saved self.old → Starts saved self.new }
    {
        self.block.extend(piece)?;
        self.at += piece.len() as u64;
        if self.block.rest_len() < self.len as usize {
            return Ok(());
        }
        self.complete()
    }

    /// Some of the next bytes, one at least; those that are left are handed back.
    fn step<'a>(&mut self, bytes: &'a [u8]) -> Result<&'a [u8], AllocError>
        requires sound { IsSound self.old }
        requires going { self.old.stop ≡ None }
        requires some { 0 < length bytes.now }
        requires inside { self.old.at + length bytes.now ≤ self.old.end }
        ensures same { IfOk result (λ rest. (more : List ℕ) → given self.old (bytes.now ++ more) ≡ given self.new (rest.now ++ more)) }
        ensures less { IfOk result (λ rest. length rest.now < length bytes.now) }
        ensures sound { OnOk result (IsSound self.new) }
        ensures batches { OnOk result (AreBatches self.old → AreBatches self.new) }
        ensures kept { (self.new.end ≡ self.old.end) × (self.new.behind ≡ self.old.behind) × (self.new.least ≡ self.old.least) }
        ensures counts { OnOk result (length (bodies_in (batches_of self.new)) + self.new.count ≡ length (bodies_in (batches_of self.old)) + self.old.count) }
        ensures at { IfOk result (λ rest. self.new.stop ≡ None → self.new.at + length rest.now ≡ self.old.at + length bytes.now) }
        ensures starts { (saved : Block) → Starts saved self.old → Starts saved self.new }
    {
        if !self.sized {
            self.size_byte(bytes[0]);
            return Ok(&bytes[1..]);
        }
        let owed = self.len as usize - self.block.rest_len();
        let (front, rest) = bytes.split_at(owed.min(bytes.len()));
        self.body_bytes(front)?;
        Ok(rest)
    }

    /// The next bytes, which are in the section; those after an error change nothing. Where memory runs out, the bytes that
    /// came before of the body in hand are still there.
    pub fn run(&mut self, bytes: &[u8]) -> Result<(), AllocError>
        requires sound { IsSound self.old }
        requires inside { self.old.at + length bytes.now ≤ self.old.end }
        ensures same { OnOk result ((more : List ℕ) → given self.old (bytes.now ++ more) ≡ given self.new more) }
        ensures sound { OnOk result (IsSound self.new) }
        ensures batches { OnOk result (AreBatches self.old → AreBatches self.new) }
        ensures kept { (self.new.end ≡ self.old.end) × (self.new.behind ≡ self.old.behind) × (self.new.least ≡ self.old.least) }
        ensures counts { OnOk result (length (bodies_in (batches_of self.new)) + self.new.count ≡ length (bodies_in (batches_of self.old)) + self.old.count) }
        ensures at { OnOk result (self.new.stop ≡ None → self.new.at ≡ self.old.at + length bytes.now) }
        ensures starts { (saved : Block) → Starts saved self.old → Starts saved self.new }
    {
        let mut rest = bytes;
        while !rest.is_empty() && self.stop.is_none() {
            rest = self.step(rest)?;
        }
        Ok(())
    }
}
