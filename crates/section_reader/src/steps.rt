//! Reading step by step: up to the next stage, or to the next item.

ghost use Rattle.std.specs.Prelude.{◌≡◌, ◌<◌, ◌≤◌, ◌+◌, ◌-◌, ◌^◌, ℕ, length, true, false, None, Some, IfOk, IfSome, IfNone};
ghost use Rattle.leb_feed.specs.Reads.{NeedsNoMemory};
ghost use Rattle.section_reader.specs.Counts.{IsSound};
ghost use Rattle.section_reader.specs.Functions.{AreRead, declares};
ghost use Rattle.section_reader.specs.Near.{IsNear};
ghost use Rattle.section_reader.specs.Stages.{passes, cut_there, due, silent, is_at_bodies};
ghost use Rattle.section_reader.specs.Stepped.{Stepped, Reaches};
ghost use Rattle.section_reader.specs.Waits.{IsFree, IsPlaced};

use crate::entry_waits::{entry_wait, name_wait};
use crate::functions::{Functions, read_functions};
use crate::items::{is_passed_over, next_item};
use crate::rows::{entry_count, rest_of_section};
use crate::sections::{CODE, FUNCTIONS, header, preamble, section_end};
use crate::seen::Seen;
use crate::stage::Stage;
use crate::wait::Wait;
use leb_feed::{Fields, Stop};
use std::alloc::Global;
use wasm_defs::{FrontStop, Item, Kind, Refusal};

/// How far reading came: where it is, and what was seen.
#[derive(Drop)]
pub struct Steps {
    pub stage: Stage,
    pub seen: Seen,
}

/// Where steps were, and the last section before.
#[derive(Clone, Copy, Debug, PartialEq, Eq)]
pub struct Mark {
    stage: Stage,
    last: u8,
}

impl Steps {
    /// Reads on until an item is whole, or as far as the bytes go. An item leaves so many bytes at most.
    pub fn until_item(
        &mut self,
        alloc: Global,
        fields: &mut Fields<'_>,
        most: usize,
    ) -> Result<Option<Item>, FrontStop>
        requires sound { IsSound self.old.seen fields.old }
        requires before { IsNear most self.old.stage self.old.seen fields.old }
        ensures reaches { Reaches self.old fields.old result self.new fields.new }
        ensures near { IfOk result (λ x. IfSome x (λ i. length fields.new.rest ≤ most)) }
    {
        'steps: loop {
            match self.step(alloc, fields, most) {
                Ok(Some(item)) => return Ok(Some(item)),
                Ok(None) => {}
                Err(Stop::Wants) => return Ok(None),
                Err(Stop::Refused(refusal)) => return Err(FrontStop::Refused(refusal)),
                Err(Stop::NoMemory) => return Err(FrontStop::NoMemory),
            }
        }
    }

    /// Where it is.
    pub fn mark(&self) -> Mark
        ensures { result ≡ record { stage = self.now.stage; last = self.now.seen.last } }
    {
        Mark {
            stage: self.stage,
            last: self.seen.last,
        }
    }

    /// The error where no further bytes come: all bytes before the offset are read, and the section ends at `end`.
    pub fn ending(&self, at: u64, end: u64) -> Option<Refusal>
        ensures { result ≡ silent self.now.stage self.now.seen at end }
    {
        match self.stage {
            Stage::Preamble | Stage::Contents(_) => cut_there(at, end),
            Stage::Between => self.due(at),
            Stage::Entries(_, n) => {
                if 0 < n {
                    cut_there(at, end)
                } else if at == end {
                    self.due(at)
                } else {
                    ended(at)
                }
            }
        }
    }

    /// The code section is missing, where functions are declared, or the data section, where segments are counted.
    fn due(&self, at: u64) -> Option<Refusal>
        ensures { result ≡ due self.now.seen at }
    {
        if self.seen.owes() {
            return ended(at);
        }
        None
    }

    /// What may come before the bytes that are there are read again: with it nothing is read yet.
    pub fn wait(&self, alloc: Global, fields: &Fields<'_>) -> Wait
        ensures free { IsFree self.now.stage self.now.seen fields.now result }
        ensures placed { IsPlaced result fields.now }
    {
        match self.stage {
            Stage::Contents(0) => name_wait(fields),
            Stage::Entries(id, n) if 0 < n => entry_wait(fields, alloc, id, &self.seen),
            _ => Wait::Nothing,
        }
    }

    /// Whether the bodies come next.
    pub fn is_at_bodies(&self) -> bool
        ensures { result ≡ is_at_bodies self.now.stage }
    {
        match self.stage {
            Stage::Entries(position, n) => position == CODE && n == 0,
            _ => false,
        }
    }

    /// Goes back to where it was, with no items more.
    pub fn return_to(&mut self, mark: Mark)
        ensures { self.new ≡ record { stage = mark.stage; seen = record self.old.seen { last = mark.last } } }
    {
        self.stage = mark.stage;
        self.seen.last = mark.last;
    }

    /// Of the functions that are owed reads those that the bytes of the section begin with, many at once: as many as are whole and
    /// right, and as there is room for.
    pub fn read_functions(&mut self, bytes: &[u8], owed: u64, types: &mut [u32]) -> Functions
        requires functions { self.old.seen.functions + length bytes.now < 2 ^ 64 }
        requires declared { self.old.seen.declared + length bytes.now < 2 ^ 64 }
        ensures read { AreRead self.old.seen.types bytes.now result types.new }
        ensures few { result.count ≤ owed }
        ensures steps { self.new ≡ record { stage = Stage.Entries 3 (owed - result.count); seen = declares self.old.seen result.count } }
        ensures len { length types.new ≡ length types.old }
    {
        let most = owed.min(types.len() as u64) as usize;
        let read = read_functions(bytes, &self.seen, &mut types[..most]);
        self.declare(owed, read.count as u64);
        read
    }

    /// So many of the functions that are owed were read.
    fn declare(&mut self, owed: u64, count: u64)
        requires some { count ≤ owed }
        requires functions { self.old.seen.functions + count < 2 ^ 64 }
        requires declared { self.old.seen.declared + count < 2 ^ 64 }
        ensures { self.new ≡ record { stage = Stage.Entries 3 (owed - count); seen = declares self.old.seen count } }
    {
        self.stage = Stage::Entries(FUNCTIONS, owed - count);
        self.seen.functions += count;
        self.seen.declared += count;
    }

    /// Reads one item, or up to the next stage. Where reading stops, all is as it was.
    fn step(
        &mut self,
        alloc: Global,
        fields: &mut Fields<'_>,
        most: usize,
    ) -> Result<Option<Item>, Stop>
        requires sound { IsSound self.old.seen fields.old }
        requires before { IsNear most self.old.stage self.old.seen fields.old }
        ensures stepped { Stepped self.old fields.old result self.new fields.new }
        ensures near { IfOk result (λ x. IfSome x (λ i. length fields.new.rest ≤ most)) }
        ensures on { IfOk result (λ x. IfNone x (IsNear most self.new.stage self.new.seen fields.new)) }
    {
        match self.stage {
            Stage::Preamble => self.begin(fields),
            Stage::Between => self.open(fields),
            Stage::Contents(id) => self.count(alloc, fields, id),
            Stage::Entries(id, n) => {
                if n != 0 {
                    return self.read(alloc, fields, id, n, most);
                }
                if is_passed_over(id) {
                    return self.pass(fields, id);
                }
                self.leave(fields, id)
            }
        }
    }

    /// Before the magic bytes.
    fn begin(&mut self, fields: &mut Fields<'_>) -> Result<Option<Item>, Stop>
        requires sound { IsSound self.old.seen fields.old }
        requires stage { self.old.stage ≡ Stage.Preamble }
        ensures stepped { Stepped self.old fields.old result self.new fields.new }
        ensures none { IfOk result (λ x. x ≡ None) }
        ensures on { (most : ℕ) → IsNear most self.old.stage self.old.seen fields.old
            → IfOk result (λ x. IfNone x (IsNear most self.new.stage self.new.seen fields.new)) }
        ensures free { NeedsNoMemory result }
    {
        let mut next = fields.fork();
        preamble(&mut next)?;
        *fields = next;
        self.stage = Stage::Between;
        Ok(None)
    }

    /// Between two sections.
    fn open(&mut self, fields: &mut Fields<'_>) -> Result<Option<Item>, Stop>
        requires sound { IsSound self.old.seen fields.old }
        requires stage { self.old.stage ≡ Stage.Between }
        ensures stepped { Stepped self.old fields.old result self.new fields.new }
        ensures none { IfOk result (λ x. x ≡ None) }
        ensures on { (most : ℕ) → IsNear most self.old.stage self.old.seen fields.old
            → IfOk result (λ x. IfNone x (IsNear most self.new.stage self.new.seen fields.new)) }
        ensures free { NeedsNoMemory result }
    {
        if fields.rest().is_empty() {
            return Err(Stop::Wants);
        }
        let mut next = fields.fork();
        let (id, end) = header(&mut next, &self.seen)?;
        next.enter(end);
        *fields = next;
        self.seen.enter(id);
        self.stage = Stage::Contents(id);
        Ok(None)
    }

    /// After a section's size.
    fn count(
        &mut self,
        alloc: Global,
        fields: &mut Fields<'_>,
        id: u8,
    ) -> Result<Option<Item>, Stop>
        requires sound { IsSound self.old.seen fields.old }
        requires stage { self.old.stage ≡ Stage.Contents id }
        ensures stepped { Stepped self.old fields.old result self.new fields.new }
        ensures none { IfOk result (λ x. x ≡ None) }
        ensures on { (most : ℕ) → IsNear most self.old.stage self.old.seen fields.old
            → IfOk result (λ x. IfNone x (IsNear most self.new.stage self.new.seen fields.new)) }
    {
        let mut next = fields.fork();
        let n = entry_count(&mut next, alloc, id, &self.seen)?;
        *fields = next;
        self.stage = Stage::Entries(id, n);
        Ok(None)
    }

    /// Before so many entries.
    fn read(
        &mut self,
        alloc: Global,
        fields: &mut Fields<'_>,
        id: u8,
        n: u64,
        most: usize,
    ) -> Result<Option<Item>, Stop>
        requires sound { IsSound self.old.seen fields.old }
        requires stage { self.old.stage ≡ Stage.Entries id n }
        requires some { 0 < n }
        requires before { IsNear most self.old.stage self.old.seen fields.old }
        ensures stepped { Stepped self.old fields.old result self.new fields.new }
        ensures near { IfOk result (λ x. IfSome x (λ i. length fields.new.rest ≤ most)) }
        ensures on { IfOk result (λ x. IfNone x (IsNear most self.new.stage self.new.seen fields.new)) }
    {
        let mut next = fields.fork();
        let item = next_item(&mut next, alloc, id, &self.seen)?;
        self.seen.note_item(alloc, &item)?;
        *fields = next;
        self.stage = Stage::Entries(id, n - 1);
        Ok(Some(item))
    }

    /// After a section's entries.
    fn leave(&mut self, fields: &mut Fields<'_>, id: u8) -> Result<Option<Item>, Stop>
        requires sound { IsSound self.old.seen fields.old }
        requires stage { self.old.stage ≡ Stage.Entries id 0 }
        requires listing { passes id ≡ false }
        ensures stepped { Stepped self.old fields.old result self.new fields.new }
        ensures none { IfOk result (λ x. x ≡ None) }
        ensures on { (most : ℕ) → IsNear most self.old.stage self.old.seen fields.old
            → IfOk result (λ x. IfNone x (IsNear most self.new.stage self.new.seen fields.new)) }
        ensures free { NeedsNoMemory result }
    {
        let mut next = fields.fork();
        section_end(&mut next)?;
        *fields = next;
        self.stage = Stage::Between;
        Ok(None)
    }

    /// Passes over the bytes that are there of what the section has left.
    fn pass(&mut self, fields: &mut Fields<'_>, id: u8) -> Result<Option<Item>, Stop>
        requires sound { IsSound self.old.seen fields.old }
        requires stage { self.old.stage ≡ Stage.Entries id 0 }
        requires passing { passes id ≡ true }
        ensures stepped { Stepped self.old fields.old result self.new fields.new }
        ensures none { IfOk result (λ x. x ≡ None) }
        ensures on { (most : ℕ) → IsNear most self.old.stage self.old.seen fields.old
            → IfOk result (λ x. IfNone x (IsNear most self.new.stage self.new.seen fields.new)) }
        ensures free { NeedsNoMemory result }
    {
        let there = fields.rest().len() as u64;
        let room = fields.room();
        if room <= there {
            let mut next = fields.fork();
            rest_of_section(&mut next)?;
            section_end(&mut next)?;
            *fields = next;
            self.stage = Stage::Between;
            return Ok(None);
        }
        if there == 0 {
            return Err(Stop::Wants);
        }
        let mut next = fields.fork();
        next.run(there)?;
        *fields = next;
        Ok(None)
    }
}

fn ended(offset: u64) -> Option<Refusal>
    ensures { result ≡ Some (record { offset = offset; kind = Kind.Ended }) }
{
    Some(Refusal {
        offset,
        kind: Kind::Ended,
    })
}

/// A field that is cut off.
fn cut_there(at: u64, end: u64) -> Option<Refusal>
    ensures { result ≡ cut_there at end }
{
    if at == end {
        return Some(Refusal {
            offset: at,
            kind: Kind::Malformed,
        });
    }
    ended(at)
}
