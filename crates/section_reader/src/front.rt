//! The push reader: bytes go in as they come, and items come out.
//!
//! `feed` takes bytes up to the end of an item at most, and `take_item` gives that item, so both are called in a loop. Here
//! a module with a type and a function of it comes in two pieces:
//!
//! ```text
//! feed(00 61 73 6D 01 00 00 00 01)             Ok(9)   the preamble, and the id of a type section
//! take_item()                                  None
//! feed(04 01 60 00 00 03 02 01 00)             Ok(5)   up to the end of the type
//! take_item()                                  Some(Item::Signature { .. })
//! feed(03 02 01 00)                            Ok(4)   the function section
//! take_item()                                  Some(Item::Function { type_index: (17, 0) })
//! feed()                                       Ok(0)   what came has no error
//! end()                                        Err     Ended at 18: a declared function has no body
//! ```
//!
//! The code section's count is an item too. After it the bodies may go elsewhere, and the reader skips them (`skip_to`).

ghost use Rattle.std.specs.Prelude.{◌≡◌, ◌≤◌, ◌<◌, ◌+◌, ◌^◌, ℕ, List, ◌++◌, length, [], true, false, None, Ok, Err, IfSome, IsSome, OnOk, is_some};
ghost use Rattle.std.proofs.Props.{props};
ghost use Rattle.wasm_defs.specs.Faults.{ending_fault};
ghost use Rattle.wasm_defs.specs.Outside.{module_read, sections, no_end};
ghost use Rattle.section_reader.specs.Counts.{IsWithin};
ghost use Rattle.section_reader.specs.Onward.{IsOrdered, IsBehind, IsStalled};
ghost use Rattle.section_reader.specs.Outline.{outline};
ghost use Rattle.section_reader.specs.Stages.{IsOwed, is_at_bodies, prepend};
ghost use Rattle.section_reader.specs.Waits.{IsFree, IsPlaced};

use crate::functions::{Functions, section_bytes};
use crate::sections::FUNCTIONS;
use crate::seen::Seen;
use crate::stage::Stage;
use crate::steps::Steps;
use crate::wait::Wait;
use leb_feed::Fields;
use std::alloc::{AllocError, Global};
use wasm_defs::{FrontStop, Item, Kind, Refusal};

/// The last offset that a module's byte may have here.
const LAST: u64 = 0x7FFF_FFFF_FFFF_FFFF;

/// Reads a module outside its function bodies, however its bytes are cut into pieces.
///
/// Contracts see of it what is left to report, for any bytes that come next: the items to come, and how the module ends
/// (`left`); and the same of the whole module, with its sections and its bodies (`remaining_parts`).
#[derive(Drop)]
pub struct Front {
    alloc: Global,
    steps: Steps,
    /// The offset of the first byte that isn't read yet.
    at: u64,
    /// Where the section ends.
    end: u64,
    /// The bytes of the field or the entry that isn't whole yet.
    kept: Vec<u8>,
    /// What may come before the kept bytes are read again.
    wait: Wait,
    waiting: Option<Item>,
    refusal: Option<Refusal>,
    ghost ahead: { at ≤ end },
    ghost counts: { IsWithin steps.seen at },
    ghost fits: { at + length kept.items < 2 ^ 64 },
    ghost ordered: { IsOrdered steps.stage steps.seen },
    ghost behind: { IfSome waiting (λ x. IsBehind x steps.stage steps.seen end) } by { Prim.hlevel props },
    ghost alone: { is_some waiting ≡ true → length kept.items ≡ 0 },
    ghost stalled: { IsStalled steps.stage steps.seen (record { at = at; rest = kept.items; end = end }) },
    ghost owed: { IsOwed steps.stage steps.seen (record { at = at; rest = kept.items; end = end }) },
    ghost unread: { 0 < length kept.items → IsFree steps.stage steps.seen (record { at = at; rest = kept.items; end = end }) wait },
    ghost placed: { IsPlaced wait (record { at = at; rest = kept.items; end = end }) },
}

impl Front {
    ghost use Rattle.section_reader.specs.FrontLeft.{left, total, refusal_of, can_skip, Feeds};
    ghost use Rattle.section_reader.specs.FrontOnward.{remaining_parts, Follows, FeedsOnward, EndsOnward};
    ghost use Rattle.section_reader.specs.Keeps.{Keeps};
    ghost use Rattle.section_reader.specs.Functions.{IsAtFunctions, TakesFunctions};

    /// Reads from a module's first byte on. Memory is taken from `alloc`.
    pub fn new(alloc: Global) -> Front
        ensures left { (more : List ℕ) → left result more ≡ outline more }
        ensures idle { result.waiting ≡ None }
        ensures onward { (more : List ℕ) → remaining_parts result more ≡ module_read more }
        ensures total { total result ≡ 0 }
        ensures apart { is_at_bodies result.steps.stage ≡ false }
    {
        Front {
            alloc,
            steps: Steps {
                stage: Stage::Preamble,
                seen: Seen::new(alloc),
            },
            at: 0,
            end: u64::MAX,
            kept: Vec::new(alloc),
            wait: Wait::Nothing,
            waiting: None,
            refusal: None,
        }
    }

    /// How many bytes came: the offset of the next one.
    pub fn offset(&self) -> u64
        ensures { result ≡ total self.now }
    {
        self.at + self.kept.len() as u64
    }

    /// The item that is whole, if one is.
    pub fn take_item(&mut self) -> Option<Item>
        ensures same { (more : List ℕ) → left self.old more ≡ prepend result (left self.new more) }
        ensures onward { (more : List ℕ) → remaining_parts self.old more ≡ prepend result (remaining_parts self.new more) }
        ensures item { result ≡ self.old.waiting }
        ensures taken { self.new.waiting ≡ None }
        ensures follows { IfSome result (λ x. self.old.refusal ≡ None → Follows x self.new) }
        ensures steps { self.new.steps ≡ self.old.steps }
        ensures total { total self.new ≡ total self.old }
        ensures refusal { self.new.refusal ≡ self.old.refusal }
    {
        self.waiting.take()
    }

    /// Takes the next bytes: all of them, or those up to the end of an item that is waiting then, and none while one waits.
    /// Where none waits then, the bytes that came have no error. So after an item was taken it is asked again, with no bytes
    /// if there are none: an error that is there already is reported before more bytes come.
    ///
    /// # Errors
    /// `Refused` where the module has this error outside its bodies, whatever follows. It is answered for good, without taking
    /// memory, by each later `feed` and `end`. `NoMemory` leaves what is left to report as it was.
    pub fn feed(&mut self, bytes: &[u8]) -> Result<usize, FrontStop>
        ensures fed { Feeds self.old bytes.now result self.new }
        ensures onward { FeedsOnward self.old bytes.now result self.new }
        ensures waits { IsSome self.old.waiting → (result ≡ Ok 0) × (self.new ≡ self.old) }
        ensures again { self.old.waiting ≡ None → IfSome self.old.refusal (λ r. (result ≡ Err (FrontStop.Refused r)) × (self.new ≡ self.old)) }
    {
        if self.waiting.is_some() {
            return Ok(0);
        }
        if let Some(refusal) = self.refusal {
            return Err(FrontStop::Refused(refusal));
        }
        if self.kept.is_empty() {
            return self.take(bytes, bytes);
        }
        match self.keep(bytes) {
            Ok(true) => return Ok(bytes.len()),
            Ok(false) => {}
            Err(AllocError) => return Err(FrontStop::NoMemory),
        }
        let Ok(mut all) = Vec::from_slice(self.alloc, &self.kept) else {
            return Err(FrontStop::NoMemory);
        };
        if all.extend_from_slice(bytes).is_err() {
            return Err(FrontStop::NoMemory);
        }
        self.take(&all, bytes)
    }

    /// Whether the function section's entries come next, so that `take_functions` may take some.
    pub fn is_at_functions(&self) -> bool {
        self.functions_owed() != 0
    }

    /// How many functions come next, if nothing is kept, waits or is refused.
    fn functions_owed(&self) -> u64
        ensures { 0 < result → IsAtFunctions self.now result }
    {
        match self.steps.stage {
            Stage::Entries(FUNCTIONS, owed)
                if self.kept.is_empty() && self.waiting.is_none() && self.refusal.is_none() => {
                owed
            }
            _ => 0,
        }
    }

    /// Takes functions that these bytes begin with, as `feed` and `take_item` do one by one, and writes their type indices: as many as
    /// are whole and right, and as there is room for. None may be taken, also where some come next: then `feed` says why.
    pub fn take_functions(&mut self, bytes: &[u8], types: &mut [u32]) -> Functions
        ensures takes { TakesFunctions self.old bytes.now result types.new self.new }
        ensures len { length types.new ≡ length types.old }
    {
        let owed = self.functions_owed();
        if owed == 0 {
            return Functions { count: 0, bytes: 0 };
        }
        let Some(fields) = self.fields(bytes) else {
            return Functions { count: 0, bytes: 0 };
        };
        let read = self
            .steps
            .read_functions(section_bytes(&fields), owed, types);
        self.at = fields.offset() + read.bytes as u64;
        self.wait = Wait::Nothing;
        read
    }

    /// Keeps bytes that complete nothing, if they are such. Else all is as it was.
    fn keep(&mut self, bytes: &[u8]) -> Result<bool, AllocError>
        requires waiting { self.old.waiting ≡ None }
        requires refusal { self.old.refusal ≡ None }
        requires some { 0 < length self.old.kept.items }
        ensures { Keeps self.old bytes.now result self.new }
    {
        if bytes.is_empty() {
            return Ok(true);
        }
        if matches!(self.wait, Wait::Nothing) {
            return Ok(false);
        }
        let before = self.kept.len();
        if u64::MAX - (self.at + before as u64) < bytes.len() as u64 {
            return Err(AllocError);
        }
        self.kept.extend_from_slice(bytes)?;
        match self.wait.after(&self.kept, bytes, self.at, self.end) {
            Some(wait) => {
                self.wait = wait;
                Ok(true)
            }
            None => {
                self.kept.truncate(before);
                Ok(false)
            }
        }
    }

    /// How the module ends, if no further bytes come: with an error outside its bodies, or without one. No memory is taken.
    ///
    /// # Errors
    /// The error. Where the bytes end too soon, its kind is `Ended`, and its offset their number. It is answered for good, by
    /// each later `feed` and `end`.
    pub fn end(&mut self) -> Result<(), Refusal>
        ensures answer { refusal_of result ≡ ending_fault (total self.old) (left self.old []).ending }
        ensures onward { is_at_bodies self.old.steps.stage ≡ false → self.old.waiting ≡ None → EndsOnward self.old (refusal_of result) }
        ensures refusal { self.new.refusal ≡ refusal_of result }
        ensures same { (total self.new ≡ total self.old) × (self.new.waiting ≡ self.old.waiting) }
        ensures unchanged { OnOk result (self.new ≡ self.old) }
        ensures again { IfSome self.old.refusal (λ r. (result ≡ Err r) × (self.new ≡ self.old)) }
    {
        // Why: docs/DECISIONS.md, "`Front::end` keeps its refusal"
        if let Some(refusal) = self.refusal {
            return Err(refusal);
        }
        match self.ending() {
            Some(refusal) => {
                self.refusal = Some(refusal);
                Err(refusal)
            }
            None => Ok(()),
        }
    }

    fn ending(&self) -> Option<Refusal>
        ensures answer { result ≡ ending_fault (total self.now) (left self.now []).ending }
        ensures onward { is_at_bodies self.now.steps.stage ≡ false → self.now.waiting ≡ None → EndsOnward self.now result }
    {
        if let Some(refusal) = self.refusal {
            return Some(refusal);
        }
        if self.kept.is_empty() {
            return self.steps.ending(self.at, self.end);
        }
        Some(Refusal {
            offset: self.at + self.kept.len() as u64,
            kind: Kind::Ended,
        })
    }

    /// Whether the bodies come next, in a section that ends there: so it is after an `Item::Code` with that end was taken,
    /// before anything is fed.
    pub fn can_skip_to(&self, end: u64) -> bool
        ensures { result ≡ can_skip self.now end }
    {
        // Why: docs/DECISIONS.md, "`is_whole` and `section_end` of a cutter"
        self.steps.is_at_bodies()
            && self.kept.is_empty()
            && self.waiting.is_none()
            && self.refusal.is_none()
            && end == self.end
    }

    /// Goes on after the bodies, whose bytes went elsewhere: it is as if they had been fed, whatever they are.
    pub fn skip_to(&mut self, end: u64)
        requires { can_skip self.old end ≡ true }
        ensures same { (bytes more : List ℕ) → total self.old + length bytes ≡ end → left self.old (bytes ++ more) ≡ left self.new more }
        ensures onward { (more : List ℕ) → remaining_parts self.new more ≡ sections self.old.steps.seen (record { at = end; rest = more; end = no_end }) }
        ensures stage { self.new.steps.stage ≡ Stage.Between }
        ensures total { total self.new ≡ end }
        ensures idle { self.new.waiting ≡ None }
    {
        self.at = end;
        self.end = u64::MAX;
        self.steps.stage = Stage::Between;
    }

    /// The bytes from the offset of the reading on, if their offsets are small enough.
    fn fields<'a>(&self, all: &'a [u8]) -> Option<Fields<'a>>
        ensures there { IfSome result (λ f. f ≡ record { at = self.now.at; rest = all.now; end = self.now.end }) }
        ensures fits { IfSome result (λ f. self.now.at + length all.now < 2 ^ 63) }
    {
        // Why: docs/DECISIONS.md, "A push reader says that memory ran out"
        if LAST < self.at || LAST - self.at < all.len() as u64 {
            return None;
        }
        Some(Fields::new(all, self.at, self.end))
    }

    /// Reads the bytes that were kept and these together.
    fn take(&mut self, all: &[u8], bytes: &[u8]) -> Result<usize, FrontStop>
        requires waiting { self.old.waiting ≡ None }
        requires refusal { self.old.refusal ≡ None }
        requires joined { all.now ≡ self.old.kept.items ++ bytes.now }
        ensures fed { Feeds self.old bytes.now result self.new }
        ensures onward { FeedsOnward self.old bytes.now result self.new }
    {
        let Some(mut fields) = self.fields(all) else {
            return Err(FrontStop::NoMemory);
        };
        let mark = self.steps.mark();
        match self.steps.until_item(self.alloc, &mut fields, bytes.len()) {
            Ok(Some(item)) => {
                let untaken = fields.rest().len();
                self.at = fields.offset();
                self.end = fields.end();
                self.kept = Vec::new(self.alloc);
                self.wait = Wait::Nothing;
                self.waiting = Some(item);
                Ok(bytes.len() - untaken)
            }
            Ok(None) => match Vec::from_slice(self.alloc, fields.rest()) {
                Ok(kept) => {
                    self.at = fields.offset();
                    self.end = fields.end();
                    self.wait = self.steps.wait(self.alloc, &fields);
                    self.kept = kept;
                    Ok(bytes.len())
                }
                Err(_) => {
                    self.steps.return_to(mark);
                    Err(FrontStop::NoMemory)
                }
            },
            Err(FrontStop::Refused(refusal)) => {
                self.steps.return_to(mark);
                self.refusal = Some(refusal);
                Err(FrontStop::Refused(refusal))
            }
            Err(FrontStop::NoMemory) => {
                self.steps.return_to(mark);
                Err(FrontStop::NoMemory)
            }
        }
    }
}
