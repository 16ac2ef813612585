//! A module that is compiled while its bytes come: its items are kept, its bodies are validated and compiled batch by batch, and
//! at its end their codes are linked, where they were kept.
//!
//! Bytes go to a `Front` outside the bodies, and to a `Cutter` among them:
//!
//! ```text
//! outside the bodies ---the code section's count---> among the bodies
//!         ^                                                 |
//!         +------------------ the section's end ------------+
//! ```
//!
//! However the bytes are cut, one after the other or all at once, these calls come to the same:
//!
//! ```text
//! let mut compilation = Compilation::new(alloc, 4096, Codes::kept(alloc));
//! compilation.feed(piece, false)?;      // for each piece; an error is answered as soon as no further byte can mend it
//! compilation.finish()?;                // the bytes are a module
//! compilation.build()?;                 // its image
//! ```

ghost use Rattle.std.specs.Prelude.{◌≡◌, ◌<◌, ◌≤◌, ◌+◌, ◌++◌, ◌&&◌, ℕ, Bool, List, [], All, length, drop, false, None, Err, IsSome, is_some, OnOk, IfOk};
ghost use Rattle.wasm_defs.specs.Outside.{Run as RunGiven};
ghost use Rattle.section_reader.specs.FrontLeft.{total};
ghost use Rattle.section_reader.specs.Onward.{after_parts};
ghost use Rattle.body_cutter.specs.Sections.{bodies_from};
ghost use Rattle.body_cutter.specs.Cuttings.{left, handed, no_batch};
ghost use Rattle.module_stream.specs.Codes.{AreAll, KeepsAlike};
ghost use Rattle.module_stream.specs.CutBodies.{coded_all};
ghost use Rattle.body_compiler.specs.BatchRows.{IsRowIf};
ghost use Rattle.module_stream.specs.Kept.{kept_bodies};
ghost use Rattle.module_stream.specs.Progress.{IsJudging, CanTakeAll, TakesPart};
ghost use Rattle.module_stream.specs.Done.{IsDone, Decides, IsBuilt};
ghost use Rattle.module_stream.specs.Done.{checked_of};
ghost use Rattle.module_stream.specs.Streaming.{IsGoing, IsErrorFree, IsUnread, MayGo, MayEnd, GoesOn};
ghost use Rattle.module_stream.specs.Streaming.{Advances, Lessens, work_left, IsWaiting, AllWait, WaitsAfter};
ghost use Rattle.module_stream.specs.Streaming.{with_cutter, KeepsRest, IsTaking, MayTake, MayBegin, TakesItem};
ghost use Rattle.module_stream.specs.Limits.{max_read};

use crate::bodies::take_batches;
use crate::built::{Built, Checked};
use crate::codes::Codes;
use crate::shared::take_kept;
use body_compiler::Row;
use body_cutter::{Batch, Cutter};
use image_linker::link;
use index_spaces::{AddStop, Context, ContextBuilder};
use result_cells::Cells;
use section_reader::Front;
use std::alloc::{AllocError, Global};
use std::sync::Arc;
use wasm_defs::{FrontStop, Item};

/// How many functions are taken at once, at most.
const FUNCTIONS: usize = 256;

/// What came of a module, and how far it was compiled.
#[derive(Drop)]
pub struct Compilation {
    alloc: Global,
    /// How many bytes of bodies close a batch.
    batch: u32,
    /// Reads what is outside bodies.
    front: Front,
    /// Cuts the bodies, while their section comes.
    cutter: Option<Cutter>,
    spaces: ContextBuilder,
    /// The codes of the bodies that were validated.
    codes: Codes,
}

impl Compilation {
    /// Before the first byte. A batch closes where its bodies have `batch` bytes. The codes are none so far.
    pub fn new(alloc: Global, batch: u32, codes: Codes) -> Compilation
        requires { AreAll codes [] }
        ensures unread { IsUnread result }
        ensures batch { result.batch ≡ batch }
        ensures kept { result.codes ≡ codes }
    {
        Compilation {
            alloc,
            batch,
            front: Front::new(alloc),
            cutter: None,
            spaces: ContextBuilder::new(alloc),
            codes,
        }
    }

    /// Takes the next bytes, however they are cut, up to the module's first error, and says how many: all of them, or, if
    /// `up_to_bodies`, those before the first body. An error outside the bodies' bytes is reported as soon as no further byte can
    /// mend it.
    pub fn feed(&mut self, piece: &[u8], up_to_bodies: bool) -> Result<usize, FrontStop>
        requires { MayGo self.old piece.now }
        ensures goes { (bytes more : List ℕ) → IsGoing bytes self.old (piece.now ++ more) → Advances bytes piece.now result self.new more }
        ensures few { IfOk result (λ taken. taken ≤ length piece.now) }
        ensures all { IfOk result (λ taken. (up_to_bodies ≡ false → taken ≡ length piece.now) × (self.new.cutter ≡ None → taken ≡ length piece.now)) }
        ensures no_error { IfOk result (λ taken. (up_to_bodies ≡ false → IsErrorFree self.new) × (self.new.cutter ≡ None → IsErrorFree self.new)) }
        ensures waits { IfOk result (λ taken. up_to_bodies ≡ false → AllWait self.new.cutter) }
        ensures batch { self.new.batch ≡ self.old.batch }
        ensures kept { KeepsAlike self.old.codes self.new.codes }
    {
        let mut taken = 0;
        while taken < piece.len() {
            if self.stops(up_to_bodies) {
                return Ok(taken);
            }
            match self.advance(&piece[taken..]) {
                Ok(more) => taken += more,
                Err(stop) => return Err(stop),
            }
        }
        match self.tell() {
            Ok(()) => Ok(taken),
            Err(stop) => Err(stop),
        }
    }

    /// Whether bodies come next, where the reading is to stop.
    pub fn stops(&self, up_to_bodies: bool) -> bool
        ensures { result ≡ (up_to_bodies && is_some self.now.cutter) }
    {
        up_to_bodies && self.cutter.is_some()
    }

    /// Reports an error that is there before another byte comes: where a section ends with entries missing, or after the code
    /// section's count.
    fn tell(&mut self) -> Result<(), FrontStop>
        requires { MayGo self.old [] }
        ensures goes { (bytes more : List ℕ) → IsGoing bytes self.old more → GoesOn bytes result self.new more }
        ensures no_error { OnOk result (IsErrorFree self.new) }
        ensures waits { OnOk result (AllWait self.new.cutter) }
        ensures batch { self.new.batch ≡ self.old.batch }
        ensures kept { KeepsAlike self.old.codes self.new.codes }
    {
        // Why: docs/DECISIONS.md, "An error of a push reader"
        match self.advance(&[]) {
            Ok(_) => Ok(()),
            Err(stop) => Err(stop),
        }
    }

    /// Takes some of the bytes: all, or those up to an item's end or to that of the bodies' section.
    fn advance(&mut self, piece: &[u8]) -> Result<usize, FrontStop>
        requires { MayGo self.old piece.now }
        ensures goes { (bytes more : List ℕ) → IsGoing bytes self.old (piece.now ++ more) → Advances bytes piece.now result self.new more }
        ensures less { Lessens self.old piece.now result self.new }
        ensures no_error { piece.now ≡ [] → OnOk result (IsErrorFree self.new) }
        ensures waits { piece.now ≡ [] → OnOk result (AllWait self.new.cutter) }
        ensures batch { self.new.batch ≡ self.old.batch }
        ensures kept { KeepsAlike self.old.codes self.new.codes }
    {
        match self.cutter.take() {
            Some(cutter) => self.cut(cutter, piece),
            None => self.read(piece),
        }
    }

    /// Among the bodies: takes the bytes that are in their section.
    fn cut(&mut self, mut cutter: Cutter, piece: &[u8]) -> Result<usize, FrontStop>
        requires { MayGo (with_cutter self.old cutter) piece.now }
        ensures goes { (bytes more : List ℕ) → IsGoing bytes (with_cutter self.old cutter) (piece.now ++ more) → Advances bytes piece.now result self.new more }
        ensures less { Lessens (with_cutter self.old cutter) piece.now result self.new }
        ensures waits { WaitsAfter result self.new.cutter }
        ensures no_error { OnOk result (IsErrorFree self.new) }
        ensures batch { self.new.batch ≡ self.old.batch }
        ensures kept { KeepsAlike self.old.codes self.new.codes }
    {
        match cutter.feed(piece) {
            Ok(taken) => match self.judge(&mut cutter) {
                Ok(()) => {
                    if cutter.is_whole() {
                        self.front.skip_to(cutter.section_end());
                        self.cutter = None;
                    } else {
                        self.cutter = Some(cutter);
                    }
                    Ok(taken)
                }
                Err(stop) => Err(stop),
            },
            Err(FrontStop::Refused(refusal)) => match self.judge(&mut cutter) {
                Ok(()) => Err(FrontStop::Refused(refusal)),
                Err(stop) => Err(stop),
            },
            Err(FrontStop::NoMemory) => Err(FrontStop::NoMemory),
        }
    }

    /// Validates and compiles the bodies of the batches that are closed.
    fn judge(&mut self, cutter: &mut Cutter) -> Result<(), FrontStop>
        requires { CanTakeAll self.old.spaces self.old.codes cutter.old.queue.closed }
        ensures rest { KeepsRest self.old self.new }
        ensures place { cutter.new.place ≡ cutter.old.place }
        ensures queue { OnOk result ((cutter.new.queue.closed ≡ []) × (cutter.new.queue.begun ≡ cutter.old.queue.begun)
            × (cutter.new.queue.least ≡ cutter.old.queue.least)) }
        ensures takes { (bytes : List ℕ) (left : RunGiven) (counted : Bool) → length bytes ≤ max_read
            → IsJudging bytes (after_parts (coded_all counted cutter.old.queue.closed) left) self.old.spaces self.old.codes
            → TakesPart bytes result left self.new.spaces self.new.codes }
    {
        take_batches(self.alloc, &self.spaces, &mut self.codes, cutter)
    }

    /// Takes the cutter out, where bodies come next.
    pub fn take_cutter(&mut self) -> Option<Cutter>
        ensures cutter { result ≡ self.old.cutter }
        ensures rest { self.new ≡ record self.old { cutter = None } }
    {
        self.cutter.take()
    }

    /// Puts the cutter back.
    pub fn put_cutter(&mut self, cutter: Cutter)
        ensures { self.new ≡ with_cutter self.old cutter }
    {
        self.cutter = Some(cutter);
    }

    /// The index spaces of what comes before the bodies.
    pub fn context(&self) -> &Context
        ensures { result.now ≡ self.now.spaces }
    {
        self.spaces.context()
    }

    /// Whether codes are kept.
    pub fn keeps_codes(&self) -> bool
        ensures { result ≡ is_some self.now.codes.kept }
    {
        self.codes.are_kept()
    }

    /// Validates bodies that were kept, with what workers made of them: the rows in the order of the batches, where they are at
    /// hand.
    pub fn judge_kept(
        &mut self,
        cells: &Cells,
        kept: Vec<Arc<Batch, Global>>,
        rows: Vec<Option<Row>>,
    ) -> Result<(), FrontStop>
        requires can { CanTakeAll self.old.spaces self.old.codes (kept_bodies kept.items) }
        requires rows { All (IsRowIf self.old.spaces cells.now) rows.items }
        ensures rest { KeepsRest self.old self.new }
        ensures takes { (bytes : List ℕ) (left : RunGiven) (counted : Bool) → length bytes ≤ max_read
            → IsJudging bytes (after_parts (coded_all counted (kept_bodies kept.items)) left) self.old.spaces self.old.codes
            → TakesPart bytes result left self.new.spaces self.new.codes }
    {
        take_kept(self.alloc, &self.spaces, &mut self.codes, cells, kept, rows)
    }

    /// Outside the bodies: takes functions, many at once, or the bytes up to the end of an item.
    fn read(&mut self, piece: &[u8]) -> Result<usize, FrontStop>
        requires none { self.old.cutter ≡ None }
        requires goes { MayGo self.old piece.now }
        ensures goes { (bytes more : List ℕ) → IsGoing bytes self.old (piece.now ++ more) → Advances bytes piece.now result self.new more }
        ensures less { Lessens self.old piece.now result self.new }
        ensures no_error { piece.now ≡ [] → OnOk result (IsErrorFree self.new) }
        ensures waits { piece.now ≡ [] → OnOk result (AllWait self.new.cutter) }
        ensures batch { self.new.batch ≡ self.old.batch }
        ensures kept { KeepsAlike self.old.codes self.new.codes }
    {
        if self.front.is_at_functions() {
            match self.take_functions(piece) {
                Ok(0) => {}
                Ok(taken) => return Ok(taken),
                Err(AllocError) => return Err(FrontStop::NoMemory),
            }
        }
        self.read_item(piece)
    }

    /// Takes functions that the bytes begin with, where the function section's entries come next.
    fn take_functions(&mut self, piece: &[u8]) -> Result<usize, AllocError>
        requires none { self.old.cutter ≡ None }
        ensures goes { (bytes more : List ℕ) → IsGoing bytes self.old (piece.now ++ more)
            → IfOk result (λ taken. IsGoing bytes self.new (drop taken piece.now ++ more)) }
        ensures few { IfOk result (λ taken. taken ≤ length piece.now) }
        ensures less { IfOk result (λ taken. work_left self.new (drop taken piece.now) + taken ≤ work_left self.old piece.now) }
        ensures none { self.new.cutter ≡ None }
        ensures batch { self.new.batch ≡ self.old.batch }
        ensures kept { self.new.codes ≡ self.old.codes }
    {
        let mut types = [0; FUNCTIONS];
        let read = self.front.take_functions(piece, &mut types);
        self.spaces.add_functions(&types[..read.count])?;
        Ok(read.bytes)
    }

    /// Takes the bytes up to the end of an item.
    fn read_item(&mut self, piece: &[u8]) -> Result<usize, FrontStop>
        requires none { self.old.cutter ≡ None }
        requires goes { MayGo self.old piece.now }
        ensures goes { (bytes more : List ℕ) → IsGoing bytes self.old (piece.now ++ more) → Advances bytes piece.now result self.new more }
        ensures less { Lessens self.old piece.now result self.new }
        ensures no_error { piece.now ≡ [] → OnOk result (IsErrorFree self.new) }
        ensures waits { piece.now ≡ [] → OnOk result (AllWait self.new.cutter) }
        ensures batch { self.new.batch ≡ self.old.batch }
        ensures kept { KeepsAlike self.old.codes self.new.codes }
    {
        match self.front.feed(piece) {
            Ok(taken) => match self.front.take_item() {
                Some(item) => match self.take_item(&item) {
                    Ok(()) => Ok(taken),
                    Err(stop) => Err(stop),
                },
                None => Ok(taken),
            },
            Err(stop) => Err(stop),
        }
    }

    /// Takes an item that was read; after the code section's count the bodies come.
    fn take_item(&mut self, item: &Item) -> Result<(), FrontStop>
        requires { MayTake self.old item.now }
        ensures takes { (bytes more : List ℕ) → IsTaking bytes self.old item.now more → TakesItem bytes self.old result self.new more }
        ensures batch { self.new.batch ≡ self.old.batch }
        ensures kept { self.new.codes ≡ self.old.codes }
    {
        match self.spaces.add(item) {
            Ok(()) => {}
            Err(AddStop::Refused(refusal)) => return Err(FrontStop::Refused(refusal)),
            Err(AddStop::NoMemory) => return Err(FrontStop::NoMemory),
        }
        if let Item::Code {
            count: (_, count),
            end,
        } = item
        {
            self.cutter = Some(self.begun_bodies(*count, *end));
        }
        Ok(())
    }

    /// The cutter of so many bodies, which come next, in a section that ends there.
    fn begun_bodies(&self, count: u32, end: u64) -> Cutter
        requires { MayBegin self.now count end }
        ensures left { (more : List ℕ) → left result more ≡ handed (no_batch self.now.batch)
            (bodies_from self.now.spaces.imported count (record { at = total self.now.front; rest = more; end = end })) }
        ensures at { result.place.at ≡ total self.now.front }
        ensures end { result.place.end ≡ end }
    {
        Cutter::new(
            self.alloc,
            count,
            self.spaces.context().imported(),
            self.front.offset(),
            end,
            self.batch,
        )
    }

    /// The bytes have ended: they are a module, all of whose bodies are compiled, or this is what is wrong.
    pub fn finish(&mut self) -> Result<(), FrontStop>
        requires { MayEnd self.old }
        ensures decides { (bytes : List ℕ) → All (λ b. b < 256) bytes → IsGoing bytes self.old [] → Decides bytes result self.new }
        ensures kept { KeepsAlike self.old.codes self.new.codes }
    {
        match self.settle() {
            Ok(()) => match self.cutter.take() {
                Some(cutter) => Err(self.end_bodies(cutter)),
                None => self.end(),
            },
            Err(stop) => Err(stop),
        }
    }

    /// Validates what can be validated of the bytes that came: where the cutter has closed batches, and where its section is
    /// whole.
    fn settle(&mut self) -> Result<(), FrontStop>
        requires { MayEnd self.old }
        ensures goes { (bytes : List ℕ) → IsGoing bytes self.old [] → GoesOn bytes result self.new [] }
        ensures waits { OnOk result (AllWait self.new.cutter) }
        ensures kept { KeepsAlike self.old.codes self.new.codes }
    {
        match self.cutter.take() {
            Some(cutter) => match self.cut(cutter, &[]) {
                Ok(_) => Ok(()),
                Err(stop) => Err(stop),
            },
            None => Ok(()),
        }
    }

    /// The bytes have ended among the bodies.
    fn end_bodies(&mut self, mut cutter: Cutter) -> FrontStop
        requires waits { IsWaiting cutter }
        requires goes { MayEnd (with_cutter self.old cutter) }
        ensures decides { (bytes : List ℕ) → IsGoing bytes (with_cutter self.old cutter) [] → Decides bytes (Err result) self.new }
        ensures kept { KeepsAlike self.old.codes self.new.codes }
    {
        match cutter.end() {
            Ok(()) => unreachable!(),
            Err(stop) => match self.judge(&mut cutter) {
                Ok(()) => stop,
                Err(earlier) => earlier,
            },
        }
    }

    /// The bytes have ended outside the bodies.
    fn end(&mut self) -> Result<(), FrontStop>
        requires none { self.old.cutter ≡ None }
        requires goes { MayEnd self.old }
        ensures decides { (bytes : List ℕ) → All (λ b. b < 256) bytes → IsGoing bytes self.old [] → Decides bytes result self.new }
        ensures kept { self.new.codes ≡ self.old.codes }
    {
        match self.front.end() {
            Ok(()) => Ok(()),
            Err(refusal) => Err(FrontStop::Refused(refusal)),
        }
    }

    /// How many functions were declared, and how many bytes were read.
    pub fn checked(&self) -> Checked
        ensures { result ≡ checked_of self.now }
    {
        Checked {
            functions: self.spaces.context().declared() as u64,
            bytes: self.front.offset(),
        }
    }

    /// Links the codes, which were kept, of a module that is done. They aren't kept any longer.
    pub fn build(&mut self) -> Result<Built, AllocError>
        requires done { (bytes : List ℕ) × IsDone bytes self.old }
        requires kept { IsSome self.old.codes.kept }
        ensures { IfOk result (λ built. (bytes : List ℕ) → IsDone bytes self.old → IsBuilt bytes built) }
    {
        let codes = self.codes.take();
        let context = self.spaces.context();
        let image = link(self.alloc, context, codes, context.segments())?;
        let Checked { functions, bytes } = self.checked();
        Ok(Built {
            image,
            functions,
            bytes,
        })
    }
}
