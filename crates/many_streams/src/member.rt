//! One of several modules, whose bytes come among those of the others.

ghost use Rattle.std.specs.Prelude.{◌≡◌, ◌<◌, ◌++◌, ℕ, Bool, List, [], true, false, None, All, take, is_some, OnOk, IfOk, IfSome};
ghost use Rattle.module_stream.specs.Codes.{AreAll, KeepsAlike};
ghost use Rattle.module_stream.specs.Done.{IsDone, Decides};
ghost use Rattle.module_stream.specs.Streaming.{IsGoing, MayGo};
ghost use Rattle.body_compiler.specs.BatchRows.{IsRowIf};
ghost use Rattle.many_streams.specs.Flows.{member_with, IsLent, IsWaiting};
ghost use Rattle.many_streams.specs.Intakes.{Goes};
ghost use Rattle.many_streams.specs.Members.{KeepsCodes, IsFed, FeedsOn, TakesOn, ResumesOn, IsMember, IsEnded, IsJudged, AreRowsOf, IsEach, IsEachChecked};

use crate::flow::Flow;
use crate::intake::Intake;
use body_compiler::Row;
use module_stream::{Built, Checked, Codes, Compilation, MAX_READ};
use result_cells::Cells;
use std::alloc::{AllocError, Global};
use wasm_defs::{FrontStop, Refusal};

/// What compiling one module comes to.
#[derive(Drop)]
pub enum Each {
    /// Its bytes are a module, and this is its image.
    Image(Built),
    /// They are none: this is the error of least offset.
    Refused(Refusal),
}

/// What validating one module comes to.
#[derive(Drop)]
pub enum EachChecked {
    /// Its bytes are a module.
    Valid(Checked),
    /// They are none: this is the error of least offset.
    Refused(Refusal),
}

/// A module that is open.
///
/// Where it waits, its bodies are kept from the first on, and what comes after them too, until they are validated with what workers
/// made of them:
///
/// ```text
/// before the bodies ---the code section's count, where it waits---> waits
///         ^                                                           |
///         +--------------- the bodies are validated ------------------+
/// ```
#[derive(Drop)]
pub struct Part {
    alloc: Global,
    pub compilation: Compilation,
    /// How many of its bytes were taken.
    pub fed: usize,
    /// Its bodies, while they are kept.
    pub intake: Option<Intake>,
}

/// What came of one module:
///
/// ```text
/// Open ---the module's end, where codes are kept-------> Image
///   |  ---the module's end, where they are counted-----> Valid
///   +-----an error that no further byte can mend-------> Refused
/// ```
///
/// A module whose bodies are kept stays open at its end, until these are validated. Of one that isn't open nothing is kept but what it
/// came to.
#[derive(Drop)]
pub enum Member {
    /// No error of it is known so far: how far it was compiled.
    Open(Part),
    /// It has ended, and this is its image.
    Image(Built),
    /// It has ended, and is a module.
    Valid(Checked),
    /// Its error of least offset, whatever follows.
    Refused(Refusal),
}

/// So many bytes, or all of them where there are fewer.
pub fn front_of(bytes: &[u8], most: usize) -> &[u8]
    ensures front { result.now ≡ take most bytes.now }
    ensures fit { All (λ b. b < 256) result.now }
{
    if bytes.len() < most {
        return bytes;
    }
    &bytes[..most]
}

/// No code so far. The codes will be kept, or they will only be counted.
fn no_codes(alloc: Global, keeps: bool) -> Codes
    ensures none { AreAll result [] }
    ensures kept { is_some result.kept ≡ keeps }
{
    if keeps {
        Codes::kept(alloc)
    } else {
        Codes::counted()
    }
}

impl Part {
    /// Takes the next bytes, and says what is wrong as soon as no further byte can mend it. Bodies are kept, where the module `waits`.
    fn feed(&mut self, piece: &[u8], waits: bool) -> Result<(), FrontStop>
        requires { (came : List ℕ) × IsFed came self.old }
        ensures fed { (came : List ℕ) → IsFed came self.old → FeedsOn (came ++ piece.now) result self.new }
        ensures kept { KeepsAlike self.old.compilation.codes self.new.compilation.codes }
    {
        let part = front_of(piece, MAX_READ - self.fed);
        match self.take(part, waits) {
            Ok(()) => {
                self.fed += part.len();
                Ok(())
            }
            Err(stop) => Err(stop),
        }
    }

    /// Takes bytes, all of which are looked at.
    fn take(&mut self, part: &[u8], waits: bool) -> Result<(), FrontStop>
        requires { (bytes more : List ℕ) × Goes bytes self.old.compilation self.old.intake (part.now ++ more) }
        ensures goes { (bytes more : List ℕ) → Goes bytes self.old.compilation self.old.intake (part.now ++ more) → TakesOn bytes result self.new more }
        ensures fed { self.new.fed ≡ self.old.fed }
        ensures kept { KeepsAlike self.old.compilation.codes self.new.compilation.codes }
    {
        match &mut self.intake {
            Some(intake) => match intake.feed(part) {
                Ok(()) => Ok(()),
                Err(_) => Err(FrontStop::NoMemory),
            },
            None => self.compile(part, waits),
        }
    }

    /// Takes bytes while no bodies are kept.
    fn compile(&mut self, part: &[u8], waits: bool) -> Result<(), FrontStop>
        requires none { self.old.intake ≡ None }
        requires may { MayGo self.old.compilation part.now }
        ensures goes { (bytes more : List ℕ) → IsGoing bytes self.old.compilation (part.now ++ more) → TakesOn bytes result self.new more }
        ensures fed { self.new.fed ≡ self.old.fed }
        ensures kept { KeepsAlike self.old.compilation.codes self.new.compilation.codes }
    {
        match self.compilation.feed(part, waits) {
            Ok(taken) => {
                if waits {
                    self.keep_bodies(&part[taken..])
                } else {
                    Ok(())
                }
            }
            Err(stop) => Err(stop),
        }
    }

    /// Where bodies come next, they are kept from now on.
    fn keep_bodies(&mut self, piece: &[u8]) -> Result<(), FrontStop>
        requires none { self.old.intake ≡ None }
        requires all { self.old.compilation.cutter ≡ None → piece.now ≡ [] }
        ensures goes { (bytes more : List ℕ) → IsGoing bytes self.old.compilation (piece.now ++ more) → TakesOn bytes result self.new more }
        ensures fed { self.new.fed ≡ self.old.fed }
        ensures kept { KeepsAlike self.old.compilation.codes self.new.compilation.codes }
    {
        let Some(cutter) = self.compilation.take_cutter() else {
            return Ok(());
        };
        let mut intake = Intake::new(self.alloc, cutter);
        match intake.feed(piece) {
            Ok(()) => {
                self.intake = Some(intake);
                Ok(())
            }
            Err(_) => Err(FrontStop::NoMemory),
        }
    }

    /// Validates the bodies that were kept, where there are any, with what workers made of them: the rows in the order of the batches,
    /// where they are at hand. Then the bytes after them are taken.
    fn resume(&mut self, cells: &Cells, rows: Vec<Option<Row>>) -> Result<(), FrontStop>
        requires may { (bytes more : List ℕ) × Goes bytes self.old.compilation self.old.intake more }
        requires rows { All (IsRowIf self.old.compilation.spaces cells.now) rows.items }
        ensures goes { (bytes more : List ℕ) → Goes bytes self.old.compilation self.old.intake more → ResumesOn bytes result self.new more }
        ensures fed { self.new.fed ≡ self.old.fed }
        ensures kept { KeepsAlike self.old.compilation.codes self.new.compilation.codes }
    {
        let Some(intake) = self.intake.take() else {
            return Ok(());
        };
        let Intake {
            alloc: _,
            cutter,
            kept,
            rest,
            error,
        } = intake;
        match self.compilation.judge_kept(cells, kept, rows) {
            Ok(()) => {}
            Err(stop) => return Err(stop),
        }
        if let Some(refusal) = error {
            return Err(FrontStop::Refused(refusal));
        }
        self.compilation.put_cutter(cutter);
        match self.compilation.feed(rest.as_slice(), false) {
            Ok(_) => Ok(()),
            Err(stop) => Err(stop),
        }
    }

    /// The module's bytes have ended, and no bodies are kept: judges what is left.
    fn finish(&mut self) -> Result<(), FrontStop>
        requires none { self.old.intake ≡ None }
        requires fed { (came : List ℕ) × IsFed came self.old }
        ensures decides { (came : List ℕ) → IsFed came self.old → Decides came result self.new.compilation }
        ensures kept { KeepsAlike self.old.compilation.codes self.new.compilation.codes }
    {
        self.compilation.finish()
    }

    /// What a module that is done comes to.
    fn answer(&mut self) -> Result<Member, AllocError>
        requires { (came : List ℕ) × IsDone came self.old.compilation }
        ensures { IfOk result (λ m. (keeps : Bool) (came : List ℕ) → IsDone came self.old.compilation → KeepsCodes keeps self.old.compilation
            → IsJudged keeps came m) }
    {
        if self.compilation.keeps_codes() {
            Ok(Member::Image(self.compilation.build()?))
        } else {
            Ok(Member::Valid(self.compilation.checked()))
        }
    }

    /// The module's bytes have ended, and no bodies are kept: what it comes to.
    fn end(&mut self) -> Result<Member, AllocError>
        requires none { self.old.intake ≡ None }
        requires fed { (came : List ℕ) × IsFed came self.old }
        ensures { IfOk result (λ m. (keeps : Bool) (came : List ℕ) → IsFed came self.old → KeepsCodes keeps self.old.compilation → IsJudged keeps came m) }
    {
        match self.finish() {
            Ok(()) => self.answer(),
            Err(FrontStop::Refused(refusal)) => Ok(Member::Refused(refusal)),
            Err(FrontStop::NoMemory) => Err(AllocError),
        }
    }

    /// The module's bytes have ended: what it comes to, with what workers made of the bodies that were kept.
    fn settle(&mut self, cells: &Cells, rows: Vec<Option<Row>>) -> Result<Member, AllocError>
        requires fed { (came : List ℕ) × IsFed came self.old }
        requires rows { All (IsRowIf self.old.compilation.spaces cells.now) rows.items }
        ensures { IfOk result (λ m. (keeps : Bool) (came : List ℕ) → IsFed came self.old → KeepsCodes keeps self.old.compilation → IsJudged keeps came m) }
    {
        match self.resume(cells, rows) {
            Ok(()) => self.end(),
            Err(FrontStop::Refused(refusal)) => Ok(Member::Refused(refusal)),
            Err(FrontStop::NoMemory) => Err(AllocError),
        }
    }
}

impl Member {
    /// Before the first byte. A batch closes where its bodies have `batch` bytes. Codes are kept or only counted.
    pub fn new(alloc: Global, batch: u32, keeps: bool) -> Member
        ensures { IsMember keeps [] result }
    {
        Member::Open(Part {
            alloc,
            compilation: Compilation::new(alloc, batch, no_codes(alloc, keeps)),
            fed: 0,
            intake: None,
        })
    }

    /// Takes the next bytes of a module that has not ended. Its bodies are kept, where it `waits`. Those of a module whose error is
    /// known are passed over.
    pub fn feed(&mut self, piece: &[u8], waits: bool) -> Result<(), AllocError>
        requires { (keeps : Bool) × (came : List ℕ) × IsMember keeps came self.old }
        ensures { OnOk result ((keeps : Bool) (came : List ℕ) → IsMember keeps came self.old → IsMember keeps (came ++ piece.now) self.new) }
    {
        match self {
            Member::Open(part) => match part.feed(piece, waits) {
                Ok(()) => Ok(()),
                Err(FrontStop::Refused(refusal)) => {
                    *self = Member::Refused(refusal);
                    Ok(())
                }
                Err(FrontStop::NoMemory) => Err(AllocError),
            },
            Member::Refused(_) => Ok(()),
            Member::Image(_) | Member::Valid(_) => unreachable!(),
        }
    }

    /// The module's bytes have ended: judges what is left, and keeps nothing but what the module comes to. One whose bodies are kept
    /// is judged later.
    pub fn end(&mut self) -> Result<(), AllocError>
        requires { (keeps : Bool) × (came : List ℕ) × IsMember keeps came self.old }
        ensures { OnOk result ((keeps : Bool) (came : List ℕ) → IsMember keeps came self.old → IsEnded keeps came self.new) }
    {
        match self {
            Member::Open(part) => {
                if part.intake.is_some() {
                    return Ok(());
                }
                let answer = part.end()?;
                *self = answer;
                Ok(())
            }
            Member::Refused(_) => Ok(()),
            Member::Image(_) | Member::Valid(_) => unreachable!(),
        }
    }

    /// How many batches of its bodies are closed and kept, where its bodies are kept or it isn't open.
    pub fn kept_batches(&self) -> Option<usize>
        ensures { IfSome result (λ _. IsWaiting self.now) }
    {
        match self {
            Member::Open(part) => match &part.intake {
                Some(intake) => Some(intake.kept.len()),
                None => None,
            },
            Member::Image(_) | Member::Valid(_) | Member::Refused(_) => Some(0),
        }
    }

    /// Takes out what came of a module whose bodies are kept, so that its compilation may be lent. None where it isn't open.
    pub fn take_flow(&mut self) -> Option<Flow>
        requires { IsWaiting self.old }
        ensures lent { IsLent self.new result }
        ensures whole { member_with self.new result ≡ self.old }
    {
        match self {
            Member::Open(part) => {
                let fed = part.fed;
                let intake = part.intake.take()?;
                Some(Flow { fed, intake })
            }
            Member::Image(_) | Member::Valid(_) | Member::Refused(_) => None,
        }
    }

    /// Puts back what came of a module while its compilation was lent, if anything may come of it.
    pub fn put_flow(&mut self, flow: Option<Flow>)
        ensures { self.new ≡ member_with self.old flow }
    {
        let Some(flow) = flow else {
            return;
        };
        match self {
            Member::Open(part) => {
                part.fed = flow.fed;
                part.intake = Some(flow.intake);
            }
            Member::Image(_) | Member::Valid(_) | Member::Refused(_) => {}
        }
    }

    /// Judges a module that has ended, with what workers made of its bodies that were kept: the rows in the order of the batches, where
    /// they are at hand.
    pub fn settle(self, cells: &Cells, rows: Vec<Option<Row>>) -> Result<Member, AllocError>
        requires ended { (keeps : Bool) × (came : List ℕ) × IsEnded keeps came self }
        requires rows { AreRowsOf cells.now rows.items self }
        ensures { IfOk result (λ m. (keeps : Bool) (came : List ℕ) → IsEnded keeps came self → IsJudged keeps came m) }
    {
        match self {
            Member::Open(part) => {
                let mut part = part;
                part.settle(cells, rows)
            }
            Member::Image(built) => Ok(Member::Image(built)),
            Member::Valid(checked) => Ok(Member::Valid(checked)),
            Member::Refused(refusal) => Ok(Member::Refused(refusal)),
        }
    }

    /// What compiling a module that has ended came to. Its codes were kept.
    pub fn into_each(self) -> Each
        requires { (came : List ℕ) × IsJudged true came self }
        ensures { (came : List ℕ) → IsJudged true came self → IsEach came result }
    {
        match self {
            Member::Image(built) => Each::Image(built),
            Member::Refused(refusal) => Each::Refused(refusal),
            Member::Open(_) | Member::Valid(_) => unreachable!(),
        }
    }

    /// What validating a module that has ended came to. Its codes were only counted.
    pub fn into_checked(self) -> EachChecked
        requires { (came : List ℕ) × IsJudged false came self }
        ensures { (came : List ℕ) → IsJudged false came self → IsEachChecked came result }
    {
        match self {
            Member::Valid(checked) => EachChecked::Valid(checked),
            Member::Refused(refusal) => EachChecked::Refused(refusal),
            Member::Open(_) | Member::Image(_) => unreachable!(),
        }
    }
}
