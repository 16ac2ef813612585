//! A body's code: its tokens are read one after the other, checked, and compiled.
//!
//! Each token goes through four calls, before the next one is read:
//!
//! ```text
//! byte, instruction    the opcode and its immediates           or malformed, unsupported, limit
//! Check::token         is it valid, reachable, at which height or malformed, invalid
//! note_token           where its traps are
//! take_step            its instruction words are appended; a block's end patches the jumps that wait for it
//! ```
//!
//! So `41 01 41 02 6A 0B` (`i32.const 1`, `i32.const 2`, `i32.add`, `end`) is gone over once: two constants go into the slots
//! of operands 0 and 1, and their sum into that of operand 0.
//!
//! The loop over the tokens is that of `token_loop.rs`, which counts words, too.

ghost use Rattle.std.specs.Prelude.{◌≡◌, ◌≢◌, ◌≤◌, false, Bool, ℕ, ◌+◌, ◌*◌, List, [], length, Ok, OnOk};
ghost use Rattle.wasm_defs.specs.Bodies.{instruction, Spelled as SpelledGiven};
ghost use Rattle.wasm_defs.specs.Fields.{Cursor as CursorGiven, Got, byte};
ghost use Rattle.wasm_defs.specs.Limits.{max_body};
ghost use Rattle.wasm_defs.specs.Typing.{Context as ContextGiven};
ghost use Rattle.wasm_defs.specs.declared.token.Token.{Token as TokenGiven};
ghost use Rattle.frame_layout.specs.Slots.{link};
ghost use Rattle.wasm_laws.specs.Immediates.{TokenIsInRange};
ghost use Rattle.wasm_laws.specs.Sections.{AreBytes};
ghost use Rattle.body_validator.specs.Checks.{Checked as CheckedGiven, Answered, IsAnswered, IsPlaced, IsReached};
ghost use Rattle.body_compiler.specs.Steps.{max_link, max_lift, AreTied};
ghost use Rattle.body_compiler.specs.Going.{Beginning, IsCompiling, IsTaking, calling, going_of, Goes, Judges, reading_stop};
ghost use Rattle.control_emit.specs.Emits.{draft as drafted, IsHeld};

use crate::function_builder::{FunctionBuilder, take_step};
use crate::noting::note_token;
use crate::token_loop::{ReadContext, TokenSink, read_code};
use body_validator::{Check, Step, TokenStop};
use leb_feed::{Fields, Stop};
use rv_isa::TrapSite;
use std::alloc::Global;
use thiserror::Error;
use wasm_defs::{Kind, Plain, Refusal, Token};

/// Why a body isn't compiled.
#[derive(Clone, Copy, Debug, PartialEq, Eq, Error)]
pub enum BodyStop {
    /// Its first error.
    #[error("{:?} at byte {}", .0.kind, .0.offset)]
    Refused(Refusal),
    /// It is valid, but the instruction words of its function are more than a text may have. Not all of them were made.
    #[error("more words than a text may have")]
    TooLong,
    /// Out of memory.
    #[error("out of memory")]
    NoMemory,
}

pub(crate) fn malformed(offset: u64) -> Refusal
    ensures { result ≡ record { offset = offset; kind = Kind.Malformed } }
{
    Refusal {
        offset,
        kind: Kind::Malformed,
    }
}

/// Why a body's reading stops.
#[inline(always)]
pub(crate) fn stop_of(stop: &Stop, last: u64) -> BodyStop
    ensures { result ≡ reading_stop last stop.now }
{
    match stop {
        Stop::Refused(refusal) => BodyStop::Refused(*refusal),
        // Why: docs/DECISIONS.md, "Whole instructions are validated before a missing `end`"
        Stop::Wants => BodyStop::Refused(malformed(last)),
        Stop::NoMemory => BodyStop::NoMemory,
    }
}

/// A body's draft.
#[derive(Drop)]
pub struct BodyBuilder {
    pub function: FunctionBuilder,
    pub sites: Vec<TrapSite>,
}

/// Takes a token that was checked: where its traps are, and its instruction words.
#[inline(always)]
fn take_checked(
    check: &Check<'_>,
    draft: &mut BodyBuilder,
    at: u64,
    step: &Step,
    token: &Token,
) -> Result<(), BodyStop>
    requires held { IsHeld (drafted draft.old.function.labels draft.old.function.words) }
    requires range { TokenIsInRange token.now }
    requires taken { (old : CheckedGiven) × (left : ℕ) × AreTied draft.old.function.labels old (left + 1) × (old.checker.frames ≢ [])
        × Answered at token.now (Ok step.now) old check.now }
    requires slots { link draft.old.function.layout ≤ max_link }
    ensures layout { draft.new.function.layout ≡ draft.old.function.layout }
    ensures rows { draft.new.function.rows ≡ draft.old.function.rows }
    ensures held { OnOk result (IsHeld (drafted draft.new.function.labels draft.new.function.words)) }
    ensures grows { OnOk result (length draft.old.function.words ≤ length draft.new.function.words) }
    ensures tied { (old : CheckedGiven) (left later : ℕ) → AreTied draft.old.function.labels old (left + 1) → later ≤ left
        → Answered at token.now (Ok step.now) old check.now → OnOk result (AreTied draft.new.function.labels check.now later) }
    ensures goes { (counted : Bool) (c : ContextGiven) (last b : ℕ) (code : SpelledGiven) (before mid after : CursorGiven) (front : List ℕ) (old : CheckedGiven)
        → Answered at token.now (Ok step.now) old check.now
        → ((tokens : List TokenGiven) → IsReached tokens old
        → IsAnswered tokens token.now (Ok step.now) old check.now × IsPlaced old.context tokens token.now (Ok step.now))
        → IsTaking counted draft.old.function.too_long c last before old code draft.old.function.layout front
        (calling draft.old.function.labels draft.old.function.words draft.old.function.calls.items draft.old.function.rows draft.old.sites.items)
        → byte before ≡ Got (at, b) mid → (old.checker.frames ≢ []) → instruction counted at b mid ≡ Got token.now after
        → Goes counted c last code draft.old.function.layout front result draft.new.function.too_long after check.now
        (calling draft.new.function.labels draft.new.function.words draft.new.function.calls.items draft.new.function.rows draft.new.sites.items) }
{
    match note_token(
        &mut draft.sites,
        draft.function.words(),
        step.live,
        at,
        token,
    ) {
        Ok(()) => {}
        Err(_) => return Err(BodyStop::NoMemory),
    }
    match take_step(&mut draft.function, check.context(), step, token) {
        Ok(()) => Ok(()),
        Err(_) => Err(BodyStop::NoMemory),
    }
}

impl TokenSink for BodyBuilder {
    ghost Front = { Beginning };

    ghost Tracks = { λ counted c last cursor check code front d. (d.function.layout ≡ front.layout) × (d.function.rows ≡ front.rows)
        × IsTaking counted d.function.too_long c last cursor check code front.layout front.words
        (calling d.function.labels d.function.words d.function.calls.items d.function.rows d.sites.items) };

    ghost going = { λ counted c last cursor check code front d k. going_of counted d.function.too_long c last cursor check code front.layout front.words
        (calling d.function.labels d.function.words d.function.calls.items d.function.rows d.sites.items) k.2 };

    ghost Fits = { λ check left d. AreTied d.function.labels check left × IsHeld (drafted d.function.labels d.function.words)
        × (link d.function.layout ≤ max_link) × (5 ≤ length d.function.words) };

    #[inline(never)]
    fn take_read(&mut self, check: &mut Check<'_>, at: u64, token: &Token) -> Result<(), BodyStop> {
        match check.token(at, token) {
            Ok(step) => take_checked(check, self, at, &step, token),
            Err(TokenStop::Refused(refusal)) => Err(BodyStop::Refused(refusal)),
            Err(TokenStop::NoMemory) => Err(BodyStop::NoMemory),
        }
    }

    #[inline(always)]
    fn take_plain_read(
        &mut self,
        check: &mut Check<'_>,
        at: u64,
        plain: Plain,
    ) -> Result<(), BodyStop> {
        self.take_read(check, at, &Token::Plain(plain))
    }

    #[inline(always)]
    fn take_common(
        &mut self,
        check: &mut Check<'_>,
        at: u64,
        plain: Plain,
    ) -> Result<(), BodyStop> {
        match check.common(at, &plain) {
            Some(Ok(step)) => take_checked(check, self, at, &step, &Token::Plain(plain)),
            Some(Err(TokenStop::Refused(refusal))) => Err(BodyStop::Refused(refusal)),
            Some(Err(TokenStop::NoMemory)) => Err(BodyStop::NoMemory),
            None => self.take_plain_read(check, at, plain),
        }
    }
}

/// Reads, checks and compiles the code of a body to its end.
pub fn judge_code(
    fields: &mut Fields<'_>,
    check: &mut Check<'_>,
    draft: &mut BodyBuilder,
    reading: ReadContext,
) -> Result<(), BodyStop>
    requires held { IsHeld (drafted draft.old.function.labels draft.old.function.words) }
    requires bytes { AreBytes fields.old.rest }
    requires tied { AreTied draft.old.function.labels check.old (length fields.old.rest) }
    requires slots { link draft.old.function.layout ≤ max_link }
    requires room { 5 ≤ length draft.old.function.words }
    requires short { draft.old.function.too_long ≡ false }
    ensures over { OnOk result (check.new.checker.frames ≡ []) }
    ensures most { OnOk result (check.new.checker.greatest ≤ max_lift * max_body) }
    ensures slots { OnOk result (link draft.new.function.layout ≤ max_link) }
    ensures room { OnOk result (5 ≤ length draft.new.function.words) }
    ensures judges { (c : ContextGiven) (code : SpelledGiven) (front : List ℕ)
        → IsCompiling reading.counted c reading.last fields.old check.old code draft.old.function.layout front
        (calling draft.old.function.labels draft.old.function.words draft.old.function.calls.items draft.old.function.rows draft.old.sites.items)
        → OnOk result (draft.new.function.layout ≡ draft.old.function.layout) × Judges c code draft.old.function.layout front result check.new
        (calling draft.new.function.labels draft.new.function.words draft.new.function.calls.items draft.old.function.rows draft.new.sites.items) }
{
    match read_code(fields, check, draft, reading) {
        Ok(()) => {
            // Why: docs/DECISIONS.md, "Of a body that no text has room for not all words are made"
            if draft.function.is_too_long() {
                return Err(BodyStop::TooLong);
            }
            Ok(())
        }
        Err(stop) => Err(stop),
    }
}
