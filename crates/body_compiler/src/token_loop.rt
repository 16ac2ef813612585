//! The loop over a body's tokens, which are compiled or counted: a [`TokenSink`] says what is done with one.
//!
//! What comes often has an arm of its own, by its opcode (`take_instruction`). There the immediate is read, and `Check::common` checks the
//! instruction in the place of `Check::token`.

ghost use Rattle.std.specs.Prelude.{◌≡◌, ◌≢◌, ◌≤◌, Bool, ℕ, ◌+◌, [], length, OnOk, IfErr};
ghost use Rattle.wasm_defs.specs.Bodies.{instruction, with_index, with_mem_arg, constant, Spelled as SpelledGiven};
ghost use Rattle.wasm_defs.specs.Fields.{Cursor as CursorGiven, Got, byte};
ghost use Rattle.wasm_defs.specs.Typing.{Context as ContextGiven};
ghost use Rattle.wasm_defs.specs.declared.token.Token.TheVariants.{Plain as PlainGiven};
ghost use Rattle.wasm_laws.specs.Immediates.{TokenIsInRange};
ghost use Rattle.wasm_laws.specs.Sections.{AreBytes};
ghost use Rattle.body_validator.specs.Checks.{Checked as CheckedGiven};
ghost use Rattle.body_compiler.specs.Going.{IsGoing, StopsReading};
ghost use Rattle.body_compiler.specs.Indexed.{indexed, closing};

use crate::code::{BodyStop, malformed, stop_of};
use crate::immediates::{accessed_place, named_index, value};
use crate::instructions::{access_of, instruction, operation_of};
use body_validator::Check;
use leb_feed::Fields;
use std::alloc::Global;
use wasm_defs::{Access, Plain, Token, ValType};

/// What is done with the tokens of a body, one after the other.
pub trait TokenSink {
    /// What stands before the first of them.
    ghost Front: { Type 0 };

    /// What was read of a body's code is right, and leads to what it has.
    ghost Tracks: { Bool → ContextGiven → ℕ → CursorGiven → CheckedGiven → SpelledGiven → Front → Self → Type 0 };

    ghost going: { (counted : Bool) (c : ContextGiven) (last : ℕ) (cursor : CursorGiven) (check : CheckedGiven) (code : SpelledGiven) (front : Front)
        (sink : Self) → Tracks counted c last cursor check code front sink → IsGoing counted c last cursor check code };

    /// It is of the blocks that a check has open, where at most so many bytes follow.
    ghost Fits: { CheckedGiven → ℕ → Self → Type 0 };

    /// Checks a token that was read at an offset, and takes it.
    fn take_read(&mut self, check: &mut Check<'_>, at: u64, token: &Token) -> Result<(), BodyStop>
        requires range { TokenIsInRange token.now }
        requires fits { (left : ℕ) × Fits check.old (left + 1) self.old }
        requires more { check.old.checker.frames ≢ [] }
        ensures fits { (left later : ℕ) → Fits check.old (left + 1) self.old → later ≤ left → OnOk result (Fits check.new later self.new) }
        ensures goes { (counted : Bool) (c : ContextGiven) (last b : ℕ) (code : SpelledGiven) (before mid after : CursorGiven) (front : Front)
            → Tracks counted c last before check.old code front self.old → byte before ≡ Got (at, b) mid → instruction counted at b mid ≡ Got token.now after
            → OnOk result (Tracks counted c last after check.new code front self.new) × IfErr result (StopsReading c code) };

    /// Checks and takes a plain instruction that was read at an offset (`take_read`). The call has a function of its own, as in
    /// `take_closing`.
    fn take_plain_read(
        &mut self,
        check: &mut Check<'_>,
        at: u64,
        plain: Plain,
    ) -> Result<(), BodyStop>
        requires range { TokenIsInRange (PlainGiven plain) }
        requires fits { (left : ℕ) × Fits check.old (left + 1) self.old }
        requires more { check.old.checker.frames ≢ [] }
        ensures fits { (left later : ℕ) → Fits check.old (left + 1) self.old → later ≤ left → OnOk result (Fits check.new later self.new) }
        ensures goes { (counted : Bool) (c : ContextGiven) (last b : ℕ) (code : SpelledGiven) (before mid after : CursorGiven) (front : Front)
            → Tracks counted c last before check.old code front self.old → byte before ≡ Got (at, b) mid
            → instruction counted at b mid ≡ Got (PlainGiven plain) after
            → OnOk result (Tracks counted c last after check.new code front self.new) × IfErr result (StopsReading c code) };

    /// Does as `take_read` does with one of the commonest instructions.
    fn take_common(&mut self, check: &mut Check<'_>, at: u64, plain: Plain) -> Result<(), BodyStop>
        requires range { TokenIsInRange (PlainGiven plain) }
        requires fits { (left : ℕ) × Fits check.old (left + 1) self.old }
        requires more { check.old.checker.frames ≢ [] }
        ensures fits { (left later : ℕ) → Fits check.old (left + 1) self.old → later ≤ left → OnOk result (Fits check.new later self.new) }
        ensures goes { (counted : Bool) (c : ContextGiven) (last b : ℕ) (code : SpelledGiven) (before mid after : CursorGiven) (front : Front)
            → Tracks counted c last before check.old code front self.old → byte before ≡ Got (at, b) mid
            → instruction counted at b mid ≡ Got (PlainGiven plain) after
            → OnOk result (Tracks counted c last after check.new code front self.new) × IfErr result (StopsReading c code) };
}

/// What reading an instruction asks for, besides its bytes: where memory comes from, whether the module counts its data segments, and the
/// offset of the body's last byte.
#[derive(Clone, Copy)]
pub struct ReadContext {
    pub alloc: Global,
    pub counted: bool,
    pub last: u64,
}

/// An instruction that comes often and has one index: of a label, a local or a global.
#[derive(Clone, Copy)]
enum Indexed {
    BrIf,
    LocalGet,
    LocalSet,
    LocalTee,
    GlobalGet,
    GlobalSet,
}

impl Indexed {
    /// The instruction with an index.
    #[inline(always)]
    fn with(self, x: u32) -> Plain
        ensures { result ≡ indexed self x }
    {
        match self {
            Indexed::BrIf => Plain::BrIf(x),
            Indexed::LocalGet => Plain::LocalGet(x),
            Indexed::LocalSet => Plain::LocalSet(x),
            Indexed::LocalTee => Plain::LocalTee(x),
            Indexed::GlobalGet => Plain::GlobalGet(x),
            Indexed::GlobalSet => Plain::GlobalSet(x),
        }
    }
}

/// A token that ends a part of a block.
#[derive(Clone, Copy)]
enum Closing {
    Else,
    End,
}

impl Closing {
    /// It as a token.
    fn token(self) -> Token
        ensures { result ≡ closing self }
    {
        match self {
            Closing::Else => Token::Else,
            Closing::End => Token::End,
        }
    }
}

/// Checks and takes an `else` or an `end` that was read at an offset. The call has a function of its own, since a function zeroes the
/// room of its calls' arguments and results when it begins: so that is only done where the call is made.
#[inline(always)]
fn take_closing<T: TokenSink>(
    check: &mut Check<'_>,
    sink: &mut T,
    at: u64,
    token: Closing,
) -> Result<(), BodyStop>
    requires fits { (left : ℕ) × T.Fits check.old (left + 1) sink.old }
    requires more { check.old.checker.frames ≢ [] }
    ensures fits { (left later : ℕ) → T.Fits check.old (left + 1) sink.old → later ≤ left → OnOk result (T.Fits check.new later sink.new) }
    ensures goes { (counted : Bool) (c : ContextGiven) (last b : ℕ) (code : SpelledGiven) (before mid after : CursorGiven) (front : T.Front)
        → T.Tracks counted c last before check.old code front sink.old → byte before ≡ Got (at, b) mid
        → instruction counted at b mid ≡ Got (closing token) after
        → OnOk result (T.Tracks counted c last after check.new code front sink.new) × IfErr result (StopsReading c code) }
{
    sink.take_read(check, at, &token.token())
}

/// Reads, checks and takes an instruction with an index, whose opcode was read at an offset.
#[inline(always)]
fn take_indexed<T: TokenSink>(
    fields: &mut Fields<'_>,
    check: &mut Check<'_>,
    sink: &mut T,
    last: u64,
    at: u64,
    named: Indexed,
) -> Result<(), BodyStop>
    requires bytes { AreBytes fields.old.rest }
    requires fits { T.Fits check.old (length fields.old.rest + 1) sink.old }
    requires more { check.old.checker.frames ≢ [] }
    requires reads { (counted : Bool) × (b : ℕ) × (instruction counted at b fields.old ≡ with_index (indexed named) fields.old) }
    ensures shrinks { OnOk result (length fields.new.rest ≤ length fields.old.rest) }
    ensures bytes { OnOk result (AreBytes fields.new.rest) }
    ensures fits { OnOk result (T.Fits check.new (length fields.new.rest) sink.new) }
    ensures goes { (counted : Bool) (c : ContextGiven) (b : ℕ) (code : SpelledGiven) (before : CursorGiven) (front : T.Front)
        → T.Tracks counted c last before check.old code front sink.old → byte before ≡ Got (at, b) fields.old
        → instruction counted at b fields.old ≡ with_index (indexed named) fields.old
        → OnOk result (T.Tracks counted c last fields.new check.new code front sink.new) × IfErr result (StopsReading c code) }
{
    match named_index(fields) {
        Ok(x) => sink.take_common(check, at, named.with(x)),
        Err(stop) => Err(stop_of(&stop, last)),
    }
}

/// Reads, checks and takes a load or a store, whose opcode was read at an offset.
#[inline(always)]
fn take_access<T: TokenSink>(
    fields: &mut Fields<'_>,
    check: &mut Check<'_>,
    sink: &mut T,
    last: u64,
    at: u64,
    access: Access,
) -> Result<(), BodyStop>
    requires bytes { AreBytes fields.old.rest }
    requires fits { T.Fits check.old (length fields.old.rest + 1) sink.old }
    requires more { check.old.checker.frames ≢ [] }
    requires reads { (counted : Bool) × (b : ℕ) × (instruction counted at b fields.old ≡ with_mem_arg access fields.old) }
    ensures shrinks { OnOk result (length fields.new.rest ≤ length fields.old.rest) }
    ensures bytes { OnOk result (AreBytes fields.new.rest) }
    ensures fits { OnOk result (T.Fits check.new (length fields.new.rest) sink.new) }
    ensures goes { (counted : Bool) (c : ContextGiven) (b : ℕ) (code : SpelledGiven) (before : CursorGiven) (front : T.Front)
        → T.Tracks counted c last before check.old code front sink.old → byte before ≡ Got (at, b) fields.old
        → instruction counted at b fields.old ≡ with_mem_arg access fields.old
        → OnOk result (T.Tracks counted c last fields.new check.new code front sink.new) × IfErr result (StopsReading c code) }
{
    match accessed_place(fields) {
        Ok(place) => match access {
            Access::Load(op) => sink.take_common(check, at, Plain::Load(op, place)),
            Access::Store(op) => sink.take_common(check, at, Plain::Store(op, place)),
        },
        Err(stop) => Err(stop_of(&stop, last)),
    }
}

/// Reads, checks and takes a constant of a type, whose opcode was read at an offset.
#[inline(always)]
fn take_constant<T: TokenSink>(
    fields: &mut Fields<'_>,
    check: &mut Check<'_>,
    sink: &mut T,
    last: u64,
    at: u64,
    ty: ValType,
) -> Result<(), BodyStop>
    requires bytes { AreBytes fields.old.rest }
    requires fits { T.Fits check.old (length fields.old.rest + 1) sink.old }
    requires more { check.old.checker.frames ≢ [] }
    requires reads { (counted : Bool) × (b : ℕ) × (instruction counted at b fields.old ≡ constant ty fields.old) }
    ensures shrinks { OnOk result (length fields.new.rest ≤ length fields.old.rest) }
    ensures bytes { OnOk result (AreBytes fields.new.rest) }
    ensures fits { OnOk result (T.Fits check.new (length fields.new.rest) sink.new) }
    ensures goes { (counted : Bool) (c : ContextGiven) (b : ℕ) (code : SpelledGiven) (before : CursorGiven) (front : T.Front)
        → T.Tracks counted c last before check.old code front sink.old → byte before ≡ Got (at, b) fields.old
        → instruction counted at b fields.old ≡ constant ty fields.old
        → OnOk result (T.Tracks counted c last fields.new check.new code front sink.new) × IfErr result (StopsReading c code) }
{
    match value(fields, ty) {
        Ok(n) => sink.take_common(check, at, Plain::Const(ty, n)),
        Err(stop) => Err(stop_of(&stop, last)),
    }
}

/// Reads, checks and takes the instruction of any opcode, which was read at an offset.
#[inline(never)]
fn take_other<T: TokenSink>(
    fields: &mut Fields<'_>,
    check: &mut Check<'_>,
    sink: &mut T,
    reading: ReadContext,
    at: u64,
    opcode: u8,
) -> Result<(), BodyStop>
    requires bytes { AreBytes fields.old.rest }
    requires fits { T.Fits check.old (length fields.old.rest + 1) sink.old }
    requires more { check.old.checker.frames ≢ [] }
    ensures shrinks { OnOk result (length fields.new.rest ≤ length fields.old.rest) }
    ensures bytes { OnOk result (AreBytes fields.new.rest) }
    ensures fits { OnOk result (T.Fits check.new (length fields.new.rest) sink.new) }
    ensures goes { (c : ContextGiven) (code : SpelledGiven) (before : CursorGiven) (front : T.Front)
        → T.Tracks reading.counted c reading.last before check.old code front sink.old → byte before ≡ Got (at, opcode) fields.old
        → OnOk result (T.Tracks reading.counted c reading.last fields.new check.new code front sink.new) × IfErr result (StopsReading c code) }
{
    match instruction(fields, reading.alloc, reading.counted, at, opcode) {
        Ok(token) => sink.take_read(check, at, &token),
        Err(stop) => Err(stop_of(&stop, reading.last)),
    }
}

/// Reads, checks and takes any other instruction (`take_other`). The call has a function of its own, as in `take_closing`.
#[inline(always)]
fn take_other_apart<T: TokenSink>(
    fields: &mut Fields<'_>,
    check: &mut Check<'_>,
    sink: &mut T,
    reading: ReadContext,
    at: u64,
    opcode: u8,
) -> Result<(), BodyStop>
    requires bytes { AreBytes fields.old.rest }
    requires fits { T.Fits check.old (length fields.old.rest + 1) sink.old }
    requires more { check.old.checker.frames ≢ [] }
    ensures shrinks { OnOk result (length fields.new.rest ≤ length fields.old.rest) }
    ensures bytes { OnOk result (AreBytes fields.new.rest) }
    ensures fits { OnOk result (T.Fits check.new (length fields.new.rest) sink.new) }
    ensures goes { (c : ContextGiven) (code : SpelledGiven) (before : CursorGiven) (front : T.Front)
        → T.Tracks reading.counted c reading.last before check.old code front sink.old → byte before ≡ Got (at, opcode) fields.old
        → OnOk result (T.Tracks reading.counted c reading.last fields.new check.new code front sink.new) × IfErr result (StopsReading c code) }
{
    take_other(fields, check, sink, reading, at, opcode)
}

/// Reads, checks and takes the instruction of an opcode, which was read at an offset.
#[inline(always)]
fn take_instruction<T: TokenSink>(
    fields: &mut Fields<'_>,
    check: &mut Check<'_>,
    sink: &mut T,
    reading: ReadContext,
    at: u64,
    opcode: u8,
) -> Result<(), BodyStop>
    requires bytes { AreBytes fields.old.rest }
    requires fits { T.Fits check.old (length fields.old.rest + 1) sink.old }
    requires more { check.old.checker.frames ≢ [] }
    ensures shrinks { OnOk result (length fields.new.rest ≤ length fields.old.rest) }
    ensures bytes { OnOk result (AreBytes fields.new.rest) }
    ensures fits { OnOk result (T.Fits check.new (length fields.new.rest) sink.new) }
    ensures goes { (c : ContextGiven) (code : SpelledGiven) (before : CursorGiven) (front : T.Front)
        → T.Tracks reading.counted c reading.last before check.old code front sink.old → byte before ≡ Got (at, opcode) fields.old
        → OnOk result (T.Tracks reading.counted c reading.last fields.new check.new code front sink.new) × IfErr result (StopsReading c code) }
{
    // an arm for each opcode that is common: its immediate is read without the general reader, whose token would be copied
    match opcode {
        0x05 => take_closing(check, sink, at, Closing::Else),
        0x0B => take_closing(check, sink, at, Closing::End),
        0x0D => take_indexed(fields, check, sink, reading.last, at, Indexed::BrIf),
        0x20 => take_indexed(fields, check, sink, reading.last, at, Indexed::LocalGet),
        0x21 => take_indexed(fields, check, sink, reading.last, at, Indexed::LocalSet),
        0x22 => take_indexed(fields, check, sink, reading.last, at, Indexed::LocalTee),
        0x23 => take_indexed(fields, check, sink, reading.last, at, Indexed::GlobalGet),
        0x24 => take_indexed(fields, check, sink, reading.last, at, Indexed::GlobalSet),
        0x41 => take_constant(fields, check, sink, reading.last, at, ValType::I32),
        0x42 => take_constant(fields, check, sink, reading.last, at, ValType::I64),
        0x28..=0x3E => match access_of(opcode) {
            Some(access) => take_access(fields, check, sink, reading.last, at, access),
            None => take_other_apart(fields, check, sink, reading, at, opcode),
        },
        0x45..=0xC4 => match operation_of(opcode) {
            Some(op) => sink.take_common(check, at, Plain::Numeric(op)),
            None => take_other_apart(fields, check, sink, reading, at, opcode),
        },
        _ => take_other_apart(fields, check, sink, reading, at, opcode),
    }
}

/// Reads, checks and takes the code of a body to its end.
#[inline(always)]
pub fn read_code<T: TokenSink>(
    fields: &mut Fields<'_>,
    check: &mut Check<'_>,
    sink: &mut T,
    reading: ReadContext,
) -> Result<(), BodyStop>
    requires bytes { AreBytes fields.old.rest }
    requires fits { T.Fits check.old (length fields.old.rest) sink.old }
    ensures over { OnOk result (check.new.checker.frames ≡ []) }
    ensures fits { OnOk result (T.Fits check.new 0 sink.new) }
    ensures goes { (c : ContextGiven) (code : SpelledGiven) (front : T.Front)
        → T.Tracks reading.counted c reading.last fields.old check.old code front sink.old
        → OnOk result (T.Tracks reading.counted c reading.last fields.new check.new code front sink.new × (fields.new.rest ≡ []))
        × IfErr result (StopsReading c code) }
{
    while !check.is_over() {
        match fields.byte() {
            Ok((at, opcode)) => {
                match take_instruction(fields, check, sink, reading, at, opcode) {
                    Ok(()) => {}
                    Err(stop) => return Err(stop),
                }
            }
            Err(stop) => return Err(stop_of(&stop, reading.last)),
        }
    }
    if !fields.rest().is_empty() {
        return Err(BodyStop::Refused(malformed(fields.offset())));
    }
    Ok(())
}
