//! How many instruction words a body's function has, without making them: where codes are only counted, nothing else is asked of
//! them.
//!
//! A token is read and checked as where the body is compiled. Then its words are counted, which depend on no index and no
//! address: only a branch has more of them for each value that it takes along.

ghost use Rattle.std.specs.Prelude.{◌≡◌, ◌≤◌, ◌<◌, ◌+◌, ◌*◌, ◌^◌, true, false, ℕ, [], ◌∷◌, Some, None, IsSome, is_some, length};
ghost use Rattle.std.specs.Prelude.{drop, reverse, slice_index_or, IfOk, OnOk};
ghost use Rattle.wasm_defs.specs.Bodies.{body_read, instruction, Spelled as SpelledGiven};
ghost use Rattle.wasm_defs.specs.Instances.{first_minimum};
ghost use Rattle.wasm_defs.specs.Limits.{max_body};
ghost use Rattle.wasm_defs.specs.SmallTypes.{TypeIsSmall};
ghost use Rattle.wasm_defs.specs.declared.token.Token.TheVariants.{Else, Plain as PlainGiven};
ghost use Rattle.wasm_defs.specs.Typing.{Context as ContextGiven, function_type};
ghost use Rattle.index_spaces.specs.Spaces.{context_in};
ghost use Rattle.frame_layout.specs.Templates.{Declarations, EmitContext, words};
ghost use Rattle.frame_layout.proofs.Sizes.{jump_count, front_count, unless_count};
ghost use Rattle.control_emit.specs.Pending.{AreBelow};
ghost use Rattle.body_validator.specs.Checking.{guarded, start_checker};
ghost use Rattle.body_compiler.specs.Counting.{jump_sum, word_count, labels_of, after_token, CountsToken, IsCounting, IsCountingOn, CountsCode};
ghost use Rattle.body_compiler.specs.Counting.{AreCounted, going_of, opening, test_size, Sizes, Measures};
ghost use Rattle.wasm_laws.specs.Sections.{AreBytes};
ghost use Rattle.body_compiler.specs.Going.{IsGoing};
ghost use Rattle.body_compiler.specs.Steps.{branches_plain, FunctionsAreSmall, NamesPlain, NamesOpen, TypesLiftFew};

use crate::code::BodyStop;
use crate::opened::{OpenedBody, open_body};
use crate::scratch::Scratch;
use crate::steps::{params_of, results_of};
use crate::token_loop::{ReadContext, TokenSink, read_code};
use crate::word_counts::{frame_words, plain_words};
use body_validator::{Check, TokenStop};
use index_spaces::Context;
use leb_feed::Fields;
use std::alloc::AllocError;
use std::mem::replace;
use wasm_defs::{FuncType, MAX_TEXT, Plain, Token};

/// Those of a jump that takes so many values along.
fn jump_words(takes: u32) -> u128
    ensures { result ≡ jump_count takes }
{
    2 + 6 * u128::from(takes)
}

/// Those that pass such a jump where the condition is zero.
fn unless_words(takes: u32) -> u128
    ensures { result ≡ unless_count takes }
{
    if takes <= 170 { 1 } else { 3 }
}

/// Those before the jumps of a table, the last of which takes so many values along.
fn front_words(takes: u32) -> u128
    ensures { result ≡ front_count takes }
{
    match takes {
        0 | 1 => 16,
        _ => 21,
    }
}

/// How many values a branch to a label takes along, where those of all open labels are given, the outermost first.
fn takes_of(takes: &[u32], label: u32) -> u32
    requires { label < length takes.now }
    ensures { result ≡ slice_index_or (reverse takes.now) label 0 }
{
    takes[takes.len() - 1 - label as usize]
}

/// Those of the jumps of a table, but the last.
fn table_words(takes: &[u32], labels: &[u32]) -> u128
    requires { AreBelow (length takes.now) labels.now }
    ensures words { result ≡ jump_sum (reverse takes.now) labels.now }
    ensures few { result < 2 ^ 120 }
{
    let mut count = 0;
    for label in labels {
        count += jump_words(takes_of(takes, *label));
    }
    count
}

/// Those of a branch, or of `return`.
#[inline(never)]
fn branch_words(takes: &[u32], plain: &Plain) -> u128
    requires branches { branches_plain plain.now ≡ true }
    requires some { 0 < length takes.now }
    requires names { NamesPlain (length takes.now) plain.now }
    ensures { (w : EmitContext) (d : Declarations) (h : ℕ) → result ≡ length (words w d (labels_of (reverse takes.now)) h 0 plain.now) }
{
    match plain {
        Plain::Br(label) => jump_words(takes_of(takes, *label)),
        Plain::BrIf(label) => {
            let takes = takes_of(takes, *label);
            3 + unless_words(takes) + jump_words(takes)
        }
        Plain::BrTable(all, last) => {
            let last = takes_of(takes, *last);
            front_words(last) + table_words(takes, all.as_slice()) + jump_words(last)
        }
        Plain::Return => jump_words(takes[0]),
        _ => unreachable!(),
    }
}

/// How many instruction words a function has so far, where its words are only counted.
#[derive(Drop)]
struct WordCounter {
    // how many values a branch to each open label takes along, the outermost first
    takes: Vec<u32>,
    // those that are counted, at most a text's
    words: u32,
    // whether there are more than a text may have: then no more are counted
    too_long: bool,
}

impl WordCounter {
    /// A function with so many results, of which so many words are counted already.
    fn new(mut takes: Vec<u32>, words: u32, results: u32) -> Result<WordCounter, AllocError>
        ensures { IfOk result (λ n. (n.takes.items ≡ results ∷ []) × (n.words ≡ words) × (n.too_long ≡ false)) }
    {
        takes.clear();
        takes.push(results)?;
        Ok(WordCounter {
            takes,
            words,
            too_long: false,
        })
    }

    /// So many words more, which are those of one branch.
    fn add(&mut self, more: u128)
        requires short { self.old.too_long ≡ false }
        ensures takes { self.new.takes.items ≡ self.old.takes.items }
        ensures counts { CountsToken false self.new.too_long (word_count self.new.takes.items self.new.words)
            (word_count self.old.takes.items (self.old.words + more)) }
    {
        let words = u128::from(self.words).saturating_add(more);
        if u128::from(MAX_TEXT) / 4 < words {
            self.too_long = true;
        } else {
            self.words = words as u32;
        }
    }

    /// So many words more, which are those of one instruction without labels.
    #[inline(always)]
    fn add_few(&mut self, more: u32)
        requires short { self.old.too_long ≡ false }
        ensures takes { self.new.takes.items ≡ self.old.takes.items }
        ensures counts { CountsToken false self.new.too_long (word_count self.new.takes.items self.new.words)
            (word_count self.old.takes.items (self.old.words + more)) }
    {
        let words = u64::from(self.words) + u64::from(more);
        if u64::from(MAX_TEXT) / 4 < words {
            self.too_long = true;
        } else {
            self.words = words as u32;
        }
    }

    /// Opens a label to which branches take so many values along.
    fn open(&mut self, takes: u32) -> Result<(), AllocError>
        ensures { OnOk result ((self.new.too_long ≡ self.old.too_long) × (word_count self.new.takes.items self.new.words
            ≡ opening takes 0 (word_count self.old.takes.items self.old.words))) }
    {
        self.takes.push(takes)?;
        Ok(())
    }

    /// Opens the label of an `if` at a point that is reachable or not, and counts the words of its condition.
    fn open_if(&mut self, takes: u32, live: bool) -> Result<(), AllocError>
        requires short { self.old.too_long ≡ false }
        ensures { (height : ℕ) → OnOk result (CountsToken false self.new.too_long (word_count self.new.takes.items self.new.words)
            (opening takes (test_size (guarded live height)) (word_count self.old.takes.items self.old.words))) }
    {
        self.open(takes)?;
        if live {
            self.add(6);
        }
        Ok(())
    }

    /// Closes the innermost label.
    fn close(&mut self)
        ensures long { self.new.too_long ≡ self.old.too_long }
        ensures closed { reverse self.new.takes.items ≡ drop 1 (reverse self.old.takes.items) }
        ensures words { self.new.words ≡ self.old.words }
    {
        self.takes.pop();
    }

    /// Counts the words of an instruction at a point that is reachable or not.
    #[inline(always)]
    fn take_plain(&mut self, live: bool, plain: &Plain)
        requires short { self.old.too_long ≡ false }
        requires some { 0 < length self.old.takes.items }
        requires names { NamesPlain (length self.old.takes.items) plain.now }
        ensures { (w : EmitContext) (c : ContextGiven) (height : ℕ) → CountsToken false self.new.too_long (word_count self.new.takes.items self.new.words)
            (after_token w c (PlainGiven plain.now) (guarded live height) (word_count self.old.takes.items self.old.words)) }
    {
        if live {
            match plain {
                Plain::Br(_) | Plain::BrIf(_) | Plain::BrTable(_, _) | Plain::Return => {
                    let more = branch_words(self.takes.as_slice(), plain);
                    self.add(more);
                }
                _ => self.add_few(plain_words(plain)),
            }
        }
    }

    /// Counts the jump past the second branch of an `if`, where the first one's end is reachable.
    fn turn(&mut self, live: bool)
        requires short { self.old.too_long ≡ false }
        ensures { (w : EmitContext) (c : ContextGiven) (height : ℕ) → CountsToken false self.new.too_long (word_count self.new.takes.items self.new.words)
            (after_token w c Else (guarded live height) (word_count self.old.takes.items self.old.words)) }
    {
        if live {
            self.add(2);
        }
    }

    /// Counts the words of a token at a point that is reachable or not, in a module of these types.
    #[inline(never)]
    fn take(&mut self, types: &[FuncType], live: bool, token: &Token) -> Result<(), AllocError>
        requires short { self.old.too_long ≡ false }
        requires some { 0 < length self.old.takes.items }
        requires names { NamesOpen (length self.old.takes.items) token.now }
        requires types { TypesLiftFew types.now }
        ensures { (w : EmitContext) (c : ContextGiven) (height : ℕ) → c.types ≡ types.now → OnOk result (CountsToken false self.new.too_long
            (word_count self.new.takes.items self.new.words)
            (after_token w c token.now (guarded live height) (word_count self.old.takes.items self.old.words))) }
    {
        match token {
            Token::Plain(plain) => self.take_plain(live, plain),
            Token::Block(ty) => return self.open(results_of(types, *ty)),
            // a branch to a loop goes back to its beginning, and takes its parameters along
            Token::Loop(ty) => return self.open(params_of(types, *ty)),
            Token::If(ty) => return self.open_if(results_of(types, *ty), live),
            Token::Else => self.turn(live),
            Token::End => self.close(),
        }
        Ok(())
    }
}

impl TokenSink for WordCounter {
    ghost Front = { ℕ };

    ghost Tracks = { λ counted c last cursor check code front n.
        IsCountingOn counted n.too_long c last cursor check code front (word_count n.takes.items n.words) };

    ghost going = { λ counted c last cursor check code front n k.
        going_of counted n.too_long c last cursor check code front (word_count n.takes.items n.words) k };

    ghost Fits = { λ check left n. AreCounted n.too_long n.takes.items check };

    #[inline(never)]
    fn take_read(&mut self, check: &mut Check<'_>, at: u64, token: &Token) -> Result<(), BodyStop> {
        let live = match check.token(at, token) {
            Ok(step) => step.live,
            Err(TokenStop::Refused(refusal)) => return Err(BodyStop::Refused(refusal)),
            Err(TokenStop::NoMemory) => return Err(BodyStop::NoMemory),
        };
        if self.too_long {
            return Ok(());
        }
        match self.take(check.context().types(), live, token) {
            Ok(()) => Ok(()),
            Err(_) => Err(BodyStop::NoMemory),
        }
    }

    #[inline(always)]
    fn take_plain_read(
        &mut self,
        check: &mut Check<'_>,
        at: u64,
        plain: Plain,
    ) -> Result<(), BodyStop> {
        self.take_read(check, at, &Token::Plain(plain))
    }

    #[inline(always)]
    fn take_common(
        &mut self,
        check: &mut Check<'_>,
        at: u64,
        plain: Plain,
    ) -> Result<(), BodyStop> {
        match check.common(at, &plain) {
            Some(Ok(step)) => {
                if self.too_long {
                    return Ok(());
                }
                self.take_plain(step.live, &plain);
                Ok(())
            }
            Some(Err(TokenStop::Refused(refusal))) => Err(BodyStop::Refused(refusal)),
            Some(Err(TokenStop::NoMemory)) => Err(BodyStop::NoMemory),
            None => self.take_plain_read(check, at, plain),
        }
    }
}

/// Reads and checks the code of a body, and counts its words. Once there are too many, it is only checked to its end.
fn count_code(
    fields: &mut Fields<'_>,
    check: &mut Check<'_>,
    counter: &mut WordCounter,
    reading: ReadContext,
) -> Result<(), BodyStop>
    requires bytes { AreBytes fields.old.rest }
    requires counts { AreCounted counter.old.too_long counter.old.takes.items check.old }
    requires short { counter.old.too_long ≡ false }
    ensures { (c : ContextGiven) (code : SpelledGiven) (front : ℕ)
        → IsCounting reading.counted c reading.last fields.old check.old code front (word_count counter.old.takes.items counter.old.words)
        → CountsCode c code front result counter.new.words }
{
    match read_code(fields, check, counter, reading) {
        Ok(()) => {
            if counter.too_long {
                return Err(BodyStop::TooLong);
            }
            Ok(())
        }
        Err(stop) => Err(stop),
    }
}

/// Counts the words of a body's code.
fn measure_code(scratch: &mut Scratch<'_>, body: OpenedBody<'_, '_>) -> Result<u64, BodyStop>
    requires bytes { AreBytes body.fields.rest }
    requires begun { scratch.old.check.checker ≡ start_checker scratch.old.check.context }
    requires unlabelled { scratch.old.check.context.labels ≡ [] }
    requires functions { FunctionsAreSmall scratch.old.check.context }
    requires small { TypeIsSmall body.function.now }
    ensures { (c : ContextGiven) (code : SpelledGiven) (g : IsGoing body.entry.counted c body.entry.last body.entry.fields scratch.old.check code)
        → g.tokens ≡ [] → length c.results ≡ length body.entry.function.now.results → (rows first : ℕ) → Sizes rows first c code
        (record { params = length body.entry.function.now.params; locals = body.entry.locals; greatest = 0 }) (length body.entry.function.now.results) result }
{
    let OpenedBody {
        function,
        locals,
        mut fields,
        counted,
        last,
    } = body;
    let alloc = scratch.alloc;
    let results = function.results.as_slice().len() as u32;
    let takes = replace(&mut scratch.takes, Vec::new(alloc));
    let Ok(mut counter) = WordCounter::new(takes, frame_words(locals, results), results) else {
        return Err(BodyStop::NoMemory);
    };
    match count_code(
        &mut fields,
        &mut scratch.check,
        &mut counter,
        ReadContext {
            alloc,
            counted,
            last,
        },
    ) {
        Ok(()) => {
            scratch.takes = counter.takes;
            Ok(u64::from(counter.words))
        }
        Err(stop) => Err(stop),
    }
}

/// Validates the body of a function as `compile` does, and counts the instruction words of its code without making them.
pub fn measure<'a>(
    scratch: &mut Scratch<'a>,
    context: &'a Context,
    index: u32,
    bytes: &[u8],
    offset: u64,
) -> Result<u64, BodyStop>
    requires function { IsSome (function_type (context_in context.now) index) }
    requires most { length bytes.now ≤ max_body }
    requires fits { offset + length bytes.now < 2 ^ 63 }
    ensures { Measures (first_minimum context.now.tables) offset (context_in context.now) index
        (body_read (is_some context.now.data_count) offset bytes.now) result }
{
    match open_body(&mut scratch.check, context, index, bytes, offset) {
        Ok(body) => measure_code(scratch, body),
        Err(stop) => Err(stop),
    }
}
