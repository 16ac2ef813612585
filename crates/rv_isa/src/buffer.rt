//! A growing list of instruction words.
ghost use Rattle.std.specs.Prelude.{◌≡◌, ◌<◌, ◌^◌, ◌≤◌, [], ◌∷◌, ◌++◌, map, take, length, slice_set, ℕ, IfOk, OnOk, OnErr};
ghost use Rattle.std.specs.Bool.{OnTrue, OnFalse};
ghost use Rattle.std.specs.List.{flat_map};
ghost use Rattle.rv_isa.specs.Words.{word_of};

use crate::compiled::Words;
use crate::encoding::encode;
use crate::operations::Op;
use std::alloc::{AllocError, Global};
use std::marker::Model;

/// Room for the instruction words of a small function.
const FIRST_CAPACITY: usize = 64;

/// Instruction words to which more are appended, and of which each can be replaced. Contracts see the list of the
/// words.
#[derive(Drop)]
pub struct WordBuffer {
    words: Words,
}

impl Model for WordBuffer {
    ghost use Rattle.std.specs.Prelude.{ℕ, List};

    ghost Value = { List ℕ };

    ghost view = { λ b. b.words };
}

/// Appends the instruction words of operations, or, if memory runs out, those of the first ones, and says whether
/// all are there.
fn encode_all(words: &mut Words, ops: &[Op]) -> bool
    ensures all { OnTrue result (words.new ≡ words.old ++ map word_of ops.now) }
    ensures some { OnFalse result (take (length words.old) words.new ≡ words.old) }
{
    for op in ops {
        if words.push(encode(*op)).is_err() {
            return false;
        }
    }
    true
}

impl WordBuffer {
    /// A buffer with no instruction words.
    pub fn new(alloc: Global) -> Result<Self, AllocError>
        ensures { IfOk result (λ b. b ≡ []) }
    {
        Ok(WordBuffer {
            words: Words::with_capacity(alloc, FIRST_CAPACITY)?,
        })
    }

    /// A buffer with no instruction words, and room for so many. More may be appended.
    pub fn with_room(alloc: Global, words: usize) -> Result<Self, AllocError>
        ensures { IfOk result (λ b. b ≡ []) }
    {
        Ok(WordBuffer {
            words: Words::with_capacity(alloc, words)?,
        })
    }

    /// The index of the instruction word that is appended next: the number of words.
    pub fn place(&self) -> usize
        ensures { result ≡ length self.now }
    {
        self.words.len()
    }

    /// How many instruction words there are.
    pub fn len(&self) -> usize
        ensures is { result ≡ length self.now }
        ensures small { result < 2 ^ 62 }
    {
        self.words.keeps_bounds();
        self.words.len()
    }

    /// Appends an instruction word.
    pub fn push(&mut self, word: u32) -> Result<(), AllocError>
        ensures ok { OnOk result (self.new ≡ self.old ++ word ∷ []) }
        ensures err { OnErr result (self.new ≡ self.old) }
    {
        self.words.push(word)
    }

    /// Appends some instruction words, or none of them.
    #[inline]
    pub fn append<const N: usize>(&mut self, words: &[u32; N]) -> Result<(), AllocError>
        ensures ok { OnOk result (self.new ≡ self.old ++ words.now) }
        ensures err { OnErr result (self.new ≡ self.old) }
    {
        self.words.append_array(words)
    }

    /// Appends the instruction words of operations, one run after the other, or none of them.
    pub fn append_ops(&mut self, runs: &[&[Op]]) -> Result<(), AllocError>
        ensures ok { OnOk result (self.new ≡ self.old ++ map word_of (flat_map (λ run. run.now) runs.now)) }
        ensures err { OnErr result (self.new ≡ self.old) }
    {
        let before = self.words.len();
        for run in runs {
            if !encode_all(&mut self.words, run) {
                self.words.truncate(before);
                return Err(AllocError);
            }
        }
        Ok(())
    }

    /// Appends some instruction words, those of operations, and more words, or none of them.
    pub fn append_around<const N: usize, const M: usize>(
        &mut self,
        front: &[u32; N],
        ops: &[Op],
        back: &[u32; M],
    ) -> Result<(), AllocError>
        ensures ok { OnOk result (self.new ≡ self.old ++ (front.now ++ (map word_of ops.now ++ back.now))) }
        ensures err { OnErr result (self.new ≡ self.old) }
    {
        let start = self.words.len();
        self.words.append_array(front)?;
        let is_whole = encode_all(&mut self.words, ops) && self.words.append_array(back).is_ok();
        if is_whole {
            return Ok(());
        }
        self.words.truncate(start);
        Err(AllocError)
    }

    /// Keeps the first instruction words, so many, and drops those after them.
    pub fn truncate(&mut self, words: usize)
        requires { words ≤ length self.old }
        ensures { self.new ≡ take words self.old }
    {
        self.words.truncate(words);
    }

    /// Replaces the instruction word at an index.
    pub fn patch(&mut self, place: usize, word: u32)
        requires { place < length self.old }
        ensures { self.new ≡ slice_set self.old place word }
    {
        self.words.set(place, word);
    }

    /// The instruction words, to be kept. It takes no memory.
    pub fn finish(self) -> Words
        ensures { result ≡ self }
    {
        self.words
    }
}
