//! The push parser of frames: it is fed with the input's bytes, in pieces however they are cut.

ghost use Rattle.std.specs.Prelude.{◌≡◌, ◌<◌, ◌≤◌, ◌+◌, ◌++◌, ◌^◌, ◌∷◌, ℕ, List, [], true, false};
ghost use Rattle.std.specs.Prelude.{length, slice_index_or, MatchOption, IfOk, OnOk};
ghost use Rattle.many_streams.specs.Frames.{u32};
ghost use Rattle.many_streams.specs.Reading.{byte_count, IsReading, MayTake, Takes, Ends, TakesNumber, TakesDigit, IsNumberNext};
ghost use Rattle.many_streams.specs.Reading.{HasCount, HasIndex, HasLength, SetsFlags, AreAllSet};

use crate::limits::{MAX_INPUT, MAX_MODULES};
use std::marker::Model;

/// What comes next in the input.
#[derive(Clone, Copy, Debug, PartialEq, Eq)]
pub enum Next {
    /// The number of modules.
    Count,
    /// A chunk's index: which module it is of.
    Index,
    /// The length of a chunk of this module.
    Length(u32),
    /// Bytes of this module: so many, at least one, are left of its chunk.
    Bytes(u32, u32),
    /// Nothing: all modules have ended.
    Nothing,
}

/// What was taken from the start of a piece. Modules have the indices from 0 to their number less one.
#[derive(Clone, Copy, Debug, PartialEq, Eq)]
pub enum Taken {
    /// One byte, of a number.
    Number,
    /// One byte, with which the number of modules is known.
    Count,
    /// One byte, with which this module has ended.
    End(u32),
    /// So many bytes, at least one, which are this module's.
    Bytes(u32, usize),
}

impl Taken {
    /// How many bytes were taken: at least one.
    pub fn byte_count(self) -> usize
        ensures { result ≡ byte_count self }
    {
        match self {
            Taken::Number | Taken::Count | Taken::End(_) => 1,
            Taken::Bytes(_, count) => count,
        }
    }
}

/// Reads frames. It takes no memory.
///
/// A number is judged once its four bytes have come, so each error has one offset however the input is cut.
#[derive(Drop)]
pub struct FrameReader {
    /// The offset of the next byte.
    at: u64,
    /// How many modules there are; 0 until that is known.
    modules: u32,
    /// Which of them have ended.
    ended: [bool; 64],
    /// The first bytes of a number, and how many of them have come.
    number: [u8; 4],
    have: usize,
    next: Next,
}

impl Model for FrameReader {
    ghost use Rattle.std.specs.Prelude.{◌<◌, ◌≤◌, take};
    ghost use Rattle.many_streams.specs.Reading.{Progress};

    ghost Value = { Progress };

    ghost view = { λ r. record { at = r.at; modules = r.modules; ended = r.ended; number = take r.have r.number; next = r.next } };

    ghost invariant = { λ r. (r.have < 4) × (r.modules ≤ 64) };
}

/// Whether the first modules, so many, have ended.
fn are_ended(ended: &[bool], modules: u32) -> bool
    requires { modules ≤ length ended.now }
    ensures all { result ≡ true → (i : ℕ) → i < modules → slice_index_or ended.now i false ≡ true }
    ensures one { result ≡ false → (i : ℕ) × (i < modules) × (slice_index_or ended.now i false ≡ false) }
{
    for k in 0..modules {
        if !ended[k as usize] {
            return false;
        }
    }
    true
}

impl FrameReader {
    /// A reader before the first byte.
    pub fn new() -> Self
        ensures reading { IsReading [] (λ _. []) result }
        ensures none { result.modules ≡ 0 }
    {
        FrameReader {
            at: 0,
            modules: 0,
            ended: [false; 64],
            number: [0; 4],
            have: 0,
            next: Next::Count,
        }
    }

    /// How many modules there are, 1 to 64; 0 until that is known.
    pub fn modules(&self) -> u32
        ensures count { result ≡ self.now.modules }
        ensures few { result ≤ 64 }
    {
        self.modules
    }

    /// The offset of the next byte: how many bytes were taken.
    pub fn offset(&self) -> u64
        ensures { result ≡ self.now.at }
    {
        self.at
    }

    /// Takes a byte of a number, and gives the number with its last byte.
    fn add(&mut self, byte: u8) -> Option<u32>
        requires { self.old.at < 2 ^ 30 }
        ensures { MatchOption result
            (self.new ≡ record self.old { at = self.old.at + 1; number = self.old.number ++ byte ∷ [] })
            (λ n. (u32 n ≡ self.old.number ++ byte ∷ []) × (self.new ≡ record self.old { at = self.old.at + 1; number = [] })) }
    {
        self.number[self.have] = byte;
        self.at += 1;
        if self.have == 3 {
            self.have = 0;
            return Some(u32::from_le_bytes(self.number));
        }
        self.have += 1;
        None
    }

    /// Takes the number of modules.
    fn take_count(&mut self, number: u32) -> Result<Taken, u64>
        requires { (bytes : List ℕ) × (of : ℕ → List ℕ) × HasCount bytes of self.old number }
        ensures takes { (bytes : List ℕ) (of : ℕ → List ℕ) → HasCount bytes of self.old number → TakesNumber bytes of result self.old self.new }
        ensures flags { SetsFlags result self.old.ended self.new.ended }
    {
        if number == 0 || MAX_MODULES < number {
            return Err(0);
        }
        self.modules = number;
        self.next = Next::Index;
        Ok(Taken::Count)
    }

    /// Takes a chunk's index.
    fn take_index(&mut self, number: u32) -> Result<Taken, u64>
        requires { (bytes : List ℕ) × (of : ℕ → List ℕ) × HasIndex bytes of self.old number }
        ensures takes { (bytes : List ℕ) (of : ℕ → List ℕ) → HasIndex bytes of self.old number → TakesNumber bytes of result self.old self.new }
        ensures flags { SetsFlags result self.old.ended self.new.ended }
    {
        let place = self.at - 4;
        if self.modules <= number || self.ended[number as usize] {
            return Err(place);
        }
        self.next = Next::Length(number);
        Ok(Taken::Number)
    }

    /// Takes the length of a chunk of this module. A chunk without bytes ends it.
    fn take_length(&mut self, index: u32, number: u32) -> Result<Taken, u64>
        requires { (bytes : List ℕ) × (of : ℕ → List ℕ) × HasLength bytes of self.old index number }
        ensures takes { (bytes : List ℕ) (of : ℕ → List ℕ) → HasLength bytes of self.old index number → TakesNumber bytes of result self.old self.new }
        ensures flags { SetsFlags result self.old.ended self.new.ended }
    {
        if number != 0 {
            self.next = Next::Bytes(index, number);
            return Ok(Taken::Number);
        }
        self.ended[index as usize] = true;
        if are_ended(&self.ended, self.modules) {
            self.next = Next::Nothing;
            return Ok(Taken::End(index));
        }
        self.next = Next::Index;
        Ok(Taken::End(index))
    }

    /// Takes bytes of this module, of whose chunk so many are left.
    fn take_bytes(&mut self, index: u32, left: u32, piece: &[u8]) -> Result<Taken, u64>
        requires some { 0 < length piece.now }
        requires part { self.old.next ≡ Next.Bytes index left }
        requires may { MayTake self.old }
        ensures takes { (bytes : List ℕ) (of : ℕ → List ℕ) → IsReading bytes of self.old → Takes bytes of piece.now result self.old self.new }
        ensures flags { SetsFlags result self.old.ended self.new.ended }
    {
        let room = MAX_INPUT - self.at;
        if room == 0 {
            return Err(self.at);
        }
        let taken = piece.len().min(left as usize).min(room as usize);
        self.at += taken as u64;
        if taken == left as usize {
            self.next = Next::Index;
            return Ok(Taken::Bytes(index, taken));
        }
        self.next = Next::Bytes(index, left - taken as u32);
        Ok(Taken::Bytes(index, taken))
    }

    /// Takes the next byte, which is one of a number, and gives the number with its last byte.
    fn take_digit(&mut self, piece: &[u8]) -> Result<Option<u32>, u64>
        requires some { 0 < length piece.now }
        requires part { IsNumberNext self.old.next }
        requires may { MayTake self.old }
        ensures takes { (bytes : List ℕ) (of : ℕ → List ℕ) → IsReading bytes of self.old → TakesDigit bytes of piece.now result self.old self.new }
        ensures flags { self.new.ended ≡ self.old.ended }
    {
        if self.at == MAX_INPUT {
            return Err(self.at);
        }
        Ok(self.add(piece[0]))
    }

    /// Takes some bytes from the start of a piece of the input that isn't empty: one byte of a number, or as many bytes of one
    /// module as the piece has of its chunk. The caller goes on with the rest of the piece, and takes no more after an error.
    ///
    /// # Errors
    /// The offset of the bad frame: 0 where the number of modules isn't 1 to 64; that of a chunk's index where no module has
    /// it, or the module has ended; that of the first byte after the last module's end; 2^30 where the input has that many
    /// bytes and goes on.
    pub fn take(&mut self, piece: &[u8]) -> Result<Taken, u64>
        requires some { 0 < length piece.now }
        requires may { MayTake self.old }
        ensures taken { (bytes : List ℕ) (of : ℕ → List ℕ) → IsReading bytes of self.old → Takes bytes of piece.now result self.old self.new }
        ensures flags { SetsFlags result self.old.ended self.new.ended }
        ensures on { IfOk result (λ t. MayTake self.new × (0 < byte_count t) × (byte_count t ≤ length piece.now)) }
    {
        match self.next {
            Next::Count => match self.take_digit(piece)? {
                Some(number) => self.take_count(number),
                None => Ok(Taken::Number),
            },
            Next::Index => match self.take_digit(piece)? {
                Some(number) => self.take_index(number),
                None => Ok(Taken::Number),
            },
            Next::Length(index) => match self.take_digit(piece)? {
                Some(number) => self.take_length(index, number),
                None => Ok(Taken::Number),
            },
            Next::Bytes(index, left) => self.take_bytes(index, left, piece),
            Next::Nothing => Err(self.at),
        }
    }

    /// The input has ended with the bytes that were taken.
    ///
    /// # Errors
    /// The number of bytes of the input, where it is cut off: a module hasn't ended, or a chunk isn't whole.
    pub fn end(&self) -> Result<(), u64>
        requires { MayTake self.now }
        ensures ends { (bytes : List ℕ) (of : ℕ → List ℕ) → IsReading bytes of self.now → Ends bytes of result self.now }
        ensures flags { OnOk result (AreAllSet self.now.modules self.now.ended) }
    {
        match self.next {
            Next::Nothing => Ok(()),
            _ => Err(self.at),
        }
    }
}
