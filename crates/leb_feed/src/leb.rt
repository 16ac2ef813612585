//! LEB128 numbers (Core 5.2.2), whose bytes come one by one.
//!
//! A [`Leb`] is made for one number, of so many bits, signed or not. Each byte that is fed has a final answer: `More` where
//! further bytes can complete the number, `Done` with the number, or `Bad` where no further bytes can.
//!
//! ```text
//! let mut leb = Leb::new(32, false);
//! leb.feed(0xE5)    More           101 so far; the high bit says that a byte follows
//! leb.feed(0x8E)    More           14 times 128 more
//! leb.feed(0x26)    Done(624485)   38 times 16,384 more
//! ```
//!
//! As the fifth byte of such a number 0x10 would be `Bad`: it says more than 32 bits hold.

ghost use Rattle.std.specs.Prelude.{◌≡◌, ◌↔◌, ◌≤◌, ℤ, []};
ghost use Rattle.wasm_defs.specs.Numbers.{IsCutOff, IsNoNumber, Spells, number_at};
ghost use Rattle.leb_feed.specs.Feeding.{IsUnfinished, with_byte, told};

use crate::number::{ReadAt, read_at};
use std::marker::Model;

/// The most bytes that a number of 64 bits has.
const MOST: usize = 10;

/// What the bytes of a number are that came so far.
#[derive(Clone, Copy, Debug, PartialEq, Eq)]
pub enum Fed {
    /// An encoding begins so, and more bytes complete it.
    More,
    /// They encode this number.
    Done(i128),
    /// No number's encoding begins so.
    Bad,
}

/// A number that is read byte by byte. Contracts see of it how many bits the number has, whether it is signed, and the bytes
/// that were fed. It takes no memory.
#[derive(Debug, Drop)]
pub struct Leb {
    bits: u32,
    signed: bool,
    bytes: [u8; MOST],
    count: usize,
}

impl Model for Leb {
    ghost use Rattle.std.specs.Prelude.{◌≤◌, take};
    ghost use Rattle.leb_feed.specs.Feeding.{Feeding};

    ghost Value = { Feeding };

    ghost view = { λ l. record { bits = l.bits; signed = l.signed; bytes = take l.count l.bytes } };

    ghost invariant = { λ l. (1 ≤ l.bits) × (l.bits ≤ 64) × (l.count ≤ 10) };
}

impl Leb {
    /// Before the first byte of a number of 1 to 64 bits, signed or unsigned.
    pub fn new(bits: u32, signed: bool) -> Self
        requires some_bits { 1 ≤ bits }
        requires few_bits { bits ≤ 64 }
        ensures begun { result ≡ record { bits = bits; signed = signed; bytes = [] } }
        ensures unfinished { IsUnfinished result }
    {
        Leb {
            bits,
            signed,
            bytes: [0; MOST],
            count: 0,
        }
    }

    /// A second reader, to which the same bytes were fed.
    pub fn fork(&self) -> Self
        ensures { result ≡ self.now }
    {
        Leb {
            bits: self.bits,
            signed: self.signed,
            bytes: self.bytes,
            count: self.count,
        }
    }

    /// The next byte. After `Done` and `Bad` nothing more may be fed: a new `Leb` is made.
    pub fn feed(&mut self, byte: u8) -> Fed
        requires { IsUnfinished self.old }
        ensures grows { self.new ≡ with_byte self.old byte }
        ensures done { (n : ℤ) → (result ≡ Fed.Done n) ↔ Spells n self.new.bits self.new.signed self.new.bytes }
        ensures more { (result ≡ Fed.More) ↔ IsCutOff self.new.signed self.new.bits self.new.bytes }
        ensures bad { (result ≡ Fed.Bad) ↔ IsNoNumber self.new.signed self.new.bits self.new.bytes }
        ensures exact { result ≡ told (number_at self.new.signed self.new.bits self.new.bytes) }
    {
        self.bytes[self.count] = byte;
        self.count += 1;
        // Why: docs/DECISIONS.md, "`Leb` keeps the bytes of its number"
        match read_at(&self.bytes[..self.count], 0, self.bits, self.signed) {
            ReadAt::Number(n, _) => Fed::Done(n),
            ReadAt::CutOff => Fed::More,
            ReadAt::Bad => Fed::Bad,
        }
    }
}
