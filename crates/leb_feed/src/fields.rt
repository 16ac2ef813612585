//! Fields, read from a slice of a module's bytes. A field's value comes with its offset. Each method does what the reader of
//! the same name in `wasm_defs` defines: a field that isn't whole stops reading as malformed where its section's end cuts it
//! off, and else wants more bytes. Where a method stops, the reader stays where it was.

ghost use Rattle.std.specs.Prelude.{◌≡◌, ◌≤◌, ◌<◌, ◌+◌, ◌-◌, ◌*◌, ◌^◌, ◌≤ℤ◌, ◌<ℤ◌, neg_ℤ, pos, ℕ, length, false, true, IfOk, List, drop, take, OnErr};
ghost use Rattle.wasm_defs.specs.Numbers.{Spells};
ghost use Rattle.wasm_defs.specs.Fields.{Cursor, window, past, cut, room_of, byte, number, u32, count, run, room, stop, counted_bytes, text_after, least};
ghost use Rattle.wasm_defs.specs.Fields.{length_owed, name, fixed};
ghost use Rattle.wasm_defs.specs.Fields.{agree};
ghost use Rattle.wasm_defs.specs.Entries.{value_type};
ghost use Rattle.wasm_defs.specs.Outside.{inside, no_end};
ghost use Rattle.leb_feed.specs.Reads.{Reads, NeedsNoMemory};

use crate::number::{ReadAt, read_at};
use crate::stop::Stop;
use crate::text::completes;
use std::alloc::Global;
use std::marker::Model;
use wasm_defs::{Bytes, Kind, MAX_NAME, Name, Refusal, ValType};

/// Where reading is in a slice whose first byte has the offset `base`; the section ends at the offset `end`.
#[derive(Drop)]
pub struct Fields<'a> {
    bytes: &'a [u8],
    base: u64,
    place: usize,
    /// The index after the bytes of the section that are there.
    limit: usize,
    end: u64,
}

impl<'a> Model for Fields<'a> {
    ghost use Rattle.std.specs.Prelude.{◌≡◌, ◌≤◌, ◌<◌, ◌+◌, ◌-◌, ◌^◌, length, drop, take};
    ghost use Rattle.wasm_defs.specs.Fields.{Cursor};

    ghost Value = { Cursor };

    ghost view = { λ f. record { at = f.base + f.place; rest = drop f.place f.bytes.now; end = f.end } };

    ghost invariant = { λ f. (f.place ≤ length f.bytes.now) × (f.base + length f.bytes.now < 2 ^ 64) × (f.base + f.place ≤ f.end)
        × (f.limit ≡ length (take (f.end - f.base) f.bytes.now)) };
}

impl<'a> Fields<'a> {
    /// Reads from the slice's first byte on, whose offset is `base`.
    pub fn new(bytes: &'a [u8], base: u64, end: u64) -> Self
        requires fits { base + length bytes.now < 2 ^ 64 }
        requires ahead { base ≤ end }
        ensures { result ≡ record { at = base; rest = bytes.now; end = end } }
    {
        Fields {
            bytes,
            base,
            place: 0,
            limit: limit_of(bytes, end - base),
            end,
        }
    }

    /// A second reader at the same offset: what one of them reads leaves the other where it is.
    pub fn fork(&self) -> Self
        ensures { result ≡ self.now }
    {
        Fields {
            bytes: self.bytes,
            base: self.base,
            place: self.place,
            limit: self.limit,
            end: self.end,
        }
    }

    /// The offset of the next byte.
    #[inline(always)]
    pub fn offset(&self) -> u64
        ensures { result ≡ self.now.at }
    {
        self.base + self.place as u64
    }

    /// Where the section ends.
    pub fn end(&self) -> u64
        ensures value { result ≡ self.now.end }
        ensures ahead { self.now.at ≤ result }
    {
        self.end
    }

    /// Ends the section: outside sections no end is near.
    pub fn leave(&mut self)
        ensures { self.new ≡ inside self.old no_end }
    {
        self.limit = self.bytes.len();
        self.end = u64::MAX;
    }

    /// A section that ends there begins.
    pub fn enter(&mut self, end: u64)
        requires { self.old.at ≤ end }
        ensures { self.new ≡ inside self.old end }
    {
        self.limit = limit_of(self.bytes, end - self.base);
        self.end = end;
    }

    /// How many bytes the section has left.
    #[inline(always)]
    pub fn room(&self) -> u64
        ensures { result ≡ room_of self.now }
    {
        self.end - (self.base + self.place as u64)
    }

    /// The bytes that aren't read yet, those after the section's end too.
    #[inline(always)]
    pub fn rest(&self) -> &'a [u8]
        ensures { result.now ≡ self.now.rest }
    {
        &self.bytes[self.place..]
    }

    /// The bytes of the section that are there.
    #[inline(always)]
    fn window(&self) -> &'a [u8]
        ensures { result.now ≡ window self.now }
    {
        &self.bytes[self.place..self.limit]
    }

    #[inline(always)]
    fn advance(&mut self, len: usize)
        requires { len ≤ length (window self.old) }
        ensures { self.new ≡ past self.old len }
    {
        self.place += len;
    }

    /// The stop for an error.
    #[inline(always)]
    pub fn refused(kind: Kind, offset: u64) -> Stop
        ensures { result ≡ Stop.Refused (record { offset = offset; kind = kind }) }
    {
        Stop::Refused(Refusal { offset, kind })
    }

    /// Why a field isn't whole.
    fn cut<T>(&self) -> Result<T, Stop>
        ensures read { Reads cut (λ n. n) result self.now self.now }
        ensures free { NeedsNoMemory result }
    {
        if self.room() <= self.rest().len() as u64 {
            Err(Self::refused(Kind::Malformed, self.offset()))
        } else {
            Err(Stop::Wants)
        }
    }

    /// One byte.
    #[inline(always)]
    #[tactic(auto, unfolding(wasm_defs::specs::Fields::byte))]
    pub fn byte(&mut self) -> Result<(u64, u8), Stop>
        ensures read { Reads byte (λ n. n) result self.old self.new }
        ensures free { NeedsNoMemory result }
        ensures stays { OnErr result (self.new ≡ self.old) }
    {
        let at = self.offset();
        match self.window() {
            [] => self.cut(),
            [byte, ..] => {
                let byte = *byte;
                self.advance(1);
                Ok((at, byte))
            }
        }
    }

    /// A LEB128 number of so many bits (Core 5.2.2).
    #[inline]
    #[tactic(auto, unfolding(wasm_defs::specs::Fields::number))]
    pub fn number(&mut self, signed: bool, bits: u32) -> Result<(u64, i128), Stop>
        requires some_bits { 1 ≤ bits }
        requires few_bits { bits ≤ 64 }
        ensures read { Reads (number signed bits) (λ n. n) result self.old self.new }
        ensures free { NeedsNoMemory result }
        ensures stays { OnErr result (self.new ≡ self.old) }
        ensures spelled { IfOk result (λ n. (bytes : List ℕ) × Spells n.1 bits signed bytes) }
    {
        let at = self.offset();
        match read_at(self.window(), 0, bits, signed) {
            ReadAt::Number(n, len) => {
                self.advance(len);
                Ok((at, n))
            }
            ReadAt::CutOff => self.cut(),
            ReadAt::Bad => Err(Self::refused(Kind::Malformed, at)),
        }
    }

    /// An unsigned number of 32 bits.
    #[inline]
    #[tactic(auto, unfolding(wasm_defs::specs::Fields::u32))]
    pub fn u32(&mut self) -> Result<(u64, u32), Stop>
        ensures read { Reads u32 (λ n. n) result self.old self.new }
        ensures free { NeedsNoMemory result }
        ensures stays { OnErr result (self.new ≡ self.old) }
    {
        let (at, n) = self.number(false, 32)?;
        Ok((at, n as u32))
    }

    /// A signed number of so many bits: 32, 33 or 64.
    #[inline]
    pub fn signed(&mut self, bits: u32) -> Result<(u64, i64), Stop>
        requires some_bits { 1 ≤ bits }
        requires few_bits { bits ≤ 64 }
        ensures read { Reads (number true bits) (λ n. n) result self.old self.new }
        ensures free { NeedsNoMemory result }
        ensures stays { OnErr result (self.new ≡ self.old) }
        ensures range { IfOk result (λ n. (neg_ℤ (pos (2 ^ (bits - 1))) ≤ℤ n.1) × (n.1 <ℤ pos (2 ^ (bits - 1)))) }
    {
        let (at, n) = self.number(true, bits)?;
        Ok((at, n as i64))
    }

    /// A count, checked at its own offset.
    #[tactic(auto, unfolding(wasm_defs::specs::Fields::count))]
    pub fn count(&mut self, most: u32) -> Result<(u64, u32), Stop>
        ensures read { Reads (count most) (λ n. n) result self.old self.new }
        ensures free { NeedsNoMemory result }
        ensures stays { OnErr result (self.new ≡ self.old) }
    {
        let mut next = self.fork();
        let (at, n) = next.u32()?;
        if most < n {
            return Err(Self::refused(Kind::Limit, at));
        }
        *self = next;
        Ok((at, n))
    }

    /// So many bytes of the section.
    #[tactic(auto, unfolding(wasm_defs::specs::Fields::run))]
    pub fn run(&mut self, len: u64) -> Result<&'a [u8], Stop>
        ensures read { Reads (run len) (λ bytes. bytes.now) result self.old self.new }
        ensures free { NeedsNoMemory result }
        ensures stays { OnErr result (self.new ≡ self.old) }
    {
        let window = self.window();
        if (window.len() as u64) < len {
            return self.cut();
        }
        let bytes = &window[..len as usize];
        self.advance(len as usize);
        Ok(bytes)
    }

    /// A length, and so many bytes.
    #[tactic(auto, unfolding(wasm_defs::specs::Fields::counted_bytes, wasm_defs::specs::Fields::room))]
    pub fn counted_bytes(&mut self, alloc: Global) -> Result<(u64, Bytes), Stop>
        ensures read { Reads counted_bytes (λ n. n) result self.old self.new }
        ensures stays { OnErr result (self.new ≡ self.old) }
    {
        let mut next = self.fork();
        let (at, len) = next.u32()?;
        if next.room() < u64::from(len) {
            return Err(Self::refused(Kind::Malformed, at));
        }
        let bytes = next.run(u64::from(len))?;
        let bytes = Bytes::new(Vec::from_slice(alloc, bytes)?);
        *self = next;
        Ok((at, bytes))
    }

    /// A value type (Core 5.3.1).
    #[tactic(auto, unfolding(wasm_defs::specs::Entries::value_type))]
    pub fn value_type(&mut self) -> Result<(u64, ValType), Stop>
        ensures read { Reads value_type (λ n. n) result self.old self.new }
        ensures free { NeedsNoMemory result }
        ensures stays { OnErr result (self.new ≡ self.old) }
    {
        let mut next = self.fork();
        let (at, byte) = next.byte()?;
        let ty = match byte {
            0x7F => ValType::I32,
            0x7E => ValType::I64,
            0x7D | 0x7C => return Err(Self::refused(Kind::Unsupported, at)),
            _ => return Err(Self::refused(Kind::Malformed, at)),
        };
        *self = next;
        Ok((at, ty))
    }

    /// A name: its length and its UTF-8 are one field.
    #[tactic(auto, unfolding(wasm_defs::specs::Fields::name))]
    pub fn name(&mut self, alloc: Global) -> Result<(u64, Name), Stop>
        ensures read { Reads name (λ n. n) result self.old self.new }
        ensures stays { OnErr result (self.new ≡ self.old) }
    {
        let at = self.offset();
        match read_at(self.window(), 0, 32, false) {
            ReadAt::Number(n, len) => self.text_after(alloc, len, n as u32),
            ReadAt::CutOff => self.length_owed(),
            ReadAt::Bad => Err(Self::refused(Kind::Malformed, at)),
        }
    }

    fn text_after(&mut self, alloc: Global, len: usize, n: u32) -> Result<(u64, Name), Stop>
        requires { len ≤ length (window self.old) }
        ensures read { Reads (text_after len n) (λ n. n) result self.old self.new }
        ensures stays { OnErr result (self.new ≡ self.old) }
    {
        let at = self.offset();
        let window = self.window();
        // Why: docs/DECISIONS.md, "A name is one field"
        if self.room() < len as u64 + u64::from(n) {
            return Err(Self::refused(Kind::Malformed, at));
        }
        let text = first_of(&window[len..], n as usize);
        if !completes(n, text) {
            return Err(Self::refused(Kind::Malformed, at));
        }
        if text.len() < n as usize {
            return Err(Stop::Wants);
        }
        if MAX_NAME < n {
            return Err(Self::refused(Kind::Limit, at));
        }
        let name = Name::new(Vec::from_slice(alloc, text)?);
        self.advance(len + n as usize);
        Ok((at, name))
    }

    /// Why a name whose length is cut off isn't whole: the shortest one that begins so has to be in the section.
    fn length_owed(&self) -> Result<(u64, Name), Stop>
        requires { length (window self.now) ≤ 5 }
        ensures read { Reads length_owed (λ n. n) result self.now self.now }
        ensures free { NeedsNoMemory result }
    {
        let window = self.window();
        if self.room() < window.len() as u64 + 1 + least(window) {
            Err(Self::refused(Kind::Malformed, self.offset()))
        } else {
            Err(Stop::Wants)
        }
    }

    /// Bytes that are given.
    #[tactic(auto, unfolding(wasm_defs::specs::Fields::fixed))]
    pub fn fixed(&mut self, bytes: &[u8]) -> Result<u64, Stop>
        ensures read { Reads (fixed bytes.now) (λ n. n) result self.old self.new }
        ensures free { NeedsNoMemory result }
        ensures stays { OnErr result (self.new ≡ self.old) }
    {
        let at = self.offset();
        let window = self.window();
        if !agree(bytes, window) {
            return Err(Self::refused(Kind::Malformed, at));
        }
        if window.len() < bytes.len() {
            return self.cut();
        }
        self.advance(bytes.len());
        Ok(at)
    }
}

/// How many of the first bytes there are, if that many are looked for.
fn limit_of(bytes: &[u8], most: u64) -> usize
    ensures { result ≡ length (take most bytes.now) }
{
    if (bytes.len() as u64) < most {
        return bytes.len();
    }
    most as usize
}

fn first_of(bytes: &[u8], most: usize) -> &[u8]
    ensures { result.now ≡ take most bytes.now }
{
    if bytes.len() < most {
        return bytes;
    }
    &bytes[..most]
}

/// The least number whose encoding begins so.
fn least(bytes: &[u8]) -> u64
    requires { length bytes.now ≤ 5 }
    ensures exact { result ≡ least bytes.now }
    ensures small { result < 2 ^ (7 * length bytes.now) }
{
    match bytes {
        [] => 0,
        [byte, rest @ ..] => u64::from(byte.saturating_sub(128)) + 128 * least(rest),
    }
}

/// Whether one slice begins as the other, as far as both go.
fn agree(bytes: &[u8], others: &[u8]) -> bool
    ensures { result ≡ agree bytes.now others.now }
{
    match bytes {
        [] => true,
        [x, xs @ ..] => match others {
            [] => true,
            [y, ys @ ..] => *x == *y && agree(xs, ys),
        },
    }
}
