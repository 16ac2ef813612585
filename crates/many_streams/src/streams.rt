//! Several modules whose bytes come in one input.

ghost use Rattle.std.specs.Prelude.{◌≡◌, ◌<◌, List, ℕ, [], All, length, IfOk, IsTrue};
ghost use Rattle.many_streams.specs.Flows.{AreWaiting};
ghost use Rattle.many_streams.specs.Many.{IsStreaming, MayStream, TakesSome, TakesAll, ComesToEnd, IsFront, view};
ghost use Rattle.many_streams.specs.Members.{IsMember, IsEnded};

use crate::member::Member;
use crate::reader::{FrameReader, Taken};
use std::alloc::{AllocError, Global};

/// Why several modules come to nothing.
#[derive(Clone, Copy, Debug, PartialEq, Eq)]
pub enum ManyStop {
    /// From this offset on the bytes are no frames, or they end there too soon.
    Frame(u64),
    /// The source failed.
    ReadFault,
    /// Memory ran out.
    NoMemory,
}

/// What came of several modules.
#[derive(Drop)]
pub struct Streams {
    pub alloc: Global,
    /// How many bytes of bodies close a batch.
    pub batch: u32,
    /// Whether codes are kept, or only counted.
    pub keeps: bool,
    /// Whether bodies are kept, to be validated once the modules have ended.
    pub waits: bool,
    pub reader: FrameReader,
    /// The modules in order. Before their number came there are none.
    pub members: Vec<Member>,
}

/// So many modules, of which nothing came.
fn new_members(
    alloc: Global,
    count: u32,
    batch: u32,
    keeps: bool,
) -> Result<Vec<Member>, AllocError>
    ensures count { IfOk result (λ v. length v.items ≡ count) }
    ensures each { IfOk result (λ v. All (IsMember keeps []) v.items) }
{
    let mut members = Vec::new(alloc);
    for k in 0..count {
        let _ = k;
        members.push(Member::new(alloc, batch, keeps))?;
    }
    Ok(members)
}

impl Streams {
    /// Before the first byte.
    pub fn new(alloc: Global, batch: u32, keeps: bool, waits: bool) -> Streams
        ensures streaming { IsStreaming [] result }
        ensures keeps { result.keeps ≡ keeps }
    {
        Streams {
            alloc,
            batch,
            keeps,
            waits,
            reader: FrameReader::new(),
            members: Vec::new(alloc),
        }
    }

    /// Takes some of the next bytes.
    fn take(&mut self, piece: &[u8]) -> Result<usize, ManyStop>
        requires some { 0 < length piece.now }
        requires may { MayStream self.old }
        ensures takes { (bytes : List ℕ) → IsStreaming bytes self.old → TakesSome bytes piece.now result self.new }
        ensures keeps { self.new.keeps ≡ self.old.keeps }
    {
        match self.reader.take(piece) {
            Ok(Taken::Number) => Ok(1),
            Ok(Taken::End(index)) => match self.members[index as usize].end() {
                Ok(()) => Ok(1),
                Err(_) => Err(ManyStop::NoMemory),
            },
            Ok(Taken::Count) => {
                match new_members(self.alloc, self.reader.modules(), self.batch, self.keeps) {
                    Ok(members) => {
                        self.members = members;
                        Ok(1)
                    }
                    Err(_) => Err(ManyStop::NoMemory),
                }
            }
            Ok(Taken::Bytes(index, count)) => {
                match self.members[index as usize].feed(&piece[..count], self.waits) {
                    Ok(()) => Ok(count),
                    Err(_) => Err(ManyStop::NoMemory),
                }
            }
            Err(place) => Err(ManyStop::Frame(place)),
        }
    }

    /// Takes the next bytes, however the input is cut.
    ///
    /// # Errors
    /// `Frame` where they are no frames, whatever follows.
    pub fn feed(&mut self, piece: &[u8]) -> Result<(), ManyStop>
        requires { MayStream self.old }
        ensures takes { (bytes : List ℕ) → IsStreaming bytes self.old → TakesAll bytes piece.now result self.new }
        ensures keeps { self.new.keeps ≡ self.old.keeps }
    {
        let mut from = 0;
        while from < piece.len() {
            match self.take(&piece[from..]) {
                Ok(count) => from += count,
                Err(stop) => return Err(stop),
            }
        }
        Ok(())
    }

    /// Whether workers may start: each module's bodies are kept, or it isn't open, and there are batches for two workers at least.
    pub fn may_start(&self) -> bool
        ensures { IsTrue result → AreWaiting self.now.members.items × (0 < length self.now.members.items) }
    {
        if !self.waits || self.members.is_empty() {
            return false;
        }
        let mut batches = 0usize;
        for k in 0..self.members.len() {
            let Some(count) = self.members[k].kept_batches() else {
                return false;
            };
            batches = batches.saturating_add(count);
        }
        batches >= 2
    }

    /// The input has ended: the modules, each with what it comes to, or with its bodies where they were kept.
    ///
    /// # Errors
    /// `Frame` at the number of bytes, where these end too soon.
    pub fn end(self) -> Result<Vec<Member>, ManyStop>
        requires { MayStream self }
        ensures { (bytes : List ℕ) → IsStreaming bytes self → ComesToEnd (IsEnded self.keeps) bytes (view result) }
    {
        let Streams {
            alloc: _,
            batch: _,
            keeps: _,
            waits: _,
            reader,
            members,
        } = self;
        match reader.end() {
            Ok(()) => Ok(members),
            Err(place) => Err(ManyStop::Frame(place)),
        }
    }

    /// The source failed. What came is frames, or the front of some.
    pub fn stop(self) -> ManyStop
        requires { MayStream self }
        ensures fault { result ≡ ManyStop.ReadFault }
        ensures front { (bytes : List ℕ) → IsStreaming bytes self → IsFront bytes }
    {
        let Streams {
            alloc: _,
            batch: _,
            keeps: _,
            waits: _,
            reader,
            members: _,
        } = self;
        let _ = reader.end();
        ManyStop::ReadFault
    }
}
