//! Bytes of a source, chunk by chunk.

ghost use Rattle.std.specs.Prelude.{◌≡◌, ◌≢◌, ◌<◌, ◌≤◌, ℕ, true, [], List, Option, All, IfOk, length, take, drop};
ghost use Rattle.io_edges.specs.Streams.{Reads, ReadCounts, ReadsOn, TookFront};
ghost use Rattle.module_stream.specs.declared.compilation.Compilation.{Compilation};
ghost use Rattle.module_stream.specs.Streaming.{IsErrorFree, ClosedAreValid};
ghost use Rattle.module_stream.specs.Limits.{max_read};
ghost use Rattle.source_reading.specs.Arriving.{IsArriving, has_failed};

use io_edges::{Got, Source};
use module_stream::MAX_READ;
use std::alloc::{AllocError, Global};
use std::marker::Model;

/// How many bytes are asked for at a time.
const CHUNK: usize = 65_536;

/// What the last read of a source came to.
#[derive(Clone, Copy, Debug, PartialEq, Eq)]
pub enum ReadStatus {
    /// Bytes came, or nothing was read so far.
    Bytes,
    /// As many bytes came as are read at most.
    Full,
    /// The source has no more bytes.
    End,
    /// The source failed.
    Failed,
}

/// The bytes that were read last, of which some are still to be taken. Contracts see those, how many were read in all, and what the
/// last read came to.
#[derive(Drop)]
pub struct Chunk {
    bytes: Vec<u8>,
    from: usize,
    len: usize,
    count: usize,
    came: ReadStatus,
}

impl Model for Chunk {
    ghost use Rattle.std.specs.Prelude.{◌≡◌, ◌≤◌, ◌+◌, length, take, drop};
    ghost use Rattle.source_reading.specs.Chunks.{Chunked};

    ghost Value = { Chunked };

    ghost view = { λ c. record { pending = take c.len (drop c.from c.bytes.items); count = c.count; came = c.came } };

    ghost invariant = { λ c. (c.from + c.len ≤ 65536) × (length c.bytes.items ≡ 65536) };
}

fn zeros(alloc: Global, len: usize) -> Result<Vec<u8>, AllocError>
    ensures { IfOk result (λ buffer. length buffer.items ≡ len) }
{
    vec![in alloc; 0; len]
}

/// Reads some bytes, so many at most, to the start of a buffer. All its bytes are below 256, as bytes are.
#[tactic(auto, using(crate::proofs::Fronts::took_read))]
fn fill<S: Source>(source: &mut S, bytes: &mut [u8], most: usize) -> Got
    requires some { 0 < most }
    requires room { most ≤ length bytes.old }
    requires open { S.is_open source.old ≡ true }
    ensures len { length bytes.new ≡ length bytes.old }
    ensures bytes { Reads result (take most bytes.new) (S.left source.old) (S.left source.new) }
    ensures fit { All (λ b. b < 256) bytes.new }
    ensures cause { ReadCounts result (S.faults source.old) (S.faults source.new) }
    ensures on { ReadsOn result (S.is_open source.new) }
    ensures front { TookFront (S.left source.old) (S.faults source.old) (S.left source.new) (S.faults source.new) }
{
    source.read(&mut bytes[..most])
}

impl Chunk {
    /// Before the first read.
    pub fn new(alloc: Global) -> Result<Chunk, AllocError>
        ensures { IfOk result (λ c. c ≡ record { pending = []; count = 0; came = ReadStatus.Bytes }) }
    {
        Ok(Chunk {
            bytes: zeros(alloc, CHUNK)?,
            from: 0,
            len: 0,
            count: 0,
            came: ReadStatus::Bytes,
        })
    }

    /// The bytes that are still to be taken.
    pub fn pending(&self) -> &[u8]
        ensures { result.now ≡ self.now.pending }
    {
        let rest = &self.bytes.as_slice()[self.from..];
        &rest[..self.len]
    }

    /// How many bytes were read in all.
    pub fn count(&self) -> usize
        ensures { result ≡ self.now.count }
    {
        self.count
    }

    /// Whether the source failed.
    pub fn has_failed(&self) -> bool
        ensures { result ≡ has_failed self.now.came }
    {
        self.came == ReadStatus::Failed
    }

    /// So many of the bytes were taken.
    #[tactic(auto, using(crate::proofs::Chunking::pending_count))]
    pub fn skip(&mut self, taken: usize)
        requires { taken ≤ length self.old.pending }
        ensures { self.new ≡ record self.old { pending = drop taken self.old.pending } }
    {
        self.from += taken;
        self.len -= taken;
    }

    /// Reads the next bytes. After the end of the source, its failure and the most bytes that are read, nothing more is asked of
    /// it.
    #[tactic(auto, using(crate::proofs::Fronts::took_nothing))]
    pub fn read<S: Source>(&mut self, source: &mut S) -> ReadStatus
        requires none { self.old.pending ≡ [] }
        requires few { self.old.count ≤ max_read }
        requires on { self.old.came ≡ ReadStatus.Bytes → S.is_open source.old ≡ true }
        ensures came { result ≡ self.new.came }
        ensures more { result ≡ ReadStatus.Bytes → self.old.count < self.new.count }
        ensures rest { result ≢ ReadStatus.Bytes → self.new.pending ≡ [] }
        ensures few { self.new.count ≤ max_read }
        ensures arrives { (closing : Option ℕ) (first : Option (List ℕ)) (before : ℕ) (s : Compilation) → IsErrorFree s → ClosedAreValid closing s
            → IsArriving closing first before (S.left source.old) (S.faults source.old) (S.is_open source.old) s self.old
            → IsArriving closing first before (S.left source.new) (S.faults source.new) (S.is_open source.new) s self.new }
        ensures front { TookFront (S.left source.old) (S.faults source.old) (S.left source.new) (S.faults source.new) }
    {
        if self.came != ReadStatus::Bytes {
            return self.came;
        }
        if MAX_READ <= self.count {
            self.came = ReadStatus::Full;
            return ReadStatus::Full;
        }
        self.from = 0;
        self.len = 0;
        let room = (MAX_READ - self.count).min(CHUNK);
        match fill(source, self.bytes.as_mut_slice(), room) {
            Got::Bytes(n) => {
                self.len = n;
                self.count += n;
                ReadStatus::Bytes
            }
            Got::End => {
                self.came = ReadStatus::End;
                ReadStatus::End
            }
            Got::Failed => {
                self.came = ReadStatus::Failed;
                ReadStatus::Failed
            }
        }
    }
}
