//! Compiles several modules on one thread.

ghost use Rattle.std.specs.Prelude.{◌≡◌, ◌<◌, ◌^◌, ◌-◌, true, length, IfOk};
ghost use Rattle.io_edges.specs.Streams.{TookFront};
ghost use Rattle.many_streams.specs.Fronts.{ReachesFront};

use crate::member::Member;
use crate::streams::{ManyStop, Streams};
use io_edges::{Got, Source};
use std::alloc::{AllocError, Global};

/// How many bytes are asked for at a time.
const CHUNK: usize = 65_536;

/// A buffer to read into.
fn buffer_of(alloc: Global, len: usize) -> Result<Vec<u8>, AllocError>
    ensures { IfOk result (λ buffer. length buffer.items ≡ len) }
{
    vec![in alloc; 0; len]
}

/// How far the input was read.
pub enum Front {
    /// To its end: the modules, each with what it comes to, or with its bodies where they were kept.
    Ended(Vec<Member>),
    /// To where workers may start, with what bytes are read into.
    Paused(Streams, Vec<u8>),
}

/// Compiles the modules whose bytes the source gives in frames, each by itself. Their codes are kept or only counted.
/// The input is read to its end, to the source's error, or to where it is no frames. Where they wait, their bodies are kept, and the
/// reading pauses once workers may start.
pub fn read_front<S: Source>(
    alloc: Global,
    source: &mut S,
    batch: u32,
    keeps: bool,
    waits: bool,
) -> Result<Front, ManyStop>
    requires faults { S.faults source.old < 2 ^ 64 - 1 }
    requires open { S.is_open source.old ≡ true }
    ensures answer { ReachesFront keeps (S.left source.old) (S.faults source.old) (S.left source.new) (S.faults source.new) (S.is_open source.new) result }
    ensures front { TookFront (S.left source.old) (S.faults source.old) (S.left source.new) (S.faults source.new) }
{
    let Ok(mut buffer) = buffer_of(alloc, CHUNK) else {
        return Err(ManyStop::NoMemory);
    };
    let mut streams = Streams::new(alloc, batch, keeps, waits);
    loop {
        let buf = buffer.as_mut_slice();
        match source.read(buf) {
            Got::Bytes(count) => match streams.feed(&buf[..count]) {
                Ok(()) => {}
                Err(stop) => return Err(stop),
            },
            Got::End => match streams.end() {
                Ok(members) => return Ok(Front::Ended(members)),
                Err(stop) => return Err(stop),
            },
            Got::Failed => return Err(streams.stop()),
        }
        if streams.may_start() {
            return Ok(Front::Paused(streams, buffer));
        }
    }
}
