ghost use Rattle.std.specs.Prelude.{◌≡◌, ◌≤◌, ◌↔◌, true, length, IfOk, OnErr, vec_len};
ghost use Rattle.std.specs.Io.KnownBytes.{prepend_known};
ghost use Rattle.io_edges.specs.Stops.{StopsFor};
ghost use Rattle.io_edges.specs.Streams.{TookFront};

use crate::source::{Got, Source};
use std::alloc::{AllocError, Global};

/// Why reading stopped.
#[derive(Debug, Clone, Copy, PartialEq, Eq)]
pub enum Stop {
    /// Nothing is left.
    End,
    /// The source failed.
    Failed,
    /// As many bytes came as may be read. More may be left.
    Full,
}

/// What was read from a source.
#[derive(Debug, Drop)]
pub struct Input {
    /// The bytes that came, in order.
    pub bytes: Vec<u8>,
    /// Why no more were read.
    pub stop: Stop,
}

/// How many bytes are asked for at a time.
const CHUNK: usize = 65_536;

/// Reads to the source's end, to its error, or to `limit` bytes, whichever comes first.
///
/// It asks for no byte beyond the limit, so at `Full` the source may be at its end. It doesn't read on after the end or an
/// error.
///
/// After an `Err` the bytes that came are lost, the count of errors hasn't changed, and the source may be read on.
#[tactic(auto, using(crate::proofs::Known::prepend_more, crate::proofs::Known::prepend_nothing))]
pub fn read_all<S: Source>(alloc: Global, source: &mut S, limit: usize) -> Result<Input, AllocError>
    requires { S.is_open source.old ≡ true }
    ensures took { IfOk result (λ input.
        S.left source.old ≡ prepend_known input.bytes.items (S.left source.new)) }
    ensures most { IfOk result (λ input. length input.bytes.items ≤ limit) }
    ensures stop { IfOk result (λ input. StopsFor input.stop (S.left source.new)
        (S.faults source.old) (S.faults source.new) (length input.bytes.items) limit) }
    ensures full { IfOk result (λ input.
        (input.stop ≡ Stop.Full) ↔ (length input.bytes.items ≡ limit)) }
    ensures err { OnErr result ((S.faults source.new ≡ S.faults source.old) × (S.is_open source.new ≡ true)) }
    ensures front { TookFront (S.left source.old) (S.faults source.old) (S.left source.new) (S.faults source.new) }
{
    let mut bytes = Vec::new(alloc);
    let mut chunk = buffer_of(alloc, CHUNK)?;
    let buf = chunk.as_mut_slice();
    while bytes.len() < limit {
        let room = (limit - bytes.len()).min(buf.len());
        match source.read(&mut buf[..room]) {
            Got::Bytes(count) => bytes.extend_from_slice(&buf[..count])?,
            Got::End => {
                return Ok(Input {
                    bytes,
                    stop: Stop::End,
                });
            }
            Got::Failed => {
                return Ok(Input {
                    bytes,
                    stop: Stop::Failed,
                });
            }
        }
    }
    Ok(Input {
        bytes,
        stop: Stop::Full,
    })
}

// A buffer to read into.
fn buffer_of(alloc: Global, len: usize) -> Result<Vec<u8>, AllocError>
    ensures { IfOk result (λ buffer. vec_len buffer ≡ len) }
{
    vec![in alloc; 0; len]
}
