//! Sources and sinks over readers and writers, as standard input and output are.

ghost use Rattle.std.specs.Prelude.{◌≡◌, ◌≤◌, ◌<◌, true, None, length};
ghost use Rattle.std.specs.Io.{ReadsAtMost, WritesAtMost};
ghost use Rattle.std.specs.Io.KnownBytes.{ReadConsumes, WriteAppends};
ghost use Rattle.io_edges.specs.Causes.{one_more};
ghost use Rattle.io_edges.specs.EdgeState.{PassesRead, PassesWrite};
ghost use Rattle.io_edges.specs.Streams.{Reads, ReadCounts, Writes, WriteCounts};

use crate::sink::{Put, Sink};
use crate::source::{Got, Source};
use std::io;
use std::io::{ErrorKind, Read, Write};
use std::marker::Model;

/// A source over a reader, as standard input is.
///
/// It counts the reader's errors. A read that a signal interrupted is no error: it is made again, as
/// std's own calls do. As a source it shows contracts no bytes. A contract sees the reader and the
/// count.
#[derive(Debug, Drop)]
pub struct InputEdge<R> {
    inner: R,
    faults: u64,
}

impl<R> Model for InputEdge<R> {
    ghost use Rattle.io_edges.specs.EdgeState.{EdgeState};

    ghost Value = { EdgeState R };

    ghost view = { λ e. record { inner = e.inner; faults = e.faults } };
}

impl<R: Read> InputEdge<R> {
    /// A source over this reader. Its count of errors is 0.
    pub fn new(inner: R) -> Self
        ensures { result ≡ record { inner = inner; faults = 0 } }
    {
        InputEdge { inner, faults: 0 }
    }
}

impl<R: Read> Source for InputEdge<R> {
    ghost left = { λ _. None };

    ghost faults = { λ e. e.faults };

    ghost is_open = { λ _. true };

    fn read(&mut self, buf: &mut [u8]) -> Got
        requires { 0 < length buf.old }
        ensures bytes { Reads result buf.new None None }
        ensures cause { ReadCounts result self.old.faults self.new.faults }
        ensures never_falls { self.old.faults ≤ self.new.faults }

        // An error counts as one, until the end of the count's type.
        ensures once { result ≡ Got.Failed → self.new.faults ≡ one_more self.old.faults }

        // Where the reader's bytes are known, they are passed on.
        ensures passes { PassesRead result buf.new
            (R.remaining self.old.inner) (R.remaining self.new.inner) }
    {
        match read_uninterrupted(&mut self.inner, buf) {
            Ok(0) => Got::End,
            Ok(count) => Got::Bytes(count),
            Err(_) => {
                self.faults = self.faults.saturating_add(1);
                Got::Failed
            }
        }
    }
}

// One read, made again where a signal interrupted it. The loop ends, since each loop has to: after
// 2^64 tries an interrupt is an error as any other.
fn read_uninterrupted<R: Read>(reader: &mut R, buf: &mut [u8]) -> io::Result<usize>
    ensures bound { ReadsAtMost result buf.new }
    ensures bytes { ReadConsumes (R.remaining reader.old) (R.remaining reader.new) result buf.new }
{
    for _ in 0..u64::MAX {
        match reader.read(buf) {
            // Why: docs/DECISIONS.md, "A read or write that a signal interrupted is made again"
            Err(error) if error.kind() == ErrorKind::Interrupted => {}
            answer => return answer,
        }
    }
    reader.read(buf)
}

/// A sink over a writer, as standard output is.
///
/// It counts the writer's errors, and a write that takes nothing as one. A write that a signal
/// interrupted is no error: it is made again, as std's own calls do. Nothing is flushed, so a writer
/// with a buffer of its own holds bytes back. As a sink it shows contracts no bytes. A contract sees
/// the writer and the count.
#[derive(Debug, Drop)]
pub struct OutputEdge<W> {
    inner: W,
    faults: u64,
}

impl<W> Model for OutputEdge<W> {
    ghost use Rattle.io_edges.specs.EdgeState.{EdgeState};

    ghost Value = { EdgeState W };

    ghost view = { λ e. record { inner = e.inner; faults = e.faults } };
}

impl<W: Write> OutputEdge<W> {
    /// A sink over this writer. Its count of errors is 0.
    pub fn new(inner: W) -> Self
        ensures { result ≡ record { inner = inner; faults = 0 } }
    {
        OutputEdge { inner, faults: 0 }
    }
}

impl<W: Write> Sink for OutputEdge<W> {
    ghost written = { λ _. None };

    ghost faults = { λ e. e.faults };

    ghost is_open = { λ _. true };

    fn write(&mut self, piece: &[u8]) -> Put
        requires { 0 < length piece.now }
        ensures bytes { Writes result piece.now None None }
        ensures cause { WriteCounts result self.old.faults self.new.faults }
        ensures never_falls { self.old.faults ≤ self.new.faults }

        // An error counts as one, until the end of the count's type.
        ensures once { result ≡ Put.Failed → self.new.faults ≡ one_more self.old.faults }

        // Where the writer's bytes are known, they are passed on.
        ensures passes { PassesWrite result piece.now
            (W.contents self.old.inner) (W.contents self.new.inner) }
    {
        match write_uninterrupted(&mut self.inner, piece) {
            Ok(count) if 0 < count => Put::Took(count),
            _ => {
                self.faults = self.faults.saturating_add(1);
                Put::Failed
            }
        }
    }
}

// One write, made again where a signal interrupted it, as often as a read is.
fn write_uninterrupted<W: Write>(writer: &mut W, piece: &[u8]) -> io::Result<usize>
    ensures bound { WritesAtMost result piece.now }
    ensures bytes { WriteAppends (W.contents writer.old) (W.contents writer.new) result piece.now }
{
    for _ in 0..u64::MAX {
        match writer.write(piece) {
            Err(error) if error.kind() == ErrorKind::Interrupted => {}
            answer => return answer,
        }
    }
    writer.write(piece)
}
