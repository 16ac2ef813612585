//! Sources and sinks in memory, and real ones over readers and writers that answer from a list.
ghost use Rattle.std.specs.Prelude.{◌≤◌, IfOk};

use io_edges::{
    Flat, Gate, Go, Input, InputEdge, OpenGate, OutputEdge, Page, Pieces, Source, read_all,
    write_all,
};
use std::alloc::{AllocError, Global};
use std::io;
use std::io::{ErrorKind, Read, Write};
use std::test::Fail;

/// The pieces of a text, with a space between them; `-` is one without bytes.
fn pieces_of(alloc: Global, text: &str) -> Result<Vec<Vec<u8>>, AllocError> {
    let mut pieces = Vec::new(alloc);
    for piece in text.split(' ') {
        let bytes = if piece == "-" { "" } else { piece };
        pieces.push(Vec::from_slice(alloc, bytes.as_bytes())?)?;
    }
    Ok(pieces)
}

/// What three reads of pieces give, and the first bytes of the buffer after the first two.
fn read_thrice(alloc: Global, fails_at: Option<usize>) -> Result<String, Fail> {
    let pieces = pieces_of(alloc, "ab - c -")?;
    let mut source = Pieces::new(alloc, &pieces, fails_at)?;
    let mut buf = [0; 8];
    let first = source.read(&mut buf);
    let ab = (buf[0], buf[1]);
    let second = source.read(&mut buf);
    let c = buf[0];
    let third = source.read(&mut buf);
    Ok(format!(in alloc; "{first:?} {ab:?} {second:?} {c} {third:?}")?)
}

#[test]
fn a_read_gives_bytes_of_one_piece(rt: HostRuntime) -> Result<(), Fail> {
    assert_eq!(rt;
        read_thrice(rt.alloc(), None)?.as_str(),
        "Bytes(2) (97, 98) Bytes(1) 99 End"
    );
    assert_eq!(rt;
        read_thrice(rt.alloc(), Some(1))?.as_str(),
        "Bytes(1) (97, 0) Failed 97 Failed"
    );
    Ok(())
}

/// What was read: the bytes, and why reading stopped.
fn told(alloc: Global, input: &Input) -> Result<String, Fail> {
    let text = str::from_utf8(input.bytes.as_slice()).unwrap_or("");
    Ok(format!(in alloc; "{text} {:?}", input.stop)?)
}

/// Pieces, the number of the byte at which reading fails or none, and the greatest number of bytes; what is read.
const READS: &str = "\
w a - s m; -; 100 = wasm End
w a - s m; -; 4 = wasm Full
w a - s m; -; 3 = was Full
w a - s m; -; 0 =  Full
w a - s m; 0; 100 =  Failed
w a - s m; 3; 100 = was Failed
w a - s m; 3; 3 = was Full
w a - s m; 4; 100 = wasm Failed
w a - s m; 5; 100 = wasm End
-; -; 100 =  End
-; 0; 100 =  Failed";

/// What is read of the pieces of a row.
fn read_pieces(alloc: Global, row: &str) -> Result<String, Fail> {
    let (pieces, rest) = row.split_once("; ").unwrap_or((row, ""));
    let (fails_at, limit) = rest.split_once("; ").unwrap_or((rest, ""));
    let pieces = pieces_of(alloc, pieces)?;
    let mut source = Pieces::new(alloc, &pieces, fails_at.parse().ok())?;
    let input = read_all(alloc, &mut source, limit.parse().unwrap_or(0))?;
    told(alloc, &input)
}

#[test]
fn whole_reads_of_pieces(rt: HostRuntime) -> Result<(), Fail> {
    for line in READS.lines() {
        let (row, want) = line.split_once(" = ").unwrap_or((line, ""));
        assert_eq!(rt; read_pieces(rt.alloc(), row)?.as_str(), want, "{row}");
    }
    Ok(())
}

/// What two reads of a flat source give.
fn read_flat(alloc: Global) -> Result<String, Fail> {
    let mut source = Flat::new(b"wasm");
    let mut buf = [0; 3];
    let got = source.read(&mut buf);
    let input = read_all(alloc, &mut source, 100)?;
    let rest = told(alloc, &input)?;
    Ok(format!(in alloc; "{got:?} {buf:?} {rest}")?)
}

#[test]
fn a_flat_source_gives_its_slice(rt: HostRuntime) -> Result<(), Fail> {
    assert_eq!(rt;
        read_flat(rt.alloc())?.as_str(),
        "Bytes(3) [119, 97, 115] m End"
    );
    Ok(())
}

/// How many bytes a page takes, and a text; whether all of it is taken, and what is.
const PAGES: &str = "\
100; i32 5 = true i32 5
5; i32 5 = true i32 5
2; i32 5 = false i3
0; i32 5 = false \n0;  = true ";

/// What a page takes of a text.
fn write_page(alloc: Global, row: &str) -> Result<String, Fail> {
    let (room, text) = row.split_once("; ").unwrap_or((row, ""));
    let mut page = Page::new(alloc, room.parse().unwrap_or(0))?;
    let taken = write_all(&mut page, text.as_bytes());
    let written = str::from_utf8(page.bytes()).unwrap_or("");
    Ok(format!(in alloc; "{taken} {written}")?)
}

#[test]
fn a_page_fails_where_it_is_full(rt: HostRuntime) -> Result<(), Fail> {
    for line in PAGES.lines() {
        let (row, want) = line.split_once(" = ").unwrap_or((line, ""));
        assert_eq!(rt; write_page(rt.alloc(), row)?.as_str(), want, "{row}");
    }
    Ok(())
}

#[derive(Clone, Copy)]
enum Call {
    Moves(usize),
    Interrupted,
    Fails,
}

// A reader and a writer that answer their calls from a list, and count the bytes that they moved.
#[derive(Drop)]
struct Scripted<'a> {
    calls: &'a [Call],
    made: usize,
    moved: usize,
}

impl<'a> Scripted<'a> {
    fn new(calls: &'a [Call]) -> Self {
        Scripted {
            calls,
            made: 0,
            moved: 0,
        }
    }

    fn answer(&mut self, len: usize) -> io::Result<usize>
        ensures { IfOk result (λ count. count ≤ len) }
    {
        let call = self.calls.get(self.made).copied();
        self.made = self.made.saturating_add(1);
        match call.unwrap_or(Call::Moves(0)) {
            Call::Moves(most) => {
                let count = most.min(len);
                self.moved = self.moved.saturating_add(count);
                Ok(count)
            }
            Call::Interrupted => Err(io::Error::from(ErrorKind::Interrupted)),
            Call::Fails => Err(io::Error::from(ErrorKind::BrokenPipe)),
        }
    }
}

impl<'a> Read for Scripted<'a> {
    fn read(&mut self, buf: &mut [u8]) -> io::Result<usize> {
        let count = self.answer(buf.len())?;
        buf[..count].fill(b'x');
        Ok(count)
    }
}

impl<'a> Write for Scripted<'a> {
    fn write(&mut self, buf: &[u8]) -> io::Result<usize> {
        self.answer(buf.len())
    }

    fn flush(&mut self) -> io::Result<()> {
        Ok(())
    }
}

/// The calls of a list: how many bytes it moves at most, `i` for one that is interrupted, `f` for one that fails.
fn calls_of(alloc: Global, text: &str) -> Result<Vec<Call>, AllocError> {
    let mut calls = Vec::new(alloc);
    for word in text.split(' ') {
        calls.push(match word {
            "i" => Call::Interrupted,
            "f" => Call::Fails,
            count => Call::Moves(count.parse().unwrap_or(0)),
        })?;
    }
    Ok(calls)
}

/// The calls of a reader, and what is read.
const INPUTS: &str = "\
2 i i 1 = xxx End
2 f 1 = xx Failed
i f =  Failed
0 =  End";

/// What is read over a reader.
fn read_over(alloc: Global, row: &str) -> Result<String, Fail> {
    let calls = calls_of(alloc, row)?;
    let mut source = InputEdge::new(Scripted::new(&calls));
    let input = read_all(alloc, &mut source, 100)?;
    told(alloc, &input)
}

#[test]
fn an_input_edge_reads_on_after_an_interrupt(rt: HostRuntime) -> Result<(), Fail> {
    for line in INPUTS.lines() {
        let (row, want) = line.split_once(" = ").unwrap_or((line, ""));
        assert_eq!(rt; read_over(rt.alloc(), row)?.as_str(), want, "{row}");
    }
    Ok(())
}

#[test]
fn an_input_edge_reads_a_slice(rt: HostRuntime) -> Result<(), Fail> {
    let mut source = InputEdge::new(b"wasm".as_slice());
    let input = read_all(rt.alloc(), &mut source, 100)?;
    assert_eq!(rt; told(rt.alloc(), &input)?.as_str(), "wasm End");
    Ok(())
}

/// The calls of a writer; whether all of four bytes is taken, and how many are.
const OUTPUTS: &str = "\
4 = true 4
1 i 9 = true 4
1 0 9 = false 1
3 f 9 = false 3
i f = false 0";

/// What is written over a writer.
fn write_over(alloc: Global, row: &str) -> Result<String, Fail> {
    let calls = calls_of(alloc, row)?;
    let mut writer = Scripted::new(&calls);
    let taken = write_all(&mut OutputEdge::new(&mut writer), b"wasm");
    Ok(format!(in alloc; "{taken} {}", writer.moved)?)
}

#[test]
fn an_output_edge_fails_where_nothing_is_taken(rt: HostRuntime) -> Result<(), Fail> {
    for line in OUTPUTS.lines() {
        let (row, want) = line.split_once(" = ").unwrap_or((line, ""));
        assert_eq!(rt; write_over(rt.alloc(), row)?.as_str(), want, "{row}");
    }
    Ok(())
}

#[test]
fn an_output_edge_writes_to_a_vector(rt: HostRuntime) -> Result<(), Fail> {
    let mut written = Vec::new(rt.alloc());
    let taken = write_all(&mut OutputEdge::new(&mut written), b"wasm");
    assert_eq!(rt; (taken, written.as_slice()), (true, b"wasm".as_slice()));
    Ok(())
}

fn asks<G: Gate>(gate: &G) -> Go {
    let go = gate.enter(3, 0);
    gate.finished(3);
    go
}

#[test]
fn an_open_gate_runs_at_once(rt: HostRuntime) {
    assert_eq!(rt; asks(&OpenGate), Go::Run);
}
