//! The calls, and what they are compared with.

ghost use Rattle.std.specs.Prelude.{◌≡◌, ◌<◌, ◌^◌, ◌-◌, true};

use io_edges::{Flat, OpenGate, Page, Pieces, Source};
use std::alloc::{AllocError, Global};
use std::sync::Wait;
use std::test::Fail;
use std::thread::Threads;
use stream_compile::top;

/// The magic bytes and the version.
pub const HEADER: &str = "00 61 73 6D 01 00 00 00";

/// How many bytes a sink takes that is large enough for each line, and for the images of small modules.
const ROOM: usize = 65_536;

/// Each text as a word of a command line.
pub fn words_of(alloc: Global, texts: &[&str]) -> Result<Vec<String>, AllocError> {
    let mut words = Vec::new(alloc);
    for text in texts {
        words.push(String::from_str(alloc, text)?)?;
    }
    Ok(words)
}

/// The words of a line.
fn words_in(alloc: Global, line: &str) -> Result<Vec<String>, AllocError> {
    let mut words = Vec::new(alloc);
    for word in line.split(' ') {
        words.push(String::from_str(alloc, word)?)?;
    }
    Ok(words)
}

/// Calls the program, with a sink that takes so many bytes: the status, and what was written.
pub fn call<R: Threads + Wait + Sync, S: Source>(
    rt: &R,
    alloc: Global,
    words: &Vec<String>,
    source: &mut S,
    room: usize,
) -> Result<(u8, Vec<u8>), AllocError>
    requires faults { S.faults source.old < 2 ^ 64 - 1 }
    requires open { S.is_open source.old ≡ true }
{
    let mut page = Page::new(alloc, room)?;
    let status = top(rt, alloc, words, source, &mut page, &OpenGate);
    let written = Vec::from_slice(alloc, page.bytes())?;
    Ok((status, written))
}

/// A status, and the text that was written.
fn told(alloc: Global, status: u8, written: &[u8]) -> Result<String, Fail> {
    let text = str::from_utf8(written)?;
    Ok(format!(in alloc; "{status} {text}")?)
}

/// The answer to the words of a line.
pub fn answer_to_line<R: Threads + Wait + Sync>(
    rt: &R,
    alloc: Global,
    line: &str,
    bytes: &[u8],
) -> Result<String, Fail> {
    let words = words_in(alloc, line)?;
    let (status, written) = call(rt, alloc, &words, &mut Flat::new(bytes), ROOM)?;
    told(alloc, status, &written)
}

/// The answer to the words of a line, where the source gives these pieces, and fails after so many bytes.
fn answer_in_pieces<R: Threads + Wait + Sync>(
    rt: &R,
    alloc: Global,
    line: &str,
    pieces: &[Vec<u8>],
    fails_at: Option<usize>,
) -> Result<String, Fail> {
    let words = words_in(alloc, line)?;
    let mut source = Pieces::new(alloc, pieces, fails_at)?;
    let (status, written) = call(rt, alloc, &words, &mut source, ROOM)?;
    told(alloc, status, &written)
}

/// The answer to the words of a line, where the source gives a byte at a time, and fails after so many.
pub fn answer_bytewise<R: Threads + Wait + Sync>(
    rt: &R,
    alloc: Global,
    line: &str,
    bytes: &[u8],
    fails_at: Option<usize>,
) -> Result<String, Fail> {
    let mut pieces = Vec::new(alloc);
    for byte in bytes {
        pieces.push(Vec::from_slice(alloc, &[*byte])?)?;
    }
    answer_in_pieces(rt, alloc, line, &pieces, fails_at)
}

/// The answer to the words of a line, where the source gives so many bytes, and then the others.
pub fn answer_in_two<R: Threads + Wait + Sync>(
    rt: &R,
    alloc: Global,
    line: &str,
    bytes: &[u8],
    place: usize,
) -> Result<String, Fail> {
    let (first, second) = bytes.split_at(place.min(bytes.len()));
    let mut pieces = Vec::new(alloc);
    for piece in [first, second] {
        if !piece.is_empty() {
            pieces.push(Vec::from_slice(alloc, piece)?)?;
        }
    }
    answer_in_pieces(rt, alloc, line, &pieces, None)
}

/// The bytes that the words of a line write for a module, where they make its image.
pub fn image_of<R: Threads + Wait + Sync>(
    rt: &R,
    alloc: Global,
    line: &str,
    bytes: &[u8],
) -> Result<Vec<u8>, Fail> {
    let words = words_in(alloc, line)?;
    let (status, written) = call(rt, alloc, &words, &mut Flat::new(bytes), ROOM)?;
    if status != 0 {
        return Err(Fail::new("no image"));
    }
    Ok(written)
}

/// The first sink that takes fewer bytes than are to be written, and into which not just those are written with the status 7, or whether
/// one that takes all of them is given another status or text; else nothing.
pub fn difference_in_sinks<R: Threads + Wait + Sync>(
    rt: &R,
    alloc: Global,
    line: &str,
    bytes: &[u8],
    status: u8,
    text: &[u8],
) -> Result<String, Fail> {
    let words = words_in(alloc, line)?;
    for room in 0..=text.len() {
        let want = if room < text.len() { 7 } else { status };
        let (told, written) = call(rt, alloc, &words, &mut Flat::new(bytes), room)?;
        if told != want || written.as_slice() != &text[..room] {
            return Ok(format!(in alloc; "{line} into {room} bytes: {told}")?);
        }
    }
    Ok(String::new(alloc))
}
