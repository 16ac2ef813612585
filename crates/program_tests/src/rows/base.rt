//! The bytes that rows are about.

use crate::calling::HEADER;
use crate::rows::numbers::number_of;
use std::alloc::Global;
use std::test::Fail;
use test_rows::bytes_of;

/// Appends so many times the bytes of the text.
fn fill(alloc: Global, bytes: &mut Vec<u8>, count: usize, text: &str) -> Result<(), Fail> {
    let more = bytes_of(alloc, &[text])?;
    for _ in 0..count {
        bytes.extend_from_slice(more.as_slice())?;
    }
    Ok(())
}

/// Reads a line about the bytes, where it is one. `module 01 04` begins a module with its header and these bytes, `image 57 52` bytes
/// without a header; `bytes 0A` appends some, `fill 10 00` so many times the same, and `cut 10` keeps so many.
pub fn is_read(alloc: Global, bytes: &mut Vec<u8>, line: &str) -> Result<bool, Fail> {
    let (kind, text) = line.split_once(' ').unwrap_or((line, ""));
    match kind {
        "module" => {
            bytes.clear();
            fill(alloc, bytes, 1, HEADER)?;
            fill(alloc, bytes, 1, text)?;
        }
        "image" => {
            bytes.clear();
            fill(alloc, bytes, 1, text)?;
        }
        "bytes" => fill(alloc, bytes, 1, text)?,
        "fill" => {
            let (count, text) = text.split_once(' ').unwrap_or((text, ""));
            fill(alloc, bytes, number_of(count), text)?;
        }
        "cut" => bytes.truncate(number_of(text)),
        _ => return Ok(false),
    }
    Ok(true)
}
