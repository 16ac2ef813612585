//! The bytes that rows are about.

use std::alloc::{AllocError, Global};

/// The number that is written there, if one is. It is parsed as one type alone, whatever it is for: each type's parser is proved again
/// where it is called.
pub fn number_in(text: &str) -> Option<i64> {
    text.parse::<i64>().ok()
}

/// The byte of two hexadecimal digits; 0 for another text.
fn byte_of(digits: &str) -> u8 {
    u8::try_from(i64::from_str_radix(digits, 16).unwrap_or(0)).unwrap_or(0)
}

/// Appends the bytes that the text has in hexadecimal digits.
fn append(bytes: &mut Vec<u8>, text: &str) -> Result<(), AllocError> {
    for digits in text.split(' ') {
        if !digits.is_empty() {
            bytes.push(byte_of(digits))?;
        }
    }
    Ok(())
}

/// Reads a line about the bytes, where it is one: `new` takes all of them away, and `bytes 57 52` appends some.
pub fn is_read(bytes: &mut Vec<u8>, line: &str) -> Result<bool, AllocError> {
    if line == "new" {
        bytes.clear();
        return Ok(true);
    }
    let Some(text) = line.strip_prefix("bytes ") else {
        return Ok(false);
    };
    append(bytes, text)?;
    Ok(true)
}

/// Puts the byte there, where the offset is among the bytes.
fn put(bytes: &mut Vec<u8>, place: &str, byte: u8) {
    let place = usize::try_from(number_in(place).unwrap_or(-1)).unwrap_or(usize::MAX);
    if let Some(there) = bytes.get_mut(place) {
        *there = byte;
    }
}

/// The bytes with changes: `4:02` puts the byte 2 at the offset 4, and `0A` is one more byte at the end.
pub fn changed(alloc: Global, bytes: &[u8], changes: &str) -> Result<Vec<u8>, AllocError> {
    let mut bytes = bytes.to_vec(alloc)?;
    for change in changes.split(' ') {
        match change.split_once(':') {
            Some((place, byte)) => put(&mut bytes, place, byte_of(byte)),
            None => append(&mut bytes, change)?,
        }
    }
    Ok(bytes)
}
