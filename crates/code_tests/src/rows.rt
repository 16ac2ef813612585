//! Tables of rows: a line each, with a question and the answer that is wanted after ` = `.

use std::alloc::{AllocError, Global};

/// The numbers that the text has in hexadecimal digits.
pub fn numbers_of(alloc: Global, text: &str) -> Result<Vec<u64>, AllocError> {
    let mut numbers = Vec::new(alloc);
    for digits in text.split(' ') {
        if !digits.is_empty() {
            numbers.push(u64::from_str_radix(digits, 16).unwrap_or(0))?;
        }
    }
    Ok(numbers)
}

/// The bytes that the text has in hexadecimal digits.
pub fn bytes_of(alloc: Global, text: &str) -> Result<Vec<u8>, AllocError> {
    let mut bytes = Vec::new(alloc);
    for digits in text.split(' ') {
        if !digits.is_empty() {
            bytes.push(u8::from_str_radix(digits, 16).unwrap_or(0))?;
        }
    }
    Ok(bytes)
}

/// The words that the text has in hexadecimal digits.
pub fn words_of(alloc: Global, text: &str) -> Result<Vec<u32>, AllocError> {
    let mut words = Vec::new(alloc);
    for digits in text.split(' ') {
        if !digits.is_empty() {
            words.push(u32::from_str_radix(digits, 16).unwrap_or(0))?;
        }
    }
    Ok(words)
}

/// The words as text, each with eight digits and a space.
pub fn text_of(alloc: Global, words: &[u32]) -> Result<String, AllocError> {
    let mut text = String::new(alloc);
    for word in words {
        text.push_str(format!(in alloc; "{word:08X} ")?.as_str())?;
    }
    Ok(text)
}

/// What a row of a table asks, and the answer that is wanted.
pub fn parts_of(row: &str) -> (&str, &str) {
    row.split_once(" = ").unwrap_or((row, ""))
}

/// A number as one of 32 bits, or 0 where it is larger.
pub fn narrow(number: u64) -> u32 {
    u32::try_from(number).unwrap_or(0)
}
