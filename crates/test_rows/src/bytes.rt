//! Bytes that a test has as text.

use std::alloc::Global;
use std::test::Fail;

/// The bytes that the texts have in hexadecimal digits, one after the other.
pub fn bytes_of(alloc: Global, texts: &[&str]) -> Result<Vec<u8>, Fail> {
    let mut bytes = Vec::new(alloc);
    for text in texts {
        for digits in text.split(' ') {
            if !digits.is_empty() {
                bytes.push(u8::from_str_radix(digits, 16)?)?;
            }
        }
    }
    Ok(bytes)
}
