//! What tests have as text: rows of a table, with a question and the answer that is wanted, as `argument i32:5 = Some(I32(5))`; and
//! bytes.
#![tactic(auto)]

mod bytes;

pub use bytes::bytes_of;
use std::alloc::{AllocError, Global};

/// What a line asks, and the answer that is wanted; `None` where it is empty or a comment.
pub fn row_of(line: &str) -> Option<(&str, &str)> {
    if line.is_empty() || line.starts_with('#') {
        None
    } else {
        Some(line.split_once(" = ").unwrap_or((line, "")))
    }
}

/// What is printed of a row: nothing where its answer is the wanted one.
pub fn difference(
    alloc: Global,
    question: &str,
    told: &str,
    wanted: &str,
) -> Result<String, AllocError> {
    if told == wanted {
        return Ok(String::new(alloc));
    }
    format!(in alloc; "{question} = {told}, and not {wanted}\n")
}
