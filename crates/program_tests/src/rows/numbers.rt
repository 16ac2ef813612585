//! The numbers of a row.

/// The number that is written there; 0 for another text.
pub fn number_of(text: &str) -> usize {
    text.parse::<usize>().unwrap_or(0)
}
