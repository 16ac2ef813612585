//! The argument that says which bytes of a memory are shown.

ghost use Rattle.std.specs.Prelude.{◌≡◌};
ghost use Rattle.command_words.specs.Grammar.{is_short, peek_in, short_number};

use crate::reading::in_range;

/// Which bytes of a memory are shown: from an address on, so many.
#[derive(Clone, Copy, Debug, PartialEq, Eq)]
pub struct Peek {
    /// The address of the first byte, from 0 to 4,294,967,295.
    pub address: u64,
    /// How many bytes, from 1 to 4,096.
    pub count: u64,
}

/// The most digits that a number is written with.
const MOST_DIGITS: usize = 10;

/// Whether the string has no plus, and no more digits than may be.
fn is_short(text: &str) -> bool
    ensures { result ≡ is_short text.now }
{
    match text.as_bytes() {
        [b'+', ..] => false,
        digits => digits.len() <= MOST_DIGITS,
    }
}

/// The number that so many digits write, where it is in the range.
fn short_number(text: &str, least: u64, most: u64) -> Option<u64>
    ensures { result ≡ short_number least most text.now }
{
    if !is_short(text) {
        return None;
    }
    match text.parse::<u64>() {
        Ok(number) => in_range(Some(number), least, most),
        Err(_) => None,
    }
}

/// Reads `A:N`, where A and N are from 1 to 10 decimal digits, A from 0 to 4,294,967,295 and N from 1 to 4,096.
///
/// `None` for any other string.
pub fn peek_of(word: &str) -> Option<Peek>
    ensures { result ≡ peek_in word.now }
{
    let (address, count) = word.split_once(':')?;
    Some(Peek {
        address: short_number(address, 0, 4_294_967_295)?,
        count: short_number(count, 1, 4096)?,
    })
}
