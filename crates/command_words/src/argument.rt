//! Arguments of a function, as the command line gives them.

ghost use mir.Syntax.{w32, w64};
ghost use Rattle.std.specs.Prelude.{◌≡◌};
ghost use Rattle.command_words.specs.Arguments.{ReadsArgument, ReadsNumber, argument_in, is_plain};

/// An argument of a function.
#[derive(Clone, Copy, Debug, PartialEq, Eq)]
pub enum Argument {
    /// A value of the type i32, as a signed number.
    I32(i32),
    /// A value of the type i64, as a signed number.
    I64(i64),
}

/// The most digits that a number is written with.
const MOST_DIGITS: usize = 20;

/// Whether the string has no plus, and after a minus no more digits than may be.
fn is_plain(text: &str) -> bool
    ensures { result ≡ is_plain text.now }
{
    match text.as_bytes() {
        // Why: docs/DECISIONS.md, "Numbers of options are read as clap's ranged reader of unsigned numbers reads them"
        [b'+', ..] => false,
        [b'-', digits @ ..] => digits.len() <= MOST_DIGITS,
        digits => digits.len() <= MOST_DIGITS,
    }
}

fn i32_of(text: &str) -> Option<i32>
    ensures { ReadsNumber w32 text.now result }
{
    if is_plain(text) {
        text.parse::<i32>().ok()
    } else {
        None
    }
}

fn i64_of(text: &str) -> Option<i64>
    ensures { ReadsNumber w64 text.now result }
{
    if is_plain(text) {
        text.parse::<i64>().ok()
    } else {
        None
    }
}

/// Reads `i32:N` or `i64:N`, where N is an optional minus and from 1 to 20 decimal digits, and a number of that signed type.
///
/// `None` for any other string.
pub fn argument_of(word: &str) -> Option<Argument>
    ensures reads { ReadsArgument word.now result }
    ensures value { result ≡ argument_in word.now }
{
    if let Some(text) = word.strip_prefix("i32:") {
        i32_of(text).map(Argument::I32)
    } else if let Some(text) = word.strip_prefix("i64:") {
        i64_of(text).map(Argument::I64)
    } else {
        None
    }
}
