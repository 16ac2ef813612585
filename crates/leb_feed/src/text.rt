//! UTF-8 (WebAssembly Core 1.0, 5.2.4), read from the left, and whose bytes may come in pieces.

ghost use Rattle.std.specs.Prelude.{◌≡◌, Some};
ghost use Rattle.wasm_defs.specs.Text.{between, first_byte, next_byte, completes};
ghost use Rattle.leb_feed.specs.Texts.{text_state};

use wasm_defs::Inside;

fn due(due: u8, least: u8, most: u8) -> Option<Inside>
    ensures { result ≡ Some (record { due = due; least = least; most = most }) }
{
    Some(Inside { due, least, most })
}

/// After a character's first byte (Unicode's table of well-formed sequences).
fn first_byte(byte: u8) -> Option<Inside>
    ensures { result ≡ first_byte byte }
{
    match byte {
        0x00..=0x7F => due(0, 0, 0),
        0x80..=0xC1 => None,
        0xC2..=0xDF => due(1, 0x80, 0xBF),
        0xE0 => due(2, 0xA0, 0xBF),
        0xED => due(2, 0x80, 0x9F),
        0xE1..=0xEF => due(2, 0x80, 0xBF),
        0xF0 => due(3, 0x90, 0xBF),
        0xF1..=0xF3 => due(3, 0x80, 0xBF),
        0xF4 => due(3, 0x80, 0x8F),
        0xF5..=0xFF => None,
    }
}

fn next_byte(inside: Inside, byte: u8) -> Option<Inside>
    ensures { result ≡ next_byte inside byte }
{
    if inside.due == 0 {
        return first_byte(byte);
    }
    if byte < inside.least || inside.most < byte {
        return None;
    }
    due(inside.due - 1, 0x80, 0xBF)
}

/// The state of UTF-8 between two characters.
pub fn between() -> Inside
    ensures { Some result ≡ between }
{
    Inside {
        due: 0,
        least: 0,
        most: 0,
    }
}

/// The state of UTF-8 after these bytes, if they are right so far.
pub fn state_after(mut inside: Inside, bytes: &[u8]) -> Option<Inside>
    ensures { result ≡ text_state (Some inside) bytes.now }
{
    for byte in bytes {
        inside = next_byte(inside, *byte)?;
    }
    Some(inside)
}

/// Whether some bytes after these complete UTF-8 of so many bytes.
#[tactic(auto, using(crate::proofs::Texts::completes_after))]
pub fn completes(room: u32, text: &[u8]) -> bool
    ensures { result ≡ completes room between text.now }
{
    match state_after(between(), text) {
        Some(inside) => usize::from(inside.due) <= (room as usize).saturating_sub(text.len()),
        None => false,
    }
}
