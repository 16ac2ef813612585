//! Refusals as numbers, which the board keeps in a word.
ghost use Rattle.std.specs.Prelude.{◌≡◌, ◌%◌, ◌^◌, ◌<◌};
ghost use Rattle.wasm_defs.specs.Faults.{rank};
ghost use Rattle.cancel_drain.specs.Keys.{key_of, IsKey};

use wasm_defs::{Kind, Refusal};

fn kind_of(number: u64) -> Kind
    requires { number < 5 }
    ensures { rank result ≡ number }
{
    match number {
        0 => Kind::Malformed,
        1 => Kind::Unsupported,
        2 => Kind::Limit,
        3 => Kind::Invalid,
        _ => Kind::Ended,
    }
}

/// A refusal as one number: the lesser offset has the lesser key.
pub(crate) fn key_of(refusal: Refusal) -> u64
    requires { refusal.offset < 2 ^ 60 }
    ensures value { result ≡ key_of refusal }
    ensures key { IsKey result }
{
    8 * refusal.offset + refusal.kind as u64
}

/// The refusal that has this key.
pub(crate) fn refusal_of(key: u64) -> Refusal
    requires { key % 8 < 5 }
    ensures { key_of result ≡ key }
{
    Refusal {
        offset: key / 8,
        kind: kind_of(key % 8),
    }
}
