//! Why reading stops.

ghost use Rattle.std.specs.Prelude.{◌≡◌};
ghost use Rattle.leb_feed.specs.declared.stop.Stop.TheVariants.{NoMemory};

use std::alloc::{AllocError, AllocFailed};
use wasm_defs::Refusal;

/// Why reading a field, or fields in order, stops.
#[derive(Debug, Drop)]
pub enum Stop {
    /// A field has this error, whatever bytes follow. The error is at that field's first byte, and the fields before it
    /// have none.
    Refused(Refusal),
    /// The bytes that are there end inside a field, or before it, and some bytes after them may complete it: more are
    /// expected.
    Wants,
    /// Memory ran out. This says nothing of the fields.
    NoMemory,
}

impl From<AllocError> for Stop {
    ghost from_gives = { λ _ e. e ≡ NoMemory };

    fn from(_e: AllocError) -> Stop {
        Stop::NoMemory
    }
}

impl<T: Drop> From<AllocFailed<T>> for Stop {
    ghost from_gives = { λ _ e. e ≡ NoMemory };

    fn from(_e: AllocFailed<T>) -> Stop {
        Stop::NoMemory
    }
}
