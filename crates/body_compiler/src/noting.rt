//! Where a body's tokens trap.

ghost use Rattle.std.specs.Prelude.{◌≡◌, ℕ, ◌++◌, length, OnOk};
ghost use Rattle.body_validator.specs.Checking.{guarded};
ghost use Rattle.control_emit.specs.Walks.{token_sites};

use frame_layout::note_traps;
use rv_isa::{TrapSite, WordBuffer};
use std::alloc::AllocError;
use wasm_defs::Token;

/// Notes the traps of a token with this offset, whose instruction words follow these, at a point that is
/// reachable or not.
#[inline(always)]
pub fn note_token(
    sites: &mut Vec<TrapSite>,
    words: &WordBuffer,
    live: bool,
    offset: u64,
    token: &Token,
) -> Result<(), AllocError>
    ensures { (height : ℕ) → OnOk result (sites.new.items ≡ sites.old.items ++ token_sites token.now (guarded live height) (length words.now) offset) }
{
    if !live {
        return Ok(());
    }
    match token {
        Token::Plain(plain) => note_traps(sites, words, offset, plain),
        _ => Ok(()),
    }
}
