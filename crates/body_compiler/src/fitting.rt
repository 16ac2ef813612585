//! The room that a code takes.

ghost use Rattle.std.specs.Prelude.{◌≡◌};

use rv_isa::{Code, Relocations, TrapSites};

/// The same code, in no more room than its instruction words, its relocations and its traps need: for a code that is kept. What
/// can't be moved, since memory runs out, stays where it is.
pub(crate) fn fitted(code: Code) -> Code
    ensures { result ≡ code }
{
    let Code {
        mut words,
        relocations,
        traps,
        need,
    } = code;
    words.shrink_to_fit();
    let mut relocations = relocations.into_vec();
    relocations.shrink_to_fit();
    let mut traps = traps.into_vec();
    traps.shrink_to_fit();
    Code {
        words,
        relocations: Relocations::from_vec(relocations),
        traps: TrapSites::from_vec(traps),
        need,
    }
}
