//! The limit on a text.

ghost use Rattle.std.specs.Prelude.{◌≡◌, ◌≤◌, ◌<◌, ◌+◌, ◌*◌, ◌^◌, nat_lt, length};
ghost use Rattle.wasm_defs.specs.Limits.{max_text};
ghost use Rattle.image_linker.specs.ImageOf.{front_of};
ghost use Rattle.image_linker.specs.TextLimits.{IsTextLimit};

use crate::imports::stub_words;
use code_list::CodeList;
use index_spaces::Context;
use wasm_defs::{Kind, MAX_TEXT, Refusal};

/// Whether a text with so many instruction words of functions has more than 268,435,456 bytes. Before them come the exit stub and the
/// stubs of so many imports.
pub fn passes_limit(imported: u64, words: u128) -> bool
    requires { words < 2 ^ 81 }
    ensures { result ≡ nat_lt max_text (4 * (front_of imported + words)) }
{
    u128::from(MAX_TEXT) < 4 * (stub_words(imported) + words)
}

/// The error of the text limit, where the codes of a module's declared functions, in the order of their indices, pass it. For each
/// code there is the offset in the module at which the size of its body stands.
///
/// Before the codes come the exit stub and the stubs of the imports. The error is `Limit`, at the size of the first body with whose
/// code the text has more than 268,435,456 bytes.
pub fn text_limit(context: &Context, codes: &CodeList, size_offsets: &[u64]) -> Option<Refusal>
    requires { length codes.now ≤ length size_offsets.now }
    ensures { IsTextLimit context.now codes.now size_offsets.now result }
{
    // Why: docs/DECISIONS.md, "`text_limit` is for those who have all codes"
    let imported = context.imports().len() as u64;
    let mut words = 0;
    for index in 0..codes.count() {
        words += codes.get(index).words as u128;
        if passes_limit(imported, words) {
            return Some(Refusal {
                offset: size_offsets[index],
                kind: Kind::Limit,
            });
        }
    }
    None
}
