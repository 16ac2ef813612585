//! The most instruction words that a body's code may have.

ghost use Rattle.std.specs.Prelude.{◌≤◌};

use body_cutter::BodyView;
use index_spaces::Context;
use wasm_defs::FuncType;

/// The most values that a function, a block or a branch of these types takes or leaves.
fn most_values(types: &[FuncType]) -> u64
    ensures { result ≤ 1000 }
{
    let mut most = 0;
    for ty in types {
        most = most
            .max(ty.params.as_slice().len())
            .max(ty.results.as_slice().len());
    }
    most.min(1000) as u64
}

/// Whether a body is so long that its code may have more instruction words than so many: a byte of it has at most 80 of them, and six
/// more for each value that a branch takes along. It tells only whether they are worth counting (`measure`) before they are made.
pub fn may_be_longer(context: &Context, body: BodyView<'_>, words: u64) -> bool {
    let bytes = body.bytes.len() as u64;
    if bytes <= words / 6080 {
        return false;
    }
    let types = context.types();
    // where the types would take longer than the body, branches may take along as many values as any
    let values = if types.len() as u64 <= bytes {
        most_values(types)
    } else {
        1000
    };
    words / (80 + 6 * values) < bytes
}
