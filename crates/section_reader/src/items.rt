//! Items for a reader that passes over bodies: the entries of each section (WebAssembly Core 1.0, 5.5.2).

ghost use Rattle.std.specs.Prelude.{◌≡◌};
ghost use Rattle.wasm_defs.specs.Outside.{Listed};
ghost use Rattle.leb_feed.specs.Reads.{Reads};
ghost use Rattle.section_reader.specs.Outline.{outline_row};
ghost use Rattle.section_reader.specs.Stages.{passes};

use crate::entries::{
    code, data_count, element, exported, function, global, imported, memory, segment, signature,
    start, table,
};
use crate::sections::{CODE, DATA};
use crate::seen::Seen;
use leb_feed::{Fields, Stop};
use std::alloc::Global;
use wasm_defs::Item;

/// The next entry of a section, by its position.
pub fn next_item(
    fields: &mut Fields<'_>,
    alloc: Global,
    position: u8,
    seen: &Seen,
) -> Result<Item, Stop>
    ensures { Reads ((outline_row position).entry seen.now) Listed result fields.old fields.new }
{
    let item = match position {
        1 => signature(fields, alloc, seen)?,
        2 => imported(fields, alloc, seen)?,
        3 => function(fields, seen)?,
        4 => table(fields, seen)?,
        5 => memory(fields, seen)?,
        6 => global(fields, seen)?,
        7 => exported(fields, alloc, seen)?,
        8 => start(fields, seen)?,
        9 => element(fields, alloc, seen)?,
        10 => data_count(fields, seen)?,
        11 => code(fields, seen)?,
        12 => segment(fields, alloc, seen)?,
        _ => start(fields, seen)?,
    };
    Ok(item)
}

/// Whether what a section has left after its entries is passed over: that of a custom section, and the bodies.
pub fn is_passed_over(position: u8) -> bool
    ensures { result ≡ passes position }
{
    position == 0 || position == CODE || DATA < position
}
