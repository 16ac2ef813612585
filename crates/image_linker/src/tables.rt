//! The rows of an image's table, which element segments write.

ghost use Rattle.std.specs.Prelude.{◌≡◌, ◌↔◌, ◌+◌, ◌≤◌, ◌<◌, true, length, map, slice_get, slice_set, IsTrue, IfOk};
ghost use Rattle.wasm_defs.specs.Instances.{first_minimum, over, all_over, all_fit};
ghost use Rattle.index_spaces.specs.Entries.{written_rows};
ghost use Rattle.image_linker.specs.Linking.{like_of, linked_row, linked_elements, linked_rows};

use crate::linking::start_at;
use crate::spaces::first_minimum;
use image_format::Row;
use index_spaces::{Context, ElementRow};
use std::alloc::{AllocError, Global};

/// The address of a text's first instruction word.
const TEXT_BASE: u64 = 0x1000_0000;

/// Whether a table of so many rows has room for an element segment.
fn has_rows(rows: u32, segment: &ElementRow) -> bool
    ensures { IsTrue result ↔ (segment.now.place + length segment.now.functions ≤ rows) }
{
    let size = u64::from(rows);
    segment.place <= size && segment.functions.as_slice().len() as u64 <= size - segment.place
}

/// Whether it has room for all of them (Core 4.5.4).
pub(crate) fn have_rows(rows: u32, segments: &[ElementRow]) -> bool
    ensures { result ≡ all_fit rows (written_rows segments.now) }
{
    for segment in segments {
        if !has_rows(rows, segment) {
            return false;
        }
    }
    true
}

/// The canonical type index of a function: the least of an equal type, or 0 where the function has none.
fn like_of(context: &Context, function: u32) -> u32
    ensures { result ≡ like_of context.now.types (slice_get context.now.functions function) }
{
    // Why: docs/DECISIONS.md, "The index that stands for a function's type in its row is looked up by the function's index"
    match context.type_index(function) {
        Some(index) => {
            if context.has_type(index) {
                context.like(index)
            } else {
                0
            }
        }
        None => 0,
    }
}

/// The row of a function, where functions begin at these indices of the text.
fn row_of(context: &Context, starts: &[u32], function: u32) -> Row
    ensures { result ≡ linked_row context.now starts.now function }
{
    Row {
        code: TEXT_BASE + 4 * u64::from(start_at(starts, function)),
        like: u64::from(like_of(context, function)),
    }
}

/// Writes a row.
fn set(rows: &mut [Row], at: usize, row: Row)
    requires { at < length rows.old }
    ensures { rows.new ≡ slice_set rows.old at row }
{
    rows[at] = row;
}

/// Writes the rows of functions over others, from an index on.
fn write(rows: &mut [Row], place: usize, functions: &[u32], context: &Context, starts: &[u32])
    requires { place + length functions.now ≤ length rows.old }
    ensures { rows.new ≡ over rows.old (place, map (linked_row context.now starts.now) functions.now) }
{
    for (i, function) in functions.iter().enumerate() {
        set(rows, place + i, row_of(context, starts, *function));
    }
}

/// Writes all element segments, in order.
fn write_all(rows: &mut [Row], segments: &[ElementRow], context: &Context, starts: &[u32])
    requires { all_fit (length rows.old) (written_rows segments.now) ≡ true }
    ensures { rows.new ≡ all_over rows.old (linked_elements context.now starts.now segments.now) }
{
    for segment in segments {
        let place = segment.place as usize;
        write(rows, place, segment.functions.as_slice(), context, starts);
    }
}

/// The rows of the table: those that element segments write where all segments of the module are in bounds, and else none has a
/// function.
pub(crate) fn rows_of(
    alloc: Global,
    context: &Context,
    starts: &[u32],
    linkable: bool,
) -> Result<Vec<Row>, AllocError>
    requires { linkable ≡ true → all_fit (first_minimum context.now.tables) (written_rows context.now.elements) ≡ true }
    ensures { IfOk result (λ rows. rows.items ≡ linked_rows context.now starts.now linkable) }
{
    let count = first_minimum(context.tables());
    let mut rows = vec![in alloc; Row { code: 0, like: 0 }; count as usize]?;
    if linkable {
        write_all(&mut rows, context.elements(), context, starts);
    }
    Ok(rows)
}
