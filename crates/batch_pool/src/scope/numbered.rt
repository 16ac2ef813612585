//! Rows by the numbers of their batches.
ghost use Rattle.std.specs.Prelude.{◌≡◌, ◌<◌, ℕ, Some, None, All, IfOk, length, slice_get};
ghost use Rattle.body_compiler.specs.BatchRows.{IsRowOf, IsRowIf};
ghost use Rattle.batch_pool.specs.Numbered.{row_numbered};

use body_compiler::Row;
use index_spaces::Context;
use result_cells::Cells;
use std::alloc::{AllocError, Global};

/// So many entries, none of which has a row.
fn places(
    alloc: Global,
    context: &Context,
    cells: &Cells,
    count: usize,
) -> Result<Vec<Option<Row>>, AllocError>
    ensures rows { IfOk result (λ v. All (IsRowIf context.now cells.now) v.items) }
    ensures count { IfOk result (λ v. length v.items ≡ count) }
    ensures empty { IfOk result (λ v. All (λ p. p ≡ None) v.items) }
{
    // (the contract alone needs these two)
    let _ = context;
    let _ = cells;
    let mut places = Vec::with_capacity(alloc, count)?;
    for _ in 0..count {
        places.push(None)?;
    }
    Ok(places)
}

/// The rows of so many batches, each at the index that is its batch's number: the last one of several of a number, and none where
/// there is none. Those of numbers past the last index are left out.
pub fn by_number(
    alloc: Global,
    context: &Context,
    cells: &Cells,
    rows: Vec<Row>,
    count: usize,
) -> Result<Vec<Option<Row>>, AllocError>
    requires { All (IsRowOf context.now cells.now) rows.items }
    ensures rows { IfOk result (λ v. All (IsRowIf context.now cells.now) v.items) }
    ensures count { IfOk result (λ v. length v.items ≡ count) }
    ensures places { IfOk result (λ v. (i : ℕ) → i < count → slice_get v.items i ≡ Some (row_numbered i rows.items)) }
{
    let mut places = places(alloc, context, cells, count)?;
    for row in rows {
        let number = row.batch.number as usize;
        if number < places.len() {
            places[number] = Some(row);
        }
    }
    Ok(places)
}
