//! Takes bodies that were kept, with what workers made of them.

ghost use Rattle.std.specs.Prelude.{◌≤◌, ℕ, Bool, List, Ok, All, IfSome, length, reverse};
ghost use Rattle.rv_isa.specs.declared.compiled.Code.{Code as GivenCode};
ghost use Rattle.wasm_defs.specs.Outside.{Run as RunGiven};
ghost use Rattle.section_reader.specs.Onward.{after_parts};
ghost use Rattle.body_cutter.specs.Bodies.{body_of};
ghost use Rattle.body_compiler.specs.BatchRows.{IsCodeFor, Stores};
ghost use Rattle.module_stream.specs.Codes.{KeepsAlike};
ghost use Rattle.module_stream.specs.CutBodies.{coded_all};
ghost use Rattle.body_compiler.specs.BatchRows.{IsRowIf};
ghost use Rattle.module_stream.specs.Kept.{kept_bodies, AreFront};
ghost use Rattle.module_stream.specs.Progress.{IsJudging, CanTakeNext, CanTakeAll, TakesBody, TakesCode, TakesPart};
ghost use Rattle.module_stream.specs.Limits.{max_read};

use crate::bodies::{add_code, limit_at, take_code, take_counted};
use crate::codes::Codes;
use body_compiler::{Row, RowCode, Scratch, Stored};
use body_cutter::{Batch, Bodies, BodyView};
use index_spaces::ContextBuilder;
use result_cells::Cells;
use std::alloc::Global;
use std::sync::Arc;
use wasm_defs::FrontStop;

/// Takes the next body, of which a worker stored the code.
fn take_stored<'a>(
    scratch: &mut Scratch<'a>,
    spaces: &'a ContextBuilder,
    codes: &mut Codes,
    cells: &Cells,
    body: BodyView<'_>,
    index: u32,
    stored: Stored,
) -> Result<(), FrontStop>
    requires can { CanTakeNext spaces.now codes.old (body_of body) }
    requires code { (code : GivenCode) × Stores cells.now index stored code × TakesBody spaces.now codes.old.count (body_of body) (Ok code) }
    ensures takes { TakesCode spaces.now codes.old (body_of body.entry) result codes.new }
    ensures kept { KeepsAlike codes.old codes.new }
{
    match stored {
        Stored::Judged(words) => take_counted(scratch, spaces, codes, body, words),
        Stored::NoRoom(words, _) => take_counted(scratch, spaces, codes, body, words),
        Stored::Apart(_, _, code) => add_code(spaces, codes, body, &code),
        Stored::Cell(mut note, _) => match cells.get(index, &mut note) {
            Some(code) => add_code(spaces, codes, body, code),
            None => unreachable!(),
        },
        Stored::TooLong => Err(FrontStop::Refused(limit_at(body))),
    }
}

/// Takes the next body: with the code that a worker made, if it is at hand and of this function, and else by compiling it.
fn take_next<'a>(
    scratch: &mut Scratch<'a>,
    spaces: &'a ContextBuilder,
    codes: &mut Codes,
    cells: &Cells,
    body: BodyView<'_>,
    made: Option<RowCode>,
) -> Result<(), FrontStop>
    requires can { CanTakeNext spaces.now codes.old (body_of body) }
    requires made { IfSome made (IsCodeFor spaces.now cells.now (body_of body)) }
    ensures takes { TakesCode spaces.now codes.old (body_of body.entry) result codes.new }
    ensures kept { KeepsAlike codes.old codes.new }
{
    let Some(made) = made else {
        return take_code(scratch, spaces, codes, body);
    };
    let index = spaces.context().imported() + codes.count();
    if body.index == index {
        take_stored(scratch, spaces, codes, cells, body, index, made.stored)
    } else {
        take_code(scratch, spaces, codes, body)
    }
}

/// Takes the bodies of a batch in order, up to the first that has an error. The first of them have the codes that were made, of
/// which the last one is that of the first body.
fn take_bodies(
    alloc: Global,
    spaces: &ContextBuilder,
    codes: &mut Codes,
    cells: &Cells,
    bodies: &Bodies,
    mut made: Vec<RowCode>,
) -> Result<(), FrontStop>
    requires can { CanTakeAll spaces.now codes.old bodies.now }
    requires made { AreFront spaces.now cells.now bodies.now (reverse made.items) }
    ensures takes { (bytes : List ℕ) (left : RunGiven) (counted : Bool) → length bytes ≤ max_read
        → IsJudging bytes (after_parts (coded_all counted bodies.now) left) spaces.now codes.old
        → TakesPart bytes result left spaces.now codes.new }
    ensures kept { KeepsAlike codes.old codes.new }
{
    let mut scratch = Scratch::new(alloc, spaces.context());
    // Why: docs/DECISIONS.md, "The answer is worked out in the order of the bodies"
    for index in 0..bodies.count() {
        let body = bodies.get(index);
        match take_next(&mut scratch, spaces, codes, cells, body, made.pop()) {
            Ok(()) => {}
            Err(stop) => return Err(stop),
        }
    }
    Ok(())
}

/// The codes that a worker made of these bodies, the last one first: none where its row is another batch's, or isn't at hand.
fn made_of(
    alloc: Global,
    spaces: &ContextBuilder,
    cells: &Cells,
    bodies: &Bodies,
    row: Option<Row>,
) -> Vec<RowCode>
    requires { IsRowIf spaces.now cells.now row }
    ensures { AreFront spaces.now cells.now bodies.now (reverse result.items) }
{
    // (the contract alone needs these two)
    let _ = spaces;
    let _ = cells;
    let Some(row) = row else {
        return Vec::new(alloc);
    };
    if !bodies.is_same(&row.batch.bodies) {
        return Vec::new(alloc);
    }
    let mut made = row.codes.into_vec();
    made.reverse();
    made
}

/// The row with that number, if it is at hand.
fn row_of(
    spaces: &ContextBuilder,
    cells: &Cells,
    rows: &mut Vec<Option<Row>>,
    number: u32,
) -> Option<Row>
    requires { All (IsRowIf spaces.now cells.now) rows.old.items }
    ensures row { IsRowIf spaces.now cells.now result }
    ensures rows { All (IsRowIf spaces.now cells.now) rows.new.items }
{
    // (the contract alone needs these two)
    let _ = spaces;
    let _ = cells;
    let number = number as usize;
    if number < rows.len() {
        rows[number].take()
    } else {
        None
    }
}

/// Takes the bodies of all batches that were kept, with what workers made of them: the rows in the order of the batches, where they
/// are at hand.
pub fn take_kept(
    alloc: Global,
    spaces: &ContextBuilder,
    codes: &mut Codes,
    cells: &Cells,
    kept: Vec<Arc<Batch, Global>>,
    mut rows: Vec<Option<Row>>,
) -> Result<(), FrontStop>
    requires can { CanTakeAll spaces.now codes.old (kept_bodies kept.items) }
    requires rows { All (IsRowIf spaces.now cells.now) rows.items }
    ensures takes { (bytes : List ℕ) (left : RunGiven) (counted : Bool) → length bytes ≤ max_read
        → IsJudging bytes (after_parts (coded_all counted (kept_bodies kept.items)) left) spaces.now codes.old
        → TakesPart bytes result left spaces.now codes.new }
    ensures kept { KeepsAlike codes.old codes.new }
{
    for batch in kept {
        let row = row_of(spaces, cells, &mut rows, batch.number);
        let bodies = &batch.bodies;
        let made = made_of(alloc, spaces, cells, bodies, row);
        match take_bodies(alloc, spaces, codes, cells, bodies, made) {
            Ok(()) => {}
            Err(stop) => return Err(stop),
        }
    }
    Ok(())
}
