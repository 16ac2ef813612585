//! Compiles the bodies of a batch.
ghost use Rattle.std.specs.Prelude.{◌≡◌, ◌<◌, ◌≤◌, All, IfOk, length};
ghost use Rattle.std.specs.Arc.{arc_value};
ghost use Rattle.wasm_defs.specs.Limits.{max_body};
ghost use Rattle.body_cutter.specs.Bodies.{body_of};
ghost use Rattle.body_compiler.specs.LowBatches.{IsLow, IsLowBody};
ghost use Rattle.body_compiler.specs.BatchRows.{IsMade, IsRow, IsRowOf, IsRoomFor, FitsBody, Stores};

use crate::batch::row::{Row, RowCode, RowCodes, Stored};
use crate::code::BodyStop;
use crate::compiling::compile;
use crate::fitting::fitted;
use crate::longest::may_be_longer;
use crate::measuring::measure;
use crate::scratch::Scratch;
use body_cutter::{Batch, Bodies, BodyView};
use index_spaces::Context;
use result_cells::{Cells, Put, Reservation, Shortage};
use rv_isa::Code;
use std::alloc::{AllocError, Global};
use std::sync::Arc;
use wasm_defs::Refusal;

/// The most instruction words that a worker makes of one body, 4 MiB: each worker may be at such a body.
const MAX_DRAFT: u64 = 1_048_576;

/// What compiling a body made.
#[derive(Drop)]
pub enum Made {
    Coded(RowCode),
    Faulty(Refusal),
    /// Nothing: no room was left for any code.
    Cut(Shortage),
}

/// Puts a code into the cell of its function, or keeps it apart where that cell holds another one. Room for its words was taken.
fn keep(
    alloc: Global,
    cells: &Cells,
    index: u32,
    code: Code,
    taken: Reservation,
) -> Result<Stored, AllocError>
    requires index { index < length cells.now.names }
    requires room { IsRoomFor cells.now taken code }
    ensures { IfOk result (λ s. Stores cells.now index s code) }
{
    let code = Arc::new(alloc, fitted(code))?;
    let mut note = cells.note(index);
    Ok(match cells.put(index, &mut note, &code)? {
        Put::Placed => Stored::Cell(note, taken),
        Put::Clash(_) => Stored::Apart(note, taken, code),
    })
}

/// Takes room for the instruction words of a code, and keeps it where there is room. Where there isn't, the words are counted.
fn store(alloc: Global, cells: &Cells, index: u32, code: Code) -> Result<Stored, AllocError>
    requires index { index < length cells.now.names }
    ensures { IfOk result (λ s. Stores cells.now index s code) }
{
    let words = code.words.len() as u64;
    match cells.take_room(words) {
        Ok(taken) => keep(alloc, cells, index, code, taken),
        Err(short) => Ok(Stored::NoRoom(words, short)),
    }
}

/// That a code is too long for any text: nothing is left of the room then.
fn too_long(cells: &Cells) -> Stored
    ensures { result ≡ Stored.TooLong }
{
    let _ = cells.take_room(u64::MAX);
    Stored::TooLong
}

/// Compiles a body whose function has a cell, and stores its code unless that is too long for any text.
fn make_code<'a>(
    scratch: &mut Scratch<'a>,
    cells: &Cells,
    context: &'a Context,
    body: BodyView<'_>,
) -> Result<Made, AllocError>
    requires fits { FitsBody context.now (body_of body) }
    requires low { IsLowBody (body_of body) }
    requires small { length body.bytes.now ≤ max_body }
    requires cell { body.index < length cells.now.names }
    ensures { IfOk result (IsMade context.now cells.now (body_of body.entry)) }
{
    let stored = match compile(scratch, context, body.index, body.bytes, body.first) {
        Ok(code) => store(scratch.alloc, cells, body.index, code)?,
        Err(BodyStop::TooLong) => too_long(cells),
        Err(BodyStop::Refused(refusal)) => return Ok(Made::Faulty(refusal)),
        Err(BodyStop::NoMemory) => return Err(AllocError),
    };
    Ok(Made::Coded(RowCode {
        index: body.index,
        stored,
    }))
}

/// Validates a body, and counts the instruction words of its code. Where they are more than a worker makes, or the function has no cell,
/// they take room all the same, and else it is compiled.
fn count_body<'a>(
    scratch: &mut Scratch<'a>,
    cells: &Cells,
    context: &'a Context,
    body: BodyView<'_>,
) -> Result<Made, AllocError>
    requires fits { FitsBody context.now (body_of body) }
    requires low { IsLowBody (body_of body) }
    requires small { length body.bytes.now ≤ max_body }
    ensures { IfOk result (IsMade context.now cells.now (body_of body.entry)) }
{
    let stored = match measure(scratch, context, body.index, body.bytes, body.first) {
        Ok(words) => {
            if body.index < cells.count() && words <= MAX_DRAFT {
                return make_code(scratch, cells, context, body);
            }
            let _ = cells.take_room(words);
            Stored::Judged(words)
        }
        Err(BodyStop::TooLong) => too_long(cells),
        Err(BodyStop::Refused(refusal)) => return Ok(Made::Faulty(refusal)),
        Err(BodyStop::NoMemory) => return Err(AllocError),
    };
    Ok(Made::Coded(RowCode {
        index: body.index,
        stored,
    }))
}

/// Compiles a body, and stores its code unless that is too long for any text; where its function has no cell, or its code is longer than a
/// worker makes, the code is only counted. Where no room is left for any code, the body is left out.
fn compile_body<'a>(
    scratch: &mut Scratch<'a>,
    cells: &Cells,
    context: &'a Context,
    body: BodyView<'_>,
) -> Result<Made, AllocError>
    requires fits { FitsBody context.now (body_of body) }
    requires low { IsLowBody (body_of body) }
    requires small { length body.bytes.now ≤ max_body }
    ensures { IfOk result (IsMade context.now cells.now (body_of body.entry)) }
{
    // Why: docs/DECISIONS.md, "Cells have room for as many words as a text"
    if let Some(short) = cells.exhausted() {
        return Ok(Made::Cut(short));
    }
    // Why: docs/DECISIONS.md, "A worker makes no long code"
    if body.index < cells.count() && !may_be_longer(context, body, MAX_DRAFT) {
        make_code(scratch, cells, context, body)
    } else {
        count_body(scratch, cells, context, body)
    }
}

/// Compiles bodies, up to the first with an error, or until no room is left for any code: their codes, and what it stopped at.
fn compile_bodies(
    alloc: Global,
    cells: &Cells,
    context: &Context,
    bodies: &Bodies,
) -> Result<(Vec<RowCode>, Option<Refusal>, Option<Shortage>), AllocError>
    requires fits { All (FitsBody context.now) bodies.now }
    requires low { All IsLowBody bodies.now }
    ensures { IfOk result (λ made. IsRow context.now cells.now bodies.now made.0.items made.1 made.2) }
{
    let mut codes = Vec::new(alloc);
    let mut scratch = Scratch::new(alloc, context);
    for index in 0..bodies.count() {
        let body = bodies.get(index);
        match compile_body(&mut scratch, cells, context, body)? {
            Made::Coded(code) => codes.push(code)?,
            Made::Faulty(refusal) => return Ok((codes, Some(refusal), None)),
            Made::Cut(short) => return Ok((codes, None, Some(short))),
        }
    }
    Ok((codes, None, None))
}

/// Compiles the bodies of a batch, up to the first with an error, or until no room is left in the cells for any code.
pub fn compile_batch(
    alloc: Global,
    cells: &Cells,
    context: &Context,
    batch: Arc<Batch, Global>,
) -> Result<Row, AllocError>
    requires fits { All (FitsBody context.now) (arc_value batch).bodies }
    requires low { IsLow (arc_value batch) }
    ensures row { IfOk result (IsRowOf context.now cells.now) }
    ensures batch { IfOk result (λ row. arc_value row.batch ≡ arc_value batch) }
{
    let (codes, fault, cut) = compile_bodies(alloc, cells, context, &batch.bodies)?;
    Ok(Row {
        batch,
        codes: RowCodes::new(codes),
        fault,
        cut,
    })
}
