//! What comes of a batch.
use body_cutter::Batch;
use result_cells::{CellNote, Reservation, Shortage};
use rv_isa::Code;
use std::alloc::Global;
use std::sync::Arc;
use wasm_defs::{Refusal, Sequence};

/// What a row keeps of a body's code.
#[derive(Drop)]
pub enum Stored {
    /// The code is in the cell of the body's function, and the note knows it. Room for its words was taken.
    Cell(CellNote, Reservation),
    /// The code, and a note of that cell, which knows that it holds another one. Room for its words was taken.
    Apart(CellNote, Reservation, Arc<Code, Global>),
    /// How many instruction words the code has: the function has no cell, or they are more than a worker makes, so the body was only
    /// validated.
    Judged(u64),
    /// How many instruction words the code has: the codes that are kept left fewer, so the body was only validated.
    NoRoom(u64, Shortage),
    /// The instruction words of the code are more than a text may have: it isn't kept.
    TooLong,
}

/// The code of a body.
#[derive(Drop)]
pub struct RowCode {
    /// The index of the body's function.
    pub index: u32,
    pub stored: Stored,
}

/// The codes of a row, in the order of its bodies.
pub type RowCodes = Sequence<RowCode>;

/// What came of a batch: the codes of its bodies, or of those before the first with an error, and that error. Where no room is left
/// in the cells for any code, the bodies that would be compiled next have none.
#[derive(Drop)]
pub struct Row {
    pub batch: Arc<Batch, Global>,
    pub codes: RowCodes,
    pub fault: Option<Refusal>,
    /// That no room was left for any code, where bodies without an error have none.
    pub cut: Option<Shortage>,
}

/// Rows, in the order in which they were made.
pub type Rows = Sequence<Row>;
