//! What a worker is lent of several modules.
use crate::scope::Desk;
use body_compiler::Row;
use cancel_drain::{Board, BoardSeat};
use index_spaces::Context;
use result_cells::Cells;

/// What the batches of one module are worked off by.
#[derive(Drop)]
pub struct Lane<'a> {
    /// The module's number.
    pub module: u32,
    /// Where its batches are claimed, and its errors reported.
    pub board: Board,
    /// The cells of its functions, where codes are kept.
    pub cells: Cells,
    /// Its index spaces.
    pub context: &'a Context,
}

/// A seat at a lane's board, and the rows that were made there.
#[derive(Drop)]
pub struct LaneSeat {
    pub seat: BoardSeat,
    pub rows: Vec<Row>,
}

/// A seat at the board of each lane, in the order of the lanes.
pub type Seats = Vec<LaneSeat>;

/// Where the thread that reads hands batches over at a lane's board, and the rows that were gathered there.
#[derive(Drop)]
pub struct LaneDesk {
    pub desk: Desk,
    pub rows: Vec<Row>,
}

/// A desk at the board of each lane, in the order of the lanes.
pub type Desks = Vec<LaneDesk>;

/// What a worker did for several modules until no more tickets came, or memory ran out.
#[derive(Drop)]
pub struct WorkedMany {
    pub seats: Seats,
    /// Memory ran out.
    pub starved: bool,
}
