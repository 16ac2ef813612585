//! What a worker did.
use body_compiler::Rows;
use cancel_drain::BoardSeat;

/// What a worker did until no more tickets came, or memory ran out.
#[derive(Drop)]
pub struct Worked {
    pub seat: BoardSeat,
    pub rows: Rows,
    /// Memory ran out.
    pub starved: bool,
}
