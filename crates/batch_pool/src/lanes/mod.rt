//! One pool for several modules: each has a board, cells and a context of its own, and each ticket is served on those of its module.

mod crew;
mod lane;
mod many;
mod reading;

pub use crew::{Crew, JoinedMany, Lending, run_many};
pub use lane::{Desks, Lane, LaneDesk, LaneSeat, Seats, WorkedMany};
pub use many::work_many;
pub use reading::{ReadingMany, hand_over_at};
