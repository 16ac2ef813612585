//! Workers in threads of their own, in parallel with the thread that feeds them.

mod beside;
mod desk;
mod gathering;
mod labour;
mod numbered;
mod settling;

pub use beside::{Joined, Reading, run_beside};
pub use desk::Desk;
pub use gathering::{join_all, take_in};
pub use labour::{Labour, labour_at};
pub use numbered::by_number;
pub use settling::{Settled, keep, settle};
