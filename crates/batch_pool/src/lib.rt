//! Tickets of batches, in queues from which idle workers steal.
//!
//! The feeder has a queue, and so has each hand. A hand takes from its own queue first, and then from the others: what it
//! steals in addition to the ticket that it returns goes into its own queue. A worker has a hand, and serves what it takes.
//! `run_beside` starts a thread for each worker, in parallel with the thread that feeds them, and joins them all.
#![tactic(auto)]

mod batch_compiler;
mod feeder;
mod hand;
mod idle;
mod lanes;
mod laws;
mod pool;
mod queue;
mod rule;
mod scope;
mod serving;
mod thief;
mod ticket;
mod worked;
mod worker;

pub use batch_compiler::BatchCompiler;
pub use feeder::Feeder;
pub use hand::Hand;
pub use lanes::{
    Crew, Desks, JoinedMany, Lane, LaneDesk, LaneSeat, Lending, ReadingMany, Seats, WorkedMany,
    hand_over_at, run_many, work_many,
};
pub use laws::row_law;
pub use pool::{Pool, keep_freed, workers_for};
pub use scope::{
    Desk, Joined, Labour, Reading, Settled, by_number, join_all, keep, labour_at, run_beside,
    settle, take_in,
};
pub use serving::{fits, serve, serve_fitting};
pub use ticket::Ticket;
pub use worked::Worked;
pub use worker::work;
