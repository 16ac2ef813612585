//! Where bytes come from and where they go.
//!
//! A [`Source`] is read and a [`Sink`] is written. Each keeps a count of its errors, so that a caller
//! can tell whether a call ended by an error: the count **rose** in the call where it is greater at
//! the call's end than at its start, or is 2^64 - 1, the end of its type.
//!
//! - In memory: [`Flat`] and [`Pieces`] are sources whose bytes a contract knows, and [`Page`] is a
//!   sink that keeps what was written.
//! - Real: [`InputEdge`] and [`OutputEdge`] are over a reader and a writer, as standard input and
//!   output are. No contract knows their bytes.
//! - A [`Gate`] lets a caller hold workers back, and [`OpenGate`] never does.
//! - [`read_all`] and [`write_all`] read and write whole inputs and outputs.
#![tactic(auto)]

mod edges;
mod flat;
mod gate;
mod page;
mod pieces;
mod reading;
mod sink;
mod source;
mod writing;

pub use edges::{InputEdge, OutputEdge};
pub use flat::Flat;
pub use gate::{Gate, Go, OpenGate};
pub use page::Page;
pub use pieces::Pieces;
pub use reading::{Input, Stop, read_all};
pub use sink::{Put, Sink};
pub use source::{Got, Source};
pub use writing::write_all;
