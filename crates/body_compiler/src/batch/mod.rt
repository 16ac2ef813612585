//! A batch of bodies, compiled by whoever takes it.

mod bodies;
mod row;

pub use bodies::compile_batch;
pub use row::{Row, RowCode, RowCodes, Rows, Stored};
