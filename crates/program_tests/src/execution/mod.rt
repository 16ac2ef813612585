//! What functions do that the program calls, against answers that others give: operations against Rust's own integers, and nested control
//! against a plain interpreter.

mod control;
mod operations;
