//! Rows of a table against what the program answers, by its one call. A line of the input has a question and the answer that is wanted,
//! as `whole wstream check = "0 ok 1 functions 41 bytes\n"`, or a part of the bytes that the questions after it are about. The answers
//! were worked out by hand.
//!
//! The program prints the rows whose answers are others, each with its answer, and how many rows there are. What a row can't say is a test:
//! threads, sources that hold a byte back, operations against Rust's integers, random bodies against an interpreter.
#![tactic(auto)]

mod calling;
#[cfg(test)]
mod execution;
#[cfg(test)]
mod gates;
mod rows;

use rows::{answer, is_read};
use std::test::Fail;
use test_rows::{difference, row_of};

fn main(rt: HostRuntime) -> Result<(), Fail> {
    let alloc = rt.alloc();
    let mut bytes = Vec::new(alloc);
    let mut rows = 0u64;
    for line in rt.lines(alloc) {
        let line = line?;
        let Some((question, wanted)) = row_of(line.as_str()) else {
            continue;
        };
        if is_read(alloc, &mut bytes, line.as_str())? {
            continue;
        }
        rows = rows.saturating_add(1);
        let told = answer(&rt, alloc, &bytes, question)?;
        let shown = format!(in alloc; "{told:?}")?;
        print!(rt; "{}", difference(alloc, question, shown.as_str(), wanted)?)?;
    }
    println!(rt; "{rows} rows")?;
    Ok(())
}
