//! Rows of a table against what the libraries answer. A line of the input has a question and the answer that is wanted, as
//! `argument i32:5 = Some(I32(5))`, or a part of the bytes that the questions after it are about. The answers were worked out by hand.
//!
//! The program prints the rows whose answers are others, each with its answer, and how many rows there are.
#![tactic(auto)]

mod base;
mod commands;
mod images;
mod runs;

use commands::{argument_answer, command_answer, peek_answer};
use images::{image_answer, place_answer};
use runs::{call_answer, checks_answer, export_answer};
use std::alloc::Global;
use std::test::Fail;
use test_rows::{difference, row_of};

/// The answer to a question. The bytes are those of the lines before it.
fn answer(alloc: Global, bytes: &[u8], question: &str) -> Result<String, Fail> {
    let (kind, rest) = question.split_once(' ').unwrap_or((question, ""));
    match kind {
        "argument" => argument_answer(alloc, rest),
        "peek" => peek_answer(alloc, rest),
        "words" => command_answer(alloc, rest),
        "image" => image_answer(alloc, bytes, rest),
        "place" => place_answer(alloc, bytes, rest),
        "export" => export_answer(alloc, bytes, rest),
        "checks" => checks_answer(alloc, bytes, rest),
        "call" => call_answer(alloc, bytes, rest),
        _ => Err(Fail::new("no question")),
    }
}

fn main(rt: HostRuntime) -> Result<(), Fail> {
    let alloc = rt.alloc();
    let mut bytes = Vec::new(alloc);
    let mut rows = 0u64;
    for line in rt.lines(alloc) {
        let line = line?;
        let Some((question, wanted)) = row_of(line.as_str()) else {
            continue;
        };
        if base::is_read(&mut bytes, line.as_str())? {
            continue;
        }
        rows = rows.saturating_add(1);
        let told = answer(alloc, &bytes, question)?;
        print!(rt; "{}", difference(alloc, question, told.as_str(), wanted)?)?;
    }
    println!(rt; "{rows} rows")?;
    Ok(())
}
