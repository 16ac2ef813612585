//! The ways in which the program is given bytes, and what is reported of its answers.

use crate::calling::{
    answer_bytewise, answer_in_two, answer_to_line, difference_in_sinks, image_of,
};
use crate::rows::numbers::number_of;
use crate::rows::sources::held;
use image_format::{Image, read_image};
use std::alloc::{AllocError, Global};
use std::sync::Wait;
use std::test::Fail;
use std::thread::Threads;

/// Takes in one more answer: it comes after the others where it is another one than all of them.
fn add(told: &mut String, answer: &str) -> Result<(), AllocError> {
    if told.as_str() == answer {
        return Ok(());
    }
    told.push_str(answer)
}

/// Two numbers and what follows them.
fn numbers_of(text: &str) -> (usize, usize, &str) {
    let (first, rest) = text.split_once(' ').unwrap_or((text, ""));
    let (second, rest) = rest.split_once(' ').unwrap_or((rest, ""));
    (number_of(first), number_of(second), rest)
}

/// The answer to the bytes as a whole, and a byte at a time.
fn pieces<R: Threads + Wait + Sync>(
    rt: &R,
    alloc: Global,
    bytes: &[u8],
    line: &str,
) -> Result<String, Fail> {
    let mut told = answer_to_line(rt, alloc, line, bytes)?;
    add(
        &mut told,
        answer_bytewise(rt, alloc, line, bytes, None)?.as_str(),
    )?;
    Ok(told)
}

/// The like, also where the bytes are cut in two at each offset.
fn cuts<R: Threads + Wait + Sync>(
    rt: &R,
    alloc: Global,
    bytes: &[u8],
    line: &str,
) -> Result<String, Fail> {
    let mut told = pieces(rt, alloc, bytes, line)?;
    for place in 0..=bytes.len() {
        add(
            &mut told,
            answer_in_two(rt, alloc, line, bytes, place)?.as_str(),
        )?;
    }
    Ok(told)
}

/// The answer to a call of a module's export, and of its image's.
fn both<R: Threads + Wait + Sync>(
    rt: &R,
    alloc: Global,
    bytes: &[u8],
    call: &str,
) -> Result<String, Fail> {
    let run = format!(in alloc; "wstream run {call}")?;
    let mut told = answer_to_line(rt, alloc, run.as_str(), bytes)?;
    let image = image_of(rt, alloc, "wstream compile", bytes)?;
    let exec = format!(in alloc; "wstream exec {call}")?;
    add(
        &mut told,
        answer_to_line(rt, alloc, exec.as_str(), &image)?.as_str(),
    )?;
    Ok(told)
}

/// The answer where the source fails after any number of bytes from the first number to the second.
fn fails<R: Threads + Wait + Sync>(
    rt: &R,
    alloc: Global,
    bytes: &[u8],
    rest: &str,
) -> Result<String, Fail> {
    let (from, to, line) = numbers_of(rest);
    let mut told = String::new(alloc);
    for count in from..=to {
        add(
            &mut told,
            answer_bytewise(rt, alloc, line, bytes, Some(count))?.as_str(),
        )?;
    }
    Ok(told)
}

/// The answer to the first bytes, with `N` in place of their number where that is what the answer ends with.
fn answer_to_first<R: Threads + Wait + Sync>(
    rt: &R,
    alloc: Global,
    bytes: &[u8],
    line: &str,
) -> Result<String, Fail> {
    let told = pieces(rt, alloc, bytes, line)?;
    let end = format!(in alloc; "{}\n", bytes.len())?;
    match told.strip_suffix(end.as_str()) {
        Some(text) => Ok(format!(in alloc; "{text}N\n")?),
        None => Ok(told.clone()?),
    }
}

/// The answer to any number of the first bytes, from the first number to the second.
fn fronts<R: Threads + Wait + Sync>(
    rt: &R,
    alloc: Global,
    bytes: &[u8],
    rest: &str,
) -> Result<String, Fail> {
    let (from, to, line) = numbers_of(rest);
    let mut told = String::new(alloc);
    for count in from..=to.min(bytes.len()) {
        add(
            &mut told,
            answer_to_first(rt, alloc, &bytes[..count], line)?.as_str(),
        )?;
    }
    Ok(told)
}

/// What is reported of a sink that takes fewer bytes than an answer has; nothing where it is reported that it failed.
fn sinks_differ<R: Threads + Wait + Sync>(
    rt: &R,
    alloc: Global,
    bytes: &[u8],
    line: &str,
    told: &str,
) -> Result<String, Fail> {
    let (status, text) = told.split_once(' ').unwrap_or((told, ""));
    let status = (number_of(status) % 256) as u8;
    difference_in_sinks(rt, alloc, line, bytes, status, text.as_bytes())
}

/// The answer, and what is reported of a sink that takes fewer bytes than it has.
fn sinks<R: Threads + Wait + Sync>(
    rt: &R,
    alloc: Global,
    bytes: &[u8],
    line: &str,
) -> Result<String, Fail> {
    let mut told = answer_to_line(rt, alloc, line, bytes)?;
    let difference = sinks_differ(rt, alloc, bytes, line, told.as_str())?;
    told.push_str(difference.as_str())?;
    Ok(told)
}

/// The image that a line writes, and what is reported of a sink that takes fewer bytes than it has.
fn written<R: Threads + Wait + Sync>(
    rt: &R,
    alloc: Global,
    bytes: &[u8],
    line: &str,
) -> Result<String, Fail> {
    let image = image_of(rt, alloc, line, bytes)?;
    let mut told = difference_in_sinks(rt, alloc, line, bytes, 0, &image)?;
    for byte in &image {
        told.push_str(format!(in alloc; "{byte:02X} ")?.as_str())?;
    }
    Ok(told)
}

/// How many bytes the image has, if it is the same for batches of any size.
fn size<R: Threads + Wait + Sync>(rt: &R, alloc: Global, bytes: &[u8]) -> Result<String, Fail> {
    let image = image_of(rt, alloc, "wstream compile", bytes)?;
    for batch in ["1", "7", "1048576"] {
        let line = format!(in alloc; "wstream compile --batch {batch}")?;
        if image_of(rt, alloc, line.as_str(), bytes)? != image {
            return Err(Fail::new("another image"));
        }
    }
    Ok(format!(in alloc; "{} bytes", image.len())?)
}

/// What is in an image's table, how many segments it has, and whether it can't be linked.
fn parts_told(alloc: Global, image: &Image) -> Result<String, AllocError> {
    let mut told = String::new(alloc);
    for row in image.table.as_slice() {
        told.push_str(format!(in alloc; "{:X} {}, ", row.code, row.like)?.as_str())?;
    }
    let count = image.segments.as_slice().len();
    told.push_str(format!(in alloc; "{count} segments, {}", image.unlinkable)?.as_str())?;
    Ok(told)
}

fn parts<R: Threads + Wait + Sync>(rt: &R, alloc: Global, bytes: &[u8]) -> Result<String, Fail> {
    let written = image_of(rt, alloc, "wstream compile", bytes)?;
    let image = read_image(alloc, &written)?;
    Ok(parts_told(alloc, &image)?)
}

/// The answer to so many calls.
fn repeated<R: Threads + Wait + Sync>(
    rt: &R,
    alloc: Global,
    bytes: &[u8],
    rest: &str,
) -> Result<String, Fail> {
    let (count, _, line) = numbers_of(rest);
    let mut told = String::new(alloc);
    for _ in 0..count {
        add(&mut told, answer_to_line(rt, alloc, line, bytes)?.as_str())?;
    }
    Ok(told)
}

/// The answer to a question about bytes. Its first word says how the program is given them, and the others are those that it is called
/// with.
pub fn answer<R: Threads + Wait + Sync>(
    rt: &R,
    alloc: Global,
    bytes: &[u8],
    question: &str,
) -> Result<String, Fail> {
    let (way, rest) = question.split_once(' ').unwrap_or((question, ""));
    match way {
        "whole" => answer_to_line(rt, alloc, rest, bytes),
        "pieces" => pieces(rt, alloc, bytes, rest),
        "cuts" => cuts(rt, alloc, bytes, rest),
        "both" => both(rt, alloc, bytes, rest),
        "fails" => fails(rt, alloc, bytes, rest),
        "fronts" => fronts(rt, alloc, bytes, rest),
        "sinks" => sinks(rt, alloc, bytes, rest),
        "written" => written(rt, alloc, bytes, rest),
        "size" => size(rt, alloc, bytes),
        "parts" => parts(rt, alloc, bytes),
        "held" => held(rt, alloc, bytes),
        "repeated" => repeated(rt, alloc, bytes, rest),
        _ => Err(Fail::new("no question")),
    }
}
