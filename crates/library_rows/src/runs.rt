//! Runs of images, with a host that answers from the row.
ghost use Rattle.std.specs.Prelude.{true};

use crate::base::{changed, number_in};
use image_format::{Image, read_image};
use image_run::{Host, Instance, Outcome, Patch, Reply, call_checks, find_export, run_checks};
use std::alloc::{AllocError, Global};
use std::test::Fail;
use wasm_defs::{ValType, Value};

/// A host in memory: it gives its reply to each call, and keeps how many there were and what the last one was about.
#[derive(Drop)]
struct Listed {
    reply: Reply,
    calls: usize,
    number: u32,
    arguments: usize,
    memory: usize,
}

impl Host for Listed {
    ghost is_ready = { λ _. true };

    ghost answers = { λ _ _ _ _. Unit {0} };

    fn call(&mut self, number: u32, arguments: &[Value], memory: &[u8]) -> Reply {
        self.calls = self.calls.saturating_add(1);
        self.number = number;
        self.arguments = arguments.len();
        self.memory = memory.len();
        self.reply
    }
}

/// The number that is written there; 0 for another text.
fn i64_of(text: &str) -> i64 {
    number_in(text).unwrap_or(0)
}

fn i32_of(text: &str) -> i32 {
    i32::try_from(i64_of(text)).unwrap_or(0)
}

/// The value that a word is, if it is one.
fn value_of(word: &str) -> Option<Value> {
    let (ty, number) = word.split_once(':').unwrap_or((word, ""));
    match ty {
        "i32" => Some(Value::I32(i32_of(number))),
        "i64" => Some(Value::I64(i64_of(number))),
        _ => None,
    }
}

/// The same as a number without a sign.
fn number_of(text: &str) -> u32 {
    u32::try_from(i64_of(text)).unwrap_or(0)
}

/// So many bytes that a host writes at an address: they are 5, 6 and ones.
fn patch_of(place: u32, len: u8) -> Patch {
    Patch {
        place,
        bytes: [5, 6, 1, 1, 1, 1, 1, 1],
        len,
    }
}

/// The bytes that a host writes: `16+2` means two at 16.
fn patch_in(word: &str) -> Patch {
    let (place, len) = word.split_once('+').unwrap_or((word, ""));
    patch_of(number_of(place), (number_of(len) % 256) as u8)
}

/// A reply: `stop`, or a value, or `none`, each of the last two with bytes that the host writes where they are after a `@`.
fn reply_of(word: &str) -> Reply {
    if word == "stop" {
        return Reply::Stop;
    }
    match word.split_once('@') {
        Some((value, patch)) => Reply::Value(value_of(value), Some(patch_in(patch))),
        None => Reply::Value(value_of(word), None),
    }
}

fn values_of(alloc: Global, words: &str) -> Result<Vec<Value>, AllocError> {
    let mut values = Vec::new(alloc);
    for word in words.split(' ') {
        if let Some(value) = value_of(word) {
            values.push(value)?;
        }
    }
    Ok(values)
}

fn told_of(alloc: Global, types: &[ValType]) -> Result<String, Fail> {
    Ok(format!(in alloc; "{types:?}")?)
}

/// The parameters of what the image of the bytes exports by a name.
pub fn export_answer(alloc: Global, bytes: &[u8], name: &str) -> Result<String, Fail> {
    let image = read_image(alloc, bytes)?;
    match find_export(&image, name) {
        Some(export) => told_of(alloc, export.signature.params.as_slice()),
        None => Ok(String::from_str(alloc, "none")?),
    }
}

/// Why the export of a name can't be run with these arguments.
pub fn checks_answer(alloc: Global, bytes: &[u8], rest: &str) -> Result<String, Fail> {
    let image = read_image(alloc, bytes)?;
    let (name, words) = rest.split_once(' ').unwrap_or((rest, ""));
    let found = run_checks(&image, name, &values_of(alloc, words)?);
    Ok(format!(in alloc; "{found:?}")?)
}

/// The first bytes of a memory, as a number whose last digits are the first byte.
fn first_word(memory: &[u8]) -> u64 {
    if memory.len() < 8 {
        return 0;
    }
    u64::from_le_bytes([
        memory[0], memory[1], memory[2], memory[3], memory[4], memory[5], memory[6], memory[7],
    ])
}

/// How a call of an export with -1 and 42 ends, and its memory after it.
fn told(alloc: Global, image: &Image, name: &str, host: &mut Listed) -> Result<String, Fail> {
    let arguments = [Value::I64(-1), Value::I32(42)];
    if call_checks(image, name, &arguments).is_some() {
        return Err(Fail::new("not to be called"));
    }
    let mut instance = Instance::load(alloc, image)?;
    let outcome = instance.start_and_run(name, &arguments, host, 100);
    let results = match outcome {
        Outcome::Returned(1) => format!(in alloc; "{:?}", instance.result(0))?,
        Outcome::Returned(2) => {
            let (first, second) = (instance.result(0), instance.result(1));
            format!(in alloc; "{first:?} {second:?}")?
        }
        other => format!(in alloc; "{other:?}")?,
    };
    let memory = instance.memory();
    Ok(format!(in alloc;
        "{results} memory {:X} of {}",
        first_word(memory),
        memory.len()
    )?)
}

/// How a call of an export of the image of the bytes ends, with a host that gives a reply, and what it was called with. The row has the
/// name, the reply, and changes of the bytes.
pub fn call_answer(alloc: Global, bytes: &[u8], rest: &str) -> Result<String, Fail> {
    let (name, rest) = rest.split_once(' ').unwrap_or((rest, ""));
    let (reply, changes) = rest.split_once(' ').unwrap_or((rest, ""));
    let image = read_image(alloc, &changed(alloc, bytes, changes)?)?;
    let mut host = Listed {
        reply: reply_of(reply),
        calls: 0,
        number: 0,
        arguments: 0,
        memory: 0,
    };
    let told = told(alloc, &image, name, &mut host)?;
    if host.calls == 0 {
        return Ok(told);
    }
    Ok(format!(in alloc;
        "{told} after {} calls, of {} with {} arguments and {} bytes",
        host.calls, host.number, host.arguments, host.memory
    )?)
}
