//! Bodies of nested control, made by a generator of pseudo-random numbers, on the machine and by a plain interpreter of the
//! reduction rules (WebAssembly Core 1.0, 4.4.5).

mod generator;
mod interpreter;
mod tokens;

use crate::calling::{HEADER, answer_to_line};
use generator::body_of;
use interpreter::{End, run_of};
use std::alloc::{AllocError, Global};
use std::sync::Wait;
use std::test::Fail;
use std::thread::Threads;
use test_rows::bytes_of;
use tokens::{Token, push_token};

/// How many bodies are tried, each with every argument.
const BODIES: u64 = 300;

const ARGUMENTS: [i32; 4] = [0, 1, 5, -1];

/// The most reductions of a run: loops end before.
const MOST_STEPS: usize = 200_000;

/// A length of at most two bytes as LEB128 (Core 5.2.2), always as two, so that lengths don't depend on one another.
fn push_length(bytes: &mut Vec<u8>, length: usize) -> Result<(), AllocError> {
    bytes.push((length % 128) as u8 + 128)?;
    bytes.push((length / 128 % 128) as u8)?;
    Ok(())
}

/// The module that exports as `f` a function of type [i32] to [i32], with two locals in addition to its parameter, and this body.
fn module_of(alloc: Global, tokens: &[Token]) -> Result<Vec<u8>, Fail> {
    let mut code = Vec::new(alloc);
    for byte in [1, 2, 0x7F] {
        code.push(byte)?;
    }
    for token in tokens {
        push_token(&mut code, *token)?;
    }
    let mut module = bytes_of(
        alloc,
        &[
            HEADER,
            "01 06 01 60 01 7F 01 7F 03 02 01 00 07 05 01 01 66 00 00 0A",
        ],
    )?;
    push_length(&mut module, code.len().saturating_add(3))?;
    module.push(1)?;
    push_length(&mut module, code.len())?;
    for byte in &code {
        module.push(*byte)?;
    }
    Ok(module)
}

/// The offset of a token in its module: after a first part of 33 bytes and the declaration of the locals.
fn offset_of(alloc: Global, tokens: &[Token], at: usize) -> Result<usize, Fail> {
    let mut bytes = Vec::new(alloc);
    for (i, token) in tokens.iter().enumerate() {
        if i < at {
            push_token(&mut bytes, *token)?;
        }
    }
    Ok(bytes.len().saturating_add(36))
}

/// The program's answer where the run of a body ends so.
fn line_of(alloc: Global, tokens: &[Token], end: End) -> Result<String, Fail> {
    Ok(match end {
        End::Returned(value) => format!(in alloc; "0 i32 {value}\n")?,
        End::Trapped(at) => {
            let offset = offset_of(alloc, tokens, at)?;
            format!(in alloc; "4 trap unreachable in function 0 at {offset}\n")?
        }
        End::Lost(why) => return Err(Fail::new(why)),
    })
}

/// What the program answers in another way than the interpreter, or nothing.
fn difference<R: Threads + Wait + Sync>(
    rt: &R,
    alloc: Global,
    tokens: &[Token],
) -> Result<String, Fail> {
    let module = module_of(alloc, tokens)?;
    for argument in ARGUMENTS {
        let want = line_of(alloc, tokens, run_of(alloc, tokens, argument, MOST_STEPS)?)?;
        let line = format!(in alloc; "wstream run f i32:{argument}")?;
        let told = answer_to_line(rt, alloc, line.as_str(), &module)?;
        if told.as_str() != want.as_str() {
            return Ok(format!(in alloc; "{line}: {told} and not {want}")?);
        }
    }
    Ok(String::new(alloc))
}

/// The differences of all bodies.
fn differences<R: Threads + Wait + Sync>(rt: &R, alloc: Global) -> Result<String, Fail> {
    let mut told = String::new(alloc);
    for seed in 0..BODIES {
        let tokens = body_of(alloc, seed)?;
        told.push_str(difference(rt, alloc, &tokens)?.as_str())?;
    }
    Ok(told)
}

#[test]
fn nested_control_runs_by_the_reduction_rules(rt: HostRuntime) -> Result<(), Fail> {
    assert_eq!(rt; differences(&rt, rt.alloc())?.as_str(), "");
    Ok(())
}
