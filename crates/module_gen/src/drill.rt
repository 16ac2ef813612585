//! The drill: a module with many small functions, and one that calls them all.

ghost use Rattle.std.specs.Prelude.{◌≡◌, ◌≤◌, ◌<◌, ◌+◌, ◌*◌, ◌^◌, ◌++◌, length, IfOk, OnOk};
ghost use Rattle.std.specs.List.{flat_map};
ghost use Rattle.wasm_defs.specs.Outside.{magic, version};
ghost use Rattle.module_gen.specs.Numbers.{signed, unsigned};
ghost use Rattle.module_gen.specs.Drill.{adder, below, call, code, drill_bytes, exports, functions, runner, types};

use crate::numbers::{SIGNED_END, UNSIGNED_END, put_number, spelling_size};
use std::alloc::{AllocError, Global};

/// The magic, the version, and the section of types: i32 to i32, and nothing to i32.
const FRONT: [u8; 20] = [
    0x00, 0x61, 0x73, 0x6D, 0x01, 0x00, 0x00, 0x00, 0x01, 0x0A, 0x02, 0x60, 0x01, 0x7F, 0x01, 0x7F,
    0x60, 0x00, 0x01, 0x7F,
];

fn put_unsigned(out: &mut Vec<u8>, number: u32) -> Result<(), AllocError>
    ensures { OnOk result (out.new.items ≡ out.old.items ++ unsigned number) }
{
    put_number(out, UNSIGNED_END, number)
}

/// How many bytes a body of so many bytes has with its size.
fn sized(size: u32) -> u32
    requires { size < 2 ^ 31 }
    ensures value { result ≡ length (unsigned size) + size }
    ensures few { result ≤ size + 5 }
{
    spelling_size(UNSIGNED_END, size) + size
}

/// How many bytes the body of the function that adds `i` has, without its size.
fn adder_content_size(i: u32) -> u32
    ensures value { result ≡ 6 + length (signed i) }
    ensures few { result ≤ 11 }
{
    6 + spelling_size(SIGNED_END, i)
}

/// How many bytes the bodies of the first `n` functions have.
#[tactic(auto, using(crate::proofs::Lists::length_more, crate::proofs::Lists::adder_length))]
fn adders_size(n: u32) -> u32
    requires { n ≤ 50000 }
    ensures value { result ≡ length (flat_map adder (below n)) }
    ensures few { result ≤ 16 * n }
{
    let mut size = 0;
    for i in 0..n {
        size += sized(adder_content_size(i));
    }
    size
}

/// How many bytes the calls of the first `n` functions have.
#[tactic(auto, using(crate::proofs::Lists::length_more, crate::proofs::Lists::call_length))]
fn calls_size(n: u32) -> u32
    requires { n ≤ 50000 }
    ensures value { result ≡ length (flat_map call (below n)) }
    ensures few { result ≤ 6 * n }
{
    let mut size = 0;
    for i in 0..n {
        size += 1 + spelling_size(UNSIGNED_END, i);
    }
    size
}

/// The section of functions: `n` of the first type, and one of the second.
fn put_functions(out: &mut Vec<u8>, n: u32) -> Result<(), AllocError>
    requires { n ≤ 50000 }
    ensures { OnOk result (out.new.items ≡ out.old.items ++ functions n) }
{
    out.push(3)?;
    put_unsigned(out, spelling_size(UNSIGNED_END, n + 1) + n + 1)?;
    put_unsigned(out, n + 1)?;
    let len = out.len();
    out.resize(len + n as usize, 0)?;
    out.push(1)?;
    Ok(())
}

/// The section of exports: the last function, as `run`.
fn put_exports(out: &mut Vec<u8>, n: u32) -> Result<(), AllocError>
    ensures { OnOk result (out.new.items ≡ out.old.items ++ exports n) }
{
    out.push(7)?;
    put_unsigned(out, 6 + spelling_size(UNSIGNED_END, n))?;
    out.extend_from_slice(&[0x01, 0x03, b'r', b'u', b'n', 0x00])?;
    put_unsigned(out, n)
}

/// The body of the function that adds `i` to its argument.
fn put_adder(out: &mut Vec<u8>, i: u32) -> Result<(), AllocError>
    ensures { OnOk result (out.new.items ≡ out.old.items ++ adder i) }
{
    put_unsigned(out, adder_content_size(i))?;
    out.extend_from_slice(&[0x00, 0x20, 0x00, 0x41])?;
    put_number(out, SIGNED_END, i)?;
    out.extend_from_slice(&[0x6A, 0x0B])?;
    Ok(())
}

#[tactic(auto, using(crate::proofs::Lists::flat_more))]
fn put_adders(out: &mut Vec<u8>, n: u32) -> Result<(), AllocError>
    ensures { OnOk result (out.new.items ≡ out.old.items ++ flat_map adder (below n)) }
{
    for i in 0..n {
        put_adder(out, i)?;
    }
    Ok(())
}

#[tactic(auto, unfolding(crate::specs::Drill::call))]
fn put_call(out: &mut Vec<u8>, i: u32) -> Result<(), AllocError>
    ensures { OnOk result (out.new.items ≡ out.old.items ++ call i) }
{
    out.push(0x10)?;
    put_unsigned(out, i)
}

#[tactic(auto, using(crate::proofs::Lists::flat_more))]
fn put_calls(out: &mut Vec<u8>, n: u32) -> Result<(), AllocError>
    ensures { OnOk result (out.new.items ≡ out.old.items ++ flat_map call (below n)) }
{
    for i in 0..n {
        put_call(out, i)?;
    }
    Ok(())
}

/// The body of the function that calls the others: `size` is how many bytes it has without its size.
fn put_runner(out: &mut Vec<u8>, n: u32, size: u32) -> Result<(), AllocError>
    requires { size ≡ 4 + length (flat_map call (below n)) }
    ensures { OnOk result (out.new.items ≡ out.old.items ++ runner n) }
{
    put_unsigned(out, size)?;
    out.extend_from_slice(&[0x00, 0x41, 0x00])?;
    put_calls(out, n)?;
    out.push(0x0B)?;
    Ok(())
}

/// The section of bodies.
fn put_code(out: &mut Vec<u8>, n: u32) -> Result<(), AllocError>
    requires { n ≤ 50000 }
    ensures { OnOk result (out.new.items ≡ out.old.items ++ code n) }
{
    let runner = 4 + calls_size(n);
    let bodies = adders_size(n) + sized(runner);
    out.push(10)?;
    put_unsigned(out, spelling_size(UNSIGNED_END, n + 1) + bodies)?;
    put_unsigned(out, n + 1)?;
    put_adders(out, n)?;
    put_runner(out, n, runner)
}

/// The drill of `n`: a module of `n` functions from i32 to i32, of which the i-th adds i to its argument, the first being the 0th,
/// and after them one, exported as `run`, that calls each of them with the result of the one before, the first with 0, and returns
/// the last one's result. Its numbers are as short as they can be.
///
/// Memory is taken once, for all of its bytes.
pub fn drill_module(alloc: Global, n: u32) -> Result<Vec<u8>, AllocError>
    requires least { 1 ≤ n }
    requires most { n ≤ 50000 }
    ensures { IfOk result (λ bytes. bytes.items ≡ drill_bytes n) }
{
    let mut out = Vec::with_capacity(alloc, 64 + 16 * n as usize)?;
    out.extend_from_slice(&FRONT)?;
    put_functions(&mut out, n)?;
    put_exports(&mut out, n)?;
    put_code(&mut out, n)?;
    Ok(out)
}
