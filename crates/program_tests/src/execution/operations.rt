//! Every numeric operation on edge values and on scattered ones, against Rust's own integers. The rules are those of WebAssembly
//! Core 1.0, 4.3.2 and 4.3.4, and of Core 2.0, 4.3.2, for sign extension.

use crate::calling::{HEADER, answer_to_line};
use std::alloc::{AllocError, Global};
use std::sync::Wait;
use std::test::Fail;
use std::thread::Threads;
use test_rows::bytes_of;
use wasm_defs::{OPERATION_NAMES, OPERATION_TYPES, Operands, ValType};

/// What the run of an operation comes to.
#[derive(Clone, Copy)]
enum Wanted {
    I32(i32),
    I64(i64),
    DividesByZero,
    Overflows,
}

/// A row of the table of opcodes.
#[derive(Drop)]
struct Operation {
    name: &'static str,
    opcode: u8,
    takes_two: bool,
    operand: ValType,
    result: ValType,
}

/// The row of an opcode, if it has one whose instruction is not left out.
fn row_of(opcode: u8) -> Option<Operation> {
    let row = usize::from(opcode).checked_sub(0x45)?;
    let name = OPERATION_NAMES.get(row).copied()?;
    let ty = OPERATION_TYPES.get(row).copied().flatten()?;
    let (takes_two, operand) = match ty.operands {
        Operands::One(t) => (false, t),
        Operands::Two(t, _) => (true, t),
    };
    Some(Operation {
        name,
        opcode,
        takes_two,
        operand,
        result: ty.result,
    })
}

/// Numbers at the edges of the type, around its width and with alternating bits.
const EDGES_32: &str = "0 1 -1 2 -2 31 32 33 2147483647 -2147483648 1431655765 -1431655766";

const EDGES_64: &str = "0 1 -1 2 -2 32 63 64 65 2147483648 4294967295 9223372036854775807 \
                        -9223372036854775808 6148914691236517205 -6148914691236517206";

/// Numbers at the edges of 8 and 16 bits, for operations on one operand.
const LOW_EDGES: &str = "127 128 255 256 32767 32768 65535 65536";

/// A number that is written there; 0 for another text.
fn number_of(text: &str) -> i64 {
    text.parse::<i64>().unwrap_or(0)
}

/// The numbers that are written there.
fn numbers_of(alloc: Global, text: &str) -> Result<Vec<i64>, AllocError> {
    let mut numbers = Vec::new(alloc);
    for word in text.split(' ') {
        numbers.push(number_of(word))?;
    }
    Ok(numbers)
}

/// The number that the low 8 bits mean.
fn low_8(n: i64) -> i8 {
    ((n.cast_unsigned() % 0x100) as u8).cast_signed()
}

/// The number that the low 16 bits mean.
fn low_16(n: i64) -> i16 {
    ((n.cast_unsigned() % 0x1_0000) as u16).cast_signed()
}

/// The number that the low 32 bits mean.
fn low_32(n: i64) -> i32 {
    ((n.cast_unsigned() % 0x1_0000_0000) as u32).cast_signed()
}

/// Whether a test or a comparison of the numbers holds (4.3.2).
fn holds_32(opcode: u8, a: i32, b: i32) -> bool {
    let (x, y) = (a.cast_unsigned(), b.cast_unsigned());
    match opcode {
        0x45 => a == 0,
        0x46 => a == b,
        0x47 => a != b,
        0x48 => a < b,
        0x49 => x < y,
        0x4A => a > b,
        0x4B => x > y,
        0x4C => a <= b,
        0x4D => x <= y,
        0x4E => a >= b,
        _ => x >= y,
    }
}

/// What a division comes to (4.3.2).
fn divided_32(opcode: u8, a: i32, b: i32) -> Wanted {
    let (x, y) = (a.cast_unsigned(), b.cast_unsigned());
    if b == 0 {
        return Wanted::DividesByZero;
    }
    let number = match opcode {
        0x6D => a.checked_div(b),
        0x6E => x.checked_div(y).map(|n| n.cast_signed()),
        0x6F => Some(a.wrapping_rem(b)),
        _ => x.checked_rem(y).map(|n| n.cast_signed()),
    };
    number.map_or(Wanted::Overflows, Wanted::I32)
}

/// What an operation gives that is defined everywhere (4.3.2).
fn number_32(opcode: u8, a: i32, b: i32) -> i32 {
    let bits = b.cast_unsigned();
    match opcode {
        0x67 => a.leading_zeros().cast_signed(),
        0x68 => a.trailing_zeros().cast_signed(),
        0x69 => a.count_ones().cast_signed(),
        0x6A => a.wrapping_add(b),
        0x6B => a.wrapping_sub(b),
        0x6C => a.wrapping_mul(b),
        0x71 => a & b,
        0x72 => a | b,
        0x73 => a ^ b,
        0x74 => a.wrapping_shl(bits),
        0x75 => a.wrapping_shr(bits),
        0x76 => a.cast_unsigned().wrapping_shr(bits).cast_signed(),
        0x77 => a.rotate_left(bits),
        _ => a.rotate_right(bits),
    }
}

/// Whether a test or a comparison of the numbers holds (4.3.2).
fn holds_64(opcode: u8, a: i64, b: i64) -> bool {
    let (x, y) = (a.cast_unsigned(), b.cast_unsigned());
    match opcode {
        0x50 => a == 0,
        0x51 => a == b,
        0x52 => a != b,
        0x53 => a < b,
        0x54 => x < y,
        0x55 => a > b,
        0x56 => x > y,
        0x57 => a <= b,
        0x58 => x <= y,
        0x59 => a >= b,
        _ => x >= y,
    }
}

/// What a division comes to (4.3.2).
fn divided_64(opcode: u8, a: i64, b: i64) -> Wanted {
    let (x, y) = (a.cast_unsigned(), b.cast_unsigned());
    if b == 0 {
        return Wanted::DividesByZero;
    }
    let number = match opcode {
        0x7F => a.checked_div(b),
        0x80 => x.checked_div(y).map(|n| n.cast_signed()),
        0x81 => Some(a.wrapping_rem(b)),
        _ => x.checked_rem(y).map(|n| n.cast_signed()),
    };
    number.map_or(Wanted::Overflows, Wanted::I64)
}

/// What an operation gives that is defined everywhere (4.3.2).
fn number_64(opcode: u8, a: i64, b: i64) -> i64 {
    let bits = (b.cast_unsigned() % 64) as u32;
    match opcode {
        0x79 => i64::from(a.leading_zeros()),
        0x7A => i64::from(a.trailing_zeros()),
        0x7B => i64::from(a.count_ones()),
        0x7C => a.wrapping_add(b),
        0x7D => a.wrapping_sub(b),
        0x7E => a.wrapping_mul(b),
        0x83 => a & b,
        0x84 => a | b,
        0x85 => a ^ b,
        0x86 => a.wrapping_shl(bits),
        0x87 => a.wrapping_shr(bits),
        0x88 => a.cast_unsigned().wrapping_shr(bits).cast_signed(),
        0x89 => a.rotate_left(bits),
        _ => a.rotate_right(bits),
    }
}

fn wanted_32(opcode: u8, a: i32, b: i32) -> Wanted {
    match opcode {
        0x45..=0x4F => Wanted::I32(i32::from(holds_32(opcode, a, b))),
        0x6D..=0x70 => divided_32(opcode, a, b),
        0xAC => Wanted::I64(i64::from(a)),
        0xAD => Wanted::I64(i64::from(a.cast_unsigned())),
        0xC0 => Wanted::I32(i32::from(low_8(i64::from(a)))),
        0xC1 => Wanted::I32(i32::from(low_16(i64::from(a)))),
        _ => Wanted::I32(number_32(opcode, a, b)),
    }
}

fn wanted_64(opcode: u8, a: i64, b: i64) -> Wanted {
    match opcode {
        0x50..=0x5A => Wanted::I32(i32::from(holds_64(opcode, a, b))),
        0x7F..=0x82 => divided_64(opcode, a, b),
        0xA7 => Wanted::I32(low_32(a)),
        0xC2 => Wanted::I64(i64::from(low_8(a))),
        0xC3 => Wanted::I64(i64::from(low_16(a))),
        0xC4 => Wanted::I64(i64::from(low_32(a))),
        _ => Wanted::I64(number_64(opcode, a, b)),
    }
}

/// The status and the line that belong to it; a division is after 37 bytes.
fn wanted_line(alloc: Global, wanted: Wanted) -> Result<String, AllocError> {
    match wanted {
        Wanted::I32(n) => format!(in alloc; "0 i32 {n}\n"),
        Wanted::I64(n) => format!(in alloc; "0 i64 {n}\n"),
        Wanted::DividesByZero => {
            String::from_str(alloc, "4 trap integer divide by zero in function 0 at 37\n")
        }
        Wanted::Overflows => String::from_str(
            alloc,
            "4 trap integer overflow in function 0 at 37\n",
        ),
    }
}

/// The n-th of a sequence of numbers that look random (SplitMix64), with some of its upper bits shifted out by the sign.
fn scattered(n: u64) -> i64 {
    let seed = n.wrapping_mul(0x9E37_79B9_7F4A_7C15);
    let mixed = (seed ^ (seed >> 30)).wrapping_mul(0xBF58_476D_1CE4_E5B9);
    let mixed = (mixed ^ (mixed >> 27)).wrapping_mul(0x94D0_49BB_1331_11EB);
    let mixed = mixed ^ (mixed >> 31);
    mixed.cast_signed().wrapping_shr((seed % 64) as u32)
}

/// All pairs of the numbers, and scattered ones.
fn pairs(alloc: Global, firsts: &[i64], seconds: &[i64]) -> Result<Vec<(i64, i64)>, AllocError> {
    let mut pairs = Vec::new(alloc);
    for a in firsts {
        for b in seconds {
            pairs.push((*a, *b))?;
        }
    }
    for n in 1..=24 {
        pairs.push((scattered(n), scattered(n.wrapping_add(1000))))?;
    }
    Ok(pairs)
}

/// The numbers and those at the edges of bytes, each next to a zero that isn't used, and scattered ones.
fn singles(alloc: Global, numbers: &[i64]) -> Result<Vec<(i64, i64)>, AllocError> {
    let mut singles = pairs(alloc, numbers, &[0])?;
    for a in &numbers_of(alloc, LOW_EDGES)? {
        singles.push((*a, 0))?;
    }
    Ok(singles)
}

fn edges_of(ty: ValType) -> &'static str {
    match ty {
        ValType::I32 => EDGES_32,
        ValType::I64 => EDGES_64,
    }
}

fn pairs_for(alloc: Global, operation: &Operation) -> Result<Vec<(i64, i64)>, AllocError> {
    let edges = numbers_of(alloc, edges_of(operation.operand))?;
    if operation.takes_two {
        pairs(alloc, &edges, &edges)
    } else {
        singles(alloc, &edges)
    }
}

/// An operand as a word.
fn word_of(alloc: Global, ty: ValType, number: i64) -> Result<String, AllocError> {
    match ty {
        ValType::I32 => format!(in alloc; " i32:{}", low_32(number)),
        ValType::I64 => format!(in alloc; " i64:{number}"),
    }
}

/// The words that call `f` with the operands.
fn call_of(alloc: Global, operation: &Operation, a: i64, b: i64) -> Result<String, AllocError> {
    let mut call = String::from_str(alloc, "wstream run --workers 0 f")?;
    call.push_str(word_of(alloc, operation.operand, a)?.as_str())?;
    if operation.takes_two {
        call.push_str(word_of(alloc, operation.operand, b)?.as_str())?;
    }
    Ok(call)
}

/// The status and the line that belong to the call.
fn want_of(alloc: Global, operation: &Operation, a: i64, b: i64) -> Result<String, AllocError> {
    let wanted = match operation.operand {
        ValType::I32 => wanted_32(operation.opcode, low_32(a), low_32(b)),
        ValType::I64 => wanted_64(operation.opcode, a, b),
    };
    wanted_line(alloc, wanted)
}

fn type_byte(ty: ValType) -> &'static str {
    match ty {
        ValType::I32 => "7F",
        ValType::I64 => "7E",
    }
}

/// A module that exports `f`, which does the operation to its parameters, in hexadecimal digits.
fn module_text(alloc: Global, operation: &Operation) -> Result<String, AllocError> {
    let operand = type_byte(operation.operand);
    let result = type_byte(operation.result);
    let names = "03 02 01 00 07 05 01 01 66 00 00";
    let opcode = operation.opcode;
    if operation.takes_two {
        format!(in alloc;
            "01 07 01 60 02 {operand} {operand} 01 {result} {names} 0A 09 01 07 00 20 00 20 01 {opcode:02X} 0B"
        )
    } else {
        format!(in alloc;
            "01 06 01 60 01 {operand} 01 {result} {names} 0A 07 01 05 00 20 00 {opcode:02X} 0B"
        )
    }
}

/// Where the answer is another than the one that is wanted, at the first pair of operands; else nothing.
fn difference<R: Threads + Wait + Sync>(
    rt: &R,
    alloc: Global,
    operation: &Operation,
) -> Result<String, Fail> {
    let text = module_text(alloc, operation)?;
    let module = bytes_of(alloc, &[HEADER, text.as_str()])?;
    for (a, b) in pairs_for(alloc, operation)? {
        let call = call_of(alloc, operation, a, b)?;
        let got = answer_to_line(rt, alloc, call.as_str(), &module)?;
        let want = want_of(alloc, operation, a, b)?;
        if got != want {
            return Ok(format!(in alloc; "{}: {call}: {got}", operation.name)?);
        }
    }
    Ok(String::new(alloc))
}

/// The differences of all operations.
fn differences<R: Threads + Wait + Sync>(rt: &R, alloc: Global) -> Result<String, Fail> {
    let mut told = String::new(alloc);
    for opcode in 0..=u8::MAX {
        if let Some(operation) = row_of(opcode) {
            told.push_str(difference(rt, alloc, &operation)?.as_str())?;
        }
    }
    Ok(told)
}

#[test]
fn operations_give_what_the_rules_say(rt: HostRuntime) -> Result<(), Fail> {
    assert_eq!(rt; differences(&rt, rt.alloc())?.as_str(), "");
    Ok(())
}
