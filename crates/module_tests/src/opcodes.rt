//! Opcodes of WebAssembly Core 1.0, 5.4, and of sign extension (Core 2.0, 5.4).

use std::alloc::Global;
use std::test::Fail;
use wasm_defs::{Access, Operation};

/// Opcodes and their operations: `Some(None)` is one that is left out, and `None` is past the table.
const OPERATIONS: &str = "\
45 = Some(Some(Test(I32)))
46 = Some(Some(Compare(I32, Eq)))
50 = Some(Some(Test(I64)))
5A = Some(Some(Compare(I64, GeU)))
5B = Some(None)
67 = Some(Some(Unary(I32, Clz)))
6A = Some(Some(Binary(I32, Add)))
6B = Some(Some(Binary(I32, Sub)))
78 = Some(Some(Binary(I32, Rotr)))
79 = Some(Some(Unary(I64, Clz)))
80 = Some(Some(Binary(I64, DivU)))
8A = Some(Some(Binary(I64, Rotr)))
A7 = Some(Some(Convert(Wrap)))
AC = Some(Some(Convert(ExtendS)))
AD = Some(Some(Convert(ExtendU)))
BF = Some(None)
C0 = Some(Some(Extend(I32Extend8S)))
C4 = Some(Some(Extend(I64Extend32S)))
C5 = None";

/// Opcodes and their loads and stores.
const ACCESSES: &str = "\
28 = Some(Some(Load(I32Load)))
29 = Some(Some(Load(I64Load)))
2A = Some(None)
2C = Some(Some(Load(I32Load8S)))
35 = Some(Some(Load(I64Load32U)))
36 = Some(Some(Store(I32Store)))
37 = Some(Some(Store(I64Store)))
39 = Some(None)
3A = Some(Some(Store(I32Store8)))
3E = Some(Some(Store(I64Store32)))
3F = None";

fn operation(alloc: Global, opcode: &str) -> Result<String, Fail> {
    let opcode = u8::from_str_radix(opcode, 16).unwrap_or(0);
    if opcode < 0x45 {
        return Err(Fail::new(opcode));
    }
    Ok(format!(in alloc; "{:?}", Operation::of_opcode(opcode))?)
}

fn access(alloc: Global, opcode: &str) -> Result<String, Fail> {
    let opcode = u8::from_str_radix(opcode, 16).unwrap_or(0);
    if opcode < 0x28 {
        return Err(Fail::new(opcode));
    }
    Ok(format!(in alloc; "{:?}", Access::of_opcode(opcode))?)
}

#[test]
fn operations_have_their_opcodes(rt: HostRuntime) -> Result<(), Fail> {
    for row in OPERATIONS.lines() {
        let (opcode, want) = row.split_once(" = ").unwrap_or((row, ""));
        assert_eq!(rt; operation(rt.alloc(), opcode)?.as_str(), want, "{row}");
    }
    Ok(())
}

#[test]
fn loads_and_stores_have_their_opcodes(rt: HostRuntime) -> Result<(), Fail> {
    for row in ACCESSES.lines() {
        let (opcode, want) = row.split_once(" = ").unwrap_or((row, ""));
        assert_eq!(rt; access(rt.alloc(), opcode)?.as_str(), want, "{row}");
    }
    Ok(())
}
