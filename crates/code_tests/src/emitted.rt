//! Words of instructions that were put together by hand from the manual's tables, and how many words each operation has.

use crate::rows::{narrow, numbers_of, parts_of, text_of};
use frame_layout::{Layout, load_slot, store_slot};
use integer_emit::{emit_binary, emit_compare, emit_const, emit_convert, emit_unary};
use memory_emit::access::{emit_load, emit_store};
use memory_emit::globals::{emit_global_get, emit_global_set};
use memory_emit::locals::{emit_local_get, emit_local_set, emit_local_tee};
use memory_emit::pages::{emit_grow, emit_size};
use memory_emit::select::emit_select;
use rv_isa::WordBuffer;
use std::alloc::Global;
use std::test::Fail;
use table_calls::{emit_call, emit_import_stub, emit_indirect, emit_prologue, emit_return};
use wasm_defs::{Access, MemArg, Operation, Plain, Token, Value};

/// The frame of what is no call: operand j has the slot 3 + j.
const LAYOUT: Layout = Layout {
    params: 2,
    locals: 0,
    greatest: 3,
};

/// The frame of calls: operand j has the slot 4 + j.
const FRAME: Layout = Layout {
    params: 1,
    locals: 2,
    greatest: 3,
};

/// Operations: the opcode, and the words.
const OPERATIONS: &str = "\
6A i32.add: addw t0, t0, t1 = 000002B7 008282B3 0182B283 00000337 00830333 02033303 006282BB 00000E37 008E0E33 005E3C23
8A i64.rotr: srl t2, t0, t1; sub t1, zero, t1; sll t0, t0, t1; or t0, t0, t2 = 000002B7 008282B3 0182B283 00000337 00830333 02033303 0062D3B3 \
    40600333 006292B3 0072E2B3 00000E37 008E0E33 005E3C23
55 i64.gt_s: slt t0, t1, t0 = 000002B7 008282B3 0182B283 00000337 00830333 02033303 005322B3 00000E37 008E0E33 005E3C23
AD i64.extend_i32_u: slli t0, t0, 32; srli t0, t0, 32 = 000002B7 008282B3 0182B283 02029293 0202D293 00000E37 008E0E33 005E3C23
C0 i32.extend8_s: slli t0, t0, 56; srai t0, t0, 56 = 000002B7 008282B3 0182B283 03829293 4382D293 00000E37 008E0E33 005E3C23";

/// Operations: the opcode, and how many words.
const SIZES: &str = "\
67 i32.clz = 76
79 i64.clz = 76
68 i32.ctz = 67
7A i64.ctz = 65
69 i32.popcnt = 64
7B i64.popcnt = 62
6D i32.div_s = 21
7F i64.div_s = 22
81 i64.rem_s = 14
73 i32.xor = 10
52 i64.ne = 11
5A i64.ge_u = 11
A7 i32.wrap_i64 = 7
AC i64.extend_i32_s = 0
C3 i64.extend16_s = 8
C4 i64.extend32_s = 7";

/// Accesses: the opcode, the alignment and the offset, and the words.
const ACCESSES: &str = "\
2C 0 3: i32.load8_s ld t0, 24(t0); slli t0, t0, 32; srli t0, t0, 32; t1 becomes 3; add t0, t0, t1; addi t1, t0, 1; bgeu s2, t1, 16; a trap; add t0, \
    t0, s1; lb t0, 0(t0) .. sd t0, 24(t3) = 000002B7 008282B3 0182B283 02029293 0202D293 00000313 00B31313 00036313 00B31313 00336313 006282B3 \
    00128313 00697863 00400513 00100893 00000073 009282B3 00028283 00000E37 008E0E33 005E3C23
37 3 0: i64.store the address is operand 0, as above; .. ld t2, 32(t2); sd t2, 0(t0) = 000002B7 008282B3 0182B283 02029293 0202D293 00000313 \
    00B31313 00036313 00B31313 00036313 006282B3 00828313 00697863 00400513 00100893 00000073 009282B3 000003B7 008383B3 0203B383 0072B023";

/// Constants, variables, and what is done with a memory as a whole.
const VARIABLES: &str = "\
const; addi t0, zero, -1; slli t0, t0, 11; ori t0, t0, 2047; ..; sd t0, 24(t3) = FFF00293 00B29293 7FF2E293 00B29293 7FB2E293 00000E37 008E0E33 005E3C23
local.get; ld t0, 8(t0) .. sd t0, 24(t3) = 000002B7 008282B3 0082B283 00000E37 008E0E33 005E3C23
local.set; ld t0, 24(t0) .. sd t0, 8(t3) = 000002B7 008282B3 0182B283 00000E37 008E0E33 005E3423
local.tee; ld t0, 24(t0) .. sd t0, 8(t3) = 000002B7 008282B3 0182B283 00000E37 008E0E33 005E3423
select; ld t0, 40(t0); bne t0, zero, 28; .. ld t0, 32(t0) .. sd t0, 24(t3) = 000002B7 008282B3 0282B283 00029E63 000002B7 008282B3 0202B283 \
    00000E37 008E0E33 005E3C23
global.get; lui t0, 0; add t0, t0, s3; ld t0, 8(t0) .. sd t0, 24(t3) = 000002B7 013282B3 0082B283 00000E37 008E0E33 005E3C23
global.set; ld t0, 24(t0); lui t3, 1; add t3, t3, s3; sd t0, -1696(t3) = 000002B7 008282B3 0182B283 00001E37 013E0E33 965E3023
memory.size; srli t0, s2, 16 .. sd t0, 24(t3) = 01095293 00000E37 008E0E33 005E3C23
memory.grow; ld a0, 24(a0); addi a7, zero, 2; ecall .. sd a0, 24(t3) = 00000537 00850533 01853503 00200893 00000073 00000E37 008E0E33 00AE3C23";

/// What moves slots, and what begins, ends and calls functions.
const CALLS: &str = "\
slots; lui t0, 1; add t0, t0, s0; ld t0, -1696(t0), and so on = 000012B7 008282B3 9602B283 00001337 00830333 80033303 00001E37 008E0E33 2C5E3023 \
    00000E37 008E0E33 7E1E3C23
prologue; room for four slots; .. sd ra, 24(t3); zeros from slot 1 to slot 3 = 00000293 00B29293 0002E293 00B29293 0202E293 008282B3 005AF863 \
    00800513 00100893 00000073 00000E37 008E0E33 001E3C23 00000293 00B29293 0002E293 00B29293 0082E293 008282B3 00000313 00B31313 00036313 00B31313 \
    01836313 00830333 0002B023 00828293 FE629CE3
return; ld ra, 24(ra); .. ld t0, 32(t0) .. sd t0, 0(t3); jalr zero, 0(ra) = 000000B7 008080B3 0180B083 000002B7 008282B3 0202B283 00000E37 008E0E33 \
    005E3023 00008067
import; room for two slots; the number of the import; addi a7, zero, 3; ecall; jalr zero, 0(ra) = 00000293 00B29293 0002E293 00B29293 0102E293 \
    008282B3 005AF863 00800513 00100893 00000073 00000513 00B51513 00056513 00B51513 00756513 00300893 00000073 00008067
call; a word; the frame moves to slot 5; auipc ra, 0; jalr ra, 0(ra); and back; then where the call stands, and its function = 00000073 00000293 \
    00B29293 0002E293 00B29293 0282E293 00540433 00000097 000080E7 00000293 00B29293 0002E293 00B29293 0282E293 40540433 00000007 00000009
call_indirect; the index, below 300; the function of the row, which is there; its type, number 7; the frame moves to slot 5; jalr ra, 0(t1); and \
    back = 000002B7 008282B3 0302B283 02029293 0202D293 00000313 00B31313 00036313 00B31313 12C36313 0062E863 00500513 00100893 00000073 00429293 \
    014282B3 0002B303 00031863 00600513 00100893 00000073 0082B283 00000393 00B39393 0003E393 00B39393 0073E393 00728863 00700513 00100893 00000073 \
    00000293 00B29293 0002E293 00B29293 0282E293 00540433 000300E7 00000293 00B29293 0002E293 00B29293 0282E293 40540433";

/// The words of an operation.
fn operation(alloc: Global, opcode: u8) -> Result<WordBuffer, Fail> {
    let mut buffer = WordBuffer::new(alloc)?;
    if opcode < 0x45 {
        return Err(Fail::new(opcode));
    }
    let Some(Some(operation)) = Operation::of_opcode(opcode) else {
        return Err(Fail::new(opcode));
    };
    let token = Token::Plain(Plain::Numeric(operation));
    match operation {
        Operation::Unary(..) => emit_unary(&mut buffer, &LAYOUT, 1, &token)?,
        Operation::Extend(..) => emit_unary(&mut buffer, &LAYOUT, 1, &token)?,
        Operation::Binary(..) => emit_binary(&mut buffer, &LAYOUT, 2, &token)?,
        Operation::Test(..) => emit_compare(&mut buffer, &LAYOUT, 2, &token)?,
        Operation::Compare(..) => emit_compare(&mut buffer, &LAYOUT, 2, &token)?,
        Operation::Convert(..) => emit_convert(&mut buffer, &LAYOUT, 1, &token)?,
    }
    Ok(buffer)
}

/// The operation of a row.
fn operation_of(alloc: Global, row: &str) -> Result<WordBuffer, Fail> {
    let Some((opcode, _name)) = row.split_once(' ') else {
        return Err(Fail::new(row));
    };
    operation(alloc, u8::from_str_radix(opcode, 16).unwrap_or(0))
}

/// The words of a load or a store.
fn access(alloc: Global, opcode: u8, memory: MemArg) -> Result<WordBuffer, Fail> {
    let mut buffer = WordBuffer::new(alloc)?;
    if opcode < 0x28 {
        return Err(Fail::new(opcode));
    }
    match Access::of_opcode(opcode) {
        Some(Some(Access::Load(op))) => {
            let token = Token::Plain(Plain::Load(op, memory));
            emit_load(&mut buffer, &LAYOUT, 1, &token)?;
        }
        Some(Some(Access::Store(op))) => {
            let token = Token::Plain(Plain::Store(op, memory));
            emit_store(&mut buffer, &LAYOUT, 2, &token)?;
        }
        _ => return Err(Fail::new(opcode)),
    }
    Ok(buffer)
}

/// The load or store of a row.
fn access_of(alloc: Global, row: &str) -> Result<WordBuffer, Fail> {
    let numbers = numbers_of(alloc, row.split(':').next().unwrap_or(""))?;
    let [opcode, align, offset, ..] = numbers.as_slice() else {
        return Err(Fail::new(row));
    };
    let memory = MemArg {
        align: narrow(*align),
        offset: narrow(*offset),
    };
    access(alloc, u8::try_from(*opcode).unwrap_or(0), memory)
}

/// The words of a constant, a variable, or what is done with a memory as a whole.
fn variable(alloc: Global, name: &str) -> Result<WordBuffer, Fail> {
    let mut buffer = WordBuffer::new(alloc)?;
    match name {
        "const" => emit_const(&mut buffer, &LAYOUT, 0, Value::I32(-5))?,
        "local.get" => emit_local_get(&mut buffer, &LAYOUT, 0, 1)?,
        "local.set" => emit_local_set(&mut buffer, &LAYOUT, 1, 1)?,
        "local.tee" => emit_local_tee(&mut buffer, &LAYOUT, 1, 1)?,
        "select" => emit_select(&mut buffer, &LAYOUT, 3)?,
        "global.get" => emit_global_get(&mut buffer, &LAYOUT, 0, 1)?,
        "global.set" => emit_global_set(&mut buffer, &LAYOUT, 1, 300)?,
        "memory.size" => emit_size(&mut buffer, &LAYOUT, 0)?,
        "memory.grow" => emit_grow(&mut buffer, &LAYOUT, 1)?,
        _ => return Err(Fail::new(name)),
    }
    Ok(buffer)
}

/// The words that move four slots.
fn slots(alloc: Global) -> Result<WordBuffer, Fail> {
    let mut buffer = WordBuffer::new(alloc)?;
    load_slot(&mut buffer, 5, 300)?;
    load_slot(&mut buffer, 6, 256)?;
    store_slot(&mut buffer, 5, 600)?;
    store_slot(&mut buffer, 1, 255)?;
    Ok(buffer)
}

/// The words of a call after another word; then the index of its two words, and its function.
fn call(alloc: Global) -> Result<WordBuffer, Fail> {
    let mut buffer = WordBuffer::new(alloc)?;
    buffer.push(0x0000_0073)?;
    let relocation = emit_call(&mut buffer, &FRAME, 3, 2, 9)?;
    buffer.push(narrow(relocation.place as u64))?;
    buffer.push(relocation.function)?;
    Ok(buffer)
}

/// The words of what begins, ends or calls a function.
fn calling(alloc: Global, name: &str) -> Result<WordBuffer, Fail> {
    let layout = Layout {
        params: 1,
        locals: 2,
        greatest: 0,
    };
    let mut buffer = WordBuffer::new(alloc)?;
    match name {
        "slots" => return slots(alloc),
        "call" => return call(alloc),
        "prologue" => emit_prologue(&mut buffer, &layout)?,
        "return" => emit_return(&mut buffer, &layout, 1)?,
        "import" => emit_import_stub(&mut buffer, 1, 7)?,
        "call_indirect" => emit_indirect(&mut buffer, &FRAME, 3, 1, 300, 7)?,
        _ => return Err(Fail::new(name)),
    }
    Ok(buffer)
}

/// The name of a row, before what its words say.
fn name_of(row: &str) -> &str {
    row.split(';').next().unwrap_or("")
}

/// Fails where a row has other words than it is to have.
fn expect_words(alloc: Global, row: &str, words: WordBuffer, want: &str) -> Result<(), Fail> {
    let told = text_of(alloc, &words.finish().to_vec(alloc)?)?;
    if told.trim_end() == want {
        return Ok(());
    }
    Err(Fail::new(format!(in alloc; "{row}: {told}")?))
}

#[test]
fn operations_have_their_words(rt: HostRuntime) -> Result<(), Fail> {
    for line in OPERATIONS.lines() {
        let (row, want) = parts_of(line);
        let words = operation_of(rt.alloc(), row)?;
        expect_words(rt.alloc(), row, words, want)?;
    }
    Ok(())
}

#[test]
fn operations_have_their_sizes(rt: HostRuntime) -> Result<(), Fail> {
    for line in SIZES.lines() {
        let (row, want) = parts_of(line);
        let words = operation_of(rt.alloc(), row)?;
        assert_eq!(rt; words.place(), want.parse().unwrap_or(0), "{row}");
    }
    Ok(())
}

#[test]
fn accesses_have_their_words(rt: HostRuntime) -> Result<(), Fail> {
    for line in ACCESSES.lines() {
        let (row, want) = parts_of(line);
        let words = access_of(rt.alloc(), row)?;
        expect_words(rt.alloc(), row, words, want)?;
    }
    Ok(())
}

#[test]
fn variables_have_their_words(rt: HostRuntime) -> Result<(), Fail> {
    for line in VARIABLES.lines() {
        let (row, want) = parts_of(line);
        let words = variable(rt.alloc(), name_of(row))?;
        expect_words(rt.alloc(), row, words, want)?;
    }
    Ok(())
}

#[test]
fn calls_have_their_words(rt: HostRuntime) -> Result<(), Fail> {
    for line in CALLS.lines() {
        let (row, want) = parts_of(line);
        let words = calling(rt.alloc(), name_of(row))?;
        expect_words(rt.alloc(), row, words, want)?;
    }
    Ok(())
}
