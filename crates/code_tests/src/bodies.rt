//! Bodies of a module's one function, which gives a number of 32 bits, and what becomes of them. Words, sizes and errors were worked out
//! by hand; the checksums of words are those of what another compiler makes.
ghost use Rattle.std.specs.Prelude.{IfOk};
ghost use Rattle.index_spaces.specs.ItemLimits.{HasSmallType};

use crate::rows::{bytes_of, parts_of, text_of};
use body_compiler::{BodyStop, Scratch, compile, measure};
use index_spaces::{Context, ContextBuilder};
use rv_isa::Code;
use std::alloc::{AllocError, Global};
use std::test::Fail;
use wasm_defs::{FuncType, Item, MAX_BODY, ValType, ValTypes};

/// A row: what the body is; what of it is asked, how many parameters its function has, and the offset of its first byte; and its bytes.
const BODIES: &str = "\
a constant; size 2 34; 00 41 7F 0B = 31 words, 4 slots
a local; size 2 34; 01 01 7F 20 02 0B = 44 words, 5 slots
two groups of locals; size 2 34; 02 01 7F 02 7E 20 02 0B = 44 words, 7 slots
a local of another type; size 2 34; 01 01 7E 20 02 0B = Invalid at byte 39
a local that is not there; size 2 34; 00 20 02 0B = Invalid at byte 35
an operand too many; size 2 34; 00 20 00 20 01 0B = Invalid at byte 39
no result; size 2 34; 00 0B = Invalid at byte 35
a byte after the end; size 2 34; 00 20 00 0B 0B = Malformed at byte 38
no end; size 2 34; 00 20 00 = Malformed at byte 36
a global that is not there; size 2 34; 00 23 00 0B = Invalid at byte 35
a call by a table that is not there; size 2 34; 00 11 00 00 0B = Invalid at byte 35
more locals than 50000; size 2 34; 01 D1 86 03 7F 0B = Limit at byte 35
br_table; number 2 34; 01 01 7F 20 01 20 00 0E 02 00 00 00 20 00 0B = 90 words, 6 slots, number 3023586912
if, else, unreachable; number 2 34; 01 01 7F 20 00 04 40 05 20 00 21 01 0B 00 20 00 20 01 6A 21 00 20 00 04 40 0B 20 00 0B = 67 words, 5 slots, \
    number 2504998459
what follows br is unreachable; number 2 34; 01 01 7F 20 01 0C 00 20 01 20 00 0E 03 00 00 00 00 20 01 20 00 0D 00 1A 20 00 0B = 52 words, 5 slots, \
    number 84568908
br and return; number 2 34; 00 20 00 21 01 20 01 0C 00 20 01 0F 20 00 0B = 49 words, 4 slots, number 1107650567
unreachable alone; number 2 34; 00 00 00 02 40 20 00 0D 00 0B 20 00 0B = 26 words, 3 slots, number 1351678236
unreachable ifs; number 2 34; 01 01 7F 20 01 0C 00 20 00 04 40 0C 00 20 00 0E 00 00 0B 20 00 04 40 05 20 01 20 00 0E 00 01 0B 20 01 20 00 0D 00 1A \
    20 00 0B = 52 words, 5 slots, number 84568908
a block, an if and a loop; number 2 34; 00 02 40 20 00 04 40 0B 03 40 0B 20 01 0F 0B 20 01 0C 00 20 00 0B = 63 words, 4 slots, number 3978937987
br_table and br; number 2 34; 01 01 7F 20 01 20 00 0E 03 00 00 00 00 20 01 0C 00 20 00 20 01 6A 21 00 20 00 0B = 98 words, 6 slots, number 2127988688
an if with a result whose else ends unreachable; size 1 31; 01 03 7E 20 00 04 7F 41 00 05 00 0B 0B = 63 words, 6 slots
an if with a result and no else; size 1 31; 00 20 00 04 7F 41 01 0B 0B = Invalid at byte 38
unreachable operands; size 1 31; 00 00 6A 0B = 26 words, 2 slots
an else of no if; size 1 31; 00 05 0B = Malformed at byte 32
nop and no end; size 1 31; 00 20 00 01 = Malformed at byte 34
a label that is not open; size 1 31; 00 20 00 0C 01 0B = Invalid at byte 34
no table; size 1 31; 00 11 00 00 0B = Invalid at byte 32
a load that is cut off; size 1 31; 00 28 = Malformed at byte 32
a call that lacks its argument; size 1 31; 00 10 00 0B = Invalid at byte 32
a call of no function; size 1 31; 00 10 01 0B = Invalid at byte 32
two calls, return, a call that is unreachable; calls 1 34; 00 20 00 10 00 10 00 0F 10 00 0B = 25: 00000097 000080E7 to 0; 39: 00000097 000080E7 to 0;
div_s, div_u, return, a trap that is unreachable; traps 1 34; 00 20 00 20 00 6D 1A 20 00 20 00 6E 0F 00 0B = 9: 00000073 of 34; 34: 00000073 of 39; \
    41: 00000073 of 39; 67: 00000073 of 45;";

/// The words of `local.get 0; local.get 1; i32.add; end` in a function with two parameters.
const SUM: [&str; 6] = [
    // room for five slots: two parameters, the return address, two operands
    "00000293 00B29293 0002E293 00B29293 0282E293 008282B3 005AF863 00800513 00100893 00000073 ",
    // .. sd ra, 16(t3)
    "00000E37 008E0E33 001E3823 ",
    // local.get 0: .. ld t0, 0(t0); .. sd t0, 24(t3)
    "000002B7 008282B3 0002B283 00000E37 008E0E33 005E3C23 ",
    // local.get 1: .. ld t0, 8(t0); .. sd t0, 32(t3)
    "000002B7 008282B3 0082B283 00000E37 008E0E33 025E3023 ",
    // i32.add: .. ld t0, 24(t0); .. ld t1, 32(t1); addw t0, t0, t1; .. sd t0, 24(t3)
    "000002B7 008282B3 0182B283 00000337 00830333 02033303 006282BB 00000E37 008E0E33 005E3C23 ",
    // .. ld ra, 16(ra); .. ld t0, 24(t0); .. sd t0, 0(t3); jalr zero, 0(ra)
    "000000B7 008080B3 0100B083 000002B7 008282B3 0182B283 00000E37 008E0E33 005E3023 00008067 ",
];

/// A module of one function, which gives a number of 32 bits.
fn context_of(alloc: Global, signature: &Item) -> Option<Context>
    requires { HasSmallType signature.now }
{
    let mut builder = ContextBuilder::new(alloc);
    let type_index = (20, 0);
    let is_added = builder.add(signature).is_ok();
    if is_added && builder.add(&Item::Function { type_index }).is_ok() {
        Some(builder.finish())
    } else {
        None
    }
}

/// The type of a function with one or two parameters, which gives a number of 32 bits.
fn signature(alloc: Global, has_two: bool) -> Result<Item, AllocError>
    ensures { IfOk result HasSmallType }
{
    let params: &[ValType] = if has_two {
        &[ValType::I32, ValType::I32]
    } else {
        &[ValType::I32]
    };
    Ok(Item::Signature {
        form: 11,
        params: 12,
        results: 15,
        ty: FuncType {
            params: ValTypes::new(Vec::from_slice(alloc, params)?),
            results: ValTypes::new(Vec::from_slice(alloc, &[ValType::I32])?),
        },
    })
}

/// Whether so many words were counted as a code has, or both are refused alike.
fn are_alike(counted: Result<u64, BodyStop>, code: &Result<Code, BodyStop>) -> bool {
    match (counted, code) {
        (Ok(words), Ok(code)) => words == code.words.len() as u64,
        (Err(stop), Err(other)) => stop == *other,
        _ => false,
    }
}

/// Compiles a body of the module's one function, whose first byte has the offset, and counts its words too.
fn compiled(alloc: Global, has_two: bool, bytes: &[u8], offset: u32) -> Result<Code, BodyStop> {
    let Ok(signature) = signature(alloc, has_two) else {
        return Err(BodyStop::NoMemory);
    };
    let Some(context) = context_of(alloc, &signature) else {
        return Err(BodyStop::NoMemory);
    };
    if bytes.len() > MAX_BODY as usize || !context.has_type_of_function(0) {
        return Err(BodyStop::TooLong);
    }
    let offset = u64::from(offset);
    let mut scratch = Scratch::new(alloc, &context);
    let code = compile(&mut scratch, &context, 0, bytes, offset);
    if !are_alike(measure(&mut scratch, &context, 0, bytes, offset), &code) {
        return Err(BodyStop::TooLong);
    }
    code
}

/// A checksum of words.
fn number_of(words: &[u32]) -> u32 {
    let mut number = 0u32;
    for word in words {
        number = number.wrapping_mul(31).wrapping_add(*word);
    }
    number
}

/// The word at an index, or 0 past the last one.
fn word_at(code: &Code, place: usize) -> u32 {
    code.words.get(place).unwrap_or(0)
}

/// The calls: where each is, its two words, and which function it calls.
fn calls_of(alloc: Global, code: &Code) -> Result<String, Fail> {
    let mut text = String::new(alloc);
    for call in code.relocations.as_slice() {
        let first = word_at(code, call.place);
        let second = word_at(code, call.place.saturating_add(1));
        let told = format!(in alloc;
            "{}: {first:08X} {second:08X} to {}; ",
            call.place, call.function
        )?;
        text.push_str(told.as_str())?;
    }
    Ok(text)
}

/// The traps: where each is, its word, and the offset of its instruction. The first one is the body's as a whole.
fn traps_of(alloc: Global, code: &Code) -> Result<String, Fail> {
    let mut text = String::new(alloc);
    for trap in code.traps.as_slice() {
        let word = word_at(code, trap.place);
        let told = format!(in alloc; "{}: {word:08X} of {}; ", trap.place, trap.offset)?;
        text.push_str(told.as_str())?;
    }
    Ok(text)
}

/// What is asked of a code.
fn told(alloc: Global, asked: &str, code: &Code) -> Result<String, Fail> {
    let words = code.words.to_vec(alloc)?;
    let (len, need, number) = (words.len(), code.need, number_of(&words));
    match asked {
        "size" => Ok(format!(in alloc; "{len} words, {need} slots")?),
        "number" => Ok(format!(in alloc; "{len} words, {need} slots, number {number}")?),
        "words" => Ok(text_of(alloc, &words)?),
        "calls" => calls_of(alloc, code),
        _ => traps_of(alloc, code),
    }
}

/// What is asked of a body, or why it is refused.
fn told_of(alloc: Global, asked: &str, bytes: &[u8]) -> Result<String, Fail> {
    let (asked, rest) = asked.trim().split_once(' ').unwrap_or((asked, ""));
    let (params, offset) = rest.split_once(' ').unwrap_or((rest, ""));
    match compiled(alloc, params == "2", bytes, offset.parse().unwrap_or(0)) {
        Ok(code) => told(alloc, asked, &code),
        Err(stop) => Ok(format!(in alloc; "{stop}")?),
    }
}

/// The same of a row.
fn answer(alloc: Global, row: &str) -> Result<String, Fail> {
    let (_name, rest) = row.split_once(';').unwrap_or((row, ""));
    let (asked, body) = rest.split_once(';').unwrap_or((rest, ""));
    let bytes = bytes_of(alloc, body)?;
    told_of(alloc, asked, &bytes)
}

#[test]
fn bodies_are_compiled_or_refused(rt: HostRuntime) -> Result<(), Fail> {
    for line in BODIES.lines() {
        let (row, want) = parts_of(line);
        assert_eq!(rt; answer(rt.alloc(), row)?.trim_end(), want, "{row}");
    }
    let sum = answer(rt.alloc(), "; words 2 34; 00 20 00 20 01 6A 0B")?;
    assert_eq!(rt; sum.as_str(), SUM.concat(rt.alloc())?.as_str());
    Ok(())
}

/// A body of so many blocks, each in the one before it, with so many ends, that then gives its function's parameter.
fn nested_blocks(alloc: Global, blocks: u32, ends: u32) -> Result<Vec<u8>, AllocError> {
    let mut bytes = Vec::from_slice(alloc, &[0x00])?;
    for _ in 0..blocks {
        bytes.extend_from_slice(&[0x02, 0x40])?;
    }
    for _ in 0..ends {
        bytes.push(0x0B)?;
    }
    if ends == blocks {
        bytes.extend_from_slice(&[0x20, 0x00, 0x0B])?;
    }
    Ok(bytes)
}

#[test]
fn blocks_may_nest_deeply(rt: HostRuntime) -> Result<(), Fail> {
    for (blocks, ends, want) in [
        (300_000, 300_000, "29 words, 3 slots"),
        (500_000, 0, "Malformed at byte 1000034"),
    ] {
        let bytes = nested_blocks(rt.alloc(), blocks, ends)?;
        assert_eq!(rt; told_of(rt.alloc(), "size 1 34", &bytes)?.as_str(), want);
    }
    Ok(())
}
