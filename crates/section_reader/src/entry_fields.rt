//! Fields that entries of several sections share (WebAssembly Core 1.0, 5.3 and 5.4).

ghost use Rattle.std.specs.Prelude.{◌≡◌};
ghost use Rattle.wasm_defs.specs.Fields.{repeated};
ghost use Rattle.wasm_defs.specs.Entries.{index, listed_index, listed_type, limits, wrong_opcode, wrong_number, refused_opcode, constant};
ghost use Rattle.leb_feed.specs.Reads.{Reads, NeedsNoMemory};

use leb_feed::{Fields, Stop};
use std::alloc::Global;
use wasm_defs::{Constant, Indices, Kind, Limits, ValType, ValTypes};

/// An index into so many.
#[tactic(auto, unfolding(wasm_defs::specs::Entries::index))]
pub fn index(fields: &mut Fields<'_>, most: u64) -> Result<(u64, u32), Stop>
    ensures read { Reads (index most) (λ n. n) result fields.old fields.new }
    ensures free { NeedsNoMemory result }
{
    let (at, i) = fields.u32()?;
    if u64::from(i) < most {
        return Ok((at, i));
    }
    Err(Fields::refused(Kind::Invalid, at))
}

#[tactic(auto, unfolding(wasm_defs::specs::Entries::listed_index))]
fn listed_index(fields: &mut Fields<'_>, most: u64) -> Result<u32, Stop>
    ensures read { Reads (listed_index most) (λ n. n) result fields.old fields.new }
    ensures free { NeedsNoMemory result }
{
    let (_, i) = index(fields, most)?;
    Ok(i)
}

/// So many indices into so many.
pub fn indices(fields: &mut Fields<'_>, alloc: Global, n: u32, most: u64) -> Result<Indices, Stop>
    ensures { Reads (repeated n (listed_index most)) (λ n. n) result fields.old fields.new }
{
    let mut indices = Vec::new(alloc);
    for _ in 0..n {
        indices.push(listed_index(fields, most)?)?;
    }
    Ok(Indices::new(indices))
}

#[tactic(auto, unfolding(wasm_defs::specs::Entries::listed_type))]
fn listed_type(fields: &mut Fields<'_>) -> Result<ValType, Stop>
    ensures read { Reads listed_type (λ n. n) result fields.old fields.new }
    ensures free { NeedsNoMemory result }
{
    let (_, ty) = fields.value_type()?;
    Ok(ty)
}

/// So many value types.
pub fn value_types(fields: &mut Fields<'_>, alloc: Global, n: u32) -> Result<ValTypes, Stop>
    ensures { Reads (repeated n listed_type) (λ n. n) result fields.old fields.new }
{
    let mut types = Vec::new(alloc);
    for _ in 0..n {
        types.push(listed_type(fields)?)?;
    }
    Ok(ValTypes::new(types))
}

/// Limits (Core 5.3.4): `most` is this implementation's limit on the minimum, `top` the standard's on the maximum.
#[tactic(auto, unfolding(wasm_defs::specs::Entries::limits))]
pub fn limits(fields: &mut Fields<'_>, most: u32, top: u32) -> Result<Limits, Stop>
    ensures read { Reads (limits most top) (λ n. n) result fields.old fields.new }
    ensures free { NeedsNoMemory result }
{
    let (flag, kind) = fields.byte()?;
    if 1 < kind {
        return Err(Fields::refused(Kind::Malformed, flag));
    }
    let min = fields.u32()?;
    if most < min.1 {
        return Err(Fields::refused(Kind::Limit, min.0));
    }
    if kind == 0 {
        return Ok(Limits {
            flag,
            min,
            max: None,
        });
    }
    let max = fields.u32()?;
    if top < max.1 || max.1 < min.1 {
        return Err(Fields::refused(Kind::Invalid, max.0));
    }
    Ok(Limits {
        flag,
        min,
        max: Some(max),
    })
}

/// The kind of error of an opcode that is in a constant expression in place of the right one.
fn wrong_opcode(byte: u8) -> Kind
    ensures { result ≡ wrong_opcode byte }
{
    match byte {
        0x43..=0x44 => Kind::Unsupported,
        0x00..=0x05 | 0x0B..=0x11 | 0x1A..=0x1B | 0x20..=0x24 | 0x28..=0xC4 => Kind::Invalid,
        _ => Kind::Malformed,
    }
}

/// The same of the number after the prefix FC (Core 2.0, 5.4.5 to 5.4.7).
fn wrong_number(number: u32) -> Kind
    ensures { result ≡ wrong_number number }
{
    match number {
        8..=11 => Kind::Invalid,
        0..=17 => Kind::Unsupported,
        _ => Kind::Malformed,
    }
}

/// Refuses an opcode in place of the right one at its offset; after the prefix FC its number has to be whole.
#[tactic(auto, unfolding(wasm_defs::specs::Entries::refused_opcode))]
fn refused_opcode(fields: &mut Fields<'_>, opcode: (u64, u8)) -> Result<Constant, Stop>
    ensures read { Reads (refused_opcode opcode) (λ n. n) result fields.old fields.new }
    ensures free { NeedsNoMemory result }
{
    let (at, byte) = opcode;
    if byte == 0xFC {
        let (_, number) = fields.u32()?;
        return Err(Fields::refused(wrong_number(number), at));
    }
    Err(Fields::refused(wrong_opcode(byte), at))
}

/// A constant expression of a type (Core 3.3.7, 5.4.6).
#[tactic(auto, unfolding(wasm_defs::specs::Entries::constant))]
pub fn constant(fields: &mut Fields<'_>, ty: ValType) -> Result<Constant, Stop>
    ensures read { Reads (constant ty) (λ n. n) result fields.old fields.new }
    ensures free { NeedsNoMemory result }
{
    let (opcode, byte) = fields.byte()?;
    let (wanted, bits) = match ty {
        ValType::I32 => (0x41, 32),
        ValType::I64 => (0x42, 64),
    };
    if byte != wanted {
        return refused_opcode(fields, (opcode, byte));
    }
    let value = fields.signed(bits)?;
    let (end, byte) = fields.byte()?;
    if byte != 0x0B {
        return refused_opcode(fields, (end, byte));
    }
    Ok(Constant { opcode, value, end })
}
