//! Entries of the sections (WebAssembly Core 1.0, 5.5): each item's fields in order.

ghost use Rattle.std.specs.Prelude.{◌≡◌};
ghost use Rattle.wasm_defs.specs.Entries.{signature, imported, function, table, memory, mutability, global, extern_kind, space};
ghost use Rattle.wasm_defs.specs.Entries.{exported, start, element, code, data_count, memory_of, passive, segment};
ghost use Rattle.leb_feed.specs.Reads.{Reads, NeedsNoMemory};

use crate::entry_fields::{constant, index, indices, limits, value_types};
use crate::seen::Seen;
use leb_feed::{Fields, Stop};
use std::alloc::Global;
use wasm_defs::{
    Extern, FuncType, Item, Kind, MAX_ENTRIES, MAX_PAGES, MAX_PARAMS, MAX_RESULTS, MAX_TABLE,
    TOP_PAGES, ValType,
};

/// The greatest maximum that a table may have, in rows: any.
const TOP_ROWS: u32 = u32::MAX;

/// A function type (Core 5.3.3).
#[tactic(auto, unfolding(wasm_defs::specs::Entries::signature, wasm_defs::specs::Fields::vector))]
pub fn signature(fields: &mut Fields<'_>, alloc: Global, seen: &Seen) -> Result<Item, Stop>
    ensures { Reads (signature seen.now) (λ n. n) result fields.old fields.new }
{
    let (form, byte) = fields.byte()?;
    if byte != 0x60 {
        return Err(Fields::refused(Kind::Malformed, form));
    }
    let (params, n) = fields.count(MAX_PARAMS)?;
    let param_types = value_types(fields, alloc, n)?;
    let (results, n) = fields.count(MAX_RESULTS)?;
    let result_types = value_types(fields, alloc, n)?;
    Ok(Item::Signature {
        form,
        params,
        results,
        ty: FuncType {
            params: param_types,
            results: result_types,
        },
    })
}

/// An import (Core 5.5.5); only functions are compiled.
#[tactic(auto, unfolding(wasm_defs::specs::Entries::imported))]
pub fn imported(fields: &mut Fields<'_>, alloc: Global, seen: &Seen) -> Result<Item, Stop>
    ensures { Reads (imported seen.now) (λ n. n) result fields.old fields.new }
{
    let module = fields.name(alloc)?;
    let name = fields.name(alloc)?;
    let (kind, byte) = fields.byte()?;
    if 3 < byte {
        return Err(Fields::refused(Kind::Malformed, kind));
    }
    if 0 < byte {
        return Err(Fields::refused(Kind::Unsupported, kind));
    }
    let type_index = index(fields, seen.types)?;
    Ok(Item::Imported {
        module,
        name,
        kind,
        type_index,
    })
}

/// A function's type (Core 5.5.6).
#[tactic(auto, unfolding(wasm_defs::specs::Entries::function))]
pub fn function(fields: &mut Fields<'_>, seen: &Seen) -> Result<Item, Stop>
    ensures read { Reads (function seen.now) (λ n. n) result fields.old fields.new }
    ensures free { NeedsNoMemory result }
{
    let type_index = index(fields, seen.types)?;
    Ok(Item::Function { type_index })
}

/// A table (Core 5.5.7).
#[tactic(auto, unfolding(wasm_defs::specs::Entries::table))]
pub fn table(fields: &mut Fields<'_>, seen: &Seen) -> Result<Item, Stop>
    ensures read { Reads (table seen.now) (λ n. n) result fields.old fields.new }
    ensures free { NeedsNoMemory result }
{
    let (element, byte) = fields.byte()?;
    if byte != 0x70 {
        return Err(Fields::refused(Kind::Malformed, element));
    }
    let limits = limits(fields, MAX_TABLE, TOP_ROWS)?;
    Ok(Item::Table { element, limits })
}

/// A memory (Core 5.5.8).
#[tactic(auto, unfolding(wasm_defs::specs::Entries::memory))]
pub fn memory(fields: &mut Fields<'_>, seen: &Seen) -> Result<Item, Stop>
    ensures read { Reads (memory seen.now) (λ n. n) result fields.old fields.new }
    ensures free { NeedsNoMemory result }
{
    let limits = limits(fields, MAX_PAGES, TOP_PAGES)?;
    Ok(Item::Memory { limits })
}

#[tactic(auto, unfolding(wasm_defs::specs::Entries::mutability))]
fn mutability(fields: &mut Fields<'_>) -> Result<(u64, bool), Stop>
    ensures read { Reads mutability (λ n. n) result fields.old fields.new }
    ensures free { NeedsNoMemory result }
{
    let (at, byte) = fields.byte()?;
    if 1 < byte {
        return Err(Fields::refused(Kind::Malformed, at));
    }
    Ok((at, byte == 1))
}

/// A global (Core 5.5.9).
#[tactic(auto, unfolding(wasm_defs::specs::Entries::global))]
pub fn global(fields: &mut Fields<'_>, seen: &Seen) -> Result<Item, Stop>
    ensures read { Reads (global seen.now) (λ n. n) result fields.old fields.new }
    ensures free { NeedsNoMemory result }
{
    let ty = fields.value_type()?;
    let mutable = mutability(fields)?;
    let init = constant(fields, ty.1)?;
    Ok(Item::Global { ty, mutable, init })
}

#[tactic(auto, unfolding(wasm_defs::specs::Entries::extern_kind))]
fn extern_kind(fields: &mut Fields<'_>) -> Result<(u64, Extern), Stop>
    ensures read { Reads extern_kind (λ n. n) result fields.old fields.new }
    ensures free { NeedsNoMemory result }
{
    let (at, byte) = fields.byte()?;
    match byte {
        0 => Ok((at, Extern::Function)),
        1 => Ok((at, Extern::Table)),
        2 => Ok((at, Extern::Memory)),
        3 => Ok((at, Extern::Global)),
        _ => Err(Fields::refused(Kind::Malformed, at)),
    }
}

/// How many there are of a kind.
fn space(seen: &Seen, kind: Extern) -> u64
    ensures { result ≡ space seen.now kind }
{
    match kind {
        Extern::Function => seen.functions,
        Extern::Table => seen.tables,
        Extern::Memory => seen.memories,
        Extern::Global => seen.globals,
    }
}

/// An export (Core 5.5.10); no two have one name (Core 3.4.10).
#[tactic(auto, unfolding(wasm_defs::specs::Entries::exported))]
pub fn exported(fields: &mut Fields<'_>, alloc: Global, seen: &Seen) -> Result<Item, Stop>
    ensures { Reads (exported seen.now) (λ n. n) result fields.old fields.new }
{
    let (at, name) = fields.name(alloc)?;
    if seen.names.contains(name.as_slice()) {
        return Err(Fields::refused(Kind::Invalid, at));
    }
    let kind = extern_kind(fields)?;
    let index = index(fields, space(seen, kind.1))?;
    Ok(Item::Exported {
        name: (at, name),
        kind,
        index,
    })
}

/// The start function (Core 5.5.11).
#[tactic(auto, unfolding(wasm_defs::specs::Entries::start))]
pub fn start(fields: &mut Fields<'_>, seen: &Seen) -> Result<Item, Stop>
    ensures read { Reads (start seen.now) (λ n. n) result fields.old fields.new }
    ensures free { NeedsNoMemory result }
{
    let index = index(fields, seen.functions)?;
    Ok(Item::Start { index })
}

/// An element segment (Core 5.5.12).
#[tactic(auto, unfolding(wasm_defs::specs::Entries::element, wasm_defs::specs::Fields::vector))]
pub fn element(fields: &mut Fields<'_>, alloc: Global, seen: &Seen) -> Result<Item, Stop>
    ensures { Reads (element seen.now) (λ n. n) result fields.old fields.new }
{
    let table = index(fields, seen.tables)?;
    let place = constant(fields, ValType::I32)?;
    let (at, n) = fields.u32()?;
    let functions = (at, indices(fields, alloc, n, seen.functions)?);
    Ok(Item::Element {
        table,
        place,
        functions,
    })
}

/// The code section's count (Core 5.5.13); its bodies follow.
#[tactic(auto, unfolding(wasm_defs::specs::Entries::code, wasm_defs::specs::Fields::stop))]
pub fn code(fields: &mut Fields<'_>, seen: &Seen) -> Result<Item, Stop>
    ensures read { Reads (code seen.now) (λ n. n) result fields.old fields.new }
    ensures free { NeedsNoMemory result }
{
    let count = fields.u32()?;
    if u64::from(count.1) != seen.declared {
        return Err(Fields::refused(Kind::Malformed, count.0));
    }
    Ok(Item::Code {
        count,
        end: fields.end(),
    })
}

/// The data count (Core 2.0, 5.5.15).
#[tactic(auto, unfolding(wasm_defs::specs::Entries::data_count))]
pub fn data_count(fields: &mut Fields<'_>, seen: &Seen) -> Result<Item, Stop>
    ensures read { Reads (data_count seen.now) (λ n. n) result fields.old fields.new }
    ensures free { NeedsNoMemory result }
{
    let count = fields.count(MAX_ENTRIES)?;
    Ok(Item::DataCount { count })
}

/// The index of an active segment's memory, which form 2 has; form 0 means the memory of index 0.
#[tactic(auto, unfolding(wasm_defs::specs::Entries::memory_of))]
pub fn memory_of(
    fields: &mut Fields<'_>,
    form: (u64, u32),
    seen: &Seen,
) -> Result<Option<(u64, u32)>, Stop>
    ensures read { Reads (memory_of seen.now form) (λ n. n) result fields.old fields.new }
    ensures free { NeedsNoMemory result }
{
    if form.1 == 2 {
        let memory = index(fields, seen.memories)?;
        return Ok(Some(memory));
    }
    if 0 < seen.memories {
        return Ok(None);
    }
    Err(Fields::refused(Kind::Invalid, form.0))
}

#[tactic(auto, unfolding(wasm_defs::specs::Entries::passive))]
fn passive(fields: &mut Fields<'_>, alloc: Global, form: u64) -> Result<Item, Stop>
    ensures { Reads (passive form) (λ n. n) result fields.old fields.new }
{
    let bytes = fields.counted_bytes(alloc)?;
    Ok(Item::Passive { form, bytes })
}

/// A data segment, in one of three forms (Core 2.0, 5.5.14): active, passive, and active with a memory's index.
#[tactic(auto, unfolding(wasm_defs::specs::Entries::segment))]
pub fn segment(fields: &mut Fields<'_>, alloc: Global, seen: &Seen) -> Result<Item, Stop>
    ensures { Reads (segment seen.now) (λ n. n) result fields.old fields.new }
{
    let form = fields.u32()?;
    if 2 < form.1 {
        return Err(Fields::refused(Kind::Malformed, form.0));
    }
    if form.1 == 1 {
        return passive(fields, alloc, form.0);
    }
    let memory = memory_of(fields, form, seen)?;
    let place = constant(fields, ValType::I32)?;
    let bytes = fields.counted_bytes(alloc)?;
    Ok(Item::Segment {
        form: form.0,
        memory,
        place,
        bytes,
    })
}
