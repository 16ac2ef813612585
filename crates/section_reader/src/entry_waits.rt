//! What an entry waits for that isn't whole yet (WebAssembly Core 1.0, 5.5).

ghost use Rattle.std.specs.Prelude.{◌≡◌, ◌≤◌, ◌-◌, length};
ghost use Rattle.wasm_defs.specs.Fields.{Cursor, counted_bytes, name};
ghost use Rattle.wasm_defs.specs.Entries.{signature, imported, exported, element, segment};
ghost use Rattle.section_reader.specs.Outline.{outline_row};
ghost use Rattle.section_reader.specs.Waits.{Awaits, AwaitsAt, IsPlaced, resumes_at};

use crate::entries::memory_of;
use crate::entry_fields::{constant, index, value_types};
use crate::seen::Seen;
use crate::wait::{Element, Wait};
use leb_feed::{Fields, between, state_after};
use std::alloc::Global;
use wasm_defs::{MAX_PARAMS, MAX_RESULTS, ValType};

/// What an entry of a section waits for, by the section's position.
pub fn entry_wait(fields: &Fields<'_>, alloc: Global, position: u8, seen: &Seen) -> Wait
    ensures awaits { Awaits ((outline_row position).entry seen.now) fields.now result }
    ensures placed { IsPlaced result fields.now }
{
    match position {
        1 => signature_wait(fields, alloc, seen),
        2 => imported_wait(fields, alloc, seen),
        7 => exported_wait(fields, seen),
        9 => element_wait(fields, seen),
        12 => segment_wait(fields, seen),
        _ => Wait::Nothing,
    }
}

/// What a name waits for: bytes with which it can be right, all but the last of those that its length
/// counts.
pub fn name_wait(fields: &Fields<'_>) -> Wait
    ensures awaits { (from : Cursor) → AwaitsAt name fields.now result from }
    ensures place { resumes_at result ≡ 0 }
{
    let mut next = fields.fork();
    let Ok(len) = next.u32() else {
        return Wait::Nothing;
    };
    let text = next.rest();
    if next.room() < u64::from(len.1) || len.1 as usize <= text.len() {
        return Wait::Nothing;
    }
    match state_after(between(), text) {
        Some(inside) => Wait::Text {
            owed: len.1 - text.len() as u32,
            inside,
        },
        None => Wait::Nothing,
    }
}

/// A list of so many elements that begins where reading is now.
fn list_wait(fields: &Fields<'_>, now: &Fields<'_>, owed: u32, element: Element) -> Wait
    requires { length now.now.rest ≤ length fields.now.rest }
    ensures { result ≡ Wait.List (length fields.now.rest - length now.now.rest) owed element }
{
    Wait::List {
        place: fields.rest().len() - now.rest().len(),
        owed,
        element,
    }
}

/// A type's parameters, and after them its results.
fn signature_wait(fields: &Fields<'_>, alloc: Global, seen: &Seen) -> Wait
    ensures awaits { Awaits (signature seen.now) fields.now result }
    ensures placed { IsPlaced result fields.now }
{
    let mut next = fields.fork();
    let Ok(form) = next.byte() else {
        return Wait::Nothing;
    };
    if form.1 != 0x60 {
        return Wait::Nothing;
    }
    let Ok(params) = next.count(MAX_PARAMS) else {
        return Wait::Nothing;
    };
    let first = next.fork();
    let Ok(_) = value_types(&mut next, alloc, params.1) else {
        return list_wait(fields, &first, params.1, Element::ValueType);
    };
    let Ok(results) = next.count(MAX_RESULTS) else {
        return Wait::Nothing;
    };
    list_wait(fields, &next, results.1, Element::ValueType)
}

/// An import's names.
fn imported_wait(fields: &Fields<'_>, alloc: Global, seen: &Seen) -> Wait
    ensures awaits { Awaits (imported seen.now) fields.now result }
    ensures place { resumes_at result ≡ 0 }
{
    let mut next = fields.fork();
    let Ok(_) = next.name(alloc) else {
        return name_wait(fields);
    };
    name_wait(&next)
}

/// An export's name.
fn exported_wait(fields: &Fields<'_>, seen: &Seen) -> Wait
    ensures awaits { Awaits (exported seen.now) fields.now result }
    ensures place { resumes_at result ≡ 0 }
{
    name_wait(fields)
}

/// An element segment's indices.
fn element_wait(fields: &Fields<'_>, seen: &Seen) -> Wait
    ensures awaits { Awaits (element seen.now) fields.now result }
    ensures placed { IsPlaced result fields.now }
{
    let mut next = fields.fork();
    let Ok(_) = index(&mut next, seen.tables) else {
        return Wait::Nothing;
    };
    let Ok(_) = constant(&mut next, ValType::I32) else {
        return Wait::Nothing;
    };
    let Ok(indices) = next.u32() else {
        return Wait::Nothing;
    };
    list_wait(fields, &next, indices.1, Element::Index(seen.functions))
}

/// A data segment's bytes.
fn segment_wait(fields: &Fields<'_>, seen: &Seen) -> Wait
    ensures awaits { Awaits (segment seen.now) fields.now result }
    ensures place { resumes_at result ≡ 0 }
{
    let mut next = fields.fork();
    let Ok(form) = next.u32() else {
        return Wait::Nothing;
    };
    if 2 < form.1 {
        return Wait::Nothing;
    }
    if form.1 == 1 {
        return bytes_wait(&next);
    }
    let Ok(_) = memory_of(&mut next, form, seen) else {
        return Wait::Nothing;
    };
    let Ok(_) = constant(&mut next, ValType::I32) else {
        return Wait::Nothing;
    };
    bytes_wait(&next)
}

/// Bytes after their number: all but the last of those that it counts.
fn bytes_wait(fields: &Fields<'_>) -> Wait
    ensures awaits { (from : Cursor) → AwaitsAt counted_bytes fields.now result from }
    ensures place { resumes_at result ≡ 0 }
{
    let mut next = fields.fork();
    let Ok(len) = next.u32() else {
        return Wait::Nothing;
    };
    let owed = u64::from(len.1);
    let there = next.rest().len() as u64;
    if next.room() < owed || owed <= there {
        return Wait::Nothing;
    }
    Wait::Bytes(owed - there - 1)
}
