//! What a section holds around its entries: how many they are, and what is passed over after them (WebAssembly Core
//! 1.0, 5.5.2).

ghost use Rattle.wasm_defs.specs.Outside.{number_of, at_most_one, function_count, segment_count, custom_name, rest_of_section};
ghost use Rattle.leb_feed.specs.Reads.{Reads, NeedsNoMemory};
ghost use Rattle.section_reader.specs.Outline.{outline_row};

use crate::seen::Seen;
use leb_feed::{Fields, Stop};
use std::alloc::Global;
use wasm_defs::{Kind, MAX_ENTRIES};

#[tactic(auto, unfolding(wasm_defs::specs::Outside::number_of))]
fn number_of(fields: &mut Fields<'_>, most: u32) -> Result<u64, Stop>
    ensures read { Reads (number_of most) (λ n. n) result fields.old fields.new }
    ensures free { NeedsNoMemory result }
{
    let (_, n) = fields.count(most)?;
    Ok(u64::from(n))
}

/// Of what a module has one at most (Core 2.5).
#[tactic(auto, unfolding(wasm_defs::specs::Outside::at_most_one))]
fn at_most_one(fields: &mut Fields<'_>) -> Result<u64, Stop>
    ensures read { Reads at_most_one (λ n. n) result fields.old fields.new }
    ensures free { NeedsNoMemory result }
{
    let (at, n) = fields.u32()?;
    if 1 < n {
        return Err(Fields::refused(Kind::Invalid, at));
    }
    Ok(u64::from(n))
}

/// Imports and functions together have one limit.
#[tactic(auto, unfolding(wasm_defs::specs::Outside::function_count))]
fn function_count(fields: &mut Fields<'_>, seen: &Seen) -> Result<u64, Stop>
    ensures read { Reads (function_count seen.now) (λ n. n) result fields.old fields.new }
    ensures free { NeedsNoMemory result }
{
    let (at, n) = fields.u32()?;
    if u128::from(MAX_ENTRIES) < u128::from(seen.functions) + u128::from(n) {
        return Err(Fields::refused(Kind::Limit, at));
    }
    Ok(u64::from(n))
}

/// As many data segments as the data count says, where there is one (Core 2.0, 5.5.16).
#[tactic(auto, unfolding(wasm_defs::specs::Outside::segment_count))]
fn segment_count(fields: &mut Fields<'_>, seen: &Seen) -> Result<u64, Stop>
    ensures read { Reads (segment_count seen.now) (λ n. n) result fields.old fields.new }
    ensures free { NeedsNoMemory result }
{
    let (at, n) = fields.u32()?;
    if !seen.agrees(n) {
        return Err(Fields::refused(Kind::Malformed, at));
    }
    if MAX_ENTRIES < n {
        return Err(Fields::refused(Kind::Limit, at));
    }
    Ok(u64::from(n))
}

/// A custom section's name (Core 5.5.3); it has no entries.
#[tactic(auto, unfolding(wasm_defs::specs::Outside::custom_name))]
fn custom_name(fields: &mut Fields<'_>, alloc: Global) -> Result<u64, Stop>
    ensures { Reads custom_name (λ n. n) result fields.old fields.new }
{
    fields.name(alloc)?;
    Ok(0)
}

/// How many entries a section has, by its position; the code section has one, its count.
pub fn entry_count(
    fields: &mut Fields<'_>,
    alloc: Global,
    position: u8,
    seen: &Seen,
) -> Result<u64, Stop>
    ensures { Reads ((outline_row position).front seen.now) (λ n. n) result fields.old fields.new }
{
    match position {
        1 | 2 | 6 | 7 | 9 => number_of(fields, MAX_ENTRIES),
        3 => function_count(fields, seen),
        4 | 5 => at_most_one(fields),
        8 | 10 | 11 => Ok(1),
        12 => segment_count(fields, seen),
        _ => custom_name(fields, alloc),
    }
}

/// Passes over what the section has left.
#[tactic(auto, unfolding(wasm_defs::specs::Outside::rest_of_section, wasm_defs::specs::Fields::room))]
pub fn rest_of_section(fields: &mut Fields<'_>) -> Result<(), Stop>
    ensures read { Reads rest_of_section (λ n. tt) result fields.old fields.new }
    ensures free { NeedsNoMemory result }
{
    let room = fields.room();
    fields.run(room)?;
    Ok(())
}
