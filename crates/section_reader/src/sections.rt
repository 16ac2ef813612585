//! What is around the entries of sections (WebAssembly Core 1.0, 5.5.2 and 5.5.16).

ghost use Rattle.std.specs.Prelude.{◌≡◌, ◌≤◌, IfOk};
ghost use Rattle.wasm_defs.specs.Fields.{here};
ghost use Rattle.wasm_defs.specs.Outside.{header, position_of, section_end, preamble, magic, version};
ghost use Rattle.leb_feed.specs.Reads.{Reads, NeedsNoMemory};

use crate::seen::Seen;
use leb_feed::{Fields, Stop};
use wasm_defs::{Kind, MAX_MODULE};

/// The function section's position in the order.
pub const FUNCTIONS: u8 = 3;

/// The code section's position in the order.
pub const CODE: u8 = 11;

/// The data section's position, the last one.
pub const DATA: u8 = 12;

/// A section's position in the order, by its id: ids rise, but the data count, whose id is 12, comes before the code (Core 2.0,
/// 5.5.16). Custom sections have position 0, and are anywhere.
fn position_of(id: u8) -> u8
    ensures { result ≡ position_of id }
{
    match id {
        10 | 11 => id + 1,
        12 => 10,
        _ => id,
    }
}

/// The magic bytes and the version.
#[tactic(auto, unfolding(wasm_defs::specs::Outside::preamble))]
pub fn preamble(fields: &mut Fields<'_>) -> Result<u64, Stop>
    ensures read { Reads preamble (λ n. n) result fields.old fields.new }
    ensures free { NeedsNoMemory result }
{
    fields.fixed(&[0x00, 0x61, 0x73, 0x6D])?;
    fields.fixed(&[0x01, 0x00, 0x00, 0x00])
}

/// A section's position, and where it ends.
#[tactic(auto, unfolding(wasm_defs::specs::Outside::header, wasm_defs::specs::Fields::here))]
pub fn header(fields: &mut Fields<'_>, seen: &Seen) -> Result<(u8, u64), Stop>
    ensures read { Reads (header seen.now) (λ n. n) result fields.old fields.new }
    ensures ahead { IfOk result (λ h. fields.new.at ≤ h.1) }
    ensures free { NeedsNoMemory result }
{
    let (at, id) = fields.byte()?;
    let position = position_of(id);
    if seen.is_misplaced(position) {
        return Err(Fields::refused(Kind::Malformed, at));
    }
    if MAX_MODULE <= at {
        return Err(Fields::refused(Kind::Limit, at));
    }
    let (at, size) = fields.u32()?;
    let end = u128::from(fields.offset()) + u128::from(size);
    if u128::from(MAX_MODULE) < end {
        return Err(Fields::refused(Kind::Limit, at));
    }
    Ok((position, end as u64))
}

/// Ends a section. Bytes that it has left are malformed once one came.
#[tactic(auto, unfolding(wasm_defs::specs::Outside::section_end))]
pub fn section_end(fields: &mut Fields<'_>) -> Result<(), Stop>
    ensures read { Reads section_end (λ n. tt) result fields.old fields.new }
    ensures free { NeedsNoMemory result }
{
    if fields.room() == 0 {
        fields.leave();
        return Ok(());
    }
    if fields.rest().is_empty() {
        return Err(Stop::Wants);
    }
    Err(Fields::refused(Kind::Malformed, fields.offset()))
}
