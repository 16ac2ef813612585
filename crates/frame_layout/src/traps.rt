//! Where the traps of an instruction are among its instruction words.

ghost use Rattle.std.specs.Prelude.{◌≡◌, ◌+◌, [], ◌∷◌, ◌++◌, map, length, OnOk};
ghost use Rattle.frame_layout.specs.Traps.{division_places, bulk_places, trap_places, site_at};

use rv_isa::{TrapSite, WordBuffer};
use std::alloc::AllocError;
use wasm_defs::{BinaryOp, BulkOp, Operation, Plain, ValType};

/// Notes a trap.
#[inline(never)]
fn note(sites: &mut Vec<TrapSite>, place: usize, offset: u64) -> Result<(), AllocError>
    ensures { OnOk result (sites.new.items ≡ sites.old.items ++ record { place = place; offset = offset } ∷ []) }
{
    sites.push(TrapSite { place, offset })?;
    Ok(())
}

/// Notes the traps of a division, or that other operations have none.
#[inline(always)]
fn note_division(
    sites: &mut Vec<TrapSite>,
    words: &WordBuffer,
    offset: u64,
    ty: ValType,
    op: BinaryOp,
) -> Result<(), AllocError>
    ensures { OnOk result (sites.new.items ≡ sites.old.items ++ map (site_at (length words.now) offset) (division_places ty op)) }
{
    let here = words.len();
    match op {
        BinaryOp::DivS => {
            let overflow = match ty {
                ValType::I32 => 16,
                ValType::I64 => 17,
            };
            note(sites, here + 9, offset)?;
            note(sites, here + overflow, offset)
        }
        BinaryOp::DivU | BinaryOp::RemS | BinaryOp::RemU => note(sites, here + 9, offset),
        _ => Ok(()),
    }
}

/// Notes the traps of `memory.fill`, `memory.copy` or `memory.init`.
#[inline(never)]
fn note_bulk(
    sites: &mut Vec<TrapSite>,
    words: &WordBuffer,
    offset: u64,
    op: BulkOp,
) -> Result<(), AllocError>
    ensures { OnOk result (sites.new.items ≡ sites.old.items ++ map (site_at (length words.now) offset) (bulk_places op)) }
{
    let here = words.len();
    match op {
        BulkOp::Fill => note(sites, here + 14, offset),
        BulkOp::Copy => {
            note(sites, here + 19, offset)?;
            note(sites, here + 24, offset)
        }
        BulkOp::Init(_) => {
            note(sites, here + 22, offset)?;
            note(sites, here + 27, offset)
        }
    }
}

/// Notes the traps of an instruction at a reachable point, whose instruction words follow these: the index of each one's ECALL, and
/// the offset of the instruction in the module. It is inlined where the instruction is known: most have no trap.
#[inline(always)]
pub fn note_traps(
    sites: &mut Vec<TrapSite>,
    words: &WordBuffer,
    offset: u64,
    plain: &Plain,
) -> Result<(), AllocError>
    ensures { OnOk result (sites.new.items ≡ sites.old.items ++ map (site_at (length words.now) offset) (trap_places plain.now)) }
{
    let here = words.len();
    match plain {
        Plain::Unreachable => note(sites, here + 2, offset),
        Plain::Load(_, _) | Plain::Store(_, _) => note(sites, here + 15, offset),
        Plain::CallIndirect(_, _) => {
            note(sites, here + 13, offset)?;
            note(sites, here + 20, offset)?;
            note(sites, here + 30, offset)
        }
        Plain::Bulk(op) => note_bulk(sites, words, offset, *op),
        Plain::Numeric(Operation::Binary(ty, op)) => note_division(sites, words, offset, *ty, *op),
        _ => Ok(()),
    }
}
