//! The data segments of a module, and those of its image.

ghost use Rattle.std.specs.Prelude.{◌≡◌, ◌↔◌, true, ◌+◌, ◌*◌, ◌^◌, ◌≤◌, ◌<◌, ◌++◌, length, take, IsTrue, IfOk, IfSome, OnOk};
ghost use Rattle.rv_isa.specs.Steps.{region_base};
ghost use Rattle.rv_isa.specs.declared.stepping.Region.TheVariants.{Passive};
ghost use Rattle.wasm_defs.specs.Memory.{page};
ghost use Rattle.wasm_defs.specs.Instances.{all_fit};
ghost use Rattle.index_spaces.specs.Entries.{written_segments, bytes_at_first, segments_at_first};
ghost use Rattle.image_linker.specs.ImageOf.{segment_words, joined};
ghost use Rattle.image_linker.specs.Linking.{linked_segments, ArePlaced};

use image_format::{PAGE_BYTES, Segment};
use index_spaces::DataRow;
use std::alloc::{AllocError, Global};
use wasm_defs::Bytes;

/// The address of the first byte of passive segments.
const PASSIVE_BASE: u64 = 0x7000_0000;

/// Whether a memory of so many pages has room for a data segment: a passive one needs none.
fn has_room(pages: u32, row: &DataRow) -> bool
    ensures { IsTrue result ↔ IfSome row.now.place (λ place. place + length row.now.bytes ≤ page * pages) }
{
    let size = pages as u64 * PAGE_BYTES;
    match row.place {
        Some(place) => place <= size && row.bytes.as_slice().len() as u64 <= size - place,
        None => true,
    }
}

/// Whether it has room for all of them (Core 4.5.4).
pub(crate) fn have_room(pages: u32, rows: &[DataRow]) -> bool
    ensures { result ≡ all_fit (page * pages) (written_segments rows.now) }
{
    for row in rows {
        if !has_room(pages, row) {
            return false;
        }
    }
    true
}

/// The segments of an image: copies of the active data segments where all are in bounds, and else none.
pub(crate) fn placed_segments(
    alloc: Global,
    linkable: bool,
    rows: &[DataRow],
) -> Result<Vec<Segment>, AllocError>
    requires { ArePlaced linkable rows.now }
    ensures { IfOk result (λ segments. segments.items ≡ linked_segments linkable rows.now) }
{
    if linkable {
        copies_of(alloc, rows)
    } else {
        Ok(Vec::new(alloc))
    }
}

fn copies_of(alloc: Global, rows: &[DataRow]) -> Result<Vec<Segment>, AllocError>
    requires { ArePlaced true rows.now }
    ensures { IfOk result (λ segments. segments.items ≡ linked_segments true rows.now) }
{
    let mut segments = Vec::with_capacity(alloc, rows.len())?;
    for row in rows {
        if let Some(place) = row.place {
            let bytes = Bytes::new(Vec::from_slice(alloc, row.bytes.as_slice())?);
            segments.push(Segment {
                place: place as u32,
                bytes,
            })?;
        }
    }
    Ok(segments)
}

/// The data segments that instructions may name: the first ones, as many as are counted.
pub(crate) fn named_rows(count: u32, rows: &[DataRow]) -> &[DataRow]
    ensures { result.now ≡ take count rows.now }
{
    &rows[..rows.len().min(count as usize)]
}

/// The bytes of a data segment when a run begins: none where it is active (Core 2.0, 4.5.4).
fn bytes_at_first(row: &DataRow) -> &[u8]
    ensures { result.now ≡ bytes_at_first row.now.place row.now.bytes }
{
    match row.place {
        Some(_) => &[],
        None => row.bytes.as_slice(),
    }
}

/// Appends two words for each data segment: its length when a run begins, and the address of its bytes.
pub(crate) fn put_words(words: &mut Vec<u64>, rows: &[DataRow]) -> Result<(), AllocError>
    requires { region_base Passive + length (joined (segments_at_first rows.now)) < 2 ^ 64 }
    ensures { OnOk result (words.new.items ≡ words.old.items ++ segment_words 0 (segments_at_first rows.now)) }
{
    let mut address = PASSIVE_BASE;
    for row in rows {
        let size = bytes_at_first(row).len() as u64;
        words.push(size)?;
        words.push(address)?;
        address += size;
    }
    Ok(())
}

/// How many bytes the passive ones have together.
fn passive_size(rows: &[DataRow]) -> usize
    requires { length (joined (segments_at_first rows.now)) < 2 ^ 63 }
    ensures { result ≡ length (joined (segments_at_first rows.now)) }
{
    let mut size = 0;
    for row in rows {
        size += bytes_at_first(row).len();
    }
    size
}

/// The bytes of the passive ones, one after the other.
pub(crate) fn passive_bytes(alloc: Global, rows: &[DataRow]) -> Result<Vec<u8>, AllocError>
    requires { length (joined (segments_at_first rows.now)) < 2 ^ 63 }
    ensures { IfOk result (λ bytes. bytes.items ≡ joined (segments_at_first rows.now)) }
{
    let mut bytes = Vec::with_capacity(alloc, passive_size(rows))?;
    for row in rows {
        bytes.extend_from_slice(bytes_at_first(row))?;
    }
    Ok(bytes)
}
