//! The bytes that an image is loaded to.
ghost use Rattle.std.specs.Prelude.{◌≡◌, ◌+◌, ◌*◌, ◌≤◌, IfOk, IsTrue, length};
ghost use Rattle.fused_steps.specs.States.{bytes_of};
ghost use Rattle.wasm_defs.specs.Instances.{all_fit, all_over, over};
ghost use Rattle.wasm_defs.specs.Memory.{page};
ghost use Rattle.image_format.specs.Environment.{row_words, segments_of, stack_size, word_bytes};
ghost use Rattle.image_run.specs.States.{IsLoaded, zeros};

use crate::layout::{PAGE, STACK_SIZE};
use crate::words::push_word;
use image_format::{Image, Row, Segment};
use rv64im_machine::{LinearMemory, Regions};
use std::alloc::{AllocError, Global};

/// So many bytes that are zero.
#[tactic(auto, unfolding(crate::specs::States::zeros))]
fn zeros(alloc: Global, size: usize) -> Result<Vec<u8>, AllocError>
    ensures items { IfOk result (λ v. v.items ≡ zeros size) }
    ensures size { IfOk result (λ v. length v.items ≡ size) }
{
    vec![in alloc; 0; size]
}

/// The bytes of the globals.
fn globals_of(alloc: Global, words: &[u64]) -> Result<Vec<u8>, AllocError>
    requires { length words.now ≤ 300000 }
    ensures { IfOk result (λ v. v.items ≡ word_bytes words.now) }
{
    let mut bytes = Vec::with_capacity(alloc, 8 * words.len())?;
    for word in words {
        push_word(&mut bytes, *word)?;
    }
    Ok(bytes)
}

/// The bytes of the table: of each row its code's address, and the index of its type.
fn table_of(alloc: Global, rows: &[Row]) -> Result<Vec<u8>, AllocError>
    requires { length rows.now ≤ 100000 }
    ensures { IfOk result (λ v. v.items ≡ word_bytes (row_words rows.now)) }
{
    let mut bytes = Vec::with_capacity(alloc, 16 * rows.len())?;
    for row in rows {
        push_word(&mut bytes, row.code)?;
        push_word(&mut bytes, row.like)?;
    }
    Ok(bytes)
}

/// Writes a segment over a memory's bytes.
fn write_segment(memory: &mut [u8], segment: &Segment)
    requires { segment.now.place + length segment.now.bytes ≤ length memory.old }
    ensures { memory.new ≡ over memory.old (segment.now.place, segment.now.bytes) }
{
    let bytes = segment.bytes.as_slice();
    let start = segment.place as usize;
    memory[start..start + bytes.len()].copy_from_slice(bytes);
}

/// A memory of that size, with the segments at their addresses and zeros elsewhere. Room is taken for all of it, and its first bytes
/// are stored; the segments are in these.
fn memory_of(
    alloc: Global,
    size: usize,
    first: usize,
    segments: &[Segment],
) -> Result<LinearMemory, AllocError>
    requires first { first ≤ size }
    requires fit { IsTrue (all_fit first (segments_of segments.now)) }
    ensures bytes { IfOk result (λ m. m.bytes ≡ all_over (zeros size) (segments_of segments.now)) }
    ensures size { IfOk result (λ m. length m.bytes ≡ size) }
    ensures backed { IfOk result (λ m. m.backed ≡ first) }
{
    let mut stored = Vec::with_capacity(alloc, size)?;
    stored.resize(first, 0)?;
    for segment in segments {
        write_segment(&mut stored, segment);
    }
    Ok(LinearMemory::reserved(stored, size))
}

/// The bytes that an image is loaded to. Room for the memory is taken up to its cap, and its first pages are stored.
pub(crate) fn regions_of(alloc: Global, image: &Image) -> Result<Regions, AllocError>
    ensures loaded { IfOk result (λ r. IsLoaded image.now (bytes_of r)) }
    ensures stack { IfOk result (λ r. length r.stack.items ≡ stack_size) }
    ensures globals { IfOk result (λ r. length r.globals.items ≤ 2400000) }
    ensures table { IfOk result (λ r. length r.table.items ≤ 1600000) }
    ensures memory { IfOk result (λ r. length r.memory.bytes ≡ page * image.now.cap) }
    ensures backed { IfOk result (λ r. r.memory.backed ≡ page * image.now.pages) }
    ensures passive { IfOk result (λ r. length r.passive.items ≤ 67108864) }
{
    let size = PAGE as usize * image.cap as usize;
    let stack = zeros(alloc, STACK_SIZE)?;
    let globals = globals_of(alloc, image.globals.as_slice())?;
    let table = table_of(alloc, image.table.as_slice())?;
    let first = PAGE as usize * image.pages as usize;
    let memory = memory_of(alloc, size, first, image.segments.as_slice())?;
    let passive = Vec::from_slice(alloc, image.passive.as_slice())?;
    Ok(Regions {
        stack,
        globals,
        table,
        memory,
        passive,
    })
}
