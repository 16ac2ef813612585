//! Writes images without a second copy of their long lists: the text and the passive bytes are written as the image has them, and the trap
//! sites are encoded a piece at a time. All memory is taken before the first byte is written.

ghost use Rattle.std.specs.Prelude.{◌≡◌, ◌≤◌, ◌<◌, ◌^◌, ◌-◌, ◌++◌, true, nat_lt, length, IfOk, OnErr};
ghost use Rattle.std.specs.List.{flat_map};
ghost use Rattle.image_format.specs.declared.limits.TheConstants.{IMAGE_BYTES};
ghost use Rattle.image_format.specs.ImageBytes.{place, spelling};
ghost use Rattle.image_format.specs.Parts.{joined};
ghost use Rattle.io_edges.specs.Streams.{WritesText};
ghost use Rattle.stream_compile.specs.Running.{IsTold};
ghost use Rattle.stream_compile.specs.Texts.{compiled, Told};

use crate::writing::{SINK_FAILED, write_both};
use image_format::{FixedSize, Image, Piece, ShortFields, TrapPlace, short_fields};
use io_edges::{Sink, write_all};
use std::alloc::{AllocError, Global};

/// Writes the elements of a list, a piece at a time, and says whether the sink took them.
fn write_items<T: FixedSize, O: Sink>(out: &mut O, piece: &mut Piece, items: &[T]) -> bool
    requires { O.is_open out.old ≡ true }
    ensures text { WritesText result (flat_map T.encoding items.now) (O.written out.old) (O.written out.new) (O.faults out.old) (O.faults out.new) }
    ensures open { result ≡ true → O.is_open out.new ≡ true }
{
    let mut from = 0;
    while from < items.len() {
        let count = piece.encode(&items[from..]);
        if !write_all(out, piece.as_slice()) {
            return false;
        }
        from += count;
    }
    true
}

/// Writes the fields before a list, and the list.
fn write_list<T: FixedSize, O: Sink>(
    out: &mut O,
    piece: &mut Piece,
    front: &[u8],
    items: &[T],
) -> bool
    requires { O.is_open out.old ≡ true }
    ensures text { WritesText result (front.now ++ flat_map T.encoding items.now) (O.written out.old) (O.written out.new) (O.faults out.old)
        (O.faults out.new) }
    ensures open { result ≡ true → O.is_open out.new ≡ true }
{
    if write_all(out, front) {
        write_items(out, piece, items)
    } else {
        false
    }
}

/// Writes what comes after the instruction words: the trap sites and the passive bytes, each after the fields before it.
fn write_rest<O: Sink>(
    out: &mut O,
    piece: &mut Piece,
    front: &[u8],
    places: &[TrapPlace],
    count: &[u8],
    passive: &[u8],
) -> bool
    requires { O.is_open out.old ≡ true }
    ensures { WritesText result ((front.now ++ flat_map place places.now) ++ (count.now ++ passive.now)) (O.written out.old) (O.written out.new)
        (O.faults out.old) (O.faults out.new) }
{
    if write_list(out, piece, front, places) {
        write_both(out, count, passive)
    } else {
        false
    }
}

/// Writes the encoded fields and the long lists of an image, in order.
fn write_parts<O: Sink>(out: &mut O, piece: &mut Piece, fields: &ShortFields, image: &Image) -> bool
    requires { O.is_open out.old ≡ true }
    ensures { WritesText result (joined fields.now image.now) (O.written out.old) (O.written out.new) (O.faults out.old) (O.faults out.new) }
{
    let front = fields.before_text.as_slice();
    let middle = fields.before_places.as_slice();
    let places = image.places.as_slice();
    let count = fields.before_passive.as_slice();
    let passive = image.passive.as_slice();
    if write_both(out, front, image.text.as_bytes()) {
        write_rest(out, piece, middle, places, count, passive)
    } else {
        false
    }
}

/// Writes an image, and gives the status.
fn write_joined<O: Sink>(out: &mut O, piece: &mut Piece, fields: &ShortFields, image: &Image) -> u8
    requires count { O.faults out.old < 2 ^ 64 - 1 }
    requires open { O.is_open out.old ≡ true }
    ensures { Told result (compiled (joined fields.now image.now)) (nat_lt (O.faults out.old) (O.faults out.new)) (O.written out.old) (O.written out.new) }
{
    if write_parts(out, piece, fields, image) {
        0
    } else {
        SINK_FAILED
    }
}

/// Writes the image to which a module was compiled: its one encoding. The result is the status. Where memory runs out, nothing is
/// written.
pub fn write_compiled<O: Sink>(alloc: Global, image: &Image, out: &mut O) -> Result<u8, AllocError>
    requires short { length (spelling image.now) ≤ IMAGE_BYTES }
    requires count { O.faults out.old < 2 ^ 64 - 1 }
    requires open { O.is_open out.old ≡ true }
    ensures told { IfOk result (λ status. IsTold (λ o. o ≡ compiled (spelling image.now)) status (nat_lt (O.faults out.old) (O.faults out.new))
        (O.written out.old) (O.written out.new)) }
    ensures kept { OnErr result (out.new ≡ out.old) }
{
    let fields = short_fields(alloc, image)?;
    let mut piece = Piece::new(alloc)?;
    Ok(write_joined(out, &mut piece, &fields, image))
}
