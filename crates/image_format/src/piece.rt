//! A piece of an image's bytes: as many as are written at once.

ghost use Rattle.std.specs.Prelude.{◌≡◌, ◌++◌, ◌+◌, ◌*◌, ◌≤◌, ◌<◌, ℕ, List, [], length, take, IfOk};
ghost use Rattle.std.specs.List.{flat_map};
ghost use Rattle.std.proofs.Common.{arith};
ghost use Rattle.image_format.specs.ImageBytes.{u32 as u32_bytes, place as place_bytes};

use crate::image::TrapPlace;
use std::alloc::{AllocError, Global};
use std::marker::Model;

/// How many bytes a piece has at most.
const PIECE_BYTES: usize = 65_536;

/// A value whose encoding has the same number of bytes whatever it is.
pub trait FixedSize {
    /// Its encoding.
    ghost encoding: { Self → List ℕ };

    ghost BYTES: { ℕ };

    /// How many bytes it has.
    const BYTES: usize;

    ghost some: { 0 < BYTES };

    ghost few: { BYTES ≤ 12 };

    /// Writes the encoding at an index.
    fn write_at(&self, room: &mut [u8], at: usize)
        requires { at + BYTES ≤ length room.old }
        ensures bytes { take (at + BYTES) room.new ≡ take at room.old ++ encoding self.now }
        ensures len { length room.new ≡ length room.old };
}

/// The encoding of some elements of a list of an image, 64 KiB at most. Contracts see its bytes.
#[derive(Drop)]
pub struct Piece {
    room: Vec<u8>,
    held: usize,
}

impl Model for Piece {
    ghost use Rattle.std.specs.Prelude.{List, ℕ, ◌≡◌, ◌≤◌, length, take};
    ghost use Rattle.image_format.specs.declared.piece.TheConstants.{PIECE_BYTES};

    ghost Value = { List ℕ };

    ghost view = { λ p. take p.held p.room.items };

    ghost invariant = { λ p. (length p.room.items ≡ PIECE_BYTES) × (p.held ≤ PIECE_BYTES) };
}

fn zeros(alloc: Global, len: usize) -> Result<Vec<u8>, AllocError>
    ensures { IfOk result (λ bytes. length bytes.items ≡ len) }
{
    vec![in alloc; 0; len]
}

impl FixedSize for u32 {
    ghost encoding = { u32_bytes };

    ghost BYTES = { 4 };

    const BYTES: usize = 4;

    ghost some = { omega arith };

    ghost few = { omega arith };

    #[inline(always)]
    #[tactic(auto, unfolding(crate::specs::ImageBytes::u32))]
    fn write_at(&self, room: &mut [u8], at: usize) {
        room[at..at + 4].copy_from_slice(&self.to_le_bytes());
    }
}

impl FixedSize for TrapPlace {
    ghost encoding = { place_bytes };

    ghost BYTES = { 12 };

    const BYTES: usize = 12;

    ghost some = { omega arith };

    ghost few = { omega arith };

    fn write_at(&self, room: &mut [u8], at: usize) {
        self.offset.write_at(room, at);
        self.function.write_at(room, at + 4);
        self.module_offset.write_at(room, at + 8);
    }
}

/// Writes the encodings of values, from the first byte on.
fn write_items<T: FixedSize>(room: &mut [u8], items: &[T])
    requires { T.BYTES * length items.now ≤ length room.old }
    ensures bytes { take (T.BYTES * length items.now) room.new ≡ flat_map T.encoding items.now }
    ensures len { length room.new ≡ length room.old }
{
    let mut at = 0;
    for item in items {
        item.write_at(room, at);
        at += T::BYTES;
    }
}

impl Piece {
    /// A piece without bytes. The memory for 64 KiB is taken here, and no other call takes any.
    pub fn new(alloc: Global) -> Result<Piece, AllocError>
        ensures { IfOk result (λ piece. piece ≡ []) }
    {
        Ok(Piece {
            room: zeros(alloc, PIECE_BYTES)?,
            held: 0,
        })
    }

    /// The bytes of the piece.
    pub fn as_slice(&self) -> &[u8]
        ensures { result.now ≡ self.now }
    {
        &self.room.as_slice()[..self.held]
    }

    /// Replaces the bytes by the encoding of the first of these values, as many as fit, and returns how many these are.
    pub fn encode<T: FixedSize>(&mut self, items: &[T]) -> usize
        ensures bytes { self.new ≡ flat_map T.encoding (take result items.now) }
        ensures within { result ≤ length items.now }
        ensures some { 0 < length items.now → 0 < result }
    {
        let count = items.len().min(PIECE_BYTES / T::BYTES);
        write_items(self.room.as_mut_slice(), &items[..count]);
        self.held = T::BYTES * count;
        count
    }
}
