ghost use Rattle.std.specs.Prelude.{ℕ, true, ◌≡◌, ◌+◌, ◌≤◌, ◌<◌, ◌↔◌, Some, IfOk, IfSome, EachIndex, slice_index, length};

use crate::source::{Got, Source};
use std::alloc::{AllocError, Global};
use std::marker::Model;

/// A source over a list of pieces, which can be made to fail after a number of bytes.
///
/// A read gives bytes of one piece at most, so the pieces say how an input is cut. An empty piece
/// gives nothing, and the read goes on to the next one.
///
/// A contract sees all the bytes, where each piece ends in them, how many were given, after how many
/// it fails, and its count of errors.
#[derive(Debug, Drop)]
pub struct Pieces {
    whole: Vec<u8>,
    ends: Vec<usize>,
    piece: usize,
    given: usize,
    fails_at: Option<usize>,
    faults: u64,
}

impl Model for Pieces {
    ghost use Rattle.io_edges.specs.PiecesState.{PiecesState, IsPlaced};

    ghost Value = { PiecesState };

    ghost view = { λ p. record {
      whole = p.whole.items;
      ends = p.ends.items;
      given = p.given;
      fails_at = p.fails_at;
      faults = p.faults;
    } };

    ghost invariant = { λ p. IsPlaced p.whole.items p.ends.items p.piece p.given p.fails_at };
}

impl Pieces {
    ghost use Rattle.io_edges.specs.PiecesState.{at_start};

    /// A source that gives the bytes of these pieces.
    ///
    /// With a number `fails_at`, each read fails once so many bytes were given, and none before; that
    /// many bytes are never passed. Without one no read fails.
    pub fn new(
        alloc: Global,
        pieces: &[Vec<u8>],
        fails_at: Option<usize>,
    ) -> Result<Self, AllocError>
        ensures { IfOk result (λ source. source ≡ at_start pieces.now fails_at) }
    {
        let mut whole = Vec::new(alloc);
        let mut ends = Vec::new(alloc);
        for piece in pieces {
            whole.extend_from_slice(piece)?;
            ends.push(whole.len())?;
        }
        Ok(Pieces {
            whole,
            ends,
            piece: 0,
            given: 0,
            fails_at,
            faults: 0,
        })
    }
}

impl Source for Pieces {
    ghost use Rattle.io_edges.specs.PiecesState.{bytes_left, after_read};
    ghost use Rattle.io_edges.specs.Streams.{Reads, ReadCounts};

    ghost left = { λ p. Some (bytes_left p) };

    ghost faults = { λ p. p.faults };

    ghost is_open = { λ _. true };

    fn read(&mut self, buf: &mut [u8]) -> Got
        requires { 0 < length buf.old }
        ensures bytes { Reads result buf.new (Some (bytes_left self.old)) (Some (bytes_left self.new)) }
        ensures cause { ReadCounts result self.old.faults self.new.faults }
        ensures never_falls { self.old.faults ≤ self.new.faults }

        // Nothing changes but the number of bytes given, or at `Failed` the count of errors.
        ensures after { self.new ≡ after_read result self.old }
        ensures fails { (result ≡ Got.Failed) ↔ (self.old.fails_at ≡ Some self.old.given) }
        ensures limit { IfSome self.new.fails_at (λ most. self.new.given ≤ most) }

        // No read goes past the end of a piece.
        ensures piece { EachIndex self.old.ends (λ k.
            self.old.given < slice_index self.old.ends k → self.new.given ≤ slice_index self.old.ends k) }
    {
        if self.fails_at == Some(self.given) {
            self.faults = self.faults.saturating_add(1);
            return Got::Failed;
        }
        if self.given == self.whole.len() {
            return Got::End;
        }
        self.piece = piece_behind(&self.ends, self.piece, self.given);
        let end = self.ends[self.piece].min(self.fails_at.unwrap_or(self.whole.len()));
        let count = (end - self.given).min(buf.len());
        buf[..count].copy_from_slice(&self.whole[self.given..self.given + count]);
        self.given += count;
        Got::Bytes(count)
    }
}

// The first piece, from this one on, that ends after an offset; else the number of pieces.
fn piece_behind(ends: &[usize], first: usize, place: usize) -> usize
    ensures passed { (i : ℕ) → first ≤ i → i < result → slice_index ends.now i ≤ place }
    ensures behind { result < length ends.now → place < slice_index ends.now result }
{
    for piece in first..ends.len() {
        if place < ends[piece] {
            return piece;
        }
    }
    ends.len()
}
