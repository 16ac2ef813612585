ghost use Rattle.std.specs.Prelude.{◌≡◌, ◌≤◌, ◌<◌, ◌↔◌, true, [], Some, IfOk, length};

use crate::sink::{Put, Sink};
use std::alloc::{AllocError, Global};
use std::marker::Model;

/// A sink that keeps what was written, up to a number of bytes.
///
/// A contract sees the bytes, how many there can be, and its count of errors.
#[derive(Debug, Drop)]
pub struct Page {
    bytes: Vec<u8>,
    limit: usize,
    faults: u64,
}

impl Model for Page {
    ghost use Rattle.std.specs.Prelude.{◌≤◌, vec_capacity, vec_len};
    ghost use Rattle.io_edges.specs.PageState.{PageState};

    ghost Value = { PageState };

    ghost view = { λ p. record { bytes = p.bytes.items; limit = p.limit; faults = p.faults } };

    ghost invariant = { λ p. (vec_len p.bytes ≤ p.limit) × (p.limit ≤ vec_capacity p.bytes) };
}

impl Page {
    /// An empty page, on which a write fails exactly where it holds `fails_at` bytes.
    ///
    /// It takes the memory for that many bytes, so no write takes any.
    pub fn new(alloc: Global, fails_at: usize) -> Result<Self, AllocError>
        ensures { IfOk result (λ page. page ≡ record { bytes = []; limit = fails_at; faults = 0 }) }
    {
        Ok(Page {
            bytes: Vec::with_capacity(alloc, fails_at)?,
            limit: fails_at,
            faults: 0,
        })
    }

    /// What was written.
    pub fn bytes(&self) -> &[u8]
        ensures { result.now ≡ self.now.bytes }
    {
        &self.bytes
    }
}

impl Sink for Page {
    ghost use Rattle.io_edges.specs.PageState.{after_write};
    ghost use Rattle.io_edges.specs.Streams.{Writes, WriteCounts};

    ghost written = { λ p. Some p.bytes };

    ghost faults = { λ p. p.faults };

    ghost is_open = { λ _. true };

    fn write(&mut self, piece: &[u8]) -> Put
        requires { 0 < length piece.now }
        ensures bytes { Writes result piece.now (Some self.old.bytes) (Some self.new.bytes) }
        ensures cause { WriteCounts result self.old.faults self.new.faults }
        ensures never_falls { self.old.faults ≤ self.new.faults }

        // Nothing changes but the bytes, or at `Failed` the count of errors.
        ensures after { self.new ≡ after_write result piece.now self.old }
        ensures fails { (result ≡ Put.Failed) ↔ (length self.old.bytes ≡ self.old.limit) }
        ensures limit { length self.new.bytes ≤ self.new.limit }
    {
        let count = (self.limit - self.bytes.len()).min(piece.len());
        if count == 0 {
            self.faults = self.faults.saturating_add(1);
            return Put::Failed;
        }
        self.bytes.extend_from_slice(&piece[..count]).unwrap();
        Put::Took(count)
    }
}
