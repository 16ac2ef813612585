ghost use Rattle.std.specs.Prelude.{◌≡◌, ◌<◌, ◌≤◌, ℕ, Bool, true, List, Option, length};
ghost use Rattle.io_edges.specs.Streams.{Writes, WriteCounts, WritesOn};

/// What a write did.
#[derive(Debug, Clone, Copy, PartialEq, Eq)]
pub enum Put {
    /// The first so many bytes of the piece are written: from 1 to the piece's length.
    Took(usize),
    /// The sink failed, and its count of errors rose. No write follows this answer.
    Failed,
}

/// A sink of bytes.
///
/// It has a count of errors, which begins at 0 and never falls, and the bytes that were written.
/// Contracts see which bytes these are of a sink in memory, and not of one over the outside world.
pub trait Sink {
    /// The bytes written, where they are observable.
    ghost written: { Self → Option (List ℕ) };

    /// How often it has failed.
    ghost faults: { Self → ℕ };

    /// Whether it may be written to: `Failed` doesn't leave it so.
    ghost is_open: { Self → Bool };

    /// Writes some bytes of a piece that isn't empty.
    ///
    /// `Took(n)` appends the first n bytes of the piece and leaves the count of errors as it is.
    /// `Failed` comes only where that count rose, and appends nothing.
    ///
    /// A caller doesn't write on after `Failed`: only `Took` leaves the sink open.
    fn write(&mut self, piece: &[u8]) -> Put
        requires some { 0 < length piece.now }
        requires open { is_open self.old ≡ true }
        ensures bytes { Writes result piece.now (written self.old) (written self.new) }
        ensures cause { WriteCounts result (faults self.old) (faults self.new) }
        ensures never_falls { faults self.old ≤ faults self.new }
        ensures on { WritesOn result (is_open self.new) };
}
