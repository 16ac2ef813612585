ghost use Rattle.std.specs.Prelude.{◌≡◌, ◌<◌, ◌≤◌, ℕ, Bool, true, List, Option, length};
ghost use Rattle.io_edges.specs.Streams.{Reads, ReadCounts, ReadsOn};

/// What a read gave.
#[derive(Debug, Clone, Copy, PartialEq, Eq)]
pub enum Got {
    /// So many bytes, which are at the buffer's start: from 1 to the buffer's length.
    Bytes(usize),
    /// Nothing is left. No read follows this answer.
    End,
    /// The source failed, and its count of errors rose. No read follows this answer.
    Failed,
}

/// A source of bytes.
///
/// It has a count of errors, which begins at 0 and never falls, and bytes that are left. Contracts
/// see which bytes these are of a source in memory, and not of one over the outside world.
pub trait Source {
    /// The bytes left, where they are observable.
    ghost left: { Self → Option (List ℕ) };

    /// How often it has failed.
    ghost faults: { Self → ℕ };

    /// Whether it may be read: `End` and `Failed` don't leave it so.
    ghost is_open: { Self → Bool };

    /// Reads some bytes into a buffer that isn't empty.
    ///
    /// `Bytes(n)` hands over the first n bytes left, `End` comes only where nothing is left, and
    /// `Failed` only where the count of errors rose; the bytes left stay then. Any other answer
    /// leaves the count as it is. What is in the buffer after the bytes handed over is open.
    ///
    /// A caller doesn't read on after `End` or `Failed`: only `Bytes` leaves the source open.
    fn read(&mut self, buf: &mut [u8]) -> Got
        requires room { 0 < length buf.old }
        requires open { is_open self.old ≡ true }
        ensures bytes { Reads result buf.new (left self.old) (left self.new) }
        ensures cause { ReadCounts result (faults self.old) (faults self.new) }
        ensures never_falls { faults self.old ≤ faults self.new }
        ensures on { ReadsOn result (is_open self.new) };
}
