ghost use Rattle.std.specs.Prelude.{◌≡◌, ◌≢◌, ◌<◌, true, Some, length};
ghost use Rattle.io_edges.specs.Streams.{Reads};

use crate::source::{Got, Source};
use std::marker::Model;

/// A source over a slice. It never fails: its count of errors is always 0.
///
/// A contract sees it as the list of the bytes left.
#[derive(Debug, Drop)]
pub struct Flat<'a> {
    rest: &'a [u8],
}

impl<'a> Model for Flat<'a> {
    ghost use Rattle.std.specs.Prelude.{List, ℕ};

    ghost Value = { List ℕ };

    ghost view = { λ s. s.rest.now };
}

impl<'a> Flat<'a> {
    /// A source that gives these bytes.
    pub fn new(bytes: &'a [u8]) -> Self
        ensures { result ≡ bytes.now }
    {
        Flat { rest: bytes }
    }
}

impl<'a> Source for Flat<'a> {
    ghost left = { λ s. Some s };

    ghost faults = { λ _. 0 };

    ghost is_open = { λ _. true };

    fn read(&mut self, buf: &mut [u8]) -> Got
        requires { 0 < length buf.old }
        ensures bytes { Reads result buf.new (Some self.old) (Some self.new) }
        ensures never_fails { result ≢ Got.Failed }
    {
        let count = self.rest.len().min(buf.len());
        if count == 0 {
            return Got::End;
        }
        let (front, rest) = self.rest.split_at(count);
        buf[..count].copy_from_slice(front);
        self.rest = rest;
        Got::Bytes(count)
    }
}
