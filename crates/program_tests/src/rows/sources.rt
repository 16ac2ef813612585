//! Sources that do not end.

ghost use Rattle.std.specs.Prelude.{None, true};

use crate::calling::{call, words_of};
use io_edges::{Got, Source};
use std::alloc::Global;
use std::sync::Wait;
use std::test::Fail;
use std::thread::Threads;

/// A source that gives bytes, and then zeros without end. It knows whether it gave one of these.
#[derive(Drop)]
struct Endless<'a> {
    rest: &'a [u8],
    gave_more: bool,
}

impl<'a> Source for Endless<'a> {
    ghost left = { λ _. None };

    ghost faults = { λ _. 0 };

    ghost is_open = { λ _. true };

    fn read(&mut self, buf: &mut [u8]) -> Got {
        if self.rest.is_empty() {
            self.gave_more = true;
            buf.fill(0);
            return Got::Bytes(buf.len());
        }
        let count = self.rest.len().min(buf.len());
        let (first, rest) = self.rest.split_at(count);
        buf[..count].copy_from_slice(first);
        self.rest = rest;
        Got::Bytes(count)
    }
}

/// The status to `check` of bytes after which the source has more, where it is reported before one of these is read.
pub fn held<R: Threads + Wait + Sync>(rt: &R, alloc: Global, bytes: &[u8]) -> Result<String, Fail> {
    let mut source = Endless {
        rest: bytes,
        gave_more: false,
    };
    let words = words_of(alloc, &["wstream", "check", "--workers", "0"])?;
    let (status, written) = call(rt, alloc, &words, &mut source, 256)?;
    if source.gave_more {
        return Err(Fail::new("more bytes were read"));
    }
    let text = str::from_utf8(written.as_slice())?;
    Ok(format!(in alloc; "{status} {text}")?)
}
