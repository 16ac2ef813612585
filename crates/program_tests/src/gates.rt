//! Bodies that workers compile while the source is read: what no clause says of it.

ghost use Rattle.std.specs.Prelude.{◌≡◌, ◌<◌, ◌^◌, ◌-◌, None, true};

use crate::calling::HEADER;
use io_edges::{Flat, Gate, Go, Got, Source};
use std::alloc::Global;
use std::sync::Wait;
use std::sync::atomic::AtomicBool;
use std::sync::atomic::Ordering::SeqCst;
use std::test::Fail;
use std::thread;
use std::thread::Threads;
use stream_compile::{Answer, CheckAnswer, Settings, stream_check, stream_compile};
use test_gates::SecondFirst;
use test_rows::bytes_of;

/// What follows the header of a module: two functions without parameters and results, whose bodies do nothing.
const TWO_BODIES: &str = "01 04 01 60 00 00 03 03 02 00 00 0A 0B 02 04 00 01 01 0B 04 00 01 01 0B";

/// Whether the source's module is valid, in batches of one byte.
fn is_valid<R: Threads + Wait + Sync, S: Source, G: Gate>(
    rt: &R,
    alloc: Global,
    source: &mut S,
    gate: &G,
    workers: u32,
) -> bool
    requires faults { S.faults source.old < 2 ^ 64 - 1 }
    requires open { S.is_open source.old ≡ true }
{
    let settings = Settings { workers, batch: 1 };
    let answer = stream_check(rt, alloc, source, gate, settings);
    matches!(answer, CheckAnswer::Valid(_))
}

/// Whether the source's module is compiled to an image, in batches of one byte.
fn is_compiled<R: Threads + Wait + Sync, S: Source, G: Gate>(
    rt: &R,
    alloc: Global,
    source: &mut S,
    gate: &G,
    workers: u32,
) -> bool
    requires faults { S.faults source.old < 2 ^ 64 - 1 }
    requires open { S.is_open source.old ≡ true }
{
    let settings = Settings { workers, batch: 1 };
    match stream_compile(rt, alloc, source, gate, settings) {
        Answer::Image(_) => true,
        _ => false,
    }
}

#[test]
fn a_batch_ends_before_the_one_before_it(rt: HostRuntime) -> Result<(), Fail> {
    let bytes = bytes_of(rt.alloc(), &[HEADER, TWO_BODIES])?;
    let gate = SecondFirst::new();
    assert!(rt; is_valid(&rt, rt.alloc(), &mut Flat::new(&bytes), &gate, 2));
    assert!(rt; gate.is_through());
    Ok(())
}

/// Lets each batch run, and knows whether one has come.
#[derive(Drop)]
struct Entered {
    entered: AtomicBool,
}

impl Gate for Entered {
    fn enter(&self, _batch: u32, _turn: u32) -> Go {
        self.entered.store(true, SeqCst);
        Go::Run
    }

    fn finished(&self, _batch: u32) {}
}

/// How often a source that holds its last byte looks whether the gate was entered.
const LOOKS: u32 = 10_000_000;

/// A source that holds its last byte until the gate was entered. Where that doesn't come, it ends without that byte.
#[derive(Drop)]
struct Holding<'a> {
    rest: &'a [u8],
    gate: &'a Entered,
}

impl<'a> Holding<'a> {
    fn was_entered(&self) -> bool {
        for _ in 0..LOOKS {
            if self.gate.entered.load(SeqCst) {
                return true;
            }
            thread::yield_now();
        }
        false
    }
}

impl<'a> Source for Holding<'a> {
    ghost left = { λ _. None };

    ghost faults = { λ _. 0 };

    ghost is_open = { λ _. true };

    fn read(&mut self, buf: &mut [u8]) -> Got {
        let most = match self.rest.len() {
            0 => return Got::End,
            1 if !self.was_entered() => return Got::End,
            1 => 1,
            more => more - 1,
        };
        let count = most.min(buf.len());
        let (front, rest) = self.rest.split_at(count);
        buf[..count].copy_from_slice(front);
        self.rest = rest;
        Got::Bytes(count)
    }
}

#[test]
fn a_batch_is_compiled_before_the_last_byte_comes(rt: HostRuntime) -> Result<(), Fail> {
    let bytes = bytes_of(rt.alloc(), &[HEADER, TWO_BODIES])?;
    let gate = Entered {
        entered: AtomicBool::new(false),
    };
    let mut source = Holding {
        rest: bytes.as_slice(),
        gate: &gate,
    };
    assert!(rt; is_compiled(&rt, rt.alloc(), &mut source, &gate, 1));
    Ok(())
}
