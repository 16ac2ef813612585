//! Sections that were cut by hand.

use body_cutter::{Batch, Cutter};
use std::alloc::Global;
use std::test::Fail;
use test_rows::bytes_of;
use wasm_defs::{FrontStop, Refusal};

/// A batch's number, its start, and how many bodies it has.
fn told(batch: Option<Batch>) -> Option<(u32, u64, usize)> {
    let batch = batch?;
    Some((batch.number, batch.start, batch.bodies.count()))
}

/// Whether a cutter takes all pieces of so many bytes.
fn takes_all(cutter: &mut Cutter, bytes: &[u8], size: usize) -> bool {
    if size == 0 {
        return false;
    }
    for piece in bytes.chunks(size) {
        if cutter.feed(piece) != Ok(piece.len()) {
            return false;
        }
    }
    true
}

/// What comes of a section of three bodies, in batches of five bytes at least, whose bytes come so many at a time.
fn cut(alloc: Global, bytes: &[u8], size: usize) -> Result<String, Fail> {
    let mut cutter = Cutter::new(alloc, 3, 5, 20, 32, 4);
    let taken = takes_all(&mut cutter, bytes, size);
    let (end, more) = (cutter.end(), cutter.feed(&[0x00]));
    let first = told(cutter.take_batch());
    let second = told(cutter.take_batch());
    let third = told(cutter.take_batch());
    Ok(format!(in alloc; "{taken} {end:?} {more:?} {first:?} {second:?} {third:?}")?)
}

#[test]
fn bodies_come_in_batches_however_they_are_cut(rt: HostRuntime) -> Result<(), Fail> {
    let bytes = bytes_of(rt.alloc(), &["02 00 0B 82 00 00 0B 04 00 41 00 0B"])?;
    for size in 1..13 {
        assert_eq!(rt;
            cut(rt.alloc(), &bytes, size)?.as_str(),
            "true Ok(()) Ok(0) Some((0, 20, 2)) Some((1, 27, 1)) None",
            "pieces of {size}"
        );
    }
    Ok(())
}

/// What follows a body in the section, and its error: sizes of too many bytes and bits, of nothing, past the section's end and past the
/// limit; a byte after the last body; and a size that is cut off.
const FAULTS: &str = "\
87 80 80 80 10 = Malformed at byte 23
80 80 80 80 80 = Malformed at byte 23
01 = Malformed at byte 23
81 80 80 01 = Malformed at byte 23
81 80 40 = Limit at byte 23
02 00 0B 00 = Malformed at byte 26
85 80 = Ended at byte 25";

/// An error as text.
fn fault(alloc: Global, stop: Option<FrontStop>) -> Result<String, Fail> {
    Ok(match stop {
        Some(FrontStop::Refused(Refusal { offset, kind })) => {
            format!(in alloc; "{kind:?} at byte {offset}")?
        }
        stop => format!(in alloc; "{stop:?}")?,
    })
}

/// The first error of two bodies, the second of which has these bytes: it is answered again, and the first body is in a batch.
fn fault_of(alloc: Global, bytes: &[u8]) -> Result<String, Fail> {
    let mut cutter = Cutter::new(alloc, 2, 0, 20, 1_048_604, 100);
    let first = cutter.feed(&[0x02, 0x00, 0x0B]);
    let second = cutter.feed(bytes);
    let stop = match second {
        Ok(_) => cutter.end().err(),
        Err(stop) => Some(stop),
    };
    let is_for_good = cutter.feed(&[0x00]).err() == stop;
    let start = told(cutter.take_batch()).map_or(0, |batch| batch.1);
    if first != Ok(3) || !is_for_good || start != 20 {
        return Err(Fail::new("another state"));
    }
    fault(alloc, stop)
}

#[test]
fn faults_are_reported_for_good(rt: HostRuntime) -> Result<(), Fail> {
    for line in FAULTS.lines() {
        let (row, want) = line.split_once(" = ").unwrap_or((line, ""));
        let bytes = bytes_of(rt.alloc(), &[row])?;
        assert_eq!(rt; fault_of(rt.alloc(), &bytes)?.as_str(), want, "{row}");
    }
    Ok(())
}

#[test]
fn a_body_that_has_no_room_is_reported_at_once(rt: HostRuntime) -> Result<(), Fail> {
    let mut cutter = Cutter::new(rt.alloc(), 1, 0, 21, 21, 100);
    let told = fault(rt.alloc(), cutter.feed(&[]).err())?;
    assert_eq!(rt; told.as_str(), "Malformed at byte 21");
    Ok(())
}
