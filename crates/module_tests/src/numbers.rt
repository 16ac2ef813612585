//! Numbers and names that were worked out by hand.

use leb_feed::{Fed, Fields, Leb, read_at};
use std::alloc::Global;
use std::test::Fail;
use test_rows::bytes_of;

/// Numbers (Core 1.0, 5.2.2): the bytes, of how many bits at most and with or without a sign; what is read at once, and what is answered
/// to the last byte where they come one by one.
const NUMBERS: &str = "\
00; u 32 = Number(0, 1) Done(0)
7F; u 32 = Number(127, 1) Done(127)
7F; s 32 = Number(-1, 1) Done(-1)
E5 8E 26; u 32 = Number(624485, 3) Done(624485)
C0 BB 78; s 32 = Number(-123456, 3) Done(-123456)
80 00; u 32 = Number(0, 2) Done(0)
FF FF FF FF 0F; u 32 = Number(4294967295, 5) Done(4294967295)
FF FF FF FF 1F; u 32 = Bad Bad
80 80 80 80 78; s 32 = Number(-2147483648, 5) Done(-2147483648)
80 80 80 80 70; s 32 = Bad Bad
80 80 80 80 80 00; u 32 = Bad Bad
80 80 80 80 80; u 32 = Bad Bad
87 80 80 80 10; u 32 = Bad Bad
87 80 80 80 00; u 32 = Number(7, 5) Done(7)
80 80; u 32 = CutOff More
E5 8E; u 32 = CutOff More
; s 32 = CutOff More
80 80 80 80 80 80 80 80 80 7F; s 64 = Number(-9223372036854775808, 10) Done(-9223372036854775808)
01; u 1 = Number(1, 1) Done(1)";

/// What the last byte of a slice is answered, where those before it are unfinished.
fn last_fed(bits: u32, signed: bool, bytes: &[u8]) -> Fed {
    let mut last = Fed::More;
    if bits < 1 || 64 < bits {
        return last;
    }
    let mut leb = Leb::new(bits, signed);
    for byte in bytes {
        if last != Fed::More {
            return last;
        }
        last = leb.feed(*byte);
    }
    last
}

/// A number that is read at once, and that comes byte by byte.
fn read(alloc: Global, bits: u32, signed: bool, bytes: &[u8]) -> Result<String, Fail> {
    if bits < 1 || 64 < bits {
        return Err(Fail::new(bits));
    }
    let (at_once, last) = (
        read_at(bytes, 0, bits, signed),
        last_fed(bits, signed, bytes),
    );
    Ok(format!(in alloc; "{at_once:?} {last:?}")?)
}

/// The number of a row.
fn number(alloc: Global, row: &str) -> Result<String, Fail> {
    let (bytes, sort) = row.split_once("; ").unwrap_or((row, ""));
    let (sign, bits) = sort.split_once(' ').unwrap_or((sort, ""));
    let bytes = bytes_of(alloc, &[bytes])?;
    read(alloc, bits.parse().unwrap_or(0), sign == "s", &bytes)
}

#[test]
fn numbers_are_read(rt: HostRuntime) -> Result<(), Fail> {
    for line in NUMBERS.lines() {
        let (row, want) = line.split_once(" = ").unwrap_or((line, ""));
        assert_eq!(rt; number(rt.alloc(), row)?.as_str(), want, "{row}");
    }
    Ok(())
}

/// A name, a run of bytes and a byte: the offset of each, and what it is.
fn fields(alloc: Global, bytes: &[u8]) -> Result<String, Fail> {
    if bytes.len() > 8 {
        return Err(Fail::new("too many bytes"));
    }
    let mut fields = Fields::new(bytes, 40, 100);
    let name = fields.name(alloc)?;
    let run = fields.counted_bytes(alloc)?;
    let byte = fields.byte()?;
    Ok(format!(in alloc; "{name:?} {run:?} {byte:?}")?)
}

#[test]
fn names_and_runs_of_bytes_are_copied(rt: HostRuntime) -> Result<(), Fail> {
    let told = fields(
        rt.alloc(),
        &[0x03, 0xE2, 0x82, 0xAC, 0x02, 0xFF, 0x00, 0x09],
    )?;
    assert_eq!(rt;
        told.as_str(),
        "(40, Sequence { elements: [226, 130, 172] }) (44, Sequence { elements: [255, 0] }) (47, 9)"
    );
    Ok(())
}
