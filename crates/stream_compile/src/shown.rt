//! The line of the bytes of a memory that are shown. Nothing here takes memory.

ghost use Rattle.std.specs.Prelude.{◌≡◌, ◌<◌, ◌≤◌, ◌+◌, ◌++◌, true, codes, length, take, drop};
ghost use Rattle.io_edges.specs.Streams.{WritesText};
ghost use Rattle.stream_compile.specs.Texts.{hex_digit, hex_of, hex_pair, peeked};

use command_words::Peek;
use io_edges::{Sink, write_all};

/// The digit of a number below 16, in lower case.
fn hex_digit(number: u8) -> u8
    requires { number < 16 }
    ensures { result ≡ hex_digit number }
{
    if number < 10 {
        b'0' + number
    } else {
        b'a' - 10 + number
    }
}

/// The two digits of a byte.
fn hex_pair(byte: u8) -> [u8; 2]
    ensures { result ≡ hex_pair byte }
{
    [hex_digit(byte / 16), hex_digit(byte % 16)]
}

/// Writes two digits for each byte.
fn write_hex<O: Sink>(out: &mut O, bytes: &[u8]) -> bool
    requires { O.is_open out.old ≡ true }
    ensures text { WritesText result (hex_of bytes.now) (O.written out.old) (O.written out.new) (O.faults out.old) (O.faults out.new) }
    ensures open { result ≡ true → O.is_open out.new ≡ true }
{
    for byte in bytes {
        if !write_all(out, &hex_pair(*byte)) {
            return false;
        }
    }
    true
}

/// Writes two digits for each byte, and a newline.
fn write_hex_line<O: Sink>(out: &mut O, bytes: &[u8]) -> bool
    requires { O.is_open out.old ≡ true }
    ensures { WritesText result (hex_of bytes.now ++ codes "\n") (O.written out.old) (O.written out.new) (O.faults out.old) (O.faults out.new) }
{
    if write_hex(out, bytes) {
        write_all(out, b"\n")
    } else {
        false
    }
}

/// Writes the line that shows these bytes.
fn write_bytes<O: Sink>(out: &mut O, bytes: &[u8]) -> bool
    requires { O.is_open out.old ≡ true }
    ensures { WritesText result (codes "peek " ++ (hex_of bytes.now ++ codes "\n")) (O.written out.old) (O.written out.new) (O.faults out.old)
        (O.faults out.new) }
{
    if write_all(out, b"peek ") {
        write_hex_line(out, bytes)
    } else {
        false
    }
}

/// So many bytes from an address on.
fn bytes_at(memory: &[u8], address: usize, count: usize) -> &[u8]
    requires { address + count ≤ length memory.now }
    ensures { result.now ≡ take count (drop address memory.now) }
{
    &memory[address..][..count]
}

/// Writes the line of the bytes that are to be shown, or that the memory hasn't all of them.
pub fn write_shown<O: Sink>(out: &mut O, peek: Peek, memory: &[u8]) -> bool
    requires { O.is_open out.old ≡ true }
    ensures { WritesText result (peeked peek memory.now) (O.written out.old) (O.written out.new) (O.faults out.old) (O.faults out.new) }
{
    let address = peek.address as usize;
    let count = peek.count as usize;
    let end = address.saturating_add(count);
    let size = memory.len();
    if end <= size {
        write_bytes(out, bytes_at(memory, address, count))
    } else {
        write_all(out, b"peek out of range\n")
    }
}
