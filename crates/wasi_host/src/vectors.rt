//! Vectors of bytes in a memory (`ciovec_array` of WASI preview 1).
ghost use Rattle.std.specs.Prelude.{◌≡◌, ◌+◌, ◌^◌, ◌<◌, ◌≤◌, true, ℕ, List, length, take, drop, IfSome, IsSome, Some, Option, option_map};
ghost use Rattle.std.specs.Option.{option_copied};
ghost use Rattle.io_edges.specs.Streams.{WritesText};
ghost use Rattle.wasm_defs.specs.Memory.{bytes_at, number_of};
ghost use Rattle.wasi_host.specs.Vectors.{gathered, vector_at};

use io_edges::{Sink, write_all};

/// So many bytes from an address on, if all are in the memory.
fn bytes_at(memory: &[u8], address: u64, count: u32) -> Option<&[u8]>
    requires { address < 2 ^ 40 }
    ensures bytes { option_copied result ≡ bytes_at memory.now address count }
    ensures len { IfSome result (λ s. length s.now ≡ count) }
{
    let start = address as usize;
    let count = count as usize;
    if start + count <= memory.len() {
        Some(&memory[start..][..count])
    } else {
        None
    }
}

/// The number in the four bytes from an index on, the low byte first.
fn number_in(bytes: &[u8], at: usize) -> u32
    requires { at + 4 ≤ length bytes.now }
    ensures { result ≡ number_of (take 4 (drop at bytes.now)) }
{
    u32::from_le_bytes([bytes[at], bytes[at + 1], bytes[at + 2], bytes[at + 3]])
}

/// The bytes of the vector at an address, if it and they are in the memory.
fn vector_at(memory: &[u8], address: u64) -> Option<&[u8]>
    requires { address < 2 ^ 40 }
    ensures bytes { option_copied result ≡ vector_at memory.now address }
    ensures len { IfSome result (λ s. length s.now < 2 ^ 32) }
{
    let vector = bytes_at(memory, address, 8)?;
    bytes_at(
        memory,
        u64::from(number_in(vector, 0)),
        number_in(vector, 4),
    )
}

/// How many bytes so many vectors from an address on have together, if all are in the memory.
pub(crate) fn total(memory: &[u8], iovs: u32, iovs_len: u32) -> Option<u64>
    requires { iovs_len ≤ 1024 }
    ensures { result ≡ option_map length (gathered memory.now iovs iovs_len) }
{
    let mut address = u64::from(iovs);
    let mut left = iovs_len;
    let mut sum: u64 = 0;
    while left > 0 {
        let vector = vector_at(memory, address)?;
        sum += vector.len() as u64;
        address += 8;
        left -= 1;
    }
    Some(sum)
}

/// Writes the bytes of so many vectors from an address on, and says whether the sink took them.
pub(crate) fn write_vectors<O: Sink>(out: &mut O, memory: &[u8], iovs: u32, iovs_len: u32) -> bool
    requires open { O.is_open out.old ≡ true }
    requires few { iovs_len ≤ 1024 }
    requires inside { IsSome (gathered memory.now iovs iovs_len) }
    ensures bytes { (bytes : List ℕ) × (gathered memory.now iovs iovs_len ≡ Some bytes)
        × WritesText result bytes (O.written out.old) (O.written out.new) (O.faults out.old) (O.faults out.new) }
    ensures on { result ≡ true → O.is_open out.new ≡ true }
{
    let mut address = u64::from(iovs);
    let mut left = iovs_len;
    while left > 0 {
        let Some(vector) = vector_at(memory, address) else {
            unreachable!()
        };
        if !write_all(out, vector) {
            return false;
        }
        address += 8;
        left -= 1;
    }
    true
}
