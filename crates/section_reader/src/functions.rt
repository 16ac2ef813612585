//! The function section's entries (WebAssembly Core 1.0, 5.5.6), many at once. Each is the index of a type, and most indices have
//! one byte or two.

ghost use Rattle.std.specs.Prelude.{◌≡◌, ◌≤◌, length, IfSome};
ghost use Rattle.wasm_defs.specs.Fields.{window};
ghost use Rattle.section_reader.specs.Functions.{IsIndexAt, AreRead};

use crate::seen::Seen;
use leb_feed::{Fields, ReadAt, read_at};

/// How many functions were read, and how many bytes they have.
#[derive(Clone, Copy, Debug, PartialEq, Eq)]
pub struct Functions {
    pub count: usize,
    pub bytes: usize,
}

/// The bytes of the section that are there.
pub fn section_bytes<'a>(fields: &Fields<'a>) -> &'a [u8]
    ensures { result.now ≡ window fields.now }
{
    let rest = fields.rest();
    let there = fields.room().min(rest.len() as u64) as usize;
    &rest[..there]
}

/// Reads the type indices that the bytes of a section begin with, as long as each is whole and right and there is room.
pub fn read_functions(bytes: &[u8], seen: &Seen, indices: &mut [u32]) -> Functions
    ensures read { AreRead seen.now.types bytes.now result indices.new }
    ensures len { length indices.new ≡ length indices.old }
{
    let types = seen.types;
    let mut read = read_single(bytes, types, indices);
    'reading: loop {
        read = read_short(bytes, types, indices, read);
        if indices.len() == read.count {
            return read;
        }
        match index_at(bytes, types, read.bytes) {
            Some((index, next)) => {
                indices[read.count] = index;
                read = Functions {
                    count: read.count + 1,
                    bytes: next,
                };
            }
            None => return read,
        }
    }
}

/// Reads indices of one byte, four at a time.
fn read_single(bytes: &[u8], types: u64, indices: &mut [u32]) -> Functions
    ensures read { AreRead types bytes.now result indices.new }
    ensures len { length indices.new ≡ length indices.old }
{
    let single = types.min(128) as u32;
    let most = indices.len().min(bytes.len());
    let mut count = 0;
    while 4 <= most - count {
        let first = u32::from(bytes[count]);
        let second = u32::from(bytes[count + 1]);
        let third = u32::from(bytes[count + 2]);
        let fourth = u32::from(bytes[count + 3]);
        if single <= first || single <= second || single <= third || single <= fourth {
            break;
        }
        indices[count] = first;
        indices[count + 1] = second;
        indices[count + 2] = third;
        indices[count + 3] = fourth;
        count += 4;
    }
    Functions {
        count,
        bytes: count,
    }
}

/// After those that were read, reads indices of one byte or two.
fn read_short(bytes: &[u8], types: u64, indices: &mut [u32], read: Functions) -> Functions
    requires { AreRead types bytes.now read indices.old }
    ensures read { AreRead types bytes.now result indices.new }
    ensures len { length indices.new ≡ length indices.old }
    ensures more { read.count ≤ result.count }
{
    let single = types.min(128);
    let most = read.count + (indices.len() - read.count).min((bytes.len() - read.bytes) / 2);
    let mut count = read.count;
    let mut place = read.bytes;
    while count < most {
        let low = u64::from(bytes[place]);
        if low < single {
            indices[count] = low as u32;
            place += 1;
        } else {
            let high = u64::from(bytes[place + 1]);
            if low < 128 || 128 <= high {
                break;
            }
            let index = low - 128 + 128 * high;
            if types <= index {
                break;
            }
            indices[count] = index as u32;
            place += 2;
        }
        count += 1;
    }
    Functions {
        count,
        bytes: place,
    }
}

/// The index there, whatever bytes it has, and the place after it.
#[inline(never)]
fn index_at(bytes: &[u8], types: u64, place: usize) -> Option<(u32, usize)>
    requires { place ≤ length bytes.now }
    ensures { IfSome result (λ r. IsIndexAt types bytes.now place r.0 r.1) }
{
    let ReadAt::Number(number, next) = read_at(bytes, place, 32, false) else {
        return None;
    };
    let index = number as u32;
    if u64::from(index) < types {
        return Some((index, next));
    }
    None
}
