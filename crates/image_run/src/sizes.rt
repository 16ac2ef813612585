//! What loading an image takes.
ghost use Rattle.std.specs.Prelude.{◌≡◌};
ghost use Rattle.image_run.specs.Sizes.{bytes_wanted};

use crate::layout::{PAGE, STACK_SIZE};
use decode_cache::{ENTRIES, Entry};
use image_format::{Image, PARAMS};
use wasm_defs::Value;

/// Bytes of what a machine keeps of a word that it has decoded.
pub const ENTRY_BYTES: u64 = size_of::<Entry>() as u64;

/// Bytes of an argument of an import.
pub const VALUE_BYTES: u64 = size_of::<Value>() as u64;

/// How many bytes loading an image takes.
pub(crate) fn bytes_wanted(image: &Image) -> u64
    ensures { result ≡ bytes_wanted image.now }
{
    let stack = STACK_SIZE as u64;
    let globals = 8 * image.globals.as_slice().len() as u64;
    let table = 16 * image.table.as_slice().len() as u64;
    let memory = PAGE * u64::from(image.cap);
    let passive = image.passive.as_slice().len() as u64;
    let text = 4 * image.text.len() as u64;
    let decoded = ENTRY_BYTES * ENTRIES;
    let arguments = VALUE_BYTES * u64::from(PARAMS);
    stack + globals + table + memory + passive + text + decoded + arguments
}
