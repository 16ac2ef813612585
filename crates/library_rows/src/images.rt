//! Images from bytes.

use crate::base::{changed, number_in};
use image_format::{Export, Image, ImageStop, read_image, write_image};
use std::alloc::{AllocError, Global};
use std::test::Fail;

/// The offset of the first error of bytes that are no image.
fn fault_in(alloc: Global, bytes: &[u8]) -> Option<u64> {
    match read_image(alloc, bytes) {
        Err(ImageStop::Bad(offset)) => Some(offset),
        _ => None,
    }
}

/// Whether each prefix of an image's bytes ends too soon, at its own end.
fn each_cut_ends(alloc: Global, bytes: &[u8]) -> bool {
    for len in 0..bytes.len() {
        if fault_in(alloc, &bytes[..len]) != Some(len as u64) {
            return false;
        }
    }
    true
}

/// Whether an image is written as the bytes from which it is read, into just as much memory.
fn is_written_again(alloc: Global, bytes: &[u8]) -> Result<bool, Fail> {
    let image = read_image(alloc, bytes)?;
    let written = write_image(alloc, &image)?;
    Ok(written.as_slice() == bytes && written.capacity() == bytes.len())
}

fn export_told(alloc: Global, export: &Export) -> Result<String, Fail> {
    let name = str::from_utf8(export.name.as_slice())?;
    let params = export.signature.params.as_slice();
    let results = export.signature.results.as_slice();
    Ok(format!(in alloc; " {name} {params:?} {results:?} at {}", export.offset)?)
}

/// What an image has.
fn parts_told(alloc: Global, image: &Image) -> Result<String, Fail> {
    let words = image.text.len();
    let mut told = format!(in alloc; "version {:?} of {words} words", image.version)?;
    for export in image.exports.as_slice() {
        told.push_str(export_told(alloc, export)?.as_str())?;
    }
    Ok(told)
}

/// What an image has, where all its bytes are wanted, and where it is written as the same bytes.
fn good_told(alloc: Global, bytes: &[u8], image: &Image) -> Result<String, Fail> {
    if !is_written_again(alloc, bytes)? {
        return Err(Fail::new("other bytes are written"));
    }
    if !each_cut_ends(alloc, bytes) {
        return Err(Fail::new("a cut is told otherwise"));
    }
    parts_told(alloc, image)
}

fn told(alloc: Global, bytes: &[u8]) -> Result<String, Fail> {
    match read_image(alloc, bytes) {
        Ok(image) => good_told(alloc, bytes, &image),
        Err(ImageStop::Bad(offset)) => Ok(format!(in alloc; "bad at {offset}")?),
        Err(ImageStop::NoMemory) => Err(Fail::new("out of memory")),
    }
}

/// What the image of the bytes has, with these changes.
pub fn image_answer(alloc: Global, bytes: &[u8], changes: &str) -> Result<String, Fail> {
    told(alloc, &changed(alloc, bytes, changes)?)
}

/// A number that is written there; 0 for another text.
fn offset_of(text: &str) -> u64 {
    u64::try_from(number_in(text).unwrap_or(0)).unwrap_or(0)
}

/// Where the image of the bytes says that the trap at an offset of its text comes from.
pub fn place_answer(alloc: Global, bytes: &[u8], rest: &str) -> Result<String, Fail> {
    let image = read_image(alloc, bytes)?;
    let place = image.place_told(offset_of(rest));
    Ok(format!(in alloc; "{place:?}")?)
}
