//! The parts of an image's bytes, for callers that write an image without a second copy of its long lists.
//!
//! The instruction words, the trap sites and the passive bytes are nearly all of a large image. The other fields stand in three
//! groups, one before each of these lists:
//!
//! ```text
//! before_text   the instruction words   before_places   the trap sites   before_passive   the passive bytes
//! ```

ghost use Rattle.std.specs.Prelude.{◌≡◌, ◌++◌, ◌≤◌, ◌<◌, ◌^◌, length, IfOk, OnOk};
ghost use Rattle.image_format.specs.ImageBytes.{flag, spelling, ImageBytes};
ghost use Rattle.image_format.specs.Parts.{before_passive, before_places, before_text, joined, passive_count, place_count};

use crate::image::{Export, Image, Import, Row, Segment};
use crate::limits::{IMAGE_BYTES, MAGIC};
use crate::spelled::{Spelled, listed_size, put_count, put_listed};
use crate::version::Version;
use std::alloc::{AllocError, Global};

/// The encoding of all fields of an image but the instruction words, the trap sites and the passive bytes.
#[derive(Drop)]
pub struct ShortFields {
    /// The magic number, the version, and the number of instruction words.
    pub before_text: Vec<u8>,
    /// The globals and all fields after them, up to the number of trap sites, which the first version doesn't have.
    pub before_places: Vec<u8>,
    /// The number of passive bytes, which only the third version has.
    pub before_passive: Vec<u8>,
}

/// A flag's number.
fn flag_of(is_set: bool) -> u32
    ensures { result ≡ flag is_set }
{
    if is_set { 1 } else { 0 }
}

/// Appends the number of trap sites, in the versions that have it.
fn put_place_count(out: &mut Vec<u8>, version: Version, count: usize) -> Result<(), AllocError>
    requires { count < 2 ^ 32 }
    ensures { OnOk result (out.new.items ≡ out.old.items ++ place_count version count) }
{
    match version {
        Version::One => Ok(()),
        Version::Two | Version::Three => put_count(out, count),
    }
}

/// Appends the number of passive bytes, in the version that has it.
fn put_passive_count(out: &mut Vec<u8>, version: Version, count: usize) -> Result<(), AllocError>
    requires { count < 2 ^ 32 }
    ensures { OnOk result (out.new.items ≡ out.old.items ++ passive_count version count) }
{
    match version {
        Version::One | Version::Two => Ok(()),
        Version::Three => put_count(out, count),
    }
}

/// How many bytes the fields between the instruction words and the trap sites have, but for the number of trap sites.
pub fn size_before_places(image: &Image) -> usize {
    // the pages, the cap, the start and the flag
    let mut size: usize = 16;
    size = size.saturating_add(listed_size::<u64>(image.globals.as_slice()));
    size = size.saturating_add(listed_size::<Row>(image.table.as_slice()));
    size = size.saturating_add(listed_size::<Segment>(image.segments.as_slice()));
    size = size.saturating_add(listed_size::<Import>(image.imports.as_slice()));
    size.saturating_add(listed_size::<Export>(image.exports.as_slice()))
}

/// Appends the fields before the instruction words.
#[tactic(auto, unfolding(crate::specs::Parts::before_text))]
pub fn put_before_text(out: &mut Vec<u8>, image: &Image) -> Result<(), AllocError>
    ensures { OnOk result (out.new.items ≡ out.old.items ++ before_text image.now) }
{
    MAGIC.put(out)?;
    image.version.number().put(out)?;
    put_count(out, image.text.len())?;
    Ok(())
}

/// Appends the fields between the instruction words and the trap sites.
pub fn put_before_places(out: &mut Vec<u8>, image: &Image) -> Result<(), AllocError>
    ensures { OnOk result (out.new.items ≡ out.old.items ++ before_places image.now) }
{
    put_listed::<u64>(out, image.globals.as_slice())?;
    put_listed::<Row>(out, image.table.as_slice())?;
    image.pages.put(out)?;
    image.cap.put(out)?;
    put_listed::<Segment>(out, image.segments.as_slice())?;
    put_listed::<Import>(out, image.imports.as_slice())?;
    put_listed::<Export>(out, image.exports.as_slice())?;
    image.start.put(out)?;
    flag_of(image.unlinkable).put(out)?;
    put_place_count(out, image.version, image.places.as_slice().len())?;
    Ok(())
}

/// Appends the field between the trap sites and the passive bytes.
#[tactic(auto, unfolding(crate::specs::Parts::before_passive))]
pub fn put_before_passive(out: &mut Vec<u8>, image: &Image) -> Result<(), AllocError>
    ensures { OnOk result (out.new.items ≡ out.old.items ++ before_passive image.now) }
{
    put_passive_count(out, image.version, image.passive.as_slice().len())?;
    Ok(())
}

/// Encodes the fields of an image but its long lists: joined with these, in order, they are its one encoding. All memory for them is
/// taken here.
pub fn short_fields(alloc: Global, image: &Image) -> Result<ShortFields, AllocError>
    requires { length (spelling image.now) ≤ IMAGE_BYTES }
    ensures { IfOk result (λ fields. ImageBytes image.now (joined fields image.now)) }
{
    image.keeps_bounds();
    let mut before_text = Vec::with_capacity(alloc, 12)?;
    put_before_text(&mut before_text, image)?;
    let mut before_places = Vec::with_capacity(alloc, size_before_places(image).saturating_add(4))?;
    put_before_places(&mut before_places, image)?;
    let mut before_passive = Vec::with_capacity(alloc, 4)?;
    put_before_passive(&mut before_passive, image)?;
    Ok(ShortFields {
        before_text,
        before_places,
        before_passive,
    })
}
