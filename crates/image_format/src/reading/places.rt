//! The trap sites, in the order of the text.

ghost use Rattle.std.specs.Prelude.{[]};
ghost use Rattle.image_format.specs.Bounds.{bound_of};
ghost use Rattle.image_format.specs.Reading.{Gives, each, at_most, trap_offset_at, place_at, places_at};

use crate::fault::Stop;
use crate::image::TrapPlace;
use crate::items::room;
use crate::lists::TrapPlaces;
use crate::numbers::{fault_at, u32_at};
use crate::reading::fields::offset_at;
use crate::version::Version;
use std::alloc::Global;

/// A number of at most the text's instruction words.
#[tactic(auto, unfolding(crate::specs::Reading::at_most))]
fn count_at(words: usize, bytes: &[u8]) -> Result<(u32, &[u8]), Stop>
    ensures { Gives (λ x. (x.0, x.1.now)) result (at_most words bytes.now) }
{
    let (count, rest) = u32_at(bytes)?;
    if count as usize > words {
        return Err(fault_at(bytes));
    }
    Ok((count, rest))
}

/// The offset of an instruction word in a text of so many, from a bound on.
#[tactic(auto, unfolding(crate::specs::Reading::trap_offset_at))]
fn trap_offset_at(words: usize, bound: u64, bytes: &[u8]) -> Result<(u32, &[u8]), Stop>
    ensures { Gives (λ x. (x.0, x.1.now)) result (trap_offset_at words bound bytes.now) }
{
    let (offset, rest) = offset_at(words, bytes)?;
    if u64::from(offset) < bound {
        return Err(fault_at(bytes));
    }
    Ok((offset, rest))
}

#[tactic(auto, unfolding(crate::specs::Reading::place_at))]
fn place_at(words: usize, bound: u64, bytes: &[u8]) -> Result<(TrapPlace, &[u8]), Stop>
    ensures { Gives (λ x. (x.0, x.1.now)) result (place_at words bound bytes.now) }
{
    let (offset, rest) = trap_offset_at(words, bound, bytes)?;
    let (function, rest) = u32_at(rest)?;
    let (module_offset, rest) = u32_at(rest)?;
    let place = TrapPlace {
        offset,
        function,
        module_offset,
    };
    Ok((place, rest))
}

/// So many trap sites, each after the ones before it.
fn place_items_at(
    alloc: Global,
    words: usize,
    count: u32,
    bytes: &[u8],
) -> Result<(Vec<TrapPlace>, &[u8]), Stop>
    ensures { Gives (λ x. (x.0.items, x.1.now)) result (each (λ front. place_at words (bound_of front)) count [] bytes.now) }
{
    let mut places = Vec::with_capacity(alloc, room(count, bytes, 12))?;
    let mut bound: u64 = 0;
    let mut rest = bytes;
    for _ in 0..count {
        let (place, after) = place_at(words, bound, rest)?;
        bound = u64::from(place.offset) + 1;
        places.push(place)?;
        rest = after;
    }
    Ok((places, rest))
}

/// The trap sites that an image of some version has, where its text has so many instruction words.
#[tactic(auto, unfolding(crate::specs::Reading::places_at))]
pub fn places_at(
    alloc: Global,
    version: Version,
    words: usize,
    bytes: &[u8],
) -> Result<(TrapPlaces, &[u8]), Stop>
    ensures { Gives (λ x. (x.0, x.1.now)) result (places_at version words bytes.now) }
{
    match version {
        Version::One => Ok((TrapPlaces::new(Vec::new(alloc)), bytes)),
        Version::Two | Version::Three => {
            let (count, rest) = count_at(words, bytes)?;
            let (places, rest) = place_items_at(alloc, words, count, rest)?;
            Ok((TrapPlaces::new(places), rest))
        }
    }
}
