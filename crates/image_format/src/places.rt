//! Where a trap comes from: a search among trap sites whose offsets rise.

ghost use Rattle.std.specs.Prelude.{◌≡◌, IfOk, IfErr};
ghost use Rattle.image_format.specs.ImageRun.{place_told};
ghost use Rattle.image_format.specs.Told.{Rise, IsAt, IsGapFor};

use crate::image::TrapPlace;
use wasm_defs::Place;

/// The index of the trap site with that offset, or where it would be.
fn search(places: &[TrapPlace], offset: u64) -> Result<usize, usize>
    requires { Rise 0 places.now }
    ensures found { IfOk result (IsAt places.now offset) }
    ensures absent { IfErr result (IsGapFor places.now offset) }
{
    places.binary_search_by_key(&offset, |place| u64::from(place.offset))
}

/// Where in the module the trap comes from whose ECALL is at an offset of the text, if one of the trap sites says so.
pub fn told(places: &[TrapPlace], offset: u64) -> Option<Place>
    requires { Rise 0 places.now }
    ensures { result ≡ place_told places.now offset }
{
    match search(places, offset) {
        Ok(at) => Some(Place {
            function: places[at].function,
            offset: u64::from(places[at].module_offset),
        }),
        Err(_) => None,
    }
}
