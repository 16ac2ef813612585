//! Where the traps of a text come from.

ghost use Rattle.std.specs.Prelude.{◌≡◌, ◌<◌, ◌+◌, ◌*◌, ◌^◌, ◌++◌, length, map, IfOk, OnOk};
ghost use Rattle.std.specs.List.{All};
ghost use Rattle.frame_layout.specs.Templates.{exit_stub};
ghost use Rattle.image_linker.specs.ImageOf.{front_of, place_at};
ghost use Rattle.image_linker.specs.Linking.{words_of, import_traps, linked_traps, IsShort};

use crate::imports::front_of;
use code_list::CodeList;
use image_format::TrapPlace;
use index_spaces::{Context, Import};
use rv_isa::TrapSite;
use std::alloc::{AllocError, Global};

/// The index of the instruction word at which a stub traps.
const ROOM_TRAP: usize = 9;

/// Where a trap comes from, of a function whose first instruction word is at an index of the text.
fn place_at(here: u32, function: u32, site: &TrapSite) -> TrapPlace
    requires place { 4 * (here + site.now.place) < 2 ^ 32 }
    requires offset { site.now.offset < 2 ^ 32 }
    ensures { result ≡ place_at here function site.now }
{
    TrapPlace {
        offset: 4 * (here + site.place as u32),
        function,
        module_offset: site.offset as u32,
    }
}

/// Appends where a function's traps come from to other trap sites.
fn put_sites(
    places: &mut Vec<TrapPlace>,
    here: u32,
    function: u32,
    sites: &[TrapSite],
) -> Result<(), AllocError>
    requires { All IsShort (map (place_at here function) sites.now) }
    ensures { OnOk result (places.new.items ≡ places.old.items ++ map (place_at here function) sites.now) }
{
    for site in sites {
        places.push(place_at(here, function, site))?;
    }
    Ok(())
}

/// Appends where the traps of imports' stubs come from to other trap sites.
fn put_stubs(places: &mut Vec<TrapPlace>, imports: &[Import]) -> Result<(), AllocError>
    requires stubs { front_of (length imports.now) < 2 ^ 32 }
    requires places { All IsShort (import_traps (length exit_stub) 0 imports.now) }
    ensures { OnOk result (places.new.items ≡ places.old.items ++ import_traps (length exit_stub) 0 imports.now) }
{
    let mut number = 0;
    for import in imports {
        let site = TrapSite {
            place: ROOM_TRAP,
            offset: import.offset,
        };
        places.push(place_at(front_of(number as usize), number, &site))?;
        number += 1;
    }
    Ok(())
}

/// Where the traps of a text come from, which has the stubs of a module's imports and these codes.
pub(crate) fn places_of(
    alloc: Global,
    context: &Context,
    codes: &CodeList,
) -> Result<Vec<TrapPlace>, AllocError>
    requires words { front_of (length context.now.imports) + length (words_of codes.now) < 2 ^ 32 }
    requires places { All IsShort (linked_traps context.now codes.now) }
    ensures { IfOk result (λ places. places.items ≡ linked_traps context.now codes.now) }
{
    let imports = context.imports();
    let mut places = Vec::new(alloc);
    put_stubs(&mut places, imports)?;
    let mut here = front_of(imports.len());
    let mut function = imports.len() as u32;
    for index in 0..codes.count() {
        let code = codes.get(index);
        put_sites(&mut places, here, function, code.traps)?;
        here += code.words as u32;
        function = function.saturating_add(1);
    }
    Ok(places)
}
