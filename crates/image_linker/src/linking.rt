//! Links the codes of a module's functions.
//!
//! The text has a stub that ends a run, a stub for each import, and the functions in the order of their indices. With one
//! import and two declared functions of 30 and 50 instruction words:
//!
//! ```text
//! index     instruction words
//!  0        2    the exit stub
//!  2       18    the stub of function 0, which is imported
//! 20       30    function 1
//! 50       50    function 2
//! ```
//!
//! Codes come without distances. A call of function 2 that is word 6 of function 1 gets that from index 26 to index 50, which
//! is 96 bytes: its two words (AUIPC, JALR) are written again, in place. Rows of the table and exports get the functions' offsets.

ghost use Rattle.std.specs.Prelude.{◌≡◌, ◌≤◌, ◌<◌, ◌+◌, ◌-◌, ◌*◌, ◌++◌, ◌^◌, ℕ, List, length, map, drop, slice_index, slice_set, IfOk};
ghost use Rattle.std.specs.List.{between};
ghost use Rattle.rv_isa.specs.declared.compiled.TrapSite.{TrapSite};
ghost use Rattle.code_list.specs.CodeLists.{AreEnds};
ghost use Rattle.frame_layout.specs.Functions.{with_distance, with_distances};
ghost use Rattle.wasm_defs.specs.Faults.{Module};
ghost use Rattle.image_format.specs.Bounds.{AreImports};
ghost use Rattle.image_format.specs.Contents.{IsImage};
ghost use Rattle.index_spaces.specs.Entries.{function_exports};
ghost use Rattle.image_linker.specs.ImageOf.{front_of, distances, image_of, version_for};
ghost use Rattle.image_linker.specs.Same.{Same};
ghost use Rattle.image_linker.specs.Whole.{IsWhole};
ghost use Rattle.image_linker.specs.Signatures.{AreOf};
ghost use Rattle.image_linker.specs.Linking.{NumbersFit, changed, words_of, words_from, led_text, starts_behind, front_words, has_room, with_segments};
ghost use Rattle.image_linker.specs.Linking.{linked, linked_export, linked_import, linked_start};

use crate::imports::{front, front_of, imports_of, stub_places};
use crate::segments::{have_room, named_rows, passive_bytes, placed_segments};
use crate::signatures::{no_copies, signature_of};
use crate::spaces::{all_words, first_cap, first_minimum};
use crate::tables::{have_rows, rows_of};
use crate::trap_places::places_of;
use code_list::{CodeEnd, CodeList, CodeParts};
use frame_layout::macros::{call, distance};
use image_format::{
    Export, Exports, Globals, Image, Imports, Segments, SharedType, Table, Text, TrapPlaces,
    Version,
};
use index_spaces::{Context, DataRow, copy_of_name};
use rv_isa::{Relocation, Words, encode};
use std::alloc::{AllocError, Global};
use wasm_defs::{Bytes, Extern};

/// The index of a function's first instruction word, or 0 where it has none.
pub(crate) fn start_at(starts: &[u32], function: u32) -> u32
    ensures { result ≡ slice_index starts.now function }
{
    match starts.get(function as usize) {
        Some(start) => *start,
        None => 0,
    }
}

/// Replaces the instruction word at an index of a code, if there is one. The text has the code from one index up to another.
fn replace(text: &mut Words, begin: usize, end: usize, place: usize, word: u32)
    requires rises { begin ≤ end }
    requires within { end ≤ length text.old }
    ensures { text.new ≡ changed begin end (λ code. slice_set code place word) text.old }
{
    if place < end - begin {
        text.set(begin + place, word);
    }
}

/// Lets a call of a code lead to its function, where functions begin at these indices. The text has the code from one index up to
/// another, and the image's text from an index on.
fn lead(
    text: &mut Words,
    begin: usize,
    end: usize,
    call_to: &Relocation,
    starts: &[u32],
    here: usize,
)
    requires rises { begin ≤ end }
    requires within { end ≤ length text.old }
    requires few { here + (end - begin) < 2 ^ 63 }
    ensures { text.new ≡ changed begin end (with_distance (distances starts.now here call_to.now.place call_to.now.function) call_to.now.place) text.old }
{
    let place = call_to.place;
    // Why: docs/DECISIONS.md, "Filling in calls asks nothing of a code"
    if end - begin <= place {
        return;
    }
    let there = start_at(starts, call_to.function);
    let [upper, lower] = call(distance(here + place, there as usize));
    replace(text, begin, end, place, encode(upper));
    replace(text, begin, end, place + 1, encode(lower));
}

/// Lets the calls of a code lead to their functions.
fn lead_all(
    text: &mut Words,
    begin: usize,
    end: usize,
    calls: &[Relocation],
    starts: &[u32],
    here: usize,
)
    requires rises { begin ≤ end }
    requires within { end ≤ length text.old }
    requires few { here + (end - begin) < 2 ^ 63 }
    ensures { text.new ≡ changed begin end (with_distances (distances starts.now here) calls.now) text.old }
{
    for call_to in calls {
        lead(text, begin, end, call_to, starts, here);
    }
}

/// Lets the calls of a code of a text lead to their functions: of the one between two ends, which the image's text has from an index on.
fn lead_between(
    text: &mut Words,
    calls: &[Relocation],
    begin: CodeEnd,
    end: CodeEnd,
    starts: &[u32],
    here: usize,
)
    requires words { begin.words ≤ end.words }
    requires text { end.words ≤ length text.old }
    requires rise { begin.calls ≤ end.calls }
    requires calls { end.calls ≤ length calls.now }
    requires few { here + (end.words - begin.words) < 2 ^ 63 }
    ensures { text.new ≡ changed begin.words end.words (with_distances (distances starts.now here) (between begin.calls end.calls calls.now)) text.old }
{
    let own = &calls[begin.calls..end.calls];
    lead_all(text, begin.words, end.words, own, starts, here);
}

/// Lets the calls of all codes of a text lead to their functions, where the image's text has the first code from an index on.
fn lead_codes(
    text: &mut Words,
    calls: &[Relocation],
    first: CodeEnd,
    ends: &[CodeEnd],
    starts: &[u32],
    front: usize,
)
    requires ends { (sites : ℕ) × AreEnds (length text.old) (length calls.now) sites first ends.now }
    requires few { front + length text.old < 2 ^ 63 }
    ensures words { (sites : List TrapSite) → text.new ≡ led_text starts.now calls.now sites text.old front first ends.now }
    ensures length { length text.new ≡ length text.old }
{
    let mut here = front;
    let mut begin = first;
    for end in ends {
        lead_between(text, calls, begin, *end, starts, here);
        here += end.words - begin.words;
        begin = *end;
    }
}

/// A text in which stubs come before what is in another one from an index on. That one is it, where the stubs fit before the index.
fn with_stubs(mut text: Words, mut stubs: Words, begin: usize) -> Result<Words, AllocError>
    requires { begin ≤ length text }
    ensures { IfOk result (λ whole. whole ≡ stubs ++ drop begin text) }
{
    if stubs.len() == begin {
        text.overwrite(&stubs);
        return Ok(text);
    }
    stubs.append_from(&text, begin)?;
    Ok(stubs)
}

/// The instruction words of a text with the stubs and these codes, in order, where functions begin at these indices.
fn text_of(
    alloc: Global,
    context: &Context,
    codes: CodeList,
    starts: &[u32],
) -> Result<Words, AllocError>
    requires { AreImports (map (linked_import context.now.types) context.now.imports) }
    ensures { IfOk result (λ text. text ≡ front_words context.now ++ words_from starts.now (front_of (length context.now.imports)) codes) }
{
    // Why: docs/DECISIONS.md, "The image's instruction words are those of the codes"
    let stubs = front(alloc, context)?;
    let CodeParts {
        mut text,
        calls,
        begin,
        ends,
    } = codes.into_parts();
    // both are so short that no index in the whole text overflows
    stubs.keeps_bounds();
    text.keeps_bounds();
    lead_codes(&mut text, &calls, begin, &ends, starts, stubs.len());
    with_stubs(text, stubs, begin.words)
}

/// Where all functions begin in their text, in instruction words: so many that are imported, and those of the codes.
fn starts_of(alloc: Global, imported: usize, codes: &CodeList) -> Result<Vec<u32>, AllocError>
    requires { front_of imported + length (words_of codes.now) < 2 ^ 32 }
    ensures { IfOk result (λ starts. starts.items ≡ starts_behind imported codes.now) }
{
    let mut starts = stub_places(alloc, imported)?;
    let mut here = front_of(imported);
    for index in 0..codes.count() {
        starts.push(here)?;
        here += codes.get(index).words as u32;
    }
    Ok(starts)
}

/// The exported functions, which begin where their codes do. Those of one type share it.
fn exports_of(
    alloc: Global,
    context: &Context,
    starts: &[u32],
    copies: &mut [Option<SharedType>],
) -> Result<Vec<Export>, AllocError>
    requires places { (i : ℕ) → slice_index starts.now i < 2 ^ 27 }
    requires copies { AreOf context.now.types copies.old }
    ensures exports { IfOk result (λ exports. exports.items ≡ map (linked_export context.now starts.now) (function_exports context.now.exports)) }
    ensures copies { AreOf context.now.types copies.new }
{
    let mut exports = Vec::new(alloc);
    for export in context.exports() {
        if export.kind == Extern::Function {
            exports.push(Export {
                name: copy_of_name(alloc, &export.name)?,
                signature: signature_of(alloc, context, copies, export.index)?,
                offset: 4 * start_at(starts, export.index),
            })?;
        }
    }
    Ok(exports)
}

/// Whether the table and the memory have room for all segments (Core 4.5.4).
fn is_linkable(context: &Context, segments: &[DataRow]) -> bool
    ensures { result ≡ has_room (with_segments context.now segments.now) }
{
    have_rows(first_minimum(context.tables()), context.elements())
        && have_room(first_minimum(context.memories()), segments)
}

/// The offset of the start function's first instruction word, or 0 where there is none.
fn start_of(starts: &[u32], start: Option<u32>) -> u32
    requires { (i : ℕ) → slice_index starts.now i < 2 ^ 27 }
    ensures { result ≡ linked_start starts.now start }
{
    match start {
        Some(function) => 4 * start_at(starts, function),
        None => 0,
    }
}

/// The version of an image with so many data segments that instructions may name.
fn version_for(count: u32) -> Version
    ensures { result ≡ version_for count }
{
    match count {
        0 => Version::Two,
        _ => Version::Three,
    }
}

/// Links codes and data segments to what `linked` makes of them, where that keeps the bounds of images and the numbers of the
/// globals' constants are of the globals' types.
fn assemble(
    alloc: Global,
    context: &Context,
    codes: CodeList,
    segments: &[DataRow],
) -> Result<Image, AllocError>
    requires bounded { IsImage (linked (with_segments context.now segments.now) codes) }
    requires numbers { NumbersFit context.now.globals context.now.initials }
    ensures { IfOk result (λ i. i ≡ linked (with_segments context.now segments.now) codes) }
{
    let starts = starts_of(alloc, context.imports().len(), &codes)?;
    let mut copies = no_copies(alloc, context.types())?;
    let exports = exports_of(alloc, context, &starts, &mut copies)?;
    let imports = imports_of(alloc, context, &mut copies)?;
    let named = named_rows(context.segment_count(), segments);
    let globals = all_words(alloc, context, named)?;
    let pages = first_minimum(context.memories());
    let linkable = is_linkable(context, segments);
    let table = rows_of(alloc, context, &starts, linkable)?;
    let placed = placed_segments(alloc, linkable, segments)?;
    let traps = places_of(alloc, context, &codes)?;
    let text = text_of(alloc, context, codes, &starts)?;
    Ok(Image {
        version: version_for(context.segment_count()),
        text: Text::new(text),
        globals: Globals::new(globals),
        table: Table::new(table),
        pages,
        cap: first_cap(context.memories()),
        segments: Segments::new(placed),
        imports: Imports::new(imports),
        exports: Exports::new(exports),
        start: start_of(&starts, context.start()),
        unlinkable: !linkable,
        places: TrapPlaces::new(traps),
        passive: Bytes::new(passive_bytes(alloc, named)?),
    })
}

/// Links the codes of a module's declared functions, in the order of their indices, and its data segments to the module's image:
/// each call of an exported function ends in the image as it does in the module.
///
/// Each call leads to its function, or to the stub of an imported one, and so do the rows of the table. The image says of each trap
/// from which function and which offset it comes. All segments are looked at before any is written (Core 4.5.4): where one is out
/// of bounds in the table or the memory, the image has no row with a function and no data segment, and is marked as one that can't
/// be instantiated.
///
/// The words of the globals are followed by two for each data segment that instructions may name, whose bytes the image has
/// too: where there are such segments, it has version 3, and else version 2.
///
/// The context and the data segments are those of a module whose text has at most 268,435,456 bytes (`passes_limit`), and each declared
/// function has its code (`IsWhole`). Out of memory is the one error.
pub fn link(
    alloc: Global,
    context: &Context,
    codes: CodeList,
    segments: &[DataRow],
) -> Result<Image, AllocError>
    requires whole { (bytes : List ℕ) × (m : Module) × IsWhole bytes m (with_segments context.now segments.now) codes }
    ensures image { (bytes : List ℕ) (m : Module) → IsWhole bytes m (with_segments context.now segments.now) codes
        → IfOk result (λ i. (i ≡ image_of m) × Same m i) }
{
    assemble(alloc, context, codes, segments)
}
