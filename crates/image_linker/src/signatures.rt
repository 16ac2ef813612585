//! The types of the functions that the image names: each is copied once, and imports and exports share the copy.

ghost use Rattle.std.specs.Prelude.{◌≡◌, None, Some, slice_get, slice_set, IfOk};
ghost use Rattle.wasm_defs.specs.Context.{type_or_empty, type_of_function};
ghost use Rattle.index_spaces.specs.Spaces.{context_in};
ghost use Rattle.image_linker.specs.Signatures.{AreOf};

use image_format::SharedType;
use index_spaces::{Context, copy_of_type};
use std::alloc::{AllocError, Global};
use wasm_defs::{FuncType, ValTypes};

/// The copies of so many types, of which none is made yet.
pub(crate) fn no_copies(
    alloc: Global,
    types: &[FuncType],
) -> Result<Vec<Option<SharedType>>, AllocError>
    ensures { IfOk result (λ copies. AreOf types.now copies.items) }
{
    // Why: docs/DECISIONS.md, "Imports and exports of one type share it"
    let mut copies = Vec::with_capacity(alloc, types.len())?;
    for _ in 0..types.len() {
        copies.push(None)?;
    }
    Ok(copies)
}

/// The type of no parameters and no result.
fn empty_type(alloc: Global) -> Result<SharedType, AllocError>
    ensures { IfOk result (λ s. s ≡ type_or_empty None) }
{
    SharedType::new(
        alloc,
        FuncType {
            params: ValTypes::new(Vec::new(alloc)),
            results: ValTypes::new(Vec::new(alloc)),
        },
    )
}

/// Keeps the copy of the type of an index, if there is room for one.
fn keep(copies: &mut [Option<SharedType>], at: usize, copy: SharedType)
    ensures { copies.new ≡ slice_set copies.old at (Some copy) }
{
    if at < copies.len() {
        copies[at] = Some(copy);
    }
}

/// The type of an index, or the empty type where there is none. It is copied where no copy was made before.
pub(crate) fn signature_at(
    alloc: Global,
    types: &[FuncType],
    copies: &mut [Option<SharedType>],
    type_index: u32,
) -> Result<SharedType, AllocError>
    requires { AreOf types.now copies.old }
    ensures signature { IfOk result (λ s. s ≡ type_or_empty (slice_get types.now type_index)) }
    ensures copies { AreOf types.now copies.new }
{
    let index = type_index as usize;
    if let Some(Some(copy)) = copies.get(index) {
        return copy.share();
    }
    match types.get(index) {
        None => empty_type(alloc),
        Some(ty) => {
            let copy = SharedType::new(alloc, copy_of_type(alloc, ty)?)?;
            keep(copies, index, copy.share()?);
            Ok(copy)
        }
    }
}

/// The type of a function, or the empty type where it has none.
pub(crate) fn signature_of(
    alloc: Global,
    context: &Context,
    copies: &mut [Option<SharedType>],
    function: u32,
) -> Result<SharedType, AllocError>
    requires { AreOf context.now.types copies.old }
    ensures signature { IfOk result (λ s. s ≡ type_of_function (context_in context.now) function) }
    ensures copies { AreOf context.now.types copies.new }
{
    match context.type_index(function) {
        None => empty_type(alloc),
        Some(type_index) => signature_at(alloc, context.types(), copies, type_index),
    }
}
