//! What the bodies of the tests are compiled in.
ghost use Rattle.std.specs.Prelude.{IfOk};
ghost use Rattle.index_spaces.specs.ItemLimits.{HasSmallType};

use index_spaces::{Context, ContextBuilder};
use std::alloc::{AllocError, Global};
use wasm_defs::{FuncType, Item, ValType, ValTypes};

// The type of a function that gives a number of 32 bits.
fn signature(alloc: Global) -> Result<Item, AllocError>
    ensures { IfOk result HasSmallType }
{
    Ok(Item::Signature {
        form: 11,
        params: 12,
        results: 13,
        ty: FuncType {
            params: ValTypes::new(Vec::new(alloc)),
            results: ValTypes::new(Vec::from_slice(alloc, &[ValType::I32])?),
        },
    })
}

fn add_type(alloc: Global, builder: &mut ContextBuilder) -> bool {
    match signature(alloc) {
        Ok(signature) => builder.add(&signature).is_ok(),
        Err(_) => false,
    }
}

fn add_function(builder: &mut ContextBuilder) -> bool {
    let function = Item::Function {
        type_index: (18, 0),
    };
    builder.add(&function).is_ok()
}

/// A module of two functions, which give a number of 32 bits. None where memory ran out.
pub(crate) fn two_functions(alloc: Global) -> Option<Context> {
    let mut builder = ContextBuilder::new(alloc);
    if add_type(alloc, &mut builder) && add_function(&mut builder) && add_function(&mut builder) {
        Some(builder.finish())
    } else {
        None
    }
}
