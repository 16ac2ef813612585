//! Gathers the context of a module from its items.
//!
//! Items are added in the order of the module. What is added last can be named at once, so the context may be lent to those
//! who compile bodies while data segments are still to come:
//!
//! ```text
//! let mut builder = ContextBuilder::new(alloc);
//! builder.add(&signature)?;    // Item::Signature: type 0, from nothing to nothing
//! builder.add(&imported)?;     // Item::Imported of type 0: function 0
//! builder.add(&function)?;     // Item::Function of type 0: function 1
//! builder.add(&start)?;        // Item::Start of function 1; of function 2 it would be refused as invalid
//! builder.context()            // one type, two functions, of which one is imported
//! ```

ghost use Rattle.std.specs.Prelude.{◌≡◌, [], true, false, OnOk, OnErr, IfOk, Some, Err};
ghost use Rattle.std.specs.Option.{option_or};
ghost use Rattle.wasm_defs.specs.Faults.{Starts, Imports, may_start, may_import, use_of, UsesRight, IsUseFault};
ghost use Rattle.wasm_defs.specs.Instances.{i32_value};
ghost use Rattle.index_spaces.specs.ItemLimits.{HasSmallType};
ghost use Rattle.index_spaces.specs.Spaces.{context_in, spaces_of, with_functions, with_import, with_item};
ghost use Rattle.wasm_defs.specs.declared.fault.Refusal.{Refusal as Refused};

use crate::add_stop::AddStop;
use crate::context::Context;
use crate::entries::{DataRow, ElementRow, Export, Import};
use std::alloc::{AllocError, Global};
use std::marker::Model;
use wasm_defs::{
    Bytes, Constant, Extern, FuncType, GlobalType, Indices, Item, Kind, Name, Refusal, ValTypes,
};

fn copy_of_list(alloc: Global, types: &ValTypes) -> Result<ValTypes, AllocError>
    ensures { IfOk result (λ copy. copy ≡ types.now) }
{
    Ok(ValTypes::new(Vec::from_slice(alloc, types.as_slice())?))
}

/// A copy of a function type.
pub fn copy_of_type(alloc: Global, ty: &FuncType) -> Result<FuncType, AllocError>
    ensures { IfOk result (λ copy. copy ≡ ty.now) }
{
    let params = copy_of_list(alloc, &ty.params)?;
    let results = copy_of_list(alloc, &ty.results)?;
    Ok(FuncType { params, results })
}

/// A copy of a name.
pub fn copy_of_name(alloc: Global, name: &Name) -> Result<Name, AllocError>
    ensures { IfOk result (λ copy. copy ≡ name.now) }
{
    Ok(Name::new(Vec::from_slice(alloc, name.as_slice())?))
}

fn import_of(
    alloc: Global,
    module: &(u64, Name),
    name: &Name,
    type_index: u32,
) -> Result<Import, AllocError>
    ensures { IfOk result (λ i. i ≡ record { offset = «module».now.0; «module» = «module».now.1; name = name.now; type_index = type_index }) }
{
    let offset = module.0;
    let module = copy_of_name(alloc, &module.1)?;
    let name = copy_of_name(alloc, name)?;
    Ok(Import {
        offset,
        module,
        name,
        type_index,
    })
}

fn export_of(alloc: Global, name: &Name, kind: Extern, index: u32) -> Result<Export, AllocError>
    ensures { IfOk result (λ e. e ≡ record { name = name.now; kind = kind; index = index }) }
{
    let name = copy_of_name(alloc, name)?;
    Ok(Export { name, kind, index })
}

/// The number of an `i32` constant as an unsigned one. A number outside that type's range, which no module has, is cut at zero.
fn i32_value(constant: &Constant) -> u64
    ensures { result ≡ i32_value constant.now }
{
    let number = constant.value.1;
    if number < 0 {
        (1u64 << 32).saturating_sub(number.unsigned_abs())
    } else {
        number as u64
    }
}

fn element_row_of(
    alloc: Global,
    place: &Constant,
    functions: &Indices,
) -> Result<ElementRow, AllocError>
    ensures { IfOk result (λ r. r ≡ record { place = i32_value place.now; functions = functions.now }) }
{
    let functions = Indices::new(Vec::from_slice(alloc, functions.as_slice())?);
    Ok(ElementRow {
        place: i32_value(place),
        functions,
    })
}

fn data_row_of(alloc: Global, place: Option<u64>, bytes: &Bytes) -> Result<DataRow, AllocError>
    ensures { IfOk result (λ r. r ≡ record { place = place; bytes = bytes.now }) }
{
    let bytes = Bytes::new(Vec::from_slice(alloc, bytes.as_slice())?);
    Ok(DataRow { place, bytes })
}

/// Whether a function may be the start function (WebAssembly Core 1.0, 3.4.7).
fn may_start(context: &Context, index: u32) -> bool
    ensures { result ≡ may_start (context_in context.now) index }
{
    if !context.has_type_of_function(index) {
        return false;
    }
    let ty = context.type_of_function(index);
    ty.params.as_slice().is_empty() && ty.results.as_slice().is_empty()
}

/// Adds the start function: the offset of its index, and the index.
fn add_start(context: &mut Context, index: (u64, u32)) -> Result<(), AddStop>
    ensures ok { OnOk result (context.new ≡ record context.old { start = option_or context.old.start (Some index.1) }) }
    ensures starts { OnOk result (may_start (context_in context.old) index.1 ≡ true) }
    ensures refused { (r : Refused) → result ≡ Err (AddStop.Refused r) → IsUseFault (context_in context.old) (Some (Starts index.0 index.1)) r }
    ensures err { OnErr result (context.new ≡ context.old) }
{
    if !may_start(context, index.1) {
        return Err(AddStop::Refused(Refusal {
            offset: index.0,
            kind: Kind::Invalid,
        }));
    }
    context.add_start(index.1);
    Ok(())
}

/// Whether an import may have a type: a host gives one result at most.
fn may_import(context: &Context, type_index: u32) -> bool
    ensures { result ≡ may_import (context_in context.now) type_index }
{
    match context.types().get(type_index as usize) {
        Some(ty) => ty.results.as_slice().len() <= 1,
        None => false,
    }
}

/// Adds an import: the name of its module, with the offset of its first byte, its own name, and the offset of its type's index with
/// the index.
fn add_import(
    context: &mut Context,
    alloc: Global,
    module: &(u64, Name),
    name: &Name,
    type_index: (u64, u32),
) -> Result<(), AddStop>
    ensures ok { OnOk result (context.new ≡ with_import context.old
        (record { offset = «module».now.0; «module» = «module».now.1; name = name.now; type_index = type_index.1 })) }
    ensures uses { OnOk result (may_import (context_in context.old) type_index.1 ≡ true) }
    ensures refused { (r : Refused) → result ≡ Err (AddStop.Refused r) → IsUseFault (context_in context.old) (Some (Imports type_index.0 type_index.1)) r }
    ensures err { OnErr result (context.new ≡ context.old) }
{
    if !may_import(context, type_index.1) {
        return Err(AddStop::Refused(Refusal {
            offset: type_index.0,
            kind: Kind::Unsupported,
        }));
    }
    let import = import_of(alloc, module, name, type_index.1)?;
    context.add_import(import)?;
    Ok(())
}

/// The context of the items that were added so far.
#[derive(Drop)]
pub struct ContextBuilder {
    alloc: Global,
    context: Context,
}

impl Model for ContextBuilder {
    ghost use Rattle.index_spaces.specs.Spaces.{Spaces};

    ghost Value = { Spaces };

    ghost view = { λ b. b.context };
}

impl ContextBuilder {
    /// The context of no items.
    pub fn new(alloc: Global) -> Self
        ensures { result ≡ spaces_of [] }
    {
        ContextBuilder {
            alloc,
            context: Context::new(alloc),
        }
    }

    /// Adds an item, which follows those that were added before. The code section's count changes nothing. A type has at most 1,000
    /// parameters and at most 1,000 results, as those of the items that were read of a module do.
    ///
    /// `Refused` comes exactly where the item names a start function that isn't among the functions so far, or has parameters or
    /// results, and where it is an import whose type isn't among the types so far, or has several results. After an `Err` the
    /// context is as before.
    pub fn add(&mut self, item: &Item) -> Result<(), AddStop>
        requires { HasSmallType item.now }
        ensures ok { OnOk result (self.new ≡ with_item self.old item.now) }
        ensures uses { OnOk result (UsesRight (context_in self.old) (use_of item.now)) }
        ensures refused { (r : Refused) → result ≡ Err (AddStop.Refused r) → IsUseFault (context_in self.old) (use_of item.now) r }
        ensures err { OnErr result (self.new ≡ self.old) }
    {
        let alloc = self.alloc;
        let context = &mut self.context;
        match item {
            Item::Signature { ty, .. } => context.add_type(copy_of_type(alloc, ty)?),
            Item::Imported {
                module,
                name,
                type_index,
                ..
            } => return add_import(context, alloc, module, &name.1, *type_index),
            Item::Function { type_index } => context.add_function(type_index.1),
            Item::Table { limits, .. } => context.add_table(*limits),
            Item::Memory { limits } => context.add_memory(*limits),
            Item::Global { ty, mutable, init } => context.add_global(
                GlobalType {
                    ty: ty.1,
                    mutable: mutable.1,
                },
                init.value.1,
            ),
            Item::Exported { name, kind, index } => {
                context.add_export(export_of(alloc, &name.1, kind.1, index.1)?)
            }
            // Why: docs/DECISIONS.md, "The start function is judged in the context of the items before its section"
            Item::Start { index } => return add_start(context, *index),
            Item::Element {
                place,
                functions,
                ..
            } => context.add_elements(element_row_of(alloc, place, &functions.1)?),
            Item::DataCount { count } => {
                context.add_data_count(count.1);
                Ok(())
            }
            Item::Passive { bytes, .. } => context.add_segment(data_row_of(alloc, None, &bytes.1)?),
            Item::Segment { place, bytes, .. } => {
                context.add_segment(data_row_of(alloc, Some(i32_value(place)), &bytes.1)?)
            }
            Item::Code { .. } => Ok(()),
        }?;
        Ok(())
    }

    /// Adds functions of the types of these indices, as if their items were added one after the other. After an `Err` the context is
    /// as before.
    pub fn add_functions(&mut self, type_indices: &[u32]) -> Result<(), AllocError>
        ensures ok { OnOk result (self.new ≡ with_functions self.old type_indices.now) }
        ensures err { OnErr result (self.new ≡ self.old) }
    {
        self.context.add_functions(type_indices)
    }

    /// The context of the items that were added so far.
    pub fn context(&self) -> &Context
        ensures { result.now ≡ self.now }
    {
        &self.context
    }

    /// The context of all items that were added.
    pub fn finish(self) -> Context
        ensures { result ≡ self }
    {
        self.context
    }
}
