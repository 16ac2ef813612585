//! The context of a module.

ghost use Rattle.std.specs.Prelude.{◌≡◌, ◌^◌, ◌<◌, ◌↔◌, [], length, IsTrue, IsSome, IfSome, is_some, Some, OnOk, OnErr, slice_get};
ghost use Rattle.wasm_defs.specs.Typing.{function_type};
ghost use Rattle.wasm_defs.specs.Context.{like};
ghost use Rattle.wasm_defs.specs.SmallTypes.{TypeIsSmall, TypesAreSmall};
ghost use Rattle.index_spaces.specs.Spaces.{context_in, spaces_of, with_type, with_import, with_function};
ghost use Rattle.index_spaces.specs.Spaces.{with_functions, with_table, with_memory, with_global, with_export};
ghost use Rattle.index_spaces.specs.Spaces.{with_elements, with_segment, with_data_count, with_start};

use crate::entries::{DataRow, ElementRow, Export, Import};
use crate::type_space::TypeSpace;
use std::alloc::{AllocError, Global};
use std::marker::Model;
use wasm_defs::{FuncType, GlobalType, Limits, MAX_ENTRIES};

/// A module's index spaces: its types, and what its functions may name of functions, tables, memories and globals, imported ones
/// first (Core 3.1). An index is the position in its space, from 0 on. And what the module imports and exports, what its globals,
/// its table and its memory begin with, and its start function (Core 2.5). Each type has at most 1,000 parameters and at most
/// 1,000 results, and there are at most 100,000 globals.
#[derive(Drop)]
pub struct Context {
    types: TypeSpace,
    functions: Vec<u32>,
    tables: Vec<Limits>,
    memories: Vec<Limits>,
    globals: Vec<GlobalType>,
    initials: Vec<i64>,
    imports: Vec<Import>,
    exports: Vec<Export>,
    elements: Vec<ElementRow>,
    segments: Vec<DataRow>,
    data_count: Option<u32>,
    start: Option<u32>,
}

impl Model for Context {
    ghost use Rattle.std.specs.Prelude.{◌≡◌, ◌-◌, ◌≤◌, length};
    ghost use Rattle.wasm_defs.specs.Limits.{max_entries};
    ghost use Rattle.wasm_defs.specs.SmallTypes.{TypesAreSmall};
    ghost use Rattle.index_spaces.specs.Spaces.{Spaces};

    ghost Value = { Spaces };

    ghost view = { λ c. record {
      types = c.types;
      functions = c.functions.items;
      tables = c.tables.items;
      memories = c.memories.items;
      globals = c.globals.items;
      initials = c.initials.items;
      imported = length c.imports.items;
      declared = length c.functions.items - length c.imports.items;
      imports = c.imports.items;
      exports = c.exports.items;
      elements = c.elements.items;
      segments = c.segments.items;
      data_count = c.data_count;
      start = c.start;
    } };

    ghost invariant = { λ c. (length c.imports.items ≤ length c.functions.items) × (length c.initials.items ≡ length c.globals.items) × TypesAreSmall c.types
        × (length c.globals.items ≤ max_entries) };
}

impl Context {
    /// The index spaces of a module without items.
    pub(crate) fn new(alloc: Global) -> Self
        ensures { result ≡ spaces_of [] }
    {
        Context {
            types: TypeSpace::new(alloc),
            functions: Vec::new(alloc),
            tables: Vec::new(alloc),
            memories: Vec::new(alloc),
            globals: Vec::new(alloc),
            initials: Vec::new(alloc),
            imports: Vec::new(alloc),
            exports: Vec::new(alloc),
            elements: Vec::new(alloc),
            segments: Vec::new(alloc),
            data_count: None,
            start: None,
        }
    }

    pub(crate) fn add_type(&mut self, ty: FuncType) -> Result<(), AllocError>
        requires { TypeIsSmall ty }
        ensures ok { OnOk result (self.new ≡ with_type self.old ty) }
        ensures err { OnErr result (self.new ≡ self.old) }
    {
        self.types.push(ty)?;
        Ok(())
    }

    /// An imported function follows the functions that were added before, which are imported ones in a module.
    pub(crate) fn add_import(&mut self, import: Import) -> Result<(), AllocError>
        ensures ok { OnOk result (self.new ≡ with_import self.old import) }
        ensures err { OnErr result (self.new ≡ self.old) }
    {
        let type_index = import.type_index;
        self.functions.reserve(1)?;
        self.imports.push(import)?;
        self.functions.push(type_index)?;
        Ok(())
    }

    pub(crate) fn add_function(&mut self, type_index: u32) -> Result<(), AllocError>
        ensures ok { OnOk result (self.new ≡ with_function self.old type_index) }
        ensures err { OnErr result (self.new ≡ self.old) }
    {
        self.functions.push(type_index)?;
        Ok(())
    }

    pub(crate) fn add_functions(&mut self, type_indices: &[u32]) -> Result<(), AllocError>
        ensures ok { OnOk result (self.new ≡ with_functions self.old type_indices.now) }
        ensures err { OnErr result (self.new ≡ self.old) }
    {
        self.functions.extend_from_slice(type_indices)
    }

    pub(crate) fn add_table(&mut self, limits: Limits) -> Result<(), AllocError>
        ensures ok { OnOk result (self.new ≡ with_table self.old limits) }
        ensures err { OnErr result (self.new ≡ self.old) }
    {
        self.tables.push(limits)?;
        Ok(())
    }

    pub(crate) fn add_memory(&mut self, limits: Limits) -> Result<(), AllocError>
        ensures ok { OnOk result (self.new ≡ with_memory self.old limits) }
        ensures err { OnErr result (self.new ≡ self.old) }
    {
        self.memories.push(limits)?;
        Ok(())
    }

    /// After 100,000 globals, which are all that a module may have, there is no room for another one.
    pub(crate) fn add_global(&mut self, ty: GlobalType, initial: i64) -> Result<(), AllocError>
        ensures ok { OnOk result (self.new ≡ with_global self.old ty initial) }
        ensures err { OnErr result (self.new ≡ self.old) }
    {
        if self.globals.len() >= MAX_ENTRIES as usize {
            return Err(AllocError);
        }
        self.globals.reserve(1)?;
        self.initials.push(initial)?;
        self.globals.push(ty)?;
        Ok(())
    }

    pub(crate) fn add_export(&mut self, export: Export) -> Result<(), AllocError>
        ensures ok { OnOk result (self.new ≡ with_export self.old export) }
        ensures err { OnErr result (self.new ≡ self.old) }
    {
        self.exports.push(export)?;
        Ok(())
    }

    pub(crate) fn add_elements(&mut self, row: ElementRow) -> Result<(), AllocError>
        ensures ok { OnOk result (self.new ≡ with_elements self.old row) }
        ensures err { OnErr result (self.new ≡ self.old) }
    {
        self.elements.push(row)?;
        Ok(())
    }

    pub(crate) fn add_segment(&mut self, row: DataRow) -> Result<(), AllocError>
        ensures ok { OnOk result (self.new ≡ with_segment self.old row) }
        ensures err { OnErr result (self.new ≡ self.old) }
    {
        self.segments.push(row)?;
        Ok(())
    }

    /// A second data count, which no module has, changes nothing.
    pub(crate) fn add_data_count(&mut self, count: u32)
        ensures { self.new ≡ with_data_count self.old count }
    {
        self.data_count = self.data_count.or(Some(count));
    }

    /// A second start function, which no module has, changes nothing.
    pub(crate) fn add_start(&mut self, index: u32)
        ensures { self.new ≡ with_start self.old index }
    {
        self.start = self.start.or(Some(index));
    }

    /// Each type has at most 1,000 parameters and at most 1,000 results.
    pub fn keeps_limits(&self)
        ensures { TypesAreSmall self.now.types }
    {
        let _types = &self.types;
    }

    /// The types by their indices (Core 2.5.2).
    pub fn types(&self) -> &[FuncType]
        ensures { result.now ≡ self.now.types }
    {
        self.types.as_slice()
    }

    /// The functions by their indices (Core 2.5.3), imported ones first: of each the index of its type.
    pub fn type_indices(&self) -> &[u32]
        ensures { result.now ≡ self.now.functions }
    {
        self.functions.as_slice()
    }

    /// The tables by their indices (Core 2.5.4).
    pub fn tables(&self) -> &[Limits]
        ensures { result.now ≡ self.now.tables }
    {
        self.tables.as_slice()
    }

    /// The memories by their indices (Core 2.5.5).
    pub fn memories(&self) -> &[Limits]
        ensures { result.now ≡ self.now.memories }
    {
        self.memories.as_slice()
    }

    /// The globals by their indices (Core 2.5.6).
    pub fn globals(&self) -> &[GlobalType]
        ensures { result.now ≡ self.now.globals }
    {
        self.globals.as_slice()
    }

    /// How many globals there are.
    pub fn global_count(&self) -> u32
        ensures { result ≡ length self.now.globals }
    {
        self.globals.len() as u32
    }

    /// The numbers of the globals' constants (Core 2.5.6), as signed ones, by the indices of the globals.
    pub fn initials(&self) -> &[i64]
        ensures { result.now ≡ self.now.initials }
    {
        self.initials.as_slice()
    }

    /// The imports in order (Core 2.5.11): an import's position is the index of its function.
    pub fn imports(&self) -> &[Import]
        ensures { result.now ≡ self.now.imports }
    {
        self.imports.as_slice()
    }

    /// The offset of an import's first byte in the module.
    pub fn import_offset(&self, index: u32) -> u64
        requires { index < length self.now.imports }
        ensures { IfSome (slice_get self.now.imports index) (λ i. result ≡ i.offset) }
    {
        self.imports[index as usize].offset
    }

    /// The exports in order (Core 2.5.10), those of all sorts.
    pub fn exports(&self) -> &[Export]
        ensures { result.now ≡ self.now.exports }
    {
        self.exports.as_slice()
    }

    /// The element segments in order (Core 2.5.7).
    pub fn elements(&self) -> &[ElementRow]
        ensures { result.now ≡ self.now.elements }
    {
        self.elements.as_slice()
    }

    /// The data segments in order (Core 2.0, 2.5.8).
    pub fn segments(&self) -> &[DataRow]
        ensures { result.now ≡ self.now.segments }
    {
        self.segments.as_slice()
    }

    /// The number in the data count section (Core 2.0, 5.5.15), where there is one.
    pub fn data_count(&self) -> Option<u32>
        ensures { result ≡ self.now.data_count }
    {
        self.data_count
    }

    /// How many data segments instructions may name (Core 2.0, 3.1.1): the data count, and without one none.
    pub fn segment_count(&self) -> u32
        ensures { result ≡ (context_in self.now).segments }
    {
        self.data_count.unwrap_or(0)
    }

    /// The index of the start function (Core 2.5.9), where there is one.
    pub fn start(&self) -> Option<u32>
        ensures { result ≡ self.now.start }
    {
        self.start
    }

    /// How many functions there are, imported and declared ones together.
    pub fn functions(&self) -> u32
        requires { length self.now.functions < 2 ^ 32 }
        ensures { result ≡ length self.now.functions }
    {
        self.functions.len() as u32
    }

    /// How many functions are imported: so many indices come before that of the first declared function.
    pub fn imported(&self) -> u32
        requires { length self.now.functions < 2 ^ 32 }
        ensures { result ≡ self.now.imported }
    {
        self.imports.len() as u32
    }

    /// How many functions are declared, those that are imported not counted.
    pub fn declared(&self) -> usize
        ensures { result ≡ self.now.declared }
    {
        self.functions.len() - self.imports.len()
    }

    /// Whether there is a type of the index.
    pub fn has_type(&self, index: u32) -> bool
        ensures { IsTrue result ↔ (index < length self.now.types) }
    {
        (index as usize) < self.types.as_slice().len()
    }

    /// Whether there is a function of the index.
    pub fn has_function(&self, index: u32) -> bool
        ensures { IsTrue result ↔ (index < length self.now.functions) }
    {
        (index as usize) < self.functions.len()
    }

    /// The index of the type of the function of the index, where there is such a function.
    pub fn type_index(&self, index: u32) -> Option<u32>
        ensures { result ≡ slice_get self.now.functions index }
    {
        match self.functions.get(index as usize) {
            Some(type_index) => Some(*type_index),
            None => None,
        }
    }

    /// Whether there are a function of the index and its type.
    pub fn has_type_of_function(&self, index: u32) -> bool
        ensures { result ≡ is_some (function_type (context_in self.now) index) }
    {
        match self.functions.get(index as usize) {
            Some(type_index) => (*type_index as usize) < self.types.as_slice().len(),
            None => false,
        }
    }

    /// Whether there is a memory.
    pub fn has_memory(&self) -> bool
        ensures { IsTrue result ↔ (0 < length self.now.memories) }
    {
        !self.memories.is_empty()
    }

    /// Whether there is a global of the index.
    pub fn has_global(&self, index: u32) -> bool
        ensures { IsTrue result ↔ (index < length self.now.globals) }
    {
        (index as usize) < self.globals.len()
    }

    /// The type of the index.
    pub fn type_at(&self, index: u32) -> &FuncType
        requires { index < length self.now.types }
        ensures { slice_get self.now.types index ≡ Some result.now }
    {
        &self.types.as_slice()[index as usize]
    }

    /// The least index of a type that equals the type of the index: equal types have one such index, and others have others.
    pub fn like(&self, index: u32) -> u32
        requires { index < length self.now.types }
        ensures { result ≡ like self.now.types index }
    {
        self.types.like(index as usize) as u32
    }

    /// The type of the function of the index, where both are there.
    pub fn type_of_function(&self, index: u32) -> &FuncType
        requires { IsSome (function_type (context_in self.now) index) }
        ensures { function_type (context_in self.now) index ≡ Some result.now }
    {
        &self.types.as_slice()[self.functions[index as usize] as usize]
    }

    /// The type of the global of the index.
    pub fn global(&self, index: u32) -> &GlobalType
        requires { index < length self.now.globals }
        ensures { slice_get self.now.globals index ≡ Some result.now }
    {
        &self.globals[index as usize]
    }
    /// The number of the constant of the global of the index, as a signed one: what the global begins with (Core 4.5.4).
    pub fn initial(&self, index: u32) -> i64
        requires { index < length self.now.globals }
        ensures { slice_get self.now.initials index ≡ Some result }
    {
        self.initials[index as usize]
    }
}
