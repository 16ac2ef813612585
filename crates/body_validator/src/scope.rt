//! What the instructions of a body may name.

ghost use Rattle.std.specs.Prelude.{◌≡◌, ◌++◌, length, replicate, reverse, nat_lt, None, Some, slice_get, MatchOption, OnOk, OnErr};
ghost use Rattle.wasm_defs.specs.Typing.{accesses, function_type};
ghost use Rattle.index_spaces.specs.Spaces.{context_in};
ghost use Rattle.body_validator.specs.Scopes.{with_locals};

use crate::locals::Locals;
use index_spaces::Context;
use std::alloc::AllocError;
use std::marker::Model;
use wasm_defs::{FuncType, GlobalType, MemArg, ValType};

/// The context of a module, and the locals and results of one of its functions.
#[derive(Drop)]
pub struct Scope<'a> {
    pub context: &'a Context,
    pub results: &'a [ValType],
    pub locals: Locals<'a>,
}

impl<'a> Model for Scope<'a> {
    ghost use Rattle.std.specs.Prelude.{reverse};
    ghost use Rattle.wasm_defs.specs.Typing.{Context};
    ghost use Rattle.index_spaces.specs.Spaces.{context_in};

    ghost Value = { Context };

    ghost view = { λ s. record (context_in s.context.now) {
      locals = s.locals;
      results = reverse s.results.now;
    } };
}

impl<'a> Scope<'a> {
    /// Begins with a function of these parameters and results, which declares no locals so far.
    pub fn begin(&mut self, context: &'a Context, params: &'a [ValType], results: &'a [ValType])
        ensures { self.new ≡ record (context_in context.now) { locals = params.now; results = reverse results.now } }
    {
        self.context = context;
        self.results = results;
        self.locals.begin(params);
    }

    /// How many locals there are, the parameters among them.
    pub fn local_count(&self) -> usize
        ensures { result ≡ length self.now.locals }
    {
        let _ = &self.context;
        self.locals.len()
    }

    /// Declares locals of one type.
    pub fn declare(&mut self, count: u32, t: ValType) -> Result<(), AllocError>
        ensures ok { OnOk result (self.new ≡ with_locals self.old (self.old.locals ++ replicate count t)) }
        ensures err { OnErr result (self.new ≡ self.old) }
    {
        self.locals.declare(count as usize, t)
    }

    /// The type of a local.
    #[inline(always)]
    pub fn local(&self, index: u32) -> Option<ValType>
        ensures { result ≡ slice_get self.now.locals index }
    {
        self.locals.get(index as usize)
    }

    /// The type of a global.
    pub fn global(&self, index: u32) -> Option<GlobalType>
        ensures { result ≡ slice_get self.now.globals index }
    {
        self.context.globals().get(index as usize).copied()
    }

    /// A type of the module.
    pub fn type_at(&self, index: u32) -> Option<&'a FuncType>
        ensures { MatchOption result (slice_get self.now.types index ≡ None)
            (λ f. slice_get self.now.types index ≡ Some f.now) }
    {
        self.context.types().get(index as usize)
    }

    /// The type of a function.
    pub fn type_of_function(&self, index: u32) -> Option<&'a FuncType>
        ensures { MatchOption result (function_type self.now index ≡ None)
            (λ f. function_type self.now index ≡ Some f.now) }
    {
        let type_index = self.context.type_indices().get(index as usize)?;
        self.type_at(*type_index)
    }

    /// Whether there is a table of that index.
    pub fn has_table(&self, index: u32) -> bool
        ensures { result ≡ nat_lt index self.now.tables }
    {
        (index as usize) < self.context.tables().len()
    }

    /// Whether there is a memory.
    pub fn has_memory(&self) -> bool
        ensures { result ≡ nat_lt 0 self.now.memories }
    {
        self.context.has_memory()
    }

    /// Whether there is a data segment of that index.
    pub fn has_segment(&self, index: u32) -> bool
        ensures { result ≡ nat_lt index self.now.segments }
    {
        index < self.context.segment_count()
    }

    /// Whether there is a memory that may be accessed there, with an alignment of at most that.
    pub fn can_access(&self, place: MemArg, most: u32) -> bool
        ensures { result ≡ accesses self.now place.align most }
    {
        self.has_memory() && place.align <= most
    }
}
