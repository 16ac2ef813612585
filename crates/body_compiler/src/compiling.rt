//! A whole body.

ghost use Rattle.std.specs.Prelude.{◌≡◌, ◌+◌, ◌<◌, ◌≤◌, ◌^◌, [], IsSome, is_some, length};
ghost use Rattle.wasm_defs.specs.Bodies.{body_read, Spelled as SpelledGiven};
ghost use Rattle.wasm_defs.specs.Instances.{first_minimum};
ghost use Rattle.wasm_defs.specs.Limits.{max_body, max_locals};
ghost use Rattle.wasm_defs.specs.Typing.{Context as ContextGiven, function_type};
ghost use Rattle.index_spaces.specs.Spaces.{context_in};
ghost use Rattle.wasm_defs.specs.SmallTypes.{TypeIsSmall};
ghost use Rattle.wasm_laws.specs.Sections.{AreBytes};
ghost use Rattle.body_validator.specs.Checking.{start_checker};
ghost use Rattle.body_compiler.specs.Compiling.{Compiles};
ghost use Rattle.body_compiler.specs.Making.{Makes};
ghost use Rattle.body_compiler.specs.Steps.{FunctionsAreSmall};
ghost use Rattle.body_compiler.specs.Going.{IsGoing};

use crate::code::{BodyBuilder, BodyStop, judge_code};
use crate::function_builder::{begin, finish};
use crate::opened::{OpenedBody, open_body};
use crate::scratch::Scratch;
use crate::token_loop::ReadContext;
use body_validator::Check;
use frame_layout::Layout;
use index_spaces::Context;
use leb_feed::Fields;
use rv_isa::{Code, TrapSite};
use std::alloc::Global;
use wasm_defs::FuncType;

/// Most bodies have no more traps than so many.
const FIRST_SITES: usize = 32;

/// No traps of a code, with room for those of most bodies.
fn no_sites(alloc: Global) -> Vec<TrapSite>
    ensures { result.items ≡ [] }
{
    // without that room they find it one after the other, or are out of memory
    match Vec::with_capacity(alloc, FIRST_SITES) {
        Ok(sites) => sites,
        Err(_) => Vec::new(alloc),
    }
}

/// Compiles the code of a body whose first byte has the offset `first`, in a module whose table has so many rows at first.
fn compile_code(
    scratch: &mut Scratch<'_>,
    rows: u32,
    first: u64,
    body: OpenedBody<'_, '_>,
) -> Result<Code, BodyStop>
    requires small { TypeIsSmall body.function.now }
    requires locals { body.locals ≤ max_locals }
    requires bytes { AreBytes body.fields.rest }
    requires few { length body.fields.rest ≤ max_body }
    requires begun { scratch.old.check.checker ≡ start_checker scratch.old.check.context }
    requires unlabelled { scratch.old.check.context.labels ≡ [] }
    requires functions { FunctionsAreSmall scratch.old.check.context }
    requires results { length scratch.old.check.context.results ≡ length body.function.now.results }
    ensures { (c : ContextGiven) (code : SpelledGiven) (g : IsGoing body.entry.counted c body.entry.last body.entry.fields scratch.old.check code)
        → g.tokens ≡ [] → length c.results ≡ length body.entry.function.now.results → Makes rows first c code
        (record { params = length body.entry.function.now.params; locals = body.entry.locals; greatest = 0 }) (length body.entry.function.now.results) result }
{
    let OpenedBody {
        function,
        locals,
        mut fields,
        counted,
        last,
    } = body;
    let alloc = scratch.alloc;
    let layout = Layout {
        params: function.params.as_slice().len() as u32,
        locals,
        greatest: 0,
    };
    let results = function.results.as_slice().len() as u32;
    let bytes = fields.rest().len();
    let Ok(draft) = begin(alloc, layout, rows, results, bytes) else {
        return Err(BodyStop::NoMemory);
    };
    let mut draft = BodyBuilder {
        function: draft,
        sites: no_sites(alloc),
    };
    match judge_code(
        &mut fields,
        &mut scratch.check,
        &mut draft,
        ReadContext {
            alloc,
            counted,
            last,
        },
    ) {
        Ok(()) => {}
        Err(stop) => return Err(stop),
    }
    let greatest = scratch.check.shape().greatest;
    match finish(
        alloc,
        draft.function,
        draft.sites,
        first,
        greatest as u32,
        results,
    ) {
        Ok(code) => Ok(code),
        Err(_) => Err(BodyStop::NoMemory),
    }
}

/// The rows that the table has at first (Core 4.5.3), or 0 where there is none.
fn rows_of(context: &Context) -> u32
    ensures { result ≡ first_minimum context.now.tables }
{
    match context.tables().first() {
        Some(limits) => limits.min.1,
        None => 0,
    }
}

/// Compiles the body of a function: its bytes are all there, and the first one has the offset. Instructions on data segments are there
/// only where the context has a data count.
///
/// A body that is encoded correctly to its end (Core 5.4 and 5.5.13) and valid in the context (Core 3.4.1) becomes the instruction
/// words of its function (`Functions` of `frame_layout`), whose calls have no distances yet, the indices of these calls, where its
/// traps are and what of the module traps there, and the number of slots that it needs. Any other body is refused with its first
/// error. Where memory runs out it is neither.
pub fn compile<'a>(
    scratch: &mut Scratch<'a>,
    context: &'a Context,
    index: u32,
    bytes: &[u8],
    offset: u64,
) -> Result<Code, BodyStop>
    requires function { IsSome (function_type (context_in context.now) index) }
    requires most { length bytes.now ≤ max_body }
    requires fits { offset + length bytes.now < 2 ^ 63 }
    ensures { Compiles (first_minimum context.now.tables) offset (context_in context.now) index
        (body_read (is_some context.now.data_count) offset bytes.now) result }
{
    match open_body(&mut scratch.check, context, index, bytes, offset) {
        Ok(body) => compile_code(scratch, rows_of(context), offset, body),
        Err(stop) => Err(stop),
    }
}
