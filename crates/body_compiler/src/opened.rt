//! A body before the first token of its code: its locals are declared.

ghost use Rattle.std.specs.Prelude.{◌+◌, ◌<◌, ◌≤◌, ◌^◌, ℕ, IsSome, is_some, length, IfOk, IfErr, Err};
ghost use Rattle.wasm_defs.specs.Bodies.{body_read};
ghost use Rattle.wasm_defs.specs.Limits.{max_body};
ghost use Rattle.wasm_defs.specs.Typing.{function_type};
ghost use Rattle.index_spaces.specs.Spaces.{context_in};
ghost use Rattle.body_compiler.specs.Compiling.{Compiles};
ghost use Rattle.body_compiler.specs.Opened.{IsOpened};

use crate::code::{BodyStop, stop_of};
use crate::locals::declare_locals;
use body_validator::Check;
use index_spaces::Context;
use leb_feed::Fields;
use wasm_defs::FuncType;

/// A body whose fields were read up to its code.
#[derive(Drop)]
pub(crate) struct OpenedBody<'a, 'b> {
    /// The type of its function.
    pub(crate) function: &'a FuncType,
    /// How many locals it declares.
    pub(crate) locals: u32,
    /// What is left to read.
    pub(crate) fields: Fields<'b>,
    /// Whether the module counts its data segments.
    pub(crate) counted: bool,
    /// The offset of the body's last byte.
    pub(crate) last: u64,
}

/// Reads and declares the locals of a function's body, whose first byte has the offset.
pub(crate) fn open_body<'a, 'b>(
    check: &mut Check<'a>,
    context: &'a Context,
    index: u32,
    bytes: &'b [u8],
    offset: u64,
) -> Result<OpenedBody<'a, 'b>, BodyStop>
    requires function { IsSome (function_type (context_in context.now) index) }
    requires most { length bytes.now ≤ max_body }
    requires fits { offset + length bytes.now < 2 ^ 63 }
    ensures opened { IfOk result (λ body. IsOpened (is_some context.now.data_count) (context_in context.now) index offset bytes.now check.new body) }
    ensures stops { IfErr result (λ stop. (rows : ℕ) → Compiles rows offset (context_in context.now) index
        (body_read (is_some context.now.data_count) offset bytes.now) (Err stop)) }
{
    context.keeps_limits();
    let len = bytes.len() as u64;
    let last = offset + len.saturating_sub(1);
    let mut fields = Fields::new(bytes, offset, offset + len + 1);
    match check.begin(context, index) {
        Ok(()) => {}
        Err(_) => return Err(BodyStop::NoMemory),
    }
    match declare_locals(&mut fields, check) {
        Ok(locals) => Ok(OpenedBody {
            function: context.type_of_function(index),
            locals,
            fields,
            counted: context.data_count().is_some(),
            last,
        }),
        Err(stop) => Err(stop_of(&stop, last)),
    }
}
