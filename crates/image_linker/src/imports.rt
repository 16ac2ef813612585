//! The imports of a module: their stubs, which come before its functions, and the imports of its image.

ghost use Rattle.std.specs.Prelude.{◌≡◌, ◌<◌, ◌+◌, ◌*◌, ◌^◌, length, map, slice_get, IfOk};
ghost use Rattle.wasm_defs.specs.Context.{type_or_empty};
ghost use Rattle.rv_isa.specs.Words.{word_of};
ghost use Rattle.frame_layout.specs.Templates.{exit_stub};
ghost use Rattle.image_format.specs.Bounds.{AreImports};
ghost use Rattle.image_linker.specs.ImageOf.{front_of, stub_places};
ghost use Rattle.image_linker.specs.Linking.{front_words, linked_import};
ghost use Rattle.image_linker.specs.Signatures.{AreOf};

use crate::signatures::signature_at;
use image_format::{Import, SharedType};
use index_spaces::{Context, copy_of_name};
use rv_isa::{Imm12, ImmOp, Op, Register, WordBuffer, Words, encode};
use std::alloc::{AllocError, Global};
use table_calls::emit_import_stub;

/// Instruction words of the exit stub.
const EXIT_WORDS: u32 = 2;

/// Instruction words of an import's stub.
const STUB_WORDS: u32 = 18;

/// The exit stub: a7 becomes 0, and the environment is called.
fn exit_stub() -> [u32; 2]
    ensures { result ≡ map word_of exit_stub }
{
    [
        encode(Op::Imm {
            op: ImmOp::Addi,
            rd: Register::new(17),
            rs1: Register::new(0),
            imm: Imm12::new(0),
        }),
        encode(Op::Ecall),
    ]
}

/// How many instruction words a text has before the codes, where so many functions are imported: the exit stub, and a stub for each.
pub(crate) fn stub_words(imported: u64) -> u128
    ensures { result ≡ front_of imported }
{
    u128::from(EXIT_WORDS) + u128::from(STUB_WORDS) * u128::from(imported)
}

/// `stub_words`, where 32 bits have room for it.
pub(crate) fn front_of(imported: usize) -> u32
    requires { front_of imported < 2 ^ 32 }
    ensures { result ≡ front_of imported }
{
    stub_words(imported as u64) as u32
}

/// The room that the stubs take before the codes, in instruction words, where so many functions are imported (`stub_words`).
pub fn words_before(imported: u32) -> usize
    ensures { result ≡ front_of imported }
{
    stub_words(u64::from(imported)) as usize
}

/// The indices of so many stubs, in instruction words.
pub(crate) fn stub_places(alloc: Global, imported: usize) -> Result<Vec<u32>, AllocError>
    requires { front_of imported < 2 ^ 32 }
    ensures { IfOk result (λ places. places.items ≡ stub_places (length exit_stub) imported) }
{
    let mut places = Vec::with_capacity(alloc, imported)?;
    for number in 0..imported {
        places.push(front_of(number))?;
    }
    Ok(places)
}

/// The number of a type's parameters, or 0 where the context has no such type.
fn params_of(context: &Context, type_index: u32) -> u32
    requires { length (type_or_empty (slice_get context.now.types type_index)).params < 2 ^ 32 }
    ensures { result ≡ length (type_or_empty (slice_get context.now.types type_index)).params }
{
    if context.has_type(type_index) {
        context.type_at(type_index).params.as_slice().len() as u32
    } else {
        0
    }
}

/// The instruction words before the functions' codes: the exit stub, and a stub for each import.
pub(crate) fn front(alloc: Global, context: &Context) -> Result<Words, AllocError>
    requires { AreImports (map (linked_import context.now.types) context.now.imports) }
    ensures { IfOk result (λ text. text ≡ front_words context.now) }
{
    let mut text = WordBuffer::with_room(alloc, STUB_WORDS as usize)?;
    text.append(&exit_stub())?;
    let mut number = 0;
    for import in context.imports() {
        emit_import_stub(&mut text, params_of(context, import.type_index), number)?;
        number += 1;
    }
    Ok(text.finish())
}

/// The imports of the image: the names and the types of the imported functions. Those of one type share it.
pub(crate) fn imports_of(
    alloc: Global,
    context: &Context,
    copies: &mut [Option<SharedType>],
) -> Result<Vec<Import>, AllocError>
    requires { AreOf context.now.types copies.old }
    ensures { IfOk result (λ imports. imports.items ≡ map (linked_import context.now.types) context.now.imports) }
{
    let mut imports = Vec::with_capacity(alloc, context.imports().len())?;
    for import in context.imports() {
        imports.push(Import {
            module: copy_of_name(alloc, &import.module)?,
            name: copy_of_name(alloc, &import.name)?,
            signature: signature_at(alloc, context.types(), copies, import.type_index)?,
        })?;
    }
    Ok(imports)
}
