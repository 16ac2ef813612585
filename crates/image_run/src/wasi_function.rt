//! The functions of WASI preview 1 that the program provides.
ghost use Rattle.std.specs.Prelude.{◌≡◌, map};
ghost use Rattle.wasm_defs.specs.Values.{type_of};
ghost use Rattle.image_run.specs.WasiFunctions.{has_type, wasi_at, wasi_of};

use crate::checks::are_of;
use image_format::{Image, Import};
use wasm_defs::{FuncType, Value};

/// A function of the module `wasi_snapshot_preview1` (WASI preview 1) that the program provides.
#[derive(Clone, Copy, Debug, PartialEq, Eq)]
pub enum WasiFunction {
    /// `fd_write`, of four i32 to an i32: it writes bytes to a file, and returns an `errno`.
    FdWrite,
    /// `proc_exit`, of an i32 to nothing: it ends the run with an exit code.
    ProcExit,
}

/// Whether a function has parameters and results of these values' types.
fn has_type(signature: &FuncType, params: &[Value], results: &[Value]) -> bool
    ensures { result ≡ has_type signature.now (map type_of params.now) (map type_of results.now) }
{
    are_of(params, signature.params.as_slice()) && are_of(results, signature.results.as_slice())
}

/// The function that an import is, by its names and its type, if it is one of these.
pub(crate) fn wasi_of(import: &Import) -> Option<WasiFunction>
    ensures { result ≡ wasi_of import.now }
{
    if import.module.as_slice() != "wasi_snapshot_preview1".as_bytes() {
        return None;
    }
    let name = import.name.as_slice();
    let one = Value::I32(0);
    if name == "fd_write".as_bytes() && has_type(&import.signature, &[one, one, one, one], &[one]) {
        Some(WasiFunction::FdWrite)
    } else if name == "proc_exit".as_bytes() && has_type(&import.signature, &[one], &[]) {
        Some(WasiFunction::ProcExit)
    } else {
        None
    }
}

/// The function that the import of a number is, if there is one and it is one of these.
pub fn wasi_at(image: &Image, number: u32) -> Option<WasiFunction>
    ensures { result ≡ wasi_at image.now.imports number }
{
    let import = image.imports.as_slice().get(number as usize)?;
    wasi_of(import)
}
