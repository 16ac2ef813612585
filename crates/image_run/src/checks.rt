//! What is checked before a run.
ghost use Rattle.std.specs.Prelude.{◌≡◌, map};
ghost use Rattle.std.specs.Option.{option_copied};
ghost use Rattle.wasm_defs.specs.Values.{type_of};
ghost use Rattle.wasm_defs.specs.Typing.{same_types};
ghost use Rattle.image_run.specs.Checks.{export_named, has_unknown_import, is_known, not_runnable, unfit};

use crate::sink_host::function_of;
use crate::wasi_function::wasi_of;
use image_format::{Export, Image, Import};
use wasm_defs::{ValType, Value};

/// Why an exported function of an image isn't run.
#[derive(Clone, Copy, Debug, PartialEq, Eq)]
pub enum NotRunnable {
    /// The image has an import that is no function that the program provides, by its names and its type.
    UnknownImport,
    /// No exported function has the name.
    NoSuchExport,
    /// The arguments aren't as many as the function's parameters, or differ in type.
    WrongArguments,
    /// Some segment of the module doesn't fit (WebAssembly Core 1.0, 4.5.4).
    Unlinkable,
}

/// The first exported function of a name.
pub fn find_export<'a>(image: &'a Image, name: &str) -> Option<&'a Export>
    ensures { option_copied result ≡ export_named name.now image.now.exports }
{
    for export in image.exports.as_slice() {
        if name.as_bytes() == export.name.as_slice() {
            return Some(export);
        }
    }
    None
}

/// Whether the arguments are of these types, in order.
pub fn are_of(arguments: &[Value], types: &[ValType]) -> bool
    ensures { result ≡ same_types (map type_of arguments.now) types.now }
{
    if arguments.len() != types.len() {
        return false;
    }
    for (i, value) in arguments.iter().enumerate() {
        if value.ty() != types[i] {
            return false;
        }
    }
    true
}

/// Why the exported function of a name can't be called with these arguments, if it can't, whatever the image imports: the first
/// reason that holds, in the order of `NotRunnable`.
pub fn call_checks(image: &Image, export: &str, arguments: &[Value]) -> Option<NotRunnable>
    ensures { result ≡ unfit image.now (map type_of arguments.now) (export_named export.now image.now.exports) }
{
    match find_export(image, export) {
        None => Some(NotRunnable::NoSuchExport),
        Some(found) => {
            if !are_of(arguments, found.signature.params.as_slice()) {
                Some(NotRunnable::WrongArguments)
            } else if image.unlinkable {
                Some(NotRunnable::Unlinkable)
            } else {
                None
            }
        }
    }
}

/// Whether an import is a function that the program provides, by its names and its type.
fn is_known(import: &Import) -> bool
    ensures { result ≡ is_known import.now }
{
    function_of(import).is_some() || wasi_of(import).is_some()
}

/// Whether some import is no function that the program provides.
fn has_unknown_import(imports: &[Import]) -> bool
    ensures { result ≡ has_unknown_import imports.now }
{
    for import in imports {
        if !is_known(import) {
            return true;
        }
    }
    false
}

/// Why the exported function of a name can't be run with these arguments, if it can't: the first reason that holds, in the
/// order of `NotRunnable`.
pub fn run_checks(image: &Image, export: &str, arguments: &[Value]) -> Option<NotRunnable>
    ensures { result ≡ not_runnable image.now export.now (map type_of arguments.now) }
{
    if has_unknown_import(image.imports.as_slice()) {
        Some(NotRunnable::UnknownImport)
    } else {
        call_checks(image, export, arguments)
    }
}
