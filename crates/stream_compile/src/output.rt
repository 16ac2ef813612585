//! What the program answers where it answers lines: a status, and the lines for standard output.

ghost use Rattle.std.specs.Prelude.{◌≡◌, IfOk};
ghost use Rattle.stream_compile.specs.Outputs.{view};
ghost use Rattle.stream_compile.specs.Texts.{usage, read_fault, accepted, kind_name, rejected, reason, unrunnable, bad_image};

use image_run::NotRunnable;
use std::alloc::{AllocError, Global};
use wasm_defs::{Kind, Refusal};

/// A status and the lines that are written.
#[derive(Drop)]
pub struct Output {
    pub status: u8,
    pub text: String,
}

/// The command line is outside the command grammar.
pub fn usage(alloc: Global) -> Result<Output, AllocError>
    ensures { IfOk result (λ a. view a ≡ usage) }
{
    Ok(Output {
        status: 1,
        text: String::from_str(
            alloc,
            "usage: wstream check, compile, run EXPORT ARGS, exec EXPORT ARGS or drill N\n",
        )?,
    })
}

/// The source failed.
pub fn read_fault(alloc: Global) -> Result<Output, AllocError>
    ensures { IfOk result (λ a. view a ≡ read_fault) }
{
    Ok(Output {
        status: 6,
        text: String::from_str(alloc, "read fault\n")?,
    })
}

/// The bytes are a module, which declares so many functions.
pub fn accepted(alloc: Global, functions: u64, bytes: u64) -> Result<Output, AllocError>
    ensures { IfOk result (λ a. view a ≡ accepted functions bytes) }
{
    Ok(Output {
        status: 0,
        text: format!(in alloc; "ok {functions} functions {bytes} bytes\n")?,
    })
}

/// The name of a kind of error.
pub fn kind_name(kind: Kind) -> &'static str
    ensures { result.now ≡ kind_name kind }
{
    match kind {
        Kind::Malformed => "malformed",
        Kind::Unsupported => "unsupported",
        Kind::Limit => "limit",
        Kind::Invalid => "invalid",
        Kind::Ended => "ended",
    }
}

/// The bytes are no module: this is its error of least offset.
pub fn rejected(alloc: Global, refusal: Refusal) -> Result<Output, AllocError>
    ensures { IfOk result (λ a. view a ≡ rejected refusal) }
{
    let kind = kind_name(refusal.kind);
    let offset = refusal.offset;
    Ok(Output {
        status: 2,
        text: format!(in alloc; "refused {kind} at {offset}\n")?,
    })
}

fn reason(why: NotRunnable) -> &'static str
    ensures { result.now ≡ reason why }
{
    match why {
        NotRunnable::UnknownImport => "unknown import",
        NotRunnable::NoSuchExport => "no such export",
        NotRunnable::WrongArguments => "wrong arguments",
        NotRunnable::Unlinkable => "unlinkable",
    }
}

/// The export can't be called with these arguments.
pub fn unrunnable(alloc: Global, why: NotRunnable) -> Result<Output, AllocError>
    ensures { IfOk result (λ a. view a ≡ unrunnable why) }
{
    let why = reason(why);
    Ok(Output {
        status: 3,
        text: format!(in alloc; "not runnable {why}\n")?,
    })
}

/// The bytes are no image: the offset of their first error.
pub fn bad_image(alloc: Global, offset: u64) -> Result<Output, AllocError>
    ensures { IfOk result (λ a. view a ≡ bad_image offset) }
{
    Ok(Output {
        status: 10,
        text: format!(in alloc; "bad image at {offset}\n")?,
    })
}
