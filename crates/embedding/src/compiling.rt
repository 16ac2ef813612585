//! Modules whose bytes are in memory.
ghost use Rattle.std.specs.Prelude.{IfOk};
ghost use Rattle.embedding.specs.Modules.{IsCompiled};

use image_format::Image;
use io_edges::{Flat, OpenGate};
use std::alloc::{AllocError, Global};
use std::sync::Wait;
use std::thread::Threads;
use stream_compile::{Answer, Settings, stream_compile};
use wasm_defs::Refusal;

/// No worker threads: the calling thread compiles each batch itself. The answer is the same with any number of them.
const ALONE: Settings = Settings {
    workers: 0,
    batch: 4_096,
};

/// What bytes are compiled to.
#[derive(Drop)]
pub enum Compiled {
    /// The image of the module that they are.
    Image(Image),
    /// They are no module: their first error.
    Refused(Refusal),
}

/// Compiles bytes that are in memory.
pub fn compile_bytes<R: Threads + Wait + Sync>(
    rt: &R,
    alloc: Global,
    bytes: &[u8],
) -> Result<Compiled, AllocError>
    ensures { IfOk result (IsCompiled bytes.now) }
{
    let mut source = Flat::new(bytes);
    match stream_compile(rt, alloc, &mut source, &OpenGate, ALONE) {
        Answer::Image(built) => Ok(Compiled::Image(built.image)),
        Answer::Refused(refusal) => Ok(Compiled::Refused(refusal)),
        // a source in memory doesn't fail
        Answer::ReadFault => unreachable!(),
        Answer::NoMemory => Err(AllocError),
    }
}
