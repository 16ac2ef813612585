//! Validates WebAssembly modules that come over standard input.
#![tactic(auto)]

ghost use Rattle.std.specs.Io.{WritesAtMost};

use io_edges::{InputEdge, OpenGate, OutputEdge};
use std::env::{self, Env, FillError};
use std::io::{self, ErrorKind};
use std::process::ExitCode;
use stream_compile::top;

/// The status where memory ran out.
const OUT_OF_MEMORY: u8 = 8;

/// What the first argument is, in place of the path that the program was started by.
const NAME: &str = "wstream";

/// The environment, but for the path that the program was started by: that is no argument of a command, and needs not be
/// UTF-8.
#[derive(Drop)]
struct Named<'a, E> {
    env: &'a E,
}

/// Copies the program's name to the buffer's start.
fn copy_name(buf: &mut [u8]) -> Result<usize, FillError>
    ensures { WritesAtMost result buf.new }
{
    let name = NAME.as_bytes();
    if buf.len() < name.len() {
        return Err(FillError::TooLong);
    }
    buf[..name.len()].copy_from_slice(name);
    Ok(name.len())
}

impl<'a, E: Env> Env for Named<'a, E> {
    fn arg(&self, i: usize, buf: &mut [u8]) -> Result<usize, FillError> {
        if i == 0 {
            copy_name(buf)
        } else {
            self.env.arg(i, buf)
        }
    }

    fn var(&self, name: &str, buf: &mut [u8]) -> Result<usize, FillError> {
        self.env.var(name, buf)
    }

    fn var_at(&self, i: usize, buf: &mut [u8]) -> Result<usize, FillError> {
        self.env.var_at(i, buf)
    }
}

/// The program's arguments, its name first; none where one after the name isn't UTF-8, since no command has such arguments.
fn words(rt: &HostRuntime) -> io::Result<Vec<String>> {
    let alloc = rt.alloc();
    let args = match env::args(&(Named { env: rt }, alloc)) {
        Ok(args) => args,
        Err(error) if error.kind() == ErrorKind::OutOfMemory => return Err(error),
        Err(_) => return Ok(Vec::new(alloc)),
    };
    Ok(args.collect(alloc)?)
}

fn main(rt: HostRuntime) -> ExitCode {
    let Ok(words) = words(&rt) else {
        return ExitCode::from(OUT_OF_MEMORY);
    };
    let mut source = InputEdge::new(rt.stdin());
    let mut out = OutputEdge::new(rt.stdout());
    let status = top(&rt, rt.alloc(), &words, &mut source, &mut out, &OpenGate);
    ExitCode::from(status)
}
