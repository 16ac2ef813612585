//! The host.
ghost use Rattle.std.specs.Prelude.{◌≡◌, true, None, IfSome, if◌then◌else◌};
ghost use Rattle.image_run.specs.Hosts.{call_of};
ghost use Rattle.wasi_host.specs.Answers.{Counts, answer_of, answered_by, bytes_or_errno};
ghost use Rattle.wasi_host.specs.ExitCodes.{code_of_call, last_of};
ghost use Rattle.wasi_host.specs.Sinks.{Answers, Gives};

use crate::arguments::{code_in, write_in};
use crate::vectors::{total, write_vectors};
use crate::write_call::WriteCall;
use image_format::Image;
use image_run::{Host, Patch, Reply, WasiFunction, function_at, print, wasi_at};
use io_edges::Sink;
use wasm_defs::Value;

/// `errno::badf`: the file isn't 1, standard output.
const BADF: i32 = 8;

/// `errno::fault`: an address is outside the memory.
const FAULT: i32 = 21;

/// `errno::inval`: there are too many vectors, or their bytes are more than an i32 can count.
const INVAL: i32 = 28;

/// How many bytes a call of `fd_write` writes, or its error.
fn check(call: WriteCall, memory: &[u8]) -> Result<u32, i32>
    ensures { Counts result (bytes_or_errno call memory.now) }
{
    if call.fd != 1 {
        return Err(BADF);
    }
    if call.iovs_len > 1_024 {
        return Err(INVAL);
    }
    let Some(sum) = total(memory, call.iovs, call.iovs_len) else {
        return Err(FAULT);
    };
    if u64::from(call.nwritten) + 4 > memory.len() as u64 {
        return Err(FAULT);
    }
    if sum > 4_294_967_295 {
        return Err(INVAL);
    }
    Ok(sum as u32)
}

/// Writes the bytes of a call of `fd_write`, and gives the reply to it; or none, where the sink failed.
fn fd_write<O: Sink>(out: &mut O, call: WriteCall, memory: &[u8]) -> Option<Reply>
    requires { O.is_open out.old ≡ true }
    ensures bytes { Gives result (answered_by call.nwritten (bytes_or_errno call memory.now)) (O.written out.old) (O.written out.new) (O.faults out.old)
        (O.faults out.new) }
    ensures on { IfSome result (λ _. O.is_open out.new ≡ true) }
{
    match check(call, memory) {
        Err(error) => Some(Reply::Value(Some(Value::I32(error)), None)),
        Ok(sum) => {
            if !write_vectors(out, memory, call.iovs, call.iovs_len) {
                return None;
            }
            let patch = Patch {
                place: call.nwritten,
                bytes: u64::from(sum).to_le_bytes(),
                len: 4,
            };
            Some(Reply::Value(Some(Value::I32(0)), Some(patch)))
        }
    }
}

/// Writes the bytes of a call, and gives the reply to it; or none, where the sink failed.
fn answer<O: Sink>(
    out: &mut O,
    image: &Image,
    number: u32,
    arguments: &[Value],
    memory: &[u8],
) -> Option<Reply>
    requires { O.is_open out.old ≡ true }
    ensures bytes { Gives result (answer_of image.now.imports (call_of number arguments.now memory.now)) (O.written out.old) (O.written out.new)
        (O.faults out.old) (O.faults out.new) }
    ensures on { IfSome result (λ _. O.is_open out.new ≡ true) }
{
    let nothing = Reply::Value(None, None);
    match wasi_at(image, number) {
        Some(WasiFunction::FdWrite) => match write_in(arguments) {
            Some(call) => fd_write(out, call, memory),
            None => Some(nothing),
        },
        Some(WasiFunction::ProcExit) => match code_in(arguments) {
            Some(_) => Some(Reply::Stop),
            None => Some(nothing),
        },
        None => {
            if print(out, function_at(image, number), arguments) {
                Some(nothing)
            } else {
                None
            }
        }
    }
}

/// The exit code of a call, if it is of `proc_exit`.
fn code_of_call(image: &Image, number: u32, arguments: &[Value], memory: &[u8]) -> Option<u32>
    ensures { result ≡ code_of_call image.now.imports (call_of number arguments.now memory.now) }
{
    match wasi_at(image, number) {
        Some(WasiFunction::ProcExit) => code_in(arguments),
        _ => None,
    }
}

/// A host that prints to a sink. It provides `fd_write` and `proc_exit` of WASI preview 1, and the functions of `SinkHost`.
///
/// `fd_write` writes to file 1 alone, which is the sink; `proc_exit` stops the run. A call of an import that the host doesn't
/// know, or with arguments of other types, writes nothing and returns nothing. Once the sink has failed, each call stops the run
/// and writes nothing. No call takes memory.
#[derive(Drop)]
pub struct WasiHost<'a, 'b, O> {
    image: &'a Image,
    out: &'b mut O,
    is_open: bool,
    exit: Option<u32>,
}

impl<'a, 'b, O: Sink> WasiHost<'a, 'b, O> {
    /// A host of an image that prints to this sink.
    pub fn new(image: &'a Image, out: &'b mut O) -> Self
        requires { O.is_open out.old ≡ true }
        ensures same_reference { result.out.ghost_name ≡ out.entry.ghost_name }
        ensures out { result.out.now ≡ out.old }
        ensures image { result.image.now ≡ image.now }
        ensures can { result.is_open ≡ true }
        ensures exit { result.exit ≡ None }
    {
        WasiHost {
            image,
            out,
            is_open: true,
            exit: None,
        }
    }

    /// Whether the sink has taken all that was written.
    pub fn is_open(&self) -> bool
        ensures { result ≡ self.now.is_open }
    {
        self.is_open
    }

    /// The exit code of the last call of `proc_exit`, unsigned, if there was one.
    pub fn exit_code(&self) -> Option<u32>
        ensures { result ≡ self.now.exit }
    {
        self.exit
    }
}

impl<'a, 'b, O: Sink> Host for WasiHost<'a, 'b, O> {
    ghost is_ready = { λ h. if h.is_open then O.is_open h.out.now else true };

    ghost answers = { λ from call reply to.
        (to.image ≡ from.image) × (to.out.ghost_name ≡ from.out.ghost_name)
        × (to.exit ≡ last_of from.exit (code_of_call from.image.now.imports call))
        × Answers from.is_open to.is_open (answer_of from.image.now.imports call) reply
        (O.written from.out.now) (O.written to.out.now) (O.faults from.out.now) (O.faults to.out.now) };

    fn call(&mut self, number: u32, arguments: &[Value], memory: &[u8]) -> Reply {
        if let Some(code) = code_of_call(self.image, number, arguments, memory) {
            self.exit = Some(code);
        }
        if !self.is_open {
            return Reply::Stop;
        }
        match answer(self.out, self.image, number, arguments, memory) {
            Some(reply) => reply,
            None => {
                self.is_open = false;
                Reply::Stop
            }
        }
    }
}
