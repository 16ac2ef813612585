//! The host of the program: it prints to a sink.
ghost use Rattle.std.specs.Prelude.{◌≡◌, ◌++◌, true, codes, if◌then◌else◌, map};
ghost use Rattle.std.specs.Fmt.{signed_decimal};
ghost use Rattle.wasm_defs.specs.Values.{type_of, value_of};
ghost use Rattle.io_edges.specs.Streams.{WritesText};
ghost use Rattle.image_run.specs.Printing.{Prints, function_at, function_of, takes, text_of};

use crate::checks::are_of;
use crate::host::{Host, Reply};
use image_format::{Image, Import};
use io_edges::{Sink, write_all};
use itoa::Buffer;
use wasm_defs::{FuncType, Value};

/// A function that the program provides to modules, in the module `host`.
#[derive(Clone, Copy, Debug, PartialEq, Eq)]
pub enum HostFunction {
    /// `put`, of an i32 to nothing: it writes the value's low byte.
    Put,
    /// `num`, of an i64 to nothing: it writes the value as a signed number, and a newline.
    Num,
}

/// Whether a function takes one value of the given one's type, and has no result.
fn takes(signature: &FuncType, value: Value) -> bool
    ensures { result ≡ takes signature.now (type_of value) }
{
    are_of(&[value], signature.params.as_slice()) && are_of(&[], signature.results.as_slice())
}

/// The function that an import is, if it is one of these.
pub(crate) fn function_of(import: &Import) -> Option<HostFunction>
    ensures { result ≡ function_of import.now }
{
    if import.module.as_slice() != "host".as_bytes() {
        return None;
    }
    let name = import.name.as_slice();
    if name == "put".as_bytes() && takes(&import.signature, Value::I32(0)) {
        Some(HostFunction::Put)
    } else if name == "num".as_bytes() && takes(&import.signature, Value::I64(0)) {
        Some(HostFunction::Num)
    } else {
        None
    }
}

/// The function that the import of a number is, if there is one and it is one of these.
pub fn function_at(image: &Image, number: u32) -> Option<HostFunction>
    ensures { result ≡ function_at image.now.imports number }
{
    let import = image.imports.as_slice().get(number as usize)?;
    function_of(import)
}

/// Writes a number and a newline, and says whether the sink took them.
fn print_number<O: Sink>(out: &mut O, number: i64) -> bool
    requires { O.is_open out.old ≡ true }
    ensures text { WritesText result (signed_decimal number ++ codes "\n") (O.written out.old) (O.written out.new) (O.faults out.old) (O.faults out.new) }
    ensures on { result ≡ true → O.is_open out.new ≡ true }
{
    let mut buffer = Buffer::new();
    if write_all(out, buffer.format(number).as_bytes()) {
        write_all(out, b"\n")
    } else {
        false
    }
}

/// Writes what a call of a function prints, and says whether the sink took it.
pub fn print<O: Sink>(out: &mut O, function: Option<HostFunction>, arguments: &[Value]) -> bool
    requires { O.is_open out.old ≡ true }
    ensures text { WritesText result (text_of function (map value_of arguments.now)) (O.written out.old) (O.written out.new) (O.faults out.old)
        (O.faults out.new) }
    ensures on { result ≡ true → O.is_open out.new ≡ true }
{
    match (function, arguments) {
        (Some(HostFunction::Put), [Value::I32(value)]) => {
            write_all(out, &[(value.cast_unsigned() % 256) as u8])
        }
        (Some(HostFunction::Num), [Value::I64(value)]) => print_number(out, *value),
        _ => true,
    }
}

/// A host whose functions print to a sink: `put` and `num` of the module `host`.
///
/// It takes no memory. A call of any other import, or with other arguments, writes nothing and returns nothing. Once the sink has
/// failed, each call stops the run and writes nothing.
#[derive(Drop)]
pub struct SinkHost<'a, 'b, O> {
    image: &'a Image,
    out: &'b mut O,
    is_open: bool,
}

impl<'a, 'b, O: Sink> SinkHost<'a, 'b, O> {
    /// A host of an image that prints to this sink.
    pub fn new(image: &'a Image, out: &'b mut O) -> Self
        requires { O.is_open out.old ≡ true }
        ensures same_reference { result.out.ghost_name ≡ out.entry.ghost_name }
        ensures out { result.out.now ≡ out.old }
        ensures image { result.image.now ≡ image.now }
        ensures can { result.is_open ≡ true }
    {
        SinkHost {
            image,
            out,
            is_open: true,
        }
    }
}

impl<'a, 'b, O: Sink> Host for SinkHost<'a, 'b, O> {
    ghost is_ready = { λ h. if h.is_open then O.is_open h.out.now else true };

    ghost answers = { λ from call reply to.
        (to.image ≡ from.image) × (to.out.ghost_name ≡ from.out.ghost_name)
        × Prints from.is_open to.is_open (text_of (function_at from.image.now.imports call.number) call.arguments) reply
        (O.written from.out.now) (O.written to.out.now) (O.faults from.out.now) (O.faults to.out.now) };

    fn call(&mut self, number: u32, arguments: &[Value], _memory: &[u8]) -> Reply {
        if !self.is_open {
            return Reply::Stop;
        }
        self.is_open = print(self.out, function_at(self.image, number), arguments);
        if self.is_open {
            Reply::Value(None, None)
        } else {
            Reply::Stop
        }
    }
}
