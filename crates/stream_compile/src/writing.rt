//! What is written to the sink. Nothing here takes memory.

ghost use Rattle.std.specs.Prelude.{ℕ, Option, ◌≡◌, ◌<◌, ◌^◌, ◌-◌, ◌∷◌, ◌++◌, [], List, length, true, codes, nat_lt};
ghost use Rattle.std.specs.Fmt.{decimal};
ghost use Rattle.std.specs.List.{flat_map};
ghost use Rattle.wasm_defs.specs.Values.{Value as ModuleValue, trap_text, value_of};
ghost use Rattle.io_edges.specs.Streams.{WritesText};
ghost use Rattle.image_run.specs.Ends.{TellsCount};
ghost use Rattle.stream_compile.specs.Outputs.{view};
ghost use Rattle.wasi_host.specs.Hosted.{outcome_of};
ghost use Rattle.stream_compile.specs.Running.{line_of, lines_of, shown_after};
ghost use Rattle.stream_compile.specs.Texts.{drill_line, drilled, exited, fault_name, machine_fault, peeked, returned, returned_by, Told, trap_place, trapped};
ghost use Rattle.stream_compile.specs.Texts.{value_line};

use crate::output::Output;
use crate::shown::write_shown;
use command_words::Peek;
use image_run::Instance;
use io_edges::{Sink, write_all};
use itoa::Buffer;
use rv64im_machine::FaultKind;
use wasi_host::RunEnd;
use wasm_defs::{Place, TrapKind, Value};

/// The status where the sink failed.
pub const SINK_FAILED: u8 = 7;

/// Writes an answer, and gives its status.
pub fn write<O: Sink>(out: &mut O, output: &Output) -> u8
    requires count { O.faults out.old < 2 ^ 64 - 1 }
    requires open { O.is_open out.old ≡ true }
    ensures { Told result (view output.now) (nat_lt (O.faults out.old) (O.faults out.new)) (O.written out.old) (O.written out.new) }
{
    if write_all(out, output.text.as_bytes()) {
        output.status
    } else {
        SINK_FAILED
    }
}

/// Writes a text and another, and says whether the sink took them.
pub fn write_both<O: Sink>(out: &mut O, first: &[u8], second: &[u8]) -> bool
    requires { O.is_open out.old ≡ true }
    ensures text { WritesText result (first.now ++ second.now) (O.written out.old) (O.written out.new) (O.faults out.old) (O.faults out.new) }
    ensures open { result ≡ true → O.is_open out.new ≡ true }
{
    if write_all(out, first) {
        write_all(out, second)
    } else {
        false
    }
}

/// Writes a text, a number and a newline.
fn write_number<O: Sink>(out: &mut O, front: &[u8], number: &[u8]) -> bool
    requires { O.is_open out.old ≡ true }
    ensures text { WritesText result (front.now ++ (number.now ++ codes "\n")) (O.written out.old) (O.written out.new) (O.faults out.old) (O.faults out.new) }
    ensures open { result ≡ true → O.is_open out.new ≡ true }
{
    if write_all(out, front) {
        write_both(out, number, b"\n")
    } else {
        false
    }
}

/// Writes a value as a signed number.
fn write_value<O: Sink>(out: &mut O, value: Value) -> bool
    requires { O.is_open out.old ≡ true }
    ensures text { WritesText result (value_line (value_of value)) (O.written out.old) (O.written out.new) (O.faults out.old) (O.faults out.new) }
    ensures open { result ≡ true → O.is_open out.new ≡ true }
{
    let mut buffer = Buffer::new();
    match value {
        Value::I32(number) => write_number(out, b"i32 ", buffer.format(number).as_bytes()),
        Value::I64(number) => write_number(out, b"i64 ", buffer.format(number).as_bytes()),
    }
}

/// Writes each of so many values that a run returned, on a line of its own, in order.
fn write_values<O: Sink>(out: &mut O, instance: &Instance<'_>, count: u32) -> bool
    requires count { count ≡ length instance.now.results }
    requires open { O.is_open out.old ≡ true }
    ensures text { WritesText result (flat_map value_line instance.now.results) (O.written out.old) (O.written out.new) (O.faults out.old) (O.faults out.new) }
    ensures open { result ≡ true → O.is_open out.new ≡ true }
{
    for index in 0..count {
        if !write_value(out, instance.result(index)) {
            return false;
        }
    }
    true
}

/// Writes the values that a run returned, or that there is none.
fn write_returned<O: Sink>(out: &mut O, instance: &Instance<'_>, count: u32) -> bool
    requires count { count ≡ length instance.now.results }
    requires open { O.is_open out.old ≡ true }
    ensures text { WritesText result (returned instance.now.results).text (O.written out.old) (O.written out.new) (O.faults out.old) (O.faults out.new) }
    ensures open { result ≡ true → O.is_open out.new ≡ true }
{
    if count == 0 {
        write_all(out, b"ok\n")
    } else {
        write_values(out, instance, count)
    }
}

/// Writes the line of a drill with so many functions.
fn write_drill_line<O: Sink>(out: &mut O, functions: u64, value: i64) -> bool
    requires { O.is_open out.old ≡ true }
    ensures text { WritesText result (drill_line functions value).text (O.written out.old) (O.written out.new) (O.faults out.old) (O.faults out.new) }
    ensures open { result ≡ true → O.is_open out.new ≡ true }
{
    let mut count = Buffer::new();
    let mut number = Buffer::new();
    if write_both(out, b"functions ", count.format(functions).as_bytes()) {
        write_number(out, b" result ", number.format(value).as_bytes())
    } else {
        false
    }
}

/// Writes the line of a drill with so many functions, whose last returned a value.
fn write_drilled_value<O: Sink>(out: &mut O, functions: u64, value: Value) -> bool
    requires { O.is_open out.old ≡ true }
    ensures text { WritesText result (drilled functions (value_of value ∷ [])).text (O.written out.old) (O.written out.new) (O.faults out.old)
        (O.faults out.new) }
    ensures open { result ≡ true → O.is_open out.new ≡ true }
{
    match value {
        Value::I32(number) => write_drill_line(out, functions, i64::from(number)),
        Value::I64(number) => write_drill_line(out, functions, number),
    }
}

/// Writes what the last of so many functions returned first, as a signed number, or that it returned nothing.
fn write_drilled<O: Sink>(out: &mut O, functions: u64, instance: &Instance<'_>, count: u32) -> bool
    requires count { count ≡ length instance.now.results }
    requires open { O.is_open out.old ≡ true }
    ensures text { WritesText result (drilled functions instance.now.results).text (O.written out.old) (O.written out.new) (O.faults out.old)
        (O.faults out.new) }
    ensures open { result ≡ true → O.is_open out.new ≡ true }
{
    if count == 0 {
        write_all(out, b"ok\n")
    } else {
        write_drilled_value(out, functions, instance.result(0))
    }
}

/// Writes what was returned: by a drill with so many functions, or by another run.
fn write_returned_by<O: Sink>(
    out: &mut O,
    drill: Option<u64>,
    instance: &Instance<'_>,
    count: u32,
) -> bool
    requires count { count ≡ length instance.now.results }
    requires open { O.is_open out.old ≡ true }
    ensures text { WritesText result (returned_by drill instance.now.results).text (O.written out.old) (O.written out.new) (O.faults out.old)
        (O.faults out.new) }
    ensures open { result ≡ true → O.is_open out.new ≡ true }
{
    match drill {
        None => write_returned(out, instance, count),
        Some(functions) => write_drilled(out, functions, instance, count),
    }
}

fn fault_name(kind: FaultKind) -> &'static str
    ensures { result.now ≡ fault_name kind }
{
    match kind {
        FaultKind::Fetch => "fetch",
        FaultKind::Word => "word",
        FaultKind::Break => "break",
        FaultKind::Target => "target",
        FaultKind::Load => "load",
        FaultKind::Store => "store",
        FaultKind::Call => "call",
    }
}

/// Writes a name and an address.
fn write_place<O: Sink>(out: &mut O, name: &[u8], pc: u64) -> bool
    requires { O.is_open out.old ≡ true }
    ensures text { WritesText result (name.now ++ codes " at " ++ decimal pc ++ codes "\n") (O.written out.old) (O.written out.new) (O.faults out.old)
        (O.faults out.new) }
    ensures open { result ≡ true → O.is_open out.new ≡ true }
{
    let mut buffer = Buffer::new();
    if write_all(out, name) {
        write_number(out, b" at ", buffer.format(pc).as_bytes())
    } else {
        false
    }
}

/// Writes that the machine has no step at an address.
fn write_fault<O: Sink>(out: &mut O, kind: FaultKind, pc: u64) -> bool
    requires { O.is_open out.old ≡ true }
    ensures text { WritesText result (machine_fault kind pc).text (O.written out.old) (O.written out.new) (O.faults out.old) (O.faults out.new) }
    ensures open { result ≡ true → O.is_open out.new ≡ true }
{
    if write_all(out, b"machine fault ") {
        write_place(out, fault_name(kind).as_bytes(), pc)
    } else {
        false
    }
}

/// Writes in which function a run trapped, and at which offset of the module.
fn write_told<O: Sink>(out: &mut O, function: u32, offset: u64) -> bool
    requires { O.is_open out.old ≡ true }
    ensures text { WritesText result (codes " in function " ++ (decimal function ++ codes " at " ++ decimal offset ++ codes "\n")) (O.written out.old)
        (O.written out.new) (O.faults out.old) (O.faults out.new) }
    ensures open { result ≡ true → O.is_open out.new ≡ true }
{
    let mut number = Buffer::new();
    if write_all(out, b" in function ") {
        write_place(out, number.format(function).as_bytes(), offset)
    } else {
        false
    }
}

/// Writes where a run trapped, if it is known, and a newline.
fn write_trap_place<O: Sink>(out: &mut O, place: Option<Place>) -> bool
    requires { O.is_open out.old ≡ true }
    ensures text { WritesText result (trap_place place) (O.written out.old) (O.written out.new) (O.faults out.old) (O.faults out.new) }
    ensures open { result ≡ true → O.is_open out.new ≡ true }
{
    match place {
        None => write_all(out, b"\n"),
        Some(told) => write_told(out, told.function, told.offset),
    }
}

/// Writes why a run trapped, and where.
fn write_kind<O: Sink>(out: &mut O, kind: TrapKind, place: Option<Place>) -> bool
    requires { O.is_open out.old ≡ true }
    ensures text { WritesText result (trap_text kind ++ trap_place place) (O.written out.old) (O.written out.new) (O.faults out.old) (O.faults out.new) }
    ensures open { result ≡ true → O.is_open out.new ≡ true }
{
    if write_all(out, kind.text().as_bytes()) {
        write_trap_place(out, place)
    } else {
        false
    }
}

/// Writes that a run trapped.
fn write_trap<O: Sink>(out: &mut O, kind: TrapKind, place: Option<Place>) -> bool
    requires { O.is_open out.old ≡ true }
    ensures text { WritesText result (trapped kind place).text (O.written out.old) (O.written out.new) (O.faults out.old) (O.faults out.new) }
    ensures open { result ≡ true → O.is_open out.new ≡ true }
{
    if write_all(out, b"trap ") {
        write_kind(out, kind, place)
    } else {
        false
    }
}

/// Writes that `proc_exit` was called with an exit code.
fn write_exit<O: Sink>(out: &mut O, code: u32) -> bool
    requires { O.is_open out.old ≡ true }
    ensures text { WritesText result (exited code).text (O.written out.old) (O.written out.new) (O.faults out.old) (O.faults out.new) }
    ensures open { result ≡ true → O.is_open out.new ≡ true }
{
    let mut buffer = Buffer::new();
    write_number(out, b"exit ", buffer.format(code).as_bytes())
}

/// Writes how a run ended.
fn write_line<O: Sink>(
    out: &mut O,
    drill: Option<u64>,
    end: RunEnd,
    instance: &Instance<'_>,
) -> bool
    requires count { TellsCount (outcome_of end) instance.now.results }
    requires open { O.is_open out.old ≡ true }
    ensures text { WritesText result (line_of drill end instance.now.results).text (O.written out.old) (O.written out.new) (O.faults out.old)
        (O.faults out.new) }
    ensures open { result ≡ true → O.is_open out.new ≡ true }
{
    match end {
        RunEnd::Returned(count) => write_returned_by(out, drill, instance, count),
        RunEnd::Trapped(kind, place) => write_trap(out, kind, place),
        RunEnd::StepsSpent => write_all(out, b"steps spent\n"),
        RunEnd::Exited(code) => write_exit(out, code),
        RunEnd::Fault(kind, pc) => write_fault(out, kind, pc),
    }
}

/// Writes how a run ended, and after it the bytes that are to be shown.
fn write_line_and_bytes<O: Sink>(
    out: &mut O,
    drill: Option<u64>,
    end: RunEnd,
    shown: Peek,
    instance: &Instance<'_>,
) -> bool
    requires count { TellsCount (outcome_of end) instance.now.results }
    requires open { O.is_open out.old ≡ true }
    ensures { WritesText result ((line_of drill end instance.now.results).text ++ peeked shown instance.now.memory) (O.written out.old) (O.written out.new)
        (O.faults out.old) (O.faults out.new) }
{
    if write_line(out, drill, end, instance) {
        write_shown(out, shown, instance.memory())
    } else {
        false
    }
}

/// Which bytes are shown after an end: those that were asked for, where the run returned, trapped or exited.
fn shown_after(end: RunEnd, peek: Option<Peek>) -> Option<Peek>
    ensures { result ≡ shown_after end peek }
{
    match end {
        RunEnd::Returned(_) | RunEnd::Trapped(_, _) | RunEnd::Exited(_) => peek,
        RunEnd::StepsSpent | RunEnd::Fault(_, _) => None,
    }
}

/// Writes how a run ended, and the bytes that are shown after it.
fn write_lines<O: Sink>(
    out: &mut O,
    drill: Option<u64>,
    peek: Option<Peek>,
    end: RunEnd,
    instance: &Instance<'_>,
) -> bool
    requires count { TellsCount (outcome_of end) instance.now.results }
    requires open { O.is_open out.old ≡ true }
    ensures { WritesText result (lines_of drill peek end instance.now.memory instance.now.results).text (O.written out.old) (O.written out.new)
        (O.faults out.old) (O.faults out.new) }
{
    match shown_after(end, peek) {
        None => write_line(out, drill, end, instance),
        Some(shown) => write_line_and_bytes(out, drill, end, shown, instance),
    }
}

/// The status of an end.
#[tactic(auto, using(crate::proofs::ValueLines::returned_status))]
fn status_of(end: RunEnd) -> u8
    ensures { (drill : Option ℕ) (results : List ModuleValue) → result ≡ (line_of drill end results).status }
{
    match end {
        RunEnd::Returned(_) => 0,
        RunEnd::Trapped(_, _) => 4,
        RunEnd::StepsSpent => 5,
        RunEnd::Exited(0) => 0,
        RunEnd::Exited(_) => 11,
        RunEnd::Fault(_, _) => 9,
    }
}

/// Writes how a run ended and the bytes that are shown after it, and gives its status.
pub fn write_end<O: Sink>(
    out: &mut O,
    drill: Option<u64>,
    peek: Option<Peek>,
    end: RunEnd,
    instance: &Instance<'_>,
) -> u8
    requires results { TellsCount (outcome_of end) instance.now.results }
    requires count { O.faults out.old < 2 ^ 64 - 1 }
    requires open { O.is_open out.old ≡ true }
    ensures { Told result (lines_of drill peek end instance.now.memory instance.now.results) (nat_lt (O.faults out.old) (O.faults out.new)) (O.written out.old)
        (O.written out.new) }
{
    if write_lines(out, drill, peek, end, instance) {
        status_of(end)
    } else {
        SINK_FAILED
    }
}
