//! Calls of imported functions.
ghost use Rattle.std.specs.Prelude.{◌≡◌, ◌+◌, ◌*◌, ◌^◌, ◌<◌, ◌≤◌, ◌&&◌, true, IfSome, length, map, max, nat_le, option_map, slice_get, take};
ghost use Rattle.std.specs.Option.{option_copied};
ghost use Rattle.rv_isa.specs.Steps.{reg};
ghost use Rattle.rv_isa.specs.declared.stepping.Region.TheVariants.{Stack};
ghost use Rattle.rv64im_machine.specs.Contents.{state_of};
ghost use Rattle.rv64im_machine.specs.Lending.{with_bytes};
ghost use Rattle.wasm_defs.specs.Host.{are_of, most_patched, patched, taken};
ghost use Rattle.wasm_defs.specs.Values.{value_of};
ghost use Rattle.image_format.specs.declared.limits.TheConstants.{PARAMS};
ghost use Rattle.image_format.specs.Bounds.{IsImport};
ghost use Rattle.image_format.specs.ImageRun.{slots_at, values_at, with_results};
ghost use Rattle.image_run.specs.Hosts.{patch_of, reply_of, values_of};
ghost use Rattle.image_run.specs.Answers.{Answered, Patches, Replies, Takes};
ghost use Rattle.image_run.specs.States.{Keeps, RunsImage};

use crate::answer::Answer;
use crate::host::{Host, Patch, Reply};
use crate::layout::{A0, PAGE, S0, STACK, STACK_SIZE};
use crate::outcome::Outcome;
use crate::words::{value_in, write_memory, write_value};
use image_format::{Image, Import};
use linear_memory::read_8;
use rv64im_machine::{FaultKind, Machine, Region};
use wasm_defs::{FuncType, ValType, Value};

/// The most bytes of a patch.
const MOST_PATCHED: u8 = 8;

/// The first of the slots from an address on, by its index in the stack: none where they aren't all in it. There is one for each
/// parameter, and one for the result.
fn slots_at(address: u64, params: usize) -> Option<usize>
    requires { params ≤ PARAMS }
    ensures { result ≡ slots_at address (max 1 params) }
{
    let size = 8 * params.max(1) as u64;
    if STACK <= address && address - STACK + size <= STACK_SIZE as u64 {
        Some((address - STACK) as usize)
    } else {
        None
    }
}

/// Reads the values of these types that are in the slots from an index of the stack on.
fn read_arguments(stack: &[u8], at: usize, types: &[ValType], room: &mut [Value])
    requires stack { at + 8 * length types.now ≤ length stack.now }
    requires room { length types.now ≤ length room.old }
    ensures { map value_of (take (length types.now) room.new) ≡ values_at stack.now at types.now }
{
    for (i, ty) in types.iter().enumerate() {
        room[i] = value_in(*ty, read_8(stack, at + 8 * i));
    }
}

/// Whether a value, or none, is what a function with these results returns.
fn is_of(value: Option<Value>, results: &[ValType]) -> bool
    requires { length results.now ≤ 1 }
    ensures { result ≡ are_of results.now (values_of value) }
{
    match (value, results.first()) {
        (Some(value), Some(ty)) => value.ty() == *ty,
        (None, None) => true,
        _ => false,
    }
}

/// Whether a patch has few enough bytes, which are in a memory of that size.
fn fits(patch: &Patch, size: usize) -> bool
    ensures { result ≡ (nat_le patch.now.len most_patched && nat_le (patch.now.place + patch.now.len) size) }
{
    patch.len <= MOST_PATCHED && patch.place as usize + usize::from(patch.len) <= size
}

/// Writes a patch, if there is one, to the memory of that size, and says whether it fits there.
fn write_patch(machine: &mut Machine, size: usize, patch: Option<Patch>) -> bool
    requires memory { size ≤ length machine.old.bytes.memory }
    requires backed { size ≤ machine.old.backed }
    ensures kept { Keeps machine.old machine.new }
    ensures written { Patches result (patched (take size machine.old.bytes.memory) (option_map patch_of patch)) machine.old machine.new }
{
    let Some(patch) = patch else {
        return true;
    };
    if !fits(&patch, size) {
        return false;
    }
    let count = usize::from(patch.len);
    write_memory(machine, patch.place as usize, &patch.bytes[..count]);
    true
}

/// Writes a result, if there is one, to the slot at an index of the stack.
fn write_result(machine: &mut Machine, at: usize, value: Option<Value>)
    requires { at + 8 ≤ length machine.old.bytes.stack }
    ensures kept { Keeps machine.old machine.new }
    ensures written { machine.new ≡ with_bytes machine.old Stack (with_results machine.old.bytes.stack at (values_of value)) }
{
    if let Some(value) = value {
        write_value(machine, at, value);
    }
}

/// Writes what a reply says to the memory of that size and to the slot at an index of the stack, unless it is taken as a stop. Says
/// whether it is not.
fn take_reply(
    machine: &mut Machine,
    size: usize,
    at: usize,
    results: &[ValType],
    reply: Reply,
) -> bool
    requires memory { size ≤ length machine.old.bytes.memory }
    requires backed { size ≤ machine.old.backed }
    requires stack { at + 8 ≤ length machine.old.bytes.stack }
    requires results { length results.now ≤ 1 }
    ensures kept { Keeps machine.old machine.new }
    ensures taken { Takes result (taken results.now (take size machine.old.bytes.memory) (reply_of reply)) at machine.old machine.new }
{
    let Reply::Value(value, patch) = reply else {
        return false;
    };
    if !is_of(value, results) {
        return false;
    }
    if !write_patch(machine, size, patch) {
        return false;
    }
    write_result(machine, at, value);
    true
}

/// Calls the host for the import of that number and type, whose arguments are from an index of the stack on, and takes its reply.
/// Says whether the run goes on.
fn call_host<H: Host>(
    machine: &mut Machine,
    size: usize,
    room: &mut [Value],
    number: u32,
    signature: &FuncType,
    at: usize,
    host: &mut H,
) -> bool
    requires memory { size ≤ length machine.old.bytes.memory }
    requires backed { size ≤ machine.old.backed }
    requires result { at + 8 ≤ length machine.old.bytes.stack }
    requires arguments { at + 8 * length signature.now.params ≤ length machine.old.bytes.stack }
    requires room { length signature.now.params ≤ length room.old }
    requires results { length signature.now.results ≤ 1 }
    requires host { H.is_ready host.old ≡ true }
    ensures kept { Keeps machine.old machine.new }
    ensures host { H.is_ready host.new ≡ true }
    ensures replied { Replies H.answers host.old host.new
        (record { number = number; arguments = values_at machine.old.bytes.stack at signature.now.params; memory = take size machine.old.bytes.memory })
        signature.now.results result at machine.old machine.new }
{
    let params = signature.params.as_slice();
    let count = params.len();
    read_arguments(machine.bytes(Region::Stack), at, params, room);
    let reply = host.call(
        number,
        &room[..count],
        &machine.bytes(Region::Memory)[..size],
    );
    take_reply(machine, size, at, signature.results.as_slice(), reply)
}

/// The import of a number, if there is one.
fn import_at(image: &Image, number: u64) -> Option<&Import>
    ensures import { option_copied result ≡ slice_get image.now.imports number }
    ensures bounds { IfSome result (λ i. IsImport i.now) }
    ensures number { IfSome result (λ _. number < 2 ^ 32) }
{
    image.imports.as_slice().get(number as usize)
}

/// Does the call of an import that the machine asks for. It is after the ECALL.
pub(crate) fn call_import<H: Host>(
    machine: &mut Machine,
    pages: u32,
    room: &mut [Value],
    image: &Image,
    host: &mut H,
) -> Answer
    requires machine { RunsImage image.now machine.old pages }
    requires place { 4 ≤ machine.old.pc }
    requires room { PARAMS ≤ length room.old }
    requires call { reg (state_of machine.old).registers 17 ≡ 3 }
    requires host { H.is_ready host.old ≡ true }
    ensures machine { RunsImage image.now machine.new pages }
    ensures host { H.is_ready host.new ≡ true }
    ensures answer { Answered H.answers image.now host.old host.new (state_of machine.old) (state_of machine.new) pages pages result }
{
    let unknown = Answer::Over(Outcome::Fault(FaultKind::Call, machine.pc() - 4));
    let number = machine.register(A0);
    let Some(import) = import_at(image, number) else {
        return unknown;
    };
    let signature: &FuncType = &import.signature;
    let Some(at) = slots_at(machine.register(S0), signature.params.as_slice().len()) else {
        return unknown;
    };
    let size = PAGE as usize * pages as usize;
    if call_host(machine, size, room, number as u32, signature, at, host) {
        Answer::GoesOn
    } else {
        Answer::Over(Outcome::HostStopped)
    }
}
