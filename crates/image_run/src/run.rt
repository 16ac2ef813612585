//! Runs of functions.
ghost use Rattle.std.specs.Prelude.{◌≡◌, ◌*◌, ◌≤◌, true, length, map};
ghost use Rattle.rv_isa.specs.declared.stepping.Region.TheVariants.{Stack};
ghost use Rattle.rv64im_machine.specs.Contents.{state_of};
ghost use Rattle.rv64im_machine.specs.Lending.{with_bytes};
ghost use Rattle.rv64im_machine.specs.Outcomes.{IsRun};
ghost use Rattle.wasm_defs.specs.Values.{value_of, words_of};
ghost use Rattle.wasm_defs.specs.Memory.{page};
ghost use Rattle.image_format.specs.declared.limits.TheConstants.{PARAMS};
ghost use Rattle.image_format.specs.Environment.{entered, first_registers, with_words};
ghost use Rattle.image_run.specs.Answers.{Runs, Starts};
ghost use Rattle.image_run.specs.States.{IsLoaded, Keeps, RunsImage};

use crate::answer::Answer;
use crate::environment::answer;
use crate::host::Host;
use crate::layout::{
    GLOBALS, MEMORY, PAGE, RA, S0, S1, S2, S3, S4, S5, STACK, STACK_SIZE, TABLE, TEXT,
};
use crate::outcome::Outcome;
use crate::words::write_value;
use image_format::Image;
use rv64im_machine::{Machine, Ran};
use wasm_defs::Value;

/// Sets the registers for a call from outside.
fn set_registers(machine: &mut Machine, pages: u32)
    ensures code { machine.new.code ≡ machine.old.code }
    ensures backed { machine.new.backed ≡ machine.old.backed }
    ensures state { state_of machine.new ≡ record (state_of machine.old) { registers = first_registers pages } }
{
    machine.clear_registers();
    machine.set_register(RA, TEXT);
    machine.set_register(S0, STACK);
    machine.set_register(S1, MEMORY);
    machine.set_register(S2, PAGE * u64::from(pages));
    machine.set_register(S3, GLOBALS);
    machine.set_register(S4, TABLE);
    machine.set_register(S5, STACK + STACK_SIZE as u64);
}

/// Writes arguments to the stack's first slots.
fn write_arguments(machine: &mut Machine, arguments: &[Value])
    requires { 8 * length arguments.now ≤ length machine.old.bytes.stack }
    ensures kept { Keeps machine.old machine.new }
    ensures written { machine.new ≡ with_bytes machine.old Stack (with_words machine.old.bytes.stack 0 (words_of (map value_of arguments.now))) }
{
    for (i, value) in arguments.iter().enumerate() {
        write_value(machine, 8 * i, *value);
    }
}

/// Puts the machine at the function at an offset of the text, which is called from outside with these arguments.
pub(crate) fn enter(machine: &mut Machine, pages: u32, offset: u32, arguments: &[Value])
    requires { 8 * length arguments.now ≤ length machine.old.bytes.stack }
    ensures kept { Keeps machine.old machine.new }
    ensures state { state_of machine.new ≡ entered pages machine.old.bytes (record { offset = offset; arguments = map value_of arguments.now }) }
{
    write_arguments(machine, arguments);
    set_registers(machine, pages);
    machine.set_pc(TEXT + u64::from(offset));
}

/// Makes at most so many steps. Afterwards the pages of the memory are stored: a run of the machine says nothing of how much of it is.
fn run_machine(machine: &mut Machine, pages: u32, steps: u64) -> Ran
    requires { page * pages ≤ length machine.old.bytes.memory }
    ensures code { machine.new.code ≡ machine.old.code }
    ensures rows { IsRun machine.old.code steps result (state_of machine.old) (state_of machine.new) }
    ensures backed { page * pages ≤ machine.new.backed }
{
    let ran = machine.run(steps);
    machine.back(PAGE as usize * pages as usize);
    ran
}

/// Runs the function at which the machine of an image is, for at most so many steps. Where it ends, `left` is how many steps are
/// left; else the result is how the run ends.
pub(crate) fn run_function<H: Host>(
    machine: &mut Machine,
    pages: &mut u32,
    room: &mut [Value],
    image: &Image,
    host: &mut H,
    left: &mut u64,
) -> Option<Outcome>
    requires machine { RunsImage image.now machine.old pages.old }
    requires room { PARAMS ≤ length room.old }
    requires host { H.is_ready host.old ≡ true }
    ensures machine { RunsImage image.now machine.new pages.new }
    ensures host { H.is_ready host.new ≡ true }
    ensures runs { Runs H.answers image.now host.old host.new (state_of machine.old) (state_of machine.new) pages.old pages.new left.old left.new result }
{
    'calls: loop {
        match run_machine(machine, *pages, *left) {
            Ran::Spent => return Some(Outcome::StepsSpent),
            Ran::Fault(_, kind) => return Some(Outcome::Fault(kind, machine.pc())),
            Ran::Call(done) => {
                *left -= done;
                match answer(machine, pages, room, image, host) {
                    Answer::GoesOn => {}
                    Answer::Ended => return None,
                    Answer::Over(outcome) => return Some(outcome),
                }
            }
        }
    }
}

/// Runs the start function of an image that is loaded, if it has one. Where it ends, `left` is how many steps are left; else the
/// result is how the run ends.
pub(crate) fn run_start<H: Host>(
    machine: &mut Machine,
    pages: &mut u32,
    room: &mut [Value],
    image: &Image,
    host: &mut H,
    left: &mut u64,
) -> Option<Outcome>
    requires machine { RunsImage image.now machine.old pages.old }
    requires room { PARAMS ≤ length room.old }
    requires host { H.is_ready host.old ≡ true }
    requires bytes { IsLoaded image.now machine.old.bytes }
    requires pages { pages.old ≡ image.now.pages }
    ensures machine { RunsImage image.now machine.new pages.new }
    ensures host { H.is_ready host.new ≡ true }
    ensures starts { Starts H.answers image.now host.old host.new (state_of machine.new) pages.new left.old left.new result }
{
    if image.start == 0 {
        return None;
    }
    enter(machine, *pages, image.start, &[]);
    run_function(machine, pages, room, image, host, left)
}
