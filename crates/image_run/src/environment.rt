//! The environment of an image: what an ECALL does, by the number in a7.
ghost use Rattle.std.specs.Prelude.{◌≡◌, ◌+◌, ◌*◌, ◌^◌, ◌<◌, ◌≤◌, true, length};
ghost use Rattle.rv64im_machine.specs.Contents.{state_of};
ghost use Rattle.wasm_defs.specs.Memory.{page};
ghost use Rattle.image_format.specs.declared.limits.TheConstants.{PARAMS};
ghost use Rattle.image_run.specs.Answers.{Answered, Grows};
ghost use Rattle.image_run.specs.States.{RunsImage};

use crate::answer::Answer;
use crate::host::Host;
use crate::imports::call_import;
use crate::layout::{A0, A7, PAGE, S2, TEXT};
use crate::outcome::Outcome;
use image_format::Image;
use rv64im_machine::{FaultKind, Machine};
use wasm_defs::{TrapKind, Value};

/// Adds pages to the memory if its cap allows, and says in a0 how many there were, or -1. Their zeros are stored: room for them was taken
/// when the image was loaded.
fn grow(machine: &mut Machine, pages: &mut u32, cap: u32, more: u64)
    requires few { more < 2 ^ 32 }
    requires fits { page * cap ≤ length machine.old.bytes.memory }
    requires backed { page * pages.old ≤ machine.old.backed }
    ensures code { machine.new.code ≡ machine.old.code }
    ensures bytes { machine.new.bytes ≡ machine.old.bytes }
    ensures pages { pages.old ≤ cap → pages.new ≤ cap }
    ensures backed { page * pages.new ≤ machine.new.backed }
    ensures grown { Grows cap more (state_of machine.old) (state_of machine.new) pages.old pages.new }
{
    let wanted = u64::from(*pages) + more;
    if wanted <= u64::from(cap) {
        machine.set_register(A0, u64::from(*pages));
        machine.set_register(S2, PAGE * wanted);
        machine.back((PAGE * wanted) as usize);
        *pages = wanted as u32;
    } else {
        machine.set_register(A0, u64::MAX);
    }
}

/// Does the call of the environment after whose ECALL the machine is.
pub(crate) fn answer<H: Host>(
    machine: &mut Machine,
    pages: &mut u32,
    room: &mut [Value],
    image: &Image,
    host: &mut H,
) -> Answer
    requires machine { RunsImage image.now machine.old pages.old }
    requires place { 4 ≤ machine.old.pc }
    requires room { PARAMS ≤ length room.old }
    requires host { H.is_ready host.old ≡ true }
    ensures machine { RunsImage image.now machine.new pages.new }
    ensures host { H.is_ready host.new ≡ true }
    ensures answer { Answered H.answers image.now host.old host.new (state_of machine.old) (state_of machine.new) pages.old pages.new result }
{
    let place = machine.pc() - 4;
    let unknown = Answer::Over(Outcome::Fault(FaultKind::Call, place));
    let a0 = machine.register(A0);
    match machine.register(A7) {
        0 => Answer::Ended,
        1 => match TrapKind::of_number(a0) {
            Some(kind) => {
                let told = image.place_told(place.saturating_sub(TEXT));
                Answer::Over(Outcome::Trapped(kind, told))
            }
            None => unknown,
        },
        2 => {
            grow(machine, pages, image.cap, a0 % 0x1_0000_0000);
            Answer::GoesOn
        }
        3 => call_import(machine, *pages, room, image, host),
        _ => unknown,
    }
}
