//! Random texts of templates, from random states: what `run` does at once is what `step` does one by one.
ghost use Rattle.std.specs.Prelude.{◌*◌, ◌^◌, ◌≤◌, length};

use crate::assembly::{A6, ADD, ADDI, ECALL, LD, LENGTH, LUI, S0, SD, T4, T5, Text, X0};
use crate::random::{below, next};
use crate::templates::random_text;
use rv64im_machine::{LinearMemory, Machine, Ran, Region, Regions, Stepped};
use std::alloc::{AllocError, Global};
use std::test::Fail;

const TEXT: u64 = 0x1000_0000;

const STACK: u64 = 0x2000_0000;

const STACK_SIZE: usize = 4200;

const MEMORY_SIZE: usize = 68;

/// Words from one word to the next one with the same set of entries in the machine's cache of decoded words.
const SETS: usize = 0x1_0000;

/// A machine of a text and regions of zeros.
fn machine_of(alloc: Global, text: &[u32]) -> Result<Machine, AllocError>
    requires { 4 * length text.now ≤ 2 ^ 28 }
{
    let mut stack = Vec::new(alloc);
    stack.resize(STACK_SIZE, 0)?;
    let mut globals = Vec::new(alloc);
    globals.resize(60, 0)?;
    let mut table = Vec::new(alloc);
    table.resize(64, 0)?;
    let mut memory = Vec::with_capacity(alloc, MEMORY_SIZE)?;
    memory.resize(MEMORY_SIZE, 0)?;
    let regions = Regions {
        stack,
        globals,
        table,
        memory: LinearMemory::reserved(memory, MEMORY_SIZE),
        passive: Vec::new(alloc),
    };
    Machine::new(alloc, Vec::from_slice(alloc, text)?, regions)
}

/// A doubleword: small, the address of a word, or any.
fn doubleword(seed: &mut u64) -> u64 {
    match below(seed, 8) {
        0 => next(seed),
        1 => next(seed) % 0x1_0000_0000,
        2 | 3 => TEXT + below(seed, 300) * 4,
        4 => below(seed, 2),
        _ => below(seed, 80),
    }
}

/// Writes doublewords.
fn fill(bytes: &mut [u8], seed: &mut u64) {
    let mut value = 0;
    for i in 0..bytes.len() {
        if i % 8 == 0 {
            value = doubleword(seed);
        }
        bytes[i] = (value % 0x100) as u8;
        value /= 0x100;
    }
}

/// An address of a frame: in the stack, mostly aligned, near its end, or any.
fn frame_address(seed: &mut u64) -> u64 {
    match below(seed, 8) {
        0 => doubleword(seed),
        1 => STACK + below(seed, 4300),
        2 | 3 => STACK + 4200 - below(seed, 80),
        _ => STACK + below(seed, 32) * 8,
    }
}

/// Gives a machine the state that the seed says.
fn prepare(machine: &mut Machine, seed: u64) {
    let mut seed = seed;
    for r in 1..32 {
        machine.set_register(r, doubleword(&mut seed));
    }
    // what the loop that clears slots counts with
    let from = STACK + below(&mut seed, 32) * 8;
    machine.set_register(5, from);
    machine.set_register(6, from + below(&mut seed, 40) * 8);
    machine.set_register(8, frame_address(&mut seed));
    machine.set_register(9, 0x5000_0000);
    machine.set_register(18, 68);
    machine.set_register(19, 0x3000_0000);
    machine.set_register(20, 0x4000_0000);
    machine.set_register(21, STACK + 4200);
    fill(machine.bytes_mut(Region::Stack), &mut seed);
    fill(machine.bytes_mut(Region::Globals), &mut seed);
    fill(machine.bytes_mut(Region::Table), &mut seed);
    fill(machine.bytes_mut(Region::Memory), &mut seed);
}

/// The same as `run`, by steps of one.
fn run_by_steps(machine: &mut Machine, steps: u64) -> Ran {
    for made in 0..steps {
        match machine.step() {
            Stepped::Next => {}
            Stepped::Call => return Ran::Call(made + 1),
            Stepped::Fault(kind) => return Ran::Fault(made, kind),
        }
    }
    Ran::Spent
}

/// Whether two machines are in the same state.
fn are_alike(one: &Machine, other: &Machine) -> bool {
    for r in 0..32 {
        if one.register(r) != other.register(r) {
            return false;
        }
    }
    one.pc() == other.pc()
        && one.bytes(Region::Stack) == other.bytes(Region::Stack)
        && one.bytes(Region::Globals) == other.bytes(Region::Globals)
        && one.bytes(Region::Table) == other.bytes(Region::Table)
        && one.bytes(Region::Memory) == other.bytes(Region::Memory)
}

/// Whether both machines, from one state and word, come to the same answer and state.
fn end_alike(fused: &mut Machine, single: &mut Machine, seed: u64, word: u64, steps: u64) -> bool {
    prepare(fused, seed);
    prepare(single, seed);
    fused.set_pc(TEXT.wrapping_add(word.wrapping_mul(4)));
    single.set_pc(TEXT.wrapping_add(word.wrapping_mul(4)));
    fused.run(steps) == run_by_steps(single, steps) && are_alike(fused, single)
}

#[test]
fn sequences_are_their_steps(rt: HostRuntime) -> Result<(), Fail> {
    let mut seed = 0x9E37_79B9_7F4A_7C15;
    for round in 0..240 {
        let text = random_text(&mut seed, round % 4);
        let mut fused = machine_of(rt.alloc(), &text.words)?;
        let mut single = machine_of(rt.alloc(), &text.words)?;
        for turn in 0..40 {
            // so that a sequence is cut after each of its steps: the last 128 steps are made one by one
            let steps = (round * 40 + turn) % 293;
            let alike = end_alike(
                &mut fused,
                &mut single,
                next(&mut seed),
                below(&mut seed, 256),
                steps,
            );
            assert!(rt; alike);
        }
    }
    Ok(())
}

#[test]
fn words_that_share_a_set_are_told_apart(rt: HostRuntime) -> Result<(), Fail> {
    let mut seed = 0x2545_F491_4F6C_DD1D;
    let mut words = Vec::new(rt.alloc());
    // more words with the same set than it has entries
    for page in 0..6 {
        words.resize(page * SETS, 0)?;
        words.extend_from_slice(&random_text(&mut seed, 1).words)?;
    }
    words.resize(6 * SETS, 0)?;
    let mut fused = machine_of(rt.alloc(), &words)?;
    let mut single = machine_of(rt.alloc(), &words)?;
    for _ in 0..800 {
        let word = below(&mut seed, 256) + below(&mut seed, 6) * 0x1_0000;
        let alike = end_alike(&mut fused, &mut single, next(&mut seed), word, 200);
        assert!(rt; alike);
    }
    Ok(())
}

/// Adds the numbers from 100 down to 1 in a slot, by words that no template has: other registers, and operands in the other order.
fn other_words() -> Text {
    let mut text = Text::new();
    text.imm(ADDI, A6, X0, 100);
    text.upper(LUI, T5, 8);
    text.reg(ADD, T5, S0, T5);
    text.imm(LD, T4, T5, 8);
    text.reg(ADD, T4, A6, T4);
    text.reg(ADD, T5, X0, T5);
    text.store(SD, T5, T4, 8);
    text.imm(ADDI, A6, A6, 0xFFF);
    // a branch by seven words back, unless a6 is zero
    text.push(0xFE08_12E3);
    text.push(ECALL);
    text
}

#[test]
fn words_of_no_template_run_right(rt: HostRuntime) -> Result<(), Fail> {
    let text = other_words();
    let mut machine = machine_of(rt.alloc(), &text.words)?;
    machine.set_register(8, STACK);
    // one step, eight for each number, and the call of the environment
    assert!(rt; machine.run(1_000) == Ran::Call(802));
    assert!(rt; machine.register(29) == 5_050);
    Ok(())
}
