//! Pseudo-random loads and stores at the edges of pages, of what is stored, and of the memory.
use crate::random::next;
use rv64im_machine::{LinearMemory, Machine, Region, Regions, Stepped};
use std::alloc::{AllocError, Global};
use std::test::Fail;

/// Words of GNU binutils: loads from 0(t1) to t0 (lb, lh, lw, ld, lbu, lhu, lwu), and stores of t2 to 0(t1) (sb, sh, sw, sd).
const WORDS: [u32; 11] = [
    0x0003_0283,
    0x0003_1283,
    0x0003_2283,
    0x0003_3283,
    0x0003_4283,
    0x0003_5283,
    0x0003_6283,
    0x0073_0023,
    0x0073_1023,
    0x0073_2023,
    0x0073_3023,
];

const PAGE: u64 = 0x1_0000;

/// Bytes of the memory: five pages.
const SIZE: usize = 0x5_0000;

/// A machine of these words, of whose memory so many bytes are stored.
fn machine_of(alloc: Global, stored: usize) -> Result<Machine, AllocError> {
    let mut bytes = Vec::with_capacity(alloc, SIZE)?;
    bytes.resize(stored.min(SIZE), 0)?;
    let regions = Regions {
        stack: Vec::new(alloc),
        globals: Vec::new(alloc),
        table: Vec::new(alloc),
        memory: LinearMemory::reserved(bytes, SIZE),
        passive: Vec::new(alloc),
    };
    Machine::new(alloc, Vec::from_slice(alloc, &WORDS)?, regions)
}

/// An address in the memory or less than eight bytes outside: mostly near the edge of a page.
fn address_of(number: u64) -> u64 {
    let page = number % 7;
    let near = number / 7 % 17;
    let inside = if number / 119 % 4 == 0 {
        number / 476 % PAGE
    } else {
        near
    };
    0x4FFF_FFF8 + page * PAGE + inside
}

/// Makes a step of a word, with an address in t1 and a value in t2: how it ends, and what is in t0.
fn step(machine: &mut Machine, word: u64, address: u64, value: u64) -> (Stepped, u64) {
    machine.set_register(5, 0);
    machine.set_register(6, address);
    machine.set_register(7, value);
    machine.set_pc(0x1000_0000 + 4 * (word % 11));
    let stepped = machine.step();
    (stepped, machine.register(5))
}

/// Whether so many steps end alike on both machines.
fn step_alike(few: &mut Machine, whole: &mut Machine, seed: u64) -> bool {
    let mut seed = seed;
    for _ in 0..2_000 {
        let word = next(&mut seed);
        let address = address_of(next(&mut seed));
        let value = next(&mut seed);
        let (one, got) = step(few, word, address, value);
        let (other, wanted) = step(whole, word, address, value);
        if one != other || got != wanted {
            return false;
        }
    }
    true
}

/// Whether the stored bytes are the first of the whole memory, and zeros follow there.
fn are_alike(few: &Machine, whole: &Machine) -> bool {
    let stored = few.bytes(Region::Memory);
    let all = whole.bytes(Region::Memory);
    match all.split_at_checked(stored.len()) {
        Some((front, rest)) => front == stored && rest.iter().all(|byte| *byte == 0),
        None => false,
    }
}

#[test]
fn loads_and_stores_are_those_of_a_whole_memory(rt: HostRuntime) -> Result<(), Fail> {
    for stored in [0, 1, 65_535, 65_536, 200_000, SIZE] {
        let mut few = machine_of(rt.alloc(), stored)?;
        let mut whole = machine_of(rt.alloc(), SIZE)?;
        let alike = step_alike(&mut few, &mut whole, 0x9E37_79B9_7F4A_7C15 ^ stored as u64);
        assert!(rt; alike);
        let same = are_alike(&few, &whole);
        assert!(rt; same);
    }
    Ok(())
}
