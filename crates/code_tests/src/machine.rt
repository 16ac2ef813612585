//! Steps against outside values: words of the GNU assembler (binutils 2.40), and results that `qemu-riscv64` gives too.
ghost use Rattle.std.specs.Prelude.{◌*◌, ◌≤◌, ◌^◌, length};

use crate::rows::{narrow, numbers_of, parts_of, words_of};
use rv64im_machine::{FaultKind, LinearMemory, Machine, Region, Regions, Stepped};
use std::alloc::{AllocError, Global};
use std::test::Fail;

/// One step: the operation, its word, what t1, t2 and s0 hold, and how the step ends with what in t0. The loads are of the byte after
/// s0, at the bytes 80 91 A2 B3 C4 D5 E6 F7 of the memory and of the passive region.
const STEPS: &str = "\
div 027342B3 8000000000000000 FFFFFFFFFFFFFFFF 0 = Next 8000000000000000
div 027342B3 7 0 0 = Next FFFFFFFFFFFFFFFF
div 027342B3 FFFFFFFFFFFFFFF9 2 0 = Next FFFFFFFFFFFFFFFD
div 027342B3 7 FFFFFFFFFFFFFFFE 0 = Next FFFFFFFFFFFFFFFD
div 027342B3 FFFFFFFFFFFFFFF9 FFFFFFFFFFFFFFFE 0 = Next 3
div 027342B3 8000000000000000 1 0 = Next 8000000000000000
rem 027362B3 8000000000000000 FFFFFFFFFFFFFFFF 0 = Next 0
rem 027362B3 7 0 0 = Next 7
rem 027362B3 FFFFFFFFFFFFFFF9 2 0 = Next FFFFFFFFFFFFFFFF
rem 027362B3 7 FFFFFFFFFFFFFFFE 0 = Next 1
rem 027362B3 FFFFFFFFFFFFFFF9 FFFFFFFFFFFFFFFE 0 = Next FFFFFFFFFFFFFFFF
rem 027362B3 8000000000000000 1 0 = Next 0
divu 027352B3 8000000000000000 FFFFFFFFFFFFFFFF 0 = Next 0
divu 027352B3 7 0 0 = Next FFFFFFFFFFFFFFFF
divu 027352B3 FFFFFFFFFFFFFFFF 2 0 = Next 7FFFFFFFFFFFFFFF
remu 027372B3 8000000000000000 FFFFFFFFFFFFFFFF 0 = Next 8000000000000000
remu 027372B3 7 0 0 = Next 7
remu 027372B3 FFFFFFFFFFFFFFFF 2 0 = Next 1
divw 027342BB 80000000 FFFFFFFFFFFFFFFF 0 = Next FFFFFFFF80000000
divw 027342BB 180000000 FFFFFFFF 0 = Next FFFFFFFF80000000
divw 027342BB F80000000 100000000 0 = Next FFFFFFFFFFFFFFFF
divw 027342BB FFFFFFFFFFFFFFF9 2 0 = Next FFFFFFFFFFFFFFFD
divw 027342BB 7 FFFFFFFFFFFFFFFE 0 = Next FFFFFFFFFFFFFFFD
remw 027362BB 80000000 FFFFFFFFFFFFFFFF 0 = Next 0
remw 027362BB 180000000 FFFFFFFF 0 = Next 0
remw 027362BB F80000000 100000000 0 = Next FFFFFFFF80000000
remw 027362BB FFFFFFFFFFFFFFF9 2 0 = Next FFFFFFFFFFFFFFFF
remw 027362BB 7 FFFFFFFFFFFFFFFE 0 = Next 1
divuw 027352BB 80000000 1 0 = Next FFFFFFFF80000000
divuw 027352BB F80000000 100000000 0 = Next FFFFFFFFFFFFFFFF
divuw 027352BB FFFFFFFFFFFFFFFF 2 0 = Next 7FFFFFFF
divuw 027352BB FFFFFFFF 80000000 0 = Next 1
remuw 027372BB 80000000 1 0 = Next 0
remuw 027372BB F80000000 100000000 0 = Next FFFFFFFF80000000
remuw 027372BB FFFFFFFFFFFFFFFF 2 0 = Next 1
remuw 027372BB FFFFFFFF 80000000 0 = Next 7FFFFFFF
sll 007312B3 8000000000000001 0 0 = Next 8000000000000001
sll 007312B3 8000000000000001 3F 0 = Next 8000000000000000
sll 007312B3 8000000000000001 40 0 = Next 8000000000000001
sll 007312B3 8000000000000001 FFFFFFFFFFFFFFE1 0 = Next 200000000
srl 007352B3 8000000000000001 0 0 = Next 8000000000000001
srl 007352B3 8000000000000001 3F 0 = Next 1
srl 007352B3 8000000000000001 40 0 = Next 8000000000000001
srl 007352B3 8000000000000001 FFFFFFFFFFFFFFE1 0 = Next 40000000
sra 407352B3 8000000000000001 0 0 = Next 8000000000000001
sra 407352B3 8000000000000001 3F 0 = Next FFFFFFFFFFFFFFFF
sra 407352B3 8000000000000001 40 0 = Next 8000000000000001
sra 407352B3 8000000000000001 FFFFFFFFFFFFFFE1 0 = Next FFFFFFFFC0000000
sllw 007312BB FF80000001 0 0 = Next FFFFFFFF80000001
sllw 007312BB FF80000001 1F 0 = Next FFFFFFFF80000000
sllw 007312BB FF80000001 20 0 = Next FFFFFFFF80000001
sllw 007312BB 7FFFFFFF 1 0 = Next FFFFFFFFFFFFFFFE
srlw 007352BB FF80000001 0 0 = Next FFFFFFFF80000001
srlw 007352BB FF80000001 1F 0 = Next 1
srlw 007352BB FF80000001 20 0 = Next FFFFFFFF80000001
srlw 007352BB 7FFFFFFF 1 0 = Next 3FFFFFFF
sraw 407352BB FF80000001 0 0 = Next FFFFFFFF80000001
sraw 407352BB FF80000001 1F 0 = Next FFFFFFFFFFFFFFFF
sraw 407352BB FF80000001 20 0 = Next FFFFFFFF80000001
sraw 407352BB 7FFFFFFF 1 0 = Next 3FFFFFFF
addw 007302BB 7FFFFFFF 1 0 = Next FFFFFFFF80000000
addw 007302BB 80000000 1 0 = Next FFFFFFFF80000001
addw 007302BB 100000000 0 0 = Next 0
subw 407302BB 7FFFFFFF 1 0 = Next 7FFFFFFE
subw 407302BB 80000000 1 0 = Next 7FFFFFFF
subw 407302BB 100000000 0 0 = Next 0
mulw 027302BB 80000000 FFFFFFFFFFFFFFFF 0 = Next FFFFFFFF80000000
mulw 027302BB 10000 8000 0 = Next FFFFFFFF80000000
mul 027302B3 FFFFFFFFFFFFFFFF FFFFFFFFFFFFFFFF 0 = Next 1
mulh 027312B3 8000000000000000 8000000000000000 0 = Next 4000000000000000
mulh 027312B3 FFFFFFFFFFFFFFFF 1 0 = Next FFFFFFFFFFFFFFFF
mulhsu 027322B3 FFFFFFFFFFFFFFFF FFFFFFFFFFFFFFFF 0 = Next FFFFFFFFFFFFFFFF
mulhsu 027322B3 8000000000000000 FFFFFFFFFFFFFFFF 0 = Next 8000000000000000
mulhu 027332B3 FFFFFFFFFFFFFFFF FFFFFFFFFFFFFFFF 0 = Next FFFFFFFFFFFFFFFE
slt 007322B3 FFFFFFFFFFFFFFFF 0 0 = Next 1
sltu 007332B3 FFFFFFFFFFFFFFFF 0 0 = Next 0
add 007302B3 FFFFFFFFFFFFFFFF 1 0 = Next 0
sub 407302B3 0 1 0 = Next FFFFFFFFFFFFFFFF
addi 80030293 0 0 0 = Next FFFFFFFFFFFFF800
addi 7FF30293 FFFFFFFFFFFFFFFF 0 0 = Next 7FE
addi FFF30293 0 0 0 = Next FFFFFFFFFFFFFFFF
slti FFF32293 FFFFFFFFFFFFFFFF 0 0 = Next 0
slti 00032293 FFFFFFFFFFFFFFFF 0 0 = Next 1
sltiu FFF33293 FFFFFFFFFFFFFFFF 0 0 = Next 0
sltiu FFF33293 5 0 0 = Next 1
xori FFF34293 F0 0 0 = Next FFFFFFFFFFFFFF0F
ori 80036293 1 0 0 = Next FFFFFFFFFFFFF801
andi 80037293 FFFFFFFFFFFFFFFF 0 0 = Next FFFFFFFFFFFFF800
andi 7FF37293 FFFFFFFFFFFFFFFF 0 0 = Next 7FF
slli 03F31293 1 0 0 = Next 8000000000000000
slli 02031293 3 0 0 = Next 300000000
srli 03F35293 FFFFFFFFFFFFFFFF 0 0 = Next 1
srli 02035293 FFFFFFFFFFFFFFFF 0 0 = Next FFFFFFFF
srai 43F35293 8000000000000000 0 0 = Next FFFFFFFFFFFFFFFF
srai 42035293 8000000000000000 0 0 = Next FFFFFFFF80000000
addiw FFF3029B 0 0 0 = Next FFFFFFFFFFFFFFFF
addiw 0013029B 7FFFFFFF 0 0 = Next FFFFFFFF80000000
addiw 0003029B 180000000 0 0 = Next FFFFFFFF80000000
slliw 01F3129B 1 0 0 = Next FFFFFFFF80000000
srliw 0013529B FF80000000 0 0 = Next 40000000
srliw 0003529B 80000000 0 0 = Next FFFFFFFF80000000
sraiw 41F3529B 80000000 0 0 = Next FFFFFFFFFFFFFFFF
sraiw 4013529B 17FFFFFFF 0 0 = Next 3FFFFFFF
lui 000002B7 0 0 0 = Next 0
lui 000012B7 0 0 0 = Next 1000
lui 7FFFF2B7 0 0 0 = Next 7FFFF000
lui 800002B7 0 0 0 = Next FFFFFFFF80000000
lui FFFFF2B7 0 0 0 = Next FFFFFFFFFFFFF000
lb 00140283 0 0 50000000 = Next FFFFFFFFFFFFFF80
lh 00141283 0 0 50000000 = Next FFFFFFFFFFFF9180
lw 00142283 0 0 50000000 = Next FFFFFFFFB3A29180
ld 00143283 0 0 50000000 = Next F7E6D5C4B3A29180
lbu 00144283 0 0 50000000 = Next 80
lhu 00145283 0 0 50000000 = Next 9180
lwu 00146283 0 0 50000000 = Next B3A29180
ld 00143283 0 0 70000000 = Next F7E6D5C4B3A29180
lbu 00844283 0 0 70000000 = Next F7
lbu 00944283 0 0 70000000 = Fault(Load) 0";

/// Runs: the words, what t1 and s0 hold, and how many steps at most; how the run ends, where, and the registers that are not 0.
const RUNS: &str = "\
upper, fence, link; FFFFF297 0FF0000F 008000EF 00000000 00001163 00500013 FE000EE3; 0 0 3 = Spent 10000010 x1=1000000C x5=FFFF000
branches that are taken and that are not, zero; FFFFF297 0FF0000F 008000EF 00000000 00001163 00500013 FE000EE3; 0 0 6 = Spent 10000014 x1=1000000C x5=FFFF000
a jump to a register; FFC300E7; 10000005 0 1 = Spent 10000000 x1=10000004 x6=10000005
the sum of 10 to 1, stored and loaded; 00A00293 00530333 FFF28293 FE029CE3 00643023 00043383 00000073 00100073; 0 20000000 0 = Spent 10000000 x8=20000000
its first steps; 00A00293 00530333 FFF28293 FE029CE3 00643023 00043383 00000073 00100073; 0 20000000 14 = Spent 10000008 x5=4 x6=31 x8=20000000
all of it; 00A00293 00530333 FFF28293 FE029CE3 00643023 00043383 00000073 00100073; 0 20000000 28 = Call(34) 1000001C x6=37 x7=37 x8=20000000
zeros; 0FF0000F 00000000; 10000000 40000010 3 = Fault(1, Word) 10000004 x6=10000000 x8=40000010
fence.i; 0FF0000F 0000100F; 10000000 40000010 3 = Fault(1, Word) 10000004 x6=10000000 x8=40000010
ebreak; 0FF0000F 00100073; 10000000 40000010 3 = Fault(1, Break) 10000004 x6=10000000 x8=40000010
a jump by 2; 0FF0000F 0020006F; 10000000 40000010 3 = Fault(1, Target) 10000004 x6=10000000 x8=40000010
a taken branch by 2; 0FF0000F 00000163; 10000000 40000010 3 = Fault(1, Target) 10000004 x6=10000000 x8=40000010
a jump to a register by 2; 0FF0000F 00230067; 10000000 40000010 3 = Fault(1, Target) 10000004 x6=10000000 x8=40000010
a load at 0; 0FF0000F 00003283; 10000000 40000010 3 = Fault(1, Load) 10000004 x6=10000000 x8=40000010
a load over the end of the table; 0FF0000F FF943283; 10000000 40000010 3 = Fault(1, Load) 10000004 x6=10000000 x8=40000010
a store to the table; 0FF0000F 00543023; 10000000 40000010 3 = Fault(1, Store) 10000004 x6=10000000 x8=40000010
a store to passive bytes; 0FF0000F 00540023; 10000000 70000000 3 = Fault(1, Store) 10000004 x6=10000000 x8=70000000";

/// Stores of t1, 1122334455667788, three bytes before s0: the word, and the bytes of the stack that are not 0 then.
const STORES: &str = "\
sb FE640EA3 = 5:88
sh FE641EA3 = 5:88 6:77
sw FE642EA3 = 5:88 6:77 7:66 8:55
sd FE643EA3 = 5:88 6:77 7:66 8:55 9:44 10:33 11:22 12:11";

/// A machine with a stack of 64 bytes, a table of 16, a memory of nine, and the same nine as passive bytes.
fn machine(alloc: Global, text: &[u32]) -> Result<Machine, AllocError>
    requires { 4 * length text.now ≤ 2 ^ 28 }
{
    let nine = [0x00, 0x80, 0x91, 0xA2, 0xB3, 0xC4, 0xD5, 0xE6, 0xF7];
    let (Ok(stack), Ok(table), Ok(memory), Ok(passive)) = (
        Vec::from_slice(alloc, &[0; 64]),
        Vec::from_slice(alloc, &[1; 16]),
        Vec::from_slice(alloc, &nine),
        Vec::from_slice(alloc, &nine),
    ) else {
        return Err(AllocError);
    };
    let size = memory.len();
    let regions = Regions {
        stack,
        globals: Vec::new(alloc),
        table,
        memory: LinearMemory::reserved(memory, size),
        passive,
    };
    Machine::new(alloc, Vec::from_slice(alloc, text)?, regions)
}

/// How one step of a word ends, and what t0 holds then.
fn stepped(alloc: Global, word: u32, t1: u64, t2: u64, s0: u64) -> Result<String, Fail> {
    let mut machine = machine(alloc, &[word])?;
    machine.set_register(6, t1);
    machine.set_register(7, t2);
    machine.set_register(8, s0);
    let stepped = machine.step();
    let t0 = machine.register(5);
    Ok(format!(in alloc; "{stepped:?} {t0:X}")?)
}

/// The same of a row.
fn step_of(alloc: Global, row: &str) -> Result<String, Fail> {
    let (_name, text) = row.split_once(' ').unwrap_or((row, ""));
    let numbers = numbers_of(alloc, text)?;
    let [word, t1, t2, s0] = numbers.as_slice() else {
        return Err(Fail::new(row));
    };
    stepped(alloc, narrow(*word), *t1, *t2, *s0)
}

/// The registers that are not 0, each with its number.
fn push_registers(alloc: Global, text: &mut String, machine: &Machine) -> Result<(), Fail> {
    for r in 1..32 {
        let value = machine.register(r);
        if value != 0 {
            text.push_str(format!(in alloc; " x{r}={value:X}")?.as_str())?;
        }
    }
    Ok(())
}

/// How a run of at most so many steps ends, where, and what the registers hold then.
fn ran(alloc: Global, words: &[u32], t1: u64, s0: u64, steps: u64) -> Result<String, Fail> {
    if words.len() > 100 {
        return Err(Fail::new("a text of too many words"));
    }
    let mut machine = machine(alloc, words)?;
    machine.set_register(6, t1);
    machine.set_register(8, s0);
    let ran = machine.run(steps);
    let mut text = format!(in alloc; "{ran:?} {:X}", machine.pc())?;
    push_registers(alloc, &mut text, &machine)?;
    Ok(text)
}

/// The same of a row.
fn run_of(alloc: Global, row: &str) -> Result<String, Fail> {
    let (_name, rest) = row.split_once(';').unwrap_or((row, ""));
    let (words, start) = rest.split_once(';').unwrap_or((rest, ""));
    let words = words_of(alloc, words)?;
    let start = numbers_of(alloc, start)?;
    let [t1, s0, steps] = start.as_slice() else {
        return Err(Fail::new(row));
    };
    ran(alloc, &words, *t1, *s0, *steps)
}

/// The bytes of the stack that are not 0 after the store of a row.
fn store_of(alloc: Global, row: &str) -> Result<String, Fail> {
    let (_name, text) = row.split_once(' ').unwrap_or((row, ""));
    let word = u32::from_str_radix(text, 16).unwrap_or(0);
    let mut machine = machine(alloc, &[word])?;
    machine.set_register(6, 0x1122_3344_5566_7788);
    machine.set_register(8, 0x2000_0008);
    let mut text = String::new(alloc);
    if machine.step() != Stepped::Next {
        return Ok(text);
    }
    for (i, byte) in machine.bytes(Region::Stack).iter().enumerate() {
        if *byte != 0 {
            text.push_str(format!(in alloc; "{i}:{byte:X} ")?.as_str())?;
        }
    }
    Ok(text)
}

#[test]
fn words_are_stepped(rt: HostRuntime) -> Result<(), Fail> {
    for line in STEPS.lines() {
        let (row, want) = parts_of(line);
        assert_eq!(rt; step_of(rt.alloc(), row)?.as_str(), want, "{row}");
    }
    Ok(())
}

#[test]
fn words_are_run(rt: HostRuntime) -> Result<(), Fail> {
    for line in RUNS.lines() {
        let (row, want) = parts_of(line);
        assert_eq!(rt; run_of(rt.alloc(), row)?.as_str(), want, "{row}");
    }
    Ok(())
}

#[test]
fn stores_change_their_bytes(rt: HostRuntime) -> Result<(), Fail> {
    for line in STORES.lines() {
        let (row, want) = parts_of(line);
        assert_eq!(rt; store_of(rt.alloc(), row)?.trim_end(), want, "{row}");
    }
    Ok(())
}

/// A word outside the text isn't fetched, and the machine stays as it was.
fn fetched(alloc: Global, pc: u64) -> Result<bool, Fail> {
    let mut machine = machine(alloc, &[0x0FF0_000F])?;
    machine.set_pc(pc);
    let stepped = machine.step();
    Ok(stepped == Stepped::Fault(FaultKind::Fetch) && machine.pc() == pc)
}

/// What the host changes between steps counts: the word that is loaded is one that it wrote, and pc the one that it set.
fn changed(alloc: Global) -> Result<String, Fail> {
    let mut machine = machine(alloc, &[0x0FF0_000F, 0x0004_3383, 0x0000_0073, 0x0010_0073])?;
    machine.set_register(8, 0x2000_0000);
    if let Some(byte) = machine.bytes_mut(Region::Stack).get_mut(1) {
        *byte = 1;
    }
    machine.set_pc(0x1000_0004);
    let loaded = machine.step();
    let called = machine.step();
    let broken = machine.step();
    let t2 = machine.register(7);
    machine.clear_registers();
    let cleared = machine.register(7);
    Ok(format!(in alloc; "{loaded:?} {called:?} {broken:?} {t2} {cleared}")?)
}

#[test]
fn a_host_reads_and_changes_a_machine(rt: HostRuntime) -> Result<(), Fail> {
    for pc in [
        0,
        0x0FFF_FFFC,
        0x1000_0002,
        0x1000_0004,
        0xFFFF_FFFF_FFFF_FFFC,
    ] {
        assert!(rt; fetched(rt.alloc(), pc)?, "{pc:X}");
    }
    assert_eq!(rt;
        changed(rt.alloc())?.as_str(),
        "Next Call Fault(Break) 256 0"
    );
    Ok(())
}
