//! Loads and stores (Core 4.4.4).

ghost use Rattle.std.specs.Prelude.{◌≡◌, ◌<◌, ◌≤◌, ◌-◌, ◌^◌, ◌++◌, map, OnOk, OnErr};
ghost use Rattle.rv_isa.specs.Words.{word_of};
ghost use Rattle.wasm_defs.specs.Memory.{load_count, store_count};
ghost use Rattle.frame_layout.specs.Slots.{operand};
ghost use Rattle.frame_layout.specs.Templates.{EmitContext, address, machine_load, machine_store, load_words, store_words};
ghost use Rattle.memory_emit.specs.Sorts.{IsLoad, IsStore, access_words};

use frame_layout::Layout;
use frame_layout::registers::{memory, memory_size};
use frame_layout::words::{const_32, slot_load, slot_store, trap, zero_extend};
use rv_isa::{
    BranchOp, Imm12, ImmOp, LoadOp as MachineLoad, RegOp, Register, StoreOp as MachineStore,
    WordBuffer, encode_branch, encode_imm, encode_load, encode_reg, encode_store,
};
use std::alloc::AllocError;
use wasm_defs::{LoadOp, Plain, StoreOp, Token, TrapKind};

/// The instruction words that bring the address of so many bytes into t0, from an operand that counts from the memory's first
/// byte and an offset, both of 32 bits. Their sum isn't cut to 32 bits. They trap where the bytes aren't all in the memory.
fn address(layout: &Layout, height: u32, offset: u32, bytes: u16) -> [u32; 17]
    requires fits { operand layout.now height < 2 ^ 32 }
    requires few { bytes ≤ 8 }
    ensures { (w : EmitContext) → w.layout ≡ layout.now → result ≡ map word_of (address w height offset bytes) }
{
    let [a, b, c] = slot_load(Register::T0, layout.operand(height));
    let [d, e] = zero_extend(Register::T0);
    let [f, g, h, i, j] = const_32(Register::T1, u64::from(offset));
    let [x, y, z] = trap(TrapKind::MemoryBounds);
    let first = encode_reg(RegOp::Add, Register::T0, Register::T0, Register::T1);
    let end = encode_imm(ImmOp::Addi, Register::T1, Register::T0, Imm12::new(bytes));
    let within = encode_branch(BranchOp::Bgeu, memory_size(), Register::T1, Imm12::new(8));
    let there = encode_reg(RegOp::Add, Register::T0, Register::T0, memory());
    [
        a, b, c, d, e, f, g, h, i, j, first, end, within, x, y, z, there,
    ]
}

/// The machine's operation of a load, and how many bytes it reads.
fn load_row(op: LoadOp) -> (MachineLoad, u16)
    ensures operation { (w : EmitContext) → result.0 ≡ machine_load w op }
    ensures bytes { result.1 ≡ load_count op }
    ensures few { result.1 ≤ 8 }
{
    match op {
        LoadOp::I32Load => (MachineLoad::Lw, 4),
        LoadOp::I64Load => (MachineLoad::Ld, 8),
        LoadOp::I32Load8S | LoadOp::I64Load8S => (MachineLoad::Lb, 1),
        LoadOp::I32Load8U | LoadOp::I64Load8U => (MachineLoad::Lbu, 1),
        LoadOp::I32Load16S | LoadOp::I64Load16S => (MachineLoad::Lh, 2),
        LoadOp::I32Load16U | LoadOp::I64Load16U => (MachineLoad::Lhu, 2),
        LoadOp::I64Load32S => (MachineLoad::Lw, 4),
        LoadOp::I64Load32U => (MachineLoad::Lwu, 4),
    }
}

/// The machine's operation of a store, and how many bytes it writes.
fn store_row(op: StoreOp) -> (MachineStore, u16)
    ensures operation { (w : EmitContext) → result.0 ≡ machine_store w op }
    ensures bytes { result.1 ≡ store_count op }
    ensures few { result.1 ≤ 8 }
{
    match op {
        StoreOp::I32Store | StoreOp::I64Store32 => (MachineStore::Sw, 4),
        StoreOp::I64Store => (MachineStore::Sd, 8),
        StoreOp::I32Store8 | StoreOp::I64Store8 => (MachineStore::Sb, 1),
        StoreOp::I32Store16 | StoreOp::I64Store16 => (MachineStore::Sh, 2),
    }
}

/// Appends the instruction words of a load whose address is the topmost of so many operands.
fn load(
    buffer: &mut WordBuffer,
    layout: &Layout,
    height: u32,
    op: LoadOp,
    offset: u32,
) -> Result<(), AllocError>
    requires operand { 1 ≤ height }
    requires fits { operand layout.now (height - 1) < 2 ^ 32 }
    ensures ok { (w : EmitContext) → w.layout ≡ layout.now → OnOk result (buffer.new ≡ buffer.old ++ map word_of (load_words w height op offset)) }
    ensures err { OnErr result (buffer.new ≡ buffer.old) }
{
    let (op, bytes) = load_row(op);
    let [a, b, c, d, e, f, g, h, i, j, k, l, m, n, o, p, q] = address(
        layout,
        height - 1,
        offset,
        bytes,
    );
    let load = encode_load(op, Register::T0, Register::T0, Imm12::new(0));
    let [x, y, z] = slot_store(Register::T0, layout.operand(height - 1));
    buffer.append(&[
        a, b, c, d, e, f, g, h, i, j, k, l, m, n, o, p, q, load, x, y, z,
    ])
}

/// Appends the instruction words of a store, whose value is the topmost of so many operands and whose address is below it.
fn store(
    buffer: &mut WordBuffer,
    layout: &Layout,
    height: u32,
    op: StoreOp,
    offset: u32,
) -> Result<(), AllocError>
    requires operands { 2 ≤ height }
    requires fits { operand layout.now (height - 1) < 2 ^ 32 }
    ensures ok { (w : EmitContext) → w.layout ≡ layout.now → OnOk result (buffer.new ≡ buffer.old ++ map word_of (store_words w height op offset)) }
    ensures err { OnErr result (buffer.new ≡ buffer.old) }
{
    let (op, bytes) = store_row(op);
    let [a, b, c, d, e, f, g, h, i, j, k, l, m, n, o, p, q] = address(
        layout,
        height - 2,
        offset,
        bytes,
    );
    let [x, y, z] = slot_load(Register::T2, layout.operand(height - 1));
    let store = encode_store(op, Register::T0, Register::T2, Imm12::new(0));
    buffer.append(&[
        a, b, c, d, e, f, g, h, i, j, k, l, m, n, o, p, q, x, y, z, store,
    ])
}

/// Appends the instruction words of a load, or none if memory runs out. Its address is the topmost of so many operands.
pub fn emit_load(
    buffer: &mut WordBuffer,
    layout: &Layout,
    height: u32,
    token: &Token,
) -> Result<(), AllocError>
    requires sort { IsLoad token.now }
    requires operand { 1 ≤ height }
    requires fits { operand layout.now (height - 1) < 2 ^ 32 }
    ensures ok { (w : EmitContext) → w.layout ≡ layout.now → OnOk result (buffer.new ≡ buffer.old ++ map word_of (access_words w height token.now)) }
    ensures err { OnErr result (buffer.new ≡ buffer.old) }
{
    let Token::Plain(plain) = token else {
        unreachable!()
    };
    match plain {
        Plain::Load(op, memory) => load(buffer, layout, height, *op, memory.offset),
        _ => unreachable!(),
    }
}

/// Appends the instruction words of a store, or none if memory runs out. Its value is the topmost of so many operands, and its
/// address the one below.
pub fn emit_store(
    buffer: &mut WordBuffer,
    layout: &Layout,
    height: u32,
    token: &Token,
) -> Result<(), AllocError>
    requires sort { IsStore token.now }
    requires operands { 2 ≤ height }
    requires fits { operand layout.now (height - 1) < 2 ^ 32 }
    ensures ok { (w : EmitContext) → w.layout ≡ layout.now → OnOk result (buffer.new ≡ buffer.old ++ map word_of (access_words w height token.now)) }
    ensures err { OnErr result (buffer.new ≡ buffer.old) }
{
    let Token::Plain(plain) = token else {
        unreachable!()
    };
    match plain {
        Plain::Store(op, memory) => store(buffer, layout, height, *op, memory.offset),
        _ => unreachable!(),
    }
}
