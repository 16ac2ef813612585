//! A linear memory whose bytes are stored as far as they were touched.
ghost use Rattle.std.specs.Prelude.{◌≡◌, ◌+◌, ◌≤◌, ◌<◌, ◌^◌, IfOk, Some, length, take, if◌then◌else◌};
ghost use Rattle.std.specs.Borrow.{sem};
ghost use Rattle.std.specs.Bool.{OnTrue, OnFalse};
ghost use Rattle.std.specs.Vec.{vec_capacity};
ghost use Rattle.rv_isa.specs.Steps.{load_from, store_to};
ghost use Rattle.rv_isa.specs.Values.{load_width, store_width};
ghost use Rattle.linear_memory.specs.Linear.{IsBacked, untouched, whole};
ghost use Rattle.linear_memory.specs.LinearLending.{LendsBacked};

use crate::bytes::{load_value, load_width, store_value, store_width};
use rv_isa::{LoadOp, StoreOp};
use std::alloc::{AllocError, Global};
use std::marker::Model;

/// What is stored at once where a store is after the bytes that are stored: the rest of its page.
const PAGE: usize = 0x1_0000;

/// A linear memory: `size` bytes, of which the first are stored, and the others are zeros that take no memory yet. Room for all
/// of them is reserved when it is made, so storing more of them never allocates. Contracts see all its bytes, and also how
/// many are backed: those that are stored.
#[derive(Drop)]
pub struct LinearMemory {
    stored: Vec<u8>,
    size: usize,
}

impl Model for LinearMemory {
    ghost use Rattle.std.specs.Vec.{vec_len, vec_capacity};
    ghost use Rattle.linear_memory.specs.Linear.{Linear, IsReserved, whole};

    ghost Value = { Linear };

    ghost view = { λ m. whole m.stored.items m.size };

    ghost invariant = { λ m. IsReserved (vec_len m.stored) m.size (vec_capacity m.stored) };
}

impl LinearMemory {
    /// So many bytes that are zero. None of them is stored yet.
    pub fn new(alloc: Global, size: usize) -> Result<Self, AllocError>
        ensures { IfOk result (λ m. m ≡ untouched size) }
    {
        Ok(LinearMemory {
            stored: Vec::with_capacity(alloc, size)?,
            size,
        })
    }

    /// A memory of that size whose first bytes are these, which are stored, and zeros after them. The condition is that there is room for
    /// all of them.
    pub fn reserved(bytes: Vec<u8>, size: usize) -> Self
        requires within { length bytes.items ≤ size }
        requires room { size ≤ vec_capacity bytes }
        ensures { result ≡ whole bytes.items size }
    {
        LinearMemory {
            stored: bytes,
            size,
        }
    }

    /// The bytes that are stored. Those after them are zeros.
    pub fn backed(&self) -> &[u8]
        ensures { IsBacked result.now self.now }
    {
        &self.stored
    }

    /// The bytes that are stored, to be written.
    pub fn backed_mut(&mut self) -> &mut [u8]
        ensures* writes_back { sem 𝓛 (LendsBacked self.entry result) }
        ensures value { IsBacked result.now self.old }
    {
        &mut self.stored
    }

    /// Stores zeros until so many of the first bytes are stored. The bytes stay what they are, and nothing is allocated.
    pub fn back(&mut self, count: usize)
        requires { count ≤ length self.old.bytes }
        ensures bytes { self.new.bytes ≡ self.old.bytes }
        ensures backed { count ≤ self.new.backed }
    {
        if self.stored.len() < count {
            match self.stored.resize(count, 0) {
                Ok(()) => {}
                Err(_) => unreachable!(),
            }
        }
    }

    /// Whether so many bytes from an offset on are stored.
    #[inline(always)]
    pub fn is_backed(&self, at: usize, count: usize) -> bool
        requires at { at ≤ 2 ^ 28 }
        requires count { count ≤ 2 ^ 28 }
        ensures { OnTrue result (at + count ≤ self.now.backed) }
    {
        at + count <= self.stored.len()
    }

    /// What a load gives its register whose bytes are all stored.
    #[inline(always)]
    pub fn load_backed(&self, op: LoadOp, at: usize) -> u64
        requires { at + load_width op ≤ self.now.backed }
        ensures { load_from op at self.now.bytes ≡ Some result }
    {
        load_value(op, &self.stored, at)
    }

    /// Stores a value over bytes that are all stored.
    #[inline(always)]
    pub fn store_backed(&mut self, op: StoreOp, at: usize, value: u64)
        requires { at + store_width op ≤ self.old.backed }
        ensures row { store_to op at value self.old.bytes ≡ Some self.new.bytes }
        ensures backed { self.new.backed ≡ self.old.backed }
    {
        store_value(&mut self.stored, op, at, value);
    }

    /// What a load gives its register, if its bytes are there.
    #[inline(always)]
    pub fn load(&self, op: LoadOp, at: usize) -> Option<u64>
        requires { at < 2 ^ 28 }
        ensures { result ≡ load_from op at self.now.bytes }
    {
        if at + load_width(op) <= self.stored.len() {
            Some(load_value(op, &self.stored, at))
        } else {
            self.load_behind(op, at)
        }
    }

    /// What a load gives whose bytes aren't all stored: those that aren't are zeros.
    #[cold]
    #[inline(never)]
    fn load_behind(&self, op: LoadOp, at: usize) -> Option<u64>
        requires near { at < 2 ^ 28 }
        requires behind { self.now.backed < at + load_width op }
        ensures { result ≡ load_from op at self.now.bytes }
    {
        if self.size < at + load_width(op) {
            return None;
        }
        let mut bytes = [0; 8];
        let rest = &self.stored[at.min(self.stored.len())..];
        bytes[..rest.len()].copy_from_slice(rest);
        Some(load_value(op, &bytes, 0))
    }

    /// Stores a value, if its bytes are there, and says whether they were.
    #[inline(always)]
    pub fn store(&mut self, op: StoreOp, at: usize, value: u64) -> bool
        requires { at < 2 ^ 28 }
        ensures row { store_to op at value self.old.bytes ≡ (if result then Some self.new.bytes else None) }
        ensures err { OnFalse result (self.new ≡ self.old) }
    {
        if at + store_width(op) <= self.stored.len() {
            store_value(&mut self.stored, op, at, value);
            true
        } else {
            self.store_behind(op, at, value)
        }
    }

    /// Stores a value whose bytes aren't all stored yet, and zeros before it and to the end of its page.
    #[cold]
    #[inline(never)]
    fn store_behind(&mut self, op: StoreOp, at: usize, value: u64) -> bool
        requires { at < 2 ^ 28 }
        ensures row { store_to op at value self.old.bytes ≡ (if result then Some self.new.bytes else None) }
        ensures err { OnFalse result (self.new ≡ self.old) }
    {
        let end = at + store_width(op);
        let size = self.size;
        if size < end {
            return false;
        }
        let page_end = (end + (PAGE - 1)) / PAGE * PAGE;
        self.back(page_end.min(size));
        store_value(&mut self.stored, op, at, value);
        true
    }
}
