//! Addresses and sizes of a run, and the registers that calls from outside and calls of the environment use.

use image_format::PAGE_BYTES;

/// Where the text begins.
pub(crate) const TEXT: u64 = 0x1000_0000;

/// Where the stack begins.
pub(crate) const STACK: u64 = 0x2000_0000;

/// Where the globals begin.
pub(crate) const GLOBALS: u64 = 0x3000_0000;

/// Where the table begins.
pub(crate) const TABLE: u64 = 0x4000_0000;

/// Where the memory begins.
pub(crate) const MEMORY: u64 = 0x5000_0000;

/// Bytes of the stack.
pub(crate) const STACK_SIZE: usize = 1_048_576;

/// Bytes of a page of memory (WebAssembly Core 1.0, 4.2.8).
pub(crate) const PAGE: u64 = PAGE_BYTES;

/// The address that a function returns to.
pub(crate) const RA: u8 = 1;

/// The stack; at a call of an import, its arguments.
pub(crate) const S0: u8 = 8;

/// The memory.
pub(crate) const S1: u8 = 9;

/// What a call of the environment is about, and its answer.
pub(crate) const A0: u8 = 10;

/// Which call of the environment it is.
pub(crate) const A7: u8 = 17;

/// The memory's size in bytes.
pub(crate) const S2: u8 = 18;

/// The globals.
pub(crate) const S3: u8 = 19;

/// The table.
pub(crate) const S4: u8 = 20;

/// The stack's end.
pub(crate) const S5: u8 = 21;
