//! What compiles batches, on any thread.

use index_spaces::Context;
use result_cells::Cells;
use std::alloc::Global;

/// What the batches of a module are compiled with, on whichever thread.
#[derive(Drop)]
pub struct BatchCompiler<'a, G> {
    /// The allocator of rows and codes.
    pub alloc: Global,
    /// The module's index spaces.
    pub context: &'a Context,
    /// The cells of the functions, where codes are kept.
    pub cells: &'a Cells,
    /// The gate that is asked before a batch is run.
    pub gate: &'a G,
}
