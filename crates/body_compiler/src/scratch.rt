//! What the bodies of a batch share: room.

use body_validator::Check;
use index_spaces::Context;
use std::alloc::Global;

/// The room that the bodies of a module need, which one after the other takes in place of its own. Nothing that one leaves there means
/// anything to the next.
// Why: docs/DECISIONS.md, "The bodies of a batch share their room"
#[derive(Drop)]
pub struct Scratch<'a> {
    pub(crate) alloc: Global,
    pub(crate) check: Check<'a>,
    /// Of `WordCounter`.
    pub(crate) takes: Vec<u32>,
}

impl<'a> Scratch<'a> {
    /// No room so far, for bodies of a module of this context.
    pub fn new(alloc: Global, context: &'a Context) -> Self {
        Scratch {
            alloc,
            check: Check::idle(alloc, context),
            takes: Vec::new(alloc),
        }
    }
}
