//! Batches of bodies.

ghost use Rattle.std.specs.Prelude.{◌≡◌, ◌<◌, ◌≤◌, [], length, IsTrue};
ghost use Rattle.wasm_defs.specs.Limits.{max_body};
ghost use Rattle.body_cutter.specs.Bodies.{body_of, body_at, byte_count};

use crate::block::BodyBlock;
use crate::body::BodyView;
use std::marker::Model;

/// The bodies of a batch.
#[derive(Drop)]
pub struct Bodies {
    block: BodyBlock,
}

impl Model for Bodies {
    ghost use Rattle.std.specs.Prelude.{◌≡◌, List, []};
    ghost use Rattle.body_cutter.specs.Bodies.{Body};

    ghost Value = { List Body };

    ghost view = { λ l. l.block.bodies };

    ghost invariant = { λ l. l.block.rest ≡ [] };
}

impl Bodies {
    /// The complete bodies of a block, in no more room than they need. It takes no memory.
    pub fn new(block: BodyBlock) -> Self
        ensures { result ≡ block.bodies }
    {
        Bodies {
            block: block.without_rest(),
        }
    }

    /// How many there are.
    pub fn count(&self) -> usize
        ensures { result ≡ length self.now }
    {
        self.block.count()
    }

    /// How many bytes they have in all.
    #[tactic(auto, using(crate::proofs::Batches::complete_bytes))]
    pub fn byte_count(&self) -> usize
        ensures { result ≡ byte_count self.now }
    {
        self.block.len()
    }

    /// The body of an index.
    pub fn get(&self, index: usize) -> BodyView<'_>
        requires { index < length self.now }
        ensures body { body_of result ≡ body_at self.now index }
        ensures small { length result.bytes.now ≤ max_body }
    {
        self.block.get(index)
    }

    /// Whether the others are the same bodies.
    pub fn is_same(&self, others: &Bodies) -> bool
        ensures { IsTrue result → others.now ≡ self.now }
    {
        self.block.is_same(&others.block)
    }

    /// Gives the bodies back, without taking memory.
    pub(crate) fn into_block(self) -> BodyBlock
        ensures { result ≡ record { bodies = self; rest = [] } }
    {
        self.block
    }
}

/// Bodies that follow one another in the code section. There is at least one.
#[derive(Drop)]
pub struct Batch {
    /// How many batches come before it.
    pub number: u32,
    /// The offset of its first body's size.
    pub start: u64,
    pub bodies: Bodies,
}
