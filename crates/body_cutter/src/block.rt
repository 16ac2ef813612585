//! Bodies in one block of memory.

ghost use Rattle.std.specs.Prelude.{◌≡◌, ◌<◌, ◌≤◌, ◌++◌, ◌∷◌, [], length, OnOk, OnErr, IsTrue};
ghost use Rattle.wasm_defs.specs.Limits.{max_body};
ghost use Rattle.body_cutter.specs.Bodies.{Block, Begins, body_of, body_at, begin_of, bytes_in, mark_of, no_bodies};

use crate::body::{BodyView, Cut, Mark};
use std::alloc::{AllocError, Global};
use std::marker::Model;

/// Complete bodies, one after the other, and the bytes that came of one more. Contracts see the bodies and those bytes.
///
/// ```text
/// bytes     | body 0 | body 1 | the body in hand
///                    ^        ^
///                cuts[0].end  cuts[1].end
/// ```
#[derive(Drop)]
pub struct BodyBlock {
    // Why: docs/DECISIONS.md, "The bodies of a batch are in one block"
    bytes: Vec<u8>,
    cuts: Vec<Cut>,
}

impl Model for BodyBlock {
    ghost use Rattle.std.specs.Prelude.{length};
    ghost use Rattle.body_cutter.specs.Bodies.{Block, block_of, AreCuts};

    ghost Value = { Block };

    ghost view = { λ b. block_of b.bytes.items b.cuts.items };

    ghost invariant = { λ b. AreCuts (length b.bytes.items) 0 b.cuts.items };
}

/// Where the bytes of the body of an index begin.
fn begin_of(cuts: &[Cut], index: usize) -> usize
    requires { index ≤ length cuts.now }
    ensures { result ≡ begin_of cuts.now index }
{
    match index {
        0 => 0,
        _ => cuts[index - 1].end,
    }
}

/// Whether both are the same cuts.
fn are_same(cuts: &[Cut], others: &[Cut]) -> bool
    ensures { IsTrue result → others.now ≡ cuts.now }
{
    cuts == others
}

impl BodyBlock {
    /// No bodies, and no bytes.
    pub fn new(alloc: Global) -> Self
        ensures { result ≡ no_bodies }
    {
        BodyBlock {
            bytes: Vec::new(alloc),
            cuts: Vec::new(alloc),
        }
    }

    /// How many complete bodies there are.
    pub(crate) fn count(&self) -> usize
        ensures { result ≡ length self.now.bodies }
    {
        self.cuts.len()
    }

    /// How many bytes there are, those of the body in hand among them.
    pub(crate) fn len(&self) -> usize
        ensures { result ≡ length (bytes_in self.now) }
    {
        self.bytes.len()
    }

    /// How many bytes came of the body in hand.
    pub(crate) fn rest_len(&self) -> usize
        ensures { result ≡ length self.now.rest }
    {
        self.bytes.len() - begin_of(&self.cuts, self.cuts.len())
    }

    /// The complete body of an index.
    pub(crate) fn get(&self, index: usize) -> BodyView<'_>
        requires { index < length self.now.bodies }
        ensures body { body_of result ≡ body_at self.now.bodies index }
        ensures small { length result.bytes.now ≤ max_body }
    {
        let cut = self.cuts[index];
        let begin = begin_of(&self.cuts, index);
        BodyView {
            index: cut.index,
            size: cut.size,
            first: cut.first,
            bytes: &self.bytes[begin..cut.end],
        }
    }

    /// Whether the other one has the same bodies, and the same bytes of one more.
    pub(crate) fn is_same(&self, other: &BodyBlock) -> bool
        ensures { IsTrue result → other.now ≡ self.now }
    {
        are_same(&self.cuts, &other.cuts) && self.bytes.as_slice() == other.bytes.as_slice()
    }

    /// More bytes of the body in hand.
    pub fn extend(&mut self, piece: &[u8]) -> Result<(), AllocError>
        ensures ok { OnOk result (self.new ≡ record self.old { rest = self.old.rest ++ piece.now }) }
        ensures err { OnErr result (self.new ≡ self.old) }
    {
        self.bytes.extend_from_slice(piece)
    }

    /// The body in hand is complete: that of the function of this index, with the offsets of its size and of its first byte.
    pub fn complete(&mut self, index: u32, size: u64, first: u64) -> Result<(), AllocError>
        requires { length self.old.rest ≤ max_body }
        ensures ok { OnOk result (self.new ≡ record {
          bodies = self.old.bodies ++ record { index = index; size = size; first = first; bytes = self.old.rest } ∷ [];
          rest = [];
        }) }
        ensures err { OnErr result (self.new ≡ self.old) }
    {
        self.cuts.push(Cut {
            index,
            size,
            first,
            end: self.bytes.len(),
        })?;
        Ok(())
    }

    /// How many bodies and bytes it has, to be cut back to them.
    pub(crate) fn mark(&self) -> Mark
        ensures { result ≡ mark_of self.now }
    {
        Mark {
            bodies: self.cuts.len(),
            bytes: self.bytes.len(),
        }
    }

    /// Cuts it back to what it had when the mark was made.
    pub(crate) fn cut_back(&mut self, mark: Mark)
        requires { (saved : Block) × (mark ≡ mark_of saved) × Begins saved self.old }
        ensures { (saved : Block) → mark ≡ mark_of saved → Begins saved self.old → self.new ≡ saved }
    {
        self.cuts.truncate(mark.bodies);
        self.bytes.truncate(mark.bytes);
    }

    /// The complete bodies alone, in no more room than they need.
    pub(crate) fn without_rest(mut self) -> Self
        ensures { result ≡ record self { rest = [] } }
    {
        let end = begin_of(&self.cuts, self.cuts.len());
        self.bytes.truncate(end);
        self.bytes.shrink_to_fit();
        self.cuts.shrink_to_fit();
        self
    }
}
