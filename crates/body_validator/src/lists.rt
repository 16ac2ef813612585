//! Long lists of types that were put on the operands at once.

ghost use Rattle.std.specs.Prelude.{◌≡◌, ◌<◌, ◌≤◌, ◌^◌, [], ◌∷◌, ◌++◌, length, reverse, vec_len, OnOk};

use std::alloc::{AllocError, Global};
use wasm_defs::ValType;

/// Operands of these types, which were put at once.
#[derive(Clone, Copy)]
pub struct Spread<'a> {
    pub types: &'a [ValType],
    /// How many single operands are below them.
    pub below: usize,
}

/// Such lists, the topmost last, each above so many single operands. A list takes 20 bytes.
#[derive(Drop)]
pub struct Lists<'a> {
    pub types: Vec<&'a [ValType]>,
    // Why: docs/DECISIONS.md, "The check keeps a long list of types as one entry"
    pub below: Vec<u32>,
    ghost even: { vec_len types ≡ vec_len below },
}

impl<'a> Lists<'a> {
    ghost use Rattle.body_validator.specs.Kept.{floor_of, spreads, HasPlace, IsShort, KeepsPlace, Topmost};

    /// No lists.
    pub fn new(alloc: Global) -> Self
        ensures { spreads result ≡ [] }
    {
        Lists {
            types: Vec::new(alloc),
            below: Vec::new(alloc),
        }
    }

    /// Lets go of all lists, and keeps their room.
    pub fn clear(&mut self)
        ensures { spreads self.new ≡ [] }
    {
        self.types.clear();
        self.below.clear();
    }

    /// How many single operands are below the topmost list, or 0 where there is none.
    pub fn floor(&self) -> usize
        ensures { result ≡ floor_of (reverse (spreads self.now)) }
    {
        if self.types.len() == 0 {
            return 0;
        }
        self.topmost().below
    }

    /// The topmost list.
    pub fn topmost(&self) -> Spread<'a>
        requires { 0 < length (spreads self.now) }
        ensures { Topmost (reverse (spreads self.now)) result }
    {
        let last = self.types.len() - 1;
        let types = self.types[last];
        let below = self.below[last];
        Spread {
            types,
            below: below as usize,
        }
    }

    /// Makes room for one more.
    pub fn reserve(&mut self) -> Result<(), AllocError>
        ensures same { spreads self.new ≡ spreads self.old }
        ensures place { OnOk result (HasPlace self.new) }
    {
        self.types.reserve(1)?;
        self.below.reserve(1)
    }

    /// Puts a list above so many single operands, for which there is room.
    pub fn push(&mut self, types: &'a [ValType], below: usize)
        requires place { HasPlace self.old }
        requires short { below < 2 ^ 32 }
        ensures { spreads self.new ≡ spreads self.old ++ record { types = types.entry; below = below } ∷ [] }
    {
        self.types.push_reserved(types);
        self.below.push_reserved(below as u32);
    }

    /// Leaves so many types of the topmost list.
    pub fn shorten(&mut self, left: usize)
        requires { 0 < length (spreads self.old) }
        ensures short { IsShort left (reverse (spreads self.old)) (reverse (spreads self.new)) }
        ensures fewer { length (spreads self.new) ≤ length (spreads self.old) }
        ensures place { KeepsPlace self.old self.new }
    {
        let last = self.types.len() - 1;
        let types = self.types[last];
        if left == 0 {
            self.types.truncate(last);
            self.below.truncate(last);
            return;
        }
        let left = if left < types.len() {
            left
        } else {
            types.len()
        };
        self.types[last] = &types[..left];
    }
}
