//! The code of a function, before it has an offset in a text.
ghost use Rattle.std.specs.Prelude.{◌≡◌, ◌<◌, ◌^◌, ◌≤◌, ◌↔◌, [], ◌∷◌, ◌++◌, take, drop, map, length, slice_get, slice_set, IsTrue, IfOk, OnOk, OnErr};
ghost use Rattle.std.specs.Int.{w32, to_le_bytes};
ghost use Rattle.std.specs.List.{All, flat_map};

use std::alloc::{AllocError, Global};
use std::marker::Model;

/// A list of instruction words, each stored as its four bytes, the low one first (RISC-V Unprivileged Architecture, 1.5): so they are
/// written as they stand. Contracts see the list of the words.
#[derive(Debug, Drop)]
pub struct Words {
    words: Vec<[u8; 4]>,
}

impl Model for Words {
    ghost use Rattle.std.specs.Prelude.{ℕ, List};
    ghost use Rattle.rv_isa.specs.Stored.{words_in, AreStored};

    ghost Value = { List ℕ };

    ghost view = { λ w. words_in w.words.items };

    ghost invariant = { λ w. AreStored w.words.items };
}

/// How instruction words are stored.
#[inline]
fn stored<const N: usize>(words: &[u32]) -> [[u8; 4]; N]
    requires { length words.now ≡ N }
    ensures stored { result ≡ map (to_le_bytes w32) words.now }
    ensures small { All (λ word. word < 2 ^ 32) words.now }
{
    let mut bytes = [[0; 4]; N];
    for index in 0..N {
        bytes[index] = words[index].to_le_bytes();
    }
    bytes
}

/// Whether both are the same list.
fn are_same(bytes: &[u8], others: &[u8]) -> bool
    ensures { IsTrue result ↔ (bytes.now ≡ others.now) }
{
    bytes == others
}

impl Words {
    /// No instruction words.
    pub fn new(alloc: Global) -> Self
        ensures { result ≡ [] }
    {
        Words {
            words: Vec::new(alloc),
        }
    }

    /// No instruction words, and room for so many. More may be appended.
    pub fn with_capacity(alloc: Global, words: usize) -> Result<Self, AllocError>
        ensures { IfOk result (λ w. w ≡ []) }
    {
        Ok(Words {
            words: Vec::with_capacity(alloc, words)?,
        })
    }

    /// Appends an instruction word.
    pub fn push(&mut self, word: u32) -> Result<(), AllocError>
        ensures ok { OnOk result (self.new ≡ self.old ++ word ∷ []) }
        ensures err { OnErr result (self.new ≡ self.old) }
    {
        self.words.push(word.to_le_bytes())?;
        Ok(())
    }

    /// The instruction words as numbers.
    pub fn to_vec(&self, alloc: Global) -> Result<Vec<u32>, AllocError>
        ensures { IfOk result (λ words. words.items ≡ self.now) }
    {
        let mut all = Vec::with_capacity(alloc, self.words.len())?;
        for word in &self.words {
            all.push(u32::from_le_bytes(*word))?;
        }
        Ok(all)
    }

    /// How many there are.
    #[inline]
    pub fn len(&self) -> usize
        ensures { result ≡ length self.now }
    {
        self.words.len()
    }

    /// Each of them has 32 bits, and there are no more than memory can hold.
    #[inline]
    pub fn keeps_bounds(&self)
        ensures small { All (λ word. word < 2 ^ 32) self.now }
        ensures few { length self.now < 2 ^ 62 }
    {
        let _words = self.words.as_slice();
    }

    /// The instruction word of an index, if there is one.
    pub fn get(&self, index: usize) -> Option<u32>
        ensures { result ≡ slice_get self.now index }
    {
        match self.words.get(index) {
            Some(word) => Some(u32::from_le_bytes(*word)),
            None => None,
        }
    }

    /// Their bytes, four for each, the low one first.
    pub fn as_bytes(&self) -> &[u8]
        ensures { result.now ≡ flat_map (to_le_bytes w32) self.now }
    {
        self.words.as_slice().as_flattened()
    }

    /// Replaces the instruction word of an index, if there is one.
    pub fn set(&mut self, index: usize, word: u32)
        ensures { self.new ≡ slice_set self.old index word }
    {
        if index < self.words.len() {
            self.words[index] = word.to_le_bytes();
        }
    }

    /// Appends the instruction words of an array, or none of them.
    #[inline]
    pub(crate) fn append_array<const N: usize>(
        &mut self,
        words: &[u32; N],
    ) -> Result<(), AllocError>
        ensures ok { OnOk result (self.new ≡ self.old ++ words.now) }
        ensures err { OnErr result (self.new ≡ self.old) }
    {
        self.words.extend_from_slice(&stored::<N>(words))
    }

    /// Keeps the first instruction words, so many, and drops those after them.
    pub(crate) fn truncate(&mut self, words: usize)
        requires { words ≤ length self.old }
        ensures { self.new ≡ take words self.old }
    {
        self.words.truncate(words);
    }

    /// Appends other instruction words, or none of them.
    pub fn append(&mut self, more: &Words) -> Result<(), AllocError>
        ensures ok { OnOk result (self.new ≡ self.old ++ more.now) }
        ensures err { OnErr result (self.new ≡ self.old) }
    {
        self.words.extend_from_slice(&more.words)
    }

    /// Appends other instruction words, from an index of theirs on, or none of them.
    pub fn append_from(&mut self, more: &Words, index: usize) -> Result<(), AllocError>
        requires { index ≤ length more.now }
        ensures ok { OnOk result (self.new ≡ self.old ++ drop index more.now) }
        ensures err { OnErr result (self.new ≡ self.old) }
    {
        self.words.extend_from_slice(&more.words[index..])
    }

    /// Appends other instruction words, or none of them. Where they are the more, memory is wanted for those before them alone.
    pub fn append_own(&mut self, more: Words) -> Result<(), AllocError>
        ensures ok { OnOk result (self.new ≡ self.old ++ more) }
        ensures err { OnErr result (self.new ≡ self.old) }
    {
        let Words { words: mut more } = more;
        let count = more.len();
        if count <= self.words.len() {
            return self.words.extend_from_slice(&more);
        }
        more.extend_from_slice(&self.words)?;
        more.rotate_left(count);
        self.words = more;
        Ok(())
    }

    /// Replaces the first instruction words by others.
    pub fn overwrite(&mut self, front: &Words)
        requires { length front.now ≤ length self.old }
        ensures { self.new ≡ front.now ++ drop (length front.now) self.old }
    {
        for (index, word) in front.words.iter().enumerate() {
            self.words[index] = *word;
        }
    }

    /// Leaves so many instruction words: the first ones, and zeros behind them. Where memory runs out, all stay.
    pub fn resize(&mut self, words: usize) -> Result<(), AllocError>
        ensures ok { OnOk result (length self.new ≡ words) }
        ensures err { OnErr result (self.new ≡ self.old) }
    {
        self.words.resize(words, [0; 4])
    }

    /// Gives back the room that they don't need. Where they can't be moved, since memory runs out, they stay where they are.
    pub fn shrink_to_fit(&mut self)
        ensures { self.new ≡ self.old }
    {
        self.words.shrink_to_fit();
    }

    /// Whether both are the same list.
    fn is_same(&self, other: &Words) -> bool
        ensures { IsTrue result ↔ (self.now ≡ other.now) }
    {
        self.keeps_bounds();
        other.keeps_bounds();
        are_same(self.as_bytes(), other.as_bytes())
    }
}

/// A call whose distance is not known until its function has an offset.
#[derive(Clone, Copy, Debug, PartialEq, Eq)]
pub struct Relocation {
    /// The index of the call's AUIPC among the instruction words of its code.
    pub place: usize,
    /// The index of the function that is called.
    pub function: u32,
}

/// A list of relocations, which contracts see as that list.
#[derive(Debug, Drop)]
pub struct Relocations {
    relocations: Vec<Relocation>,
}

impl Model for Relocations {
    ghost use Rattle.std.specs.Prelude.{List};
    ghost use Rattle.rv_isa.specs.declared.compiled.Relocation.{Relocation};

    ghost Value = { List Relocation };

    ghost view = { λ r. r.relocations.items };
}

impl Relocations {
    /// The relocations of a `Vec`. It takes no memory.
    pub fn from_vec(relocations: Vec<Relocation>) -> Self
        ensures { result ≡ relocations.items }
    {
        Relocations { relocations }
    }

    /// The relocations as a `Vec`. It takes no memory.
    pub fn into_vec(self) -> Vec<Relocation>
        ensures { result.items ≡ self }
    {
        self.relocations
    }

    /// The relocations.
    pub fn as_slice(&self) -> &[Relocation]
        ensures { result.now ≡ self.now }
    {
        self.relocations.as_slice()
    }

    /// Whether both are the same list.
    fn is_same(&self, other: &Relocations) -> bool
        ensures { IsTrue result ↔ (self.now ≡ other.now) }
    {
        self.as_slice() == other.as_slice()
    }
}

/// A trap of a code, and where in the module it comes from.
#[derive(Clone, Copy, Debug, PartialEq, Eq)]
pub struct TrapSite {
    /// The index of the trap's ECALL among the instruction words of its code.
    pub place: usize,
    /// The offset in the module of what traps: an instruction, or the body.
    pub offset: u64,
}

/// A list of traps, which contracts see as that list.
#[derive(Debug, Drop)]
pub struct TrapSites {
    sites: Vec<TrapSite>,
}

impl Model for TrapSites {
    ghost use Rattle.std.specs.Prelude.{List};
    ghost use Rattle.rv_isa.specs.declared.compiled.TrapSite.{TrapSite};

    ghost Value = { List TrapSite };

    ghost view = { λ t. t.sites.items };
}

impl TrapSites {
    /// The traps of a `Vec`. It takes no memory.
    pub fn from_vec(sites: Vec<TrapSite>) -> Self
        ensures { result ≡ sites.items }
    {
        TrapSites { sites }
    }

    /// The traps as a `Vec`. It takes no memory.
    pub fn into_vec(self) -> Vec<TrapSite>
        ensures { result.items ≡ self }
    {
        self.sites
    }

    /// The traps.
    pub fn as_slice(&self) -> &[TrapSite]
        ensures { result.now ≡ self.now }
    {
        self.sites.as_slice()
    }

    /// Whether both are the same list.
    fn is_same(&self, other: &TrapSites) -> bool
        ensures { IsTrue result ↔ (self.now ≡ other.now) }
    {
        self.as_slice() == other.as_slice()
    }
}

/// The code of a function.
#[derive(Debug, Drop)]
pub struct Code {
    /// Its instruction words.
    pub words: Words,
    /// Its calls, in the order of their indices.
    pub relocations: Relocations,
    /// Its traps, in the order of their indices.
    pub traps: TrapSites,
    /// How many slots of the stack it needs, of eight bytes each.
    pub need: u32,
}

impl Code {
    /// Whether both are the same code.
    pub fn is_same(&self, other: &Code) -> bool
        ensures { IsTrue result ↔ (self.now ≡ other.now) }
    {
        self.words.is_same(&other.words)
            && self.relocations.is_same(&other.relocations)
            && self.traps.is_same(&other.traps)
            && self.need == other.need
    }
}
