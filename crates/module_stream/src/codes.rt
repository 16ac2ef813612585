//! The codes of bodies, which are kept to be linked or are only counted.

ghost use Rattle.std.specs.Prelude.{◌≡◌, ◌<◌, ◌-◌, ◌+◌, ◌^◌, [], length, Some, None, IsSome, is_some, OnOk, OnErr};
ghost use Rattle.module_stream.specs.Codes.{no_code, with_code};

use code_list::CodeList;
use image_linker::words_before;
use rv_isa::Code;
use std::alloc::{AllocError, Global};
use std::marker::Model;

/// The codes of the bodies that were compiled, in order: how many, and how many instruction words they have; they are kept where
/// they will be linked.
#[derive(Drop)]
pub struct Codes {
    // Why: docs/DECISIONS.md, "Codes are kept or counted by one type"
    kept: Option<CodeList>,
    count: u32,
    words: u64,
}

impl Model for Codes {
    ghost use Rattle.module_stream.specs.Codes.{Coding};

    ghost Value = { Coding };

    ghost view = { λ c. record { count = c.count; words = c.words; kept = c.kept } };
}

impl Codes {
    /// None so far. They will be kept.
    pub fn kept(alloc: Global) -> Codes
        ensures { result ≡ no_code (Some []) }
    {
        Codes {
            kept: Some(CodeList::new(alloc)),
            count: 0,
            words: 0,
        }
    }

    /// None so far. They will only be counted.
    pub fn counted() -> Codes
        ensures { result ≡ no_code None }
    {
        Codes {
            kept: None,
            count: 0,
            words: 0,
        }
    }

    /// One code more, of a module with so many imported functions. It is only counted where codes aren't kept.
    pub fn add(&mut self, imported: u32, code: &Code) -> Result<(), AllocError>
        requires count { self.old.count < 2 ^ 32 - 1 }
        requires words { self.old.words + length code.now.words < 2 ^ 64 }
        ensures ok { OnOk result (self.new ≡ with_code self.old code.now) }
        ensures err { OnErr result (self.new ≡ self.old) }
    {
        if let Some(codes) = &mut self.kept {
            codes.begin(words_before(imported))?;
            codes.push(code)?;
        }
        self.count += 1;
        self.words += code.words.len() as u64;
        Ok(())
    }

    /// One code more, as `add` does; the words of a long one are kept as they are.
    pub fn add_own(&mut self, imported: u32, code: Code) -> Result<(), AllocError>
        requires count { self.old.count < 2 ^ 32 - 1 }
        requires words { self.old.words + length code.words < 2 ^ 64 }
        ensures ok { OnOk result (self.new ≡ with_code self.old code) }
        ensures err { OnErr result (self.new ≡ self.old) }
    {
        let words = code.words.len() as u64;
        if let Some(codes) = &mut self.kept {
            codes.begin(words_before(imported))?;
            codes.push_own(code)?;
        }
        self.count += 1;
        self.words += words;
        Ok(())
    }

    /// One code more of so many instruction words. Codes are only counted.
    pub fn count_words(&mut self, words: u64)
        requires none { self.old.kept ≡ None }
        requires count { self.old.count < 2 ^ 32 - 1 }
        requires words { self.old.words + words < 2 ^ 64 }
        ensures { self.new ≡ record { count = self.old.count + 1; words = self.old.words + words; kept = None } }
    {
        self.count += 1;
        self.words += words;
    }

    /// Whether they are kept.
    pub fn are_kept(&self) -> bool
        ensures { result ≡ is_some self.now.kept }
    {
        self.kept.is_some()
    }

    /// How many there are.
    pub fn count(&self) -> u32
        ensures { result ≡ self.now.count }
    {
        self.count
    }

    /// How many instruction words they have.
    pub fn words(&self) -> u64
        ensures { result ≡ self.now.words }
    {
        self.words
    }

    /// Takes the codes, which are kept.
    pub fn take(&mut self) -> CodeList
        requires { IsSome self.old.kept }
        ensures codes { Some result ≡ self.old.kept }
        ensures rest { self.new ≡ record self.old { kept = None } }
    {
        match self.kept.take() {
            Some(codes) => codes,
            None => unreachable!(),
        }
    }
}
