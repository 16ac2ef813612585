//! Codes that lie one after the other.

ghost use Rattle.std.specs.Prelude.{◌≡◌, ◌<◌, ◌≤◌, ◌++◌, ◌∷◌, [], length, OnOk, OnErr};
ghost use Rattle.std.specs.List.{between};
ghost use Rattle.code_list.specs.CodeLists.{code_at, end_before, words_of, IsParts};

use rv_isa::{Code, Relocation, TrapSite, Words};
use std::alloc::{AllocError, Global};
use std::marker::Model;

/// Where a code ends among the instruction words, the calls and the traps of all codes, and how many slots of the stack it needs.
#[derive(Clone, Copy, Debug, PartialEq, Eq)]
pub struct CodeEnd {
    /// The number of instruction words up to the code's end, those before the first code among them.
    pub words: usize,
    /// The number of calls up to there.
    pub calls: usize,
    /// The number of traps up to there.
    pub sites: usize,
    /// The slots of the stack that the code needs, of 8 bytes each.
    pub need: u32,
}

/// Codes, one after the other. Contracts see the list of them.
///
/// The first code may begin behind instruction words that are no code's:
///
/// ```text
/// text      | before the first code | code 0 | code 1 |
///                                   ^        ^        ^
///                                 begin   ends[0]  ends[1]
/// ```
#[derive(Drop)]
pub struct CodeList {
    text: Words,
    calls: Vec<Relocation>,
    sites: Vec<TrapSite>,
    /// Where the first code begins.
    begin: CodeEnd,
    ends: Vec<CodeEnd>,
}

impl Model for CodeList {
    ghost use Rattle.std.specs.Prelude.{List, length};
    ghost use Rattle.rv_isa.specs.declared.compiled.Code.{Code};
    ghost use Rattle.code_list.specs.CodeLists.{codes_from, AreEnds};

    ghost Value = { List Code };

    ghost view = { λ l. codes_from l.text l.calls.items l.sites.items l.begin l.ends.items };

    ghost invariant = { λ l. AreEnds (length l.text) (length l.calls.items) (length l.sites.items) l.begin l.ends.items };
}

/// How long a code is, and its traps.
#[derive(Clone, Copy)]
pub struct CodeView<'a> {
    /// How many instruction words it has.
    pub words: usize,
    /// Its traps, in the order of their instruction words; indices count from the code's first word.
    pub traps: &'a [TrapSite],
}

/// Codes as their parts: the instruction words and the calls of all of them, and where each ends.
#[derive(Drop)]
pub struct CodeParts {
    /// The instruction words of all codes, behind those that are no code's.
    pub text: Words,
    /// The calls of all codes, in order; their indices count from the first word of the code that each is in.
    pub calls: Vec<Relocation>,
    /// Where the first code begins.
    pub begin: CodeEnd,
    /// Where each code ends, in order.
    pub ends: Vec<CodeEnd>,
}

/// Where the code of an index begins.
fn end_before(begin: CodeEnd, ends: &[CodeEnd], index: usize) -> CodeEnd
    requires { index ≤ length ends.now }
    ensures { result ≡ end_before begin ends.now index }
{
    match index {
        0 => begin,
        _ => ends[index - 1],
    }
}

/// The items between two indices.
fn part<T>(items: &[T], begin: usize, end: usize) -> &[T]
    requires rises { begin ≤ end }
    requires within { end ≤ length items.now }
    ensures { result.now ≡ between begin end items.now }
{
    &items[begin..end]
}

/// The instruction words of a code.
#[derive(Drop)]
enum Added<'a> {
    Lent(&'a Words),
    Own(Words),
}

/// Puts instruction words after others.
fn append_words(text: &mut Words, words: Added<'_>) -> Result<(), AllocError>
    ensures ok { OnOk result (text.new ≡ text.old ++ words_of words.entry) }
    ensures err { OnErr result (text.new ≡ text.old) }
{
    match words {
        Added::Lent(words) => text.append(words),
        Added::Own(words) => text.append_own(words),
    }
}

impl CodeList {
    /// No codes.
    pub fn new(alloc: Global) -> CodeList
        ensures { result ≡ [] }
    {
        CodeList {
            text: Words::new(alloc),
            calls: Vec::new(alloc),
            sites: Vec::new(alloc),
            begin: CodeEnd {
                words: 0,
                calls: 0,
                sites: 0,
                need: 0,
            },
            ends: Vec::new(alloc),
        }
    }

    /// Leaves so many instruction words free before the first code, where there is none so far.
    pub fn begin(&mut self, words: usize) -> Result<(), AllocError>
        ensures { self.new ≡ self.old }
    {
        if self.ends.is_empty() {
            self.text.resize(words)?;
            self.begin.words = words;
        }
        Ok(())
    }

    /// One code more, after the others: its instruction words, calls and traps, and the slots that it needs.
    fn append(
        &mut self,
        words: Added<'_>,
        calls: &[Relocation],
        sites: &[TrapSite],
        need: u32,
    ) -> Result<(), AllocError>
        ensures ok { OnOk result (self.new ≡ self.old
            ++ (record { words = words_of words.entry; relocations = calls.now; traps = sites.now; need = need }) ∷ []) }
        ensures err { OnErr result (self.new ≡ self.old) }
    {
        self.ends.reserve(1)?;
        self.calls.reserve(calls.len())?;
        self.sites.reserve(sites.len())?;
        append_words(&mut self.text, words)?;
        self.calls.extend_from_slice(calls)?;
        self.sites.extend_from_slice(sites)?;
        self.ends.push(CodeEnd {
            words: self.text.len(),
            calls: self.calls.len(),
            sites: self.sites.len(),
            need,
        })?;
        Ok(())
    }

    /// One code more, after the others.
    pub fn push(&mut self, code: &Code) -> Result<(), AllocError>
        ensures ok { OnOk result (self.new ≡ self.old ++ code.now ∷ []) }
        ensures err { OnErr result (self.new ≡ self.old) }
    {
        self.append(
            Added::Lent(&code.words),
            code.relocations.as_slice(),
            code.traps.as_slice(),
            code.need,
        )
    }

    /// One code more, after the others. The words of a code that is longer than all others together don't stand twice.
    pub fn push_own(&mut self, code: Code) -> Result<(), AllocError>
        ensures ok { OnOk result (self.new ≡ self.old ++ code ∷ []) }
        ensures err { OnErr result (self.new ≡ self.old) }
    {
        self.append(
            Added::Own(code.words),
            code.relocations.as_slice(),
            code.traps.as_slice(),
            code.need,
        )
    }

    /// How many there are.
    pub fn count(&self) -> usize
        ensures { result ≡ length self.now }
    {
        self.ends.len()
    }

    /// The code of an index.
    pub fn get(&self, index: usize) -> CodeView<'_>
        requires { index < length self.now }
        ensures words { result.words ≡ length (code_at self.now index).words }
        ensures traps { result.traps.now ≡ (code_at self.now index).traps }
    {
        let begin = end_before(self.begin, &self.ends, index);
        let end = self.ends[index];
        let words = end.words - begin.words;
        let traps = part(&self.sites, begin.sites, end.sites);
        CodeView { words, traps }
    }

    /// Their parts, without the traps.
    pub fn into_parts(self) -> CodeParts
        ensures { IsParts self result }
    {
        CodeParts {
            text: self.text,
            calls: self.calls,
            begin: self.begin,
            ends: self.ends,
        }
    }
}
