//! What the items before say of the next one.

ghost use Rattle.std.specs.Prelude.{◌≡◌, OnOk, OnErr, is_some};
ghost use Rattle.std.specs.FinMap as map;
ghost use Rattle.wasm_defs.specs.Entries.{note, nothing};
ghost use Rattle.wasm_defs.specs.Outside.{entered, owes, owes_code, owes_data, agrees, is_misplaced};
ghost use Rattle.section_reader.specs.Counts.{HasRoom};

use crate::sections::{CODE, DATA};
use std::alloc::{AllocError, Global};
use std::collections::BTreeMap;
use std::marker::Model;
use wasm_defs::Item;

/// The names that were exported, each with its offset.
#[derive(Drop)]
pub struct Names {
    offsets: BTreeMap<Vec<u8>, u64>,
}

impl Model for Names {
    ghost use Rattle.std.specs.Prelude.{ℕ};
    ghost use Rattle.std.specs.FinMap as map;
    ghost use Rattle.std.specs.Cmp.Lexicographic.{slice_cmp};
    ghost use Rattle.std.specs.Ordering.{nat_cmp};
    ghost use Rattle.section_reader.specs.ByText.{by_text};
    ghost use Rattle.section_reader.specs.Counts.{names_code};

    ghost Value = { map.FinMap (slice_cmp nat_cmp) ℕ };

    ghost coded = { names_code };

    ghost view = { λ a. map.from_entries (by_text a.offsets.entries) };
}

impl Names {
    pub fn new(alloc: Global) -> Names
        ensures { result ≡ map.empty }
    {
        Names {
            offsets: BTreeMap::new(alloc),
        }
    }

    pub fn contains(&self, name: &[u8]) -> bool
        ensures { result ≡ is_some (map.get self.now name.now) }
    {
        self.offsets.contains_key(name)
    }

    pub fn insert(&mut self, alloc: Global, name: &[u8], offset: u64) -> Result<(), AllocError>
        ensures ok { OnOk result (self.new ≡ map.insert self.old name.now offset) }
        ensures err { OnErr result (self.new ≡ self.old) }
    {
        let name = Vec::from_slice(alloc, name)?;
        self.offsets.insert(name, offset)?;
        Ok(())
    }
}

/// How many items of each sort came before (functions: with the imported ones; declared: without), the exported names,
/// whether the code section's count came, the data count where one came, and the last section's position in the order.
#[derive(Drop)]
pub struct Seen {
    pub types: u64,
    pub functions: u64,
    pub declared: u64,
    pub tables: u64,
    pub memories: u64,
    pub globals: u64,
    pub names: Names,
    pub counted: bool,
    pub data_count: Option<u32>,
    pub last: u8,
}

impl Model for Seen {
    ghost use Rattle.wasm_defs.specs.Entries.{Seen as Before};
    ghost use Rattle.section_reader.specs.Counts.{seen_code};

    ghost Value = { Before };

    ghost coded = { seen_code };

    ghost view = { λ s. record {
      types = s.types;
      functions = s.functions;
      declared = s.declared;
      tables = s.tables;
      memories = s.memories;
      globals = s.globals;
      names = s.names;
      counted = s.counted;
      data_count = s.data_count;
      last = s.last;
    } };
}

impl Seen {
    /// At a module's first byte.
    pub fn new(alloc: Global) -> Seen
        ensures { result ≡ nothing }
    {
        Seen {
            types: 0,
            functions: 0,
            declared: 0,
            tables: 0,
            memories: 0,
            globals: 0,
            names: Names::new(alloc),
            counted: false,
            data_count: None,
            last: 0,
        }
    }

    /// Functions are declared, and no code section came.
    fn owes_code(&self) -> bool
        ensures { result ≡ owes_code self.now }
    {
        0 < self.declared && self.last < CODE
    }

    /// Data segments are counted, and no data section came.
    fn owes_data(&self) -> bool
        ensures { result ≡ owes_data self.now }
    {
        match self.data_count {
            Some(count) => 0 < count && self.last < DATA,
            None => false,
        }
    }

    /// A section has to come yet.
    pub fn owes(&self) -> bool
        ensures { result ≡ owes self.now }
    {
        self.owes_code() || self.owes_data()
    }

    /// Whether no section of that position may come next (Core 2.0, 5.5.16).
    pub fn is_misplaced(&self, position: u8) -> bool
        ensures { result ≡ is_misplaced self.now position }
    {
        DATA < position
            || (position != 0 && position <= self.last)
            || (position == DATA && self.owes_code())
    }

    /// Whether a data section has as many segments as the data count says, where there is one (Core 2.0, 5.5.16).
    pub fn agrees(&self, segments: u32) -> bool
        ensures { result ≡ agrees self.now.data_count segments }
    {
        match self.data_count {
            Some(count) => segments == count,
            None => true,
        }
    }

    /// A section begins.
    pub fn enter(&mut self, position: u8)
        ensures { self.new ≡ entered self.old position }
    {
        if position != 0 {
            self.last = position;
        }
    }

    /// An item came.
    pub fn note_item(&mut self, alloc: Global, item: &Item) -> Result<(), AllocError>
        requires { HasRoom self.old }
        ensures ok { OnOk result (self.new ≡ note self.old item.now) }
        ensures err { OnErr result (self.new ≡ self.old) }
    {
        match item {
            Item::Signature { .. } => self.types += 1,
            Item::Imported { .. } => self.functions += 1,
            Item::Function { .. } => {
                self.functions += 1;
                self.declared += 1;
            }
            Item::Table { .. } => self.tables += 1,
            Item::Memory { .. } => self.memories += 1,
            Item::Global { .. } => self.globals += 1,
            Item::Exported { name, .. } => {
                let (at, name) = name;
                self.names.insert(alloc, name.as_slice(), *at)?;
            }
            Item::DataCount { count } => self.data_count = Some(count.1),
            Item::Code { .. } => self.counted = true,
            Item::Start { .. }
            | Item::Element { .. }
            | Item::Passive { .. }
            | Item::Segment { .. } => {}
        }
        Ok(())
    }
}
