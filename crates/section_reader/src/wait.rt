//! What a push reader waits for.
//!
//! An entry that isn't whole is read from its start with each piece that comes in its short fields, but not while a long one
//! goes on: a name, the parameters or the results of a type, the indices of an element segment, the bytes of a data segment.
//! Of these only what came is looked at. So each byte costs a constant, whatever the pieces are.

ghost use Rattle.std.specs.Prelude.{◌≡◌, ◌≤◌, ◌<◌, ◌+◌, ◌-◌, ◌^◌, ℕ, List, ◌++◌, length, IfSome};
ghost use Rattle.wasm_defs.specs.Fields.{Cursor};
ghost use Rattle.leb_feed.specs.Reads.{Reads, NeedsNoMemory};
ghost use Rattle.section_reader.specs.Waits.{element_of, resumes_at, IsPlaced, Follows, Stays};

use crate::entry_fields::index;
use leb_feed::{Fields, Stop, state_after};
use wasm_defs::Inside;

/// An element of a list.
#[derive(Clone, Copy, Debug, PartialEq, Eq)]
pub enum Element {
    ValueType,
    /// An index into so many.
    Index(u64),
}

/// What may come before the kept bytes are read again.
#[derive(Clone, Copy, Debug, PartialEq, Eq)]
pub enum Wait {
    /// Nothing: each piece is read at once.
    Nothing,
    /// So many bytes, whatever they are: those of a data segment.
    Bytes(u64),
    /// The UTF-8 of a name goes on: how many of its bytes are still to come, and its state.
    Text {
        owed: u32,
        inside: Inside,
    },
    /// A list goes on: the index among the kept bytes where an element of it begins, and how many elements are still to come
    /// from there on.
    List {
        place: usize,
        owed: u32,
        element: Element,
    },
}

impl Element {
    /// Passes over one.
    fn pass(self, fields: &mut Fields<'_>) -> Result<(), Stop>
        ensures read { Reads (element_of self) (λ n. tt) result fields.old fields.new }
        ensures free { NeedsNoMemory result }
    {
        match self {
            Element::ValueType => {
                fields.value_type()?;
            }
            Element::Index(most) => {
                index(fields, most)?;
            }
        }
        Ok(())
    }

    /// Passes over those that are whole, of so many: how many are left then, where the next one isn't.
    fn skim(self, fields: &mut Fields<'_>, owed: u32) -> Option<u32>
        ensures { IfSome result (λ left. Stays (element_of self) owed fields.old left fields.new) }
    {
        for passed in 0..owed {
            let mut next = fields.fork();
            match self.pass(&mut next) {
                Ok(()) => *fields = next,
                Err(Stop::Wants) => return Some(owed - passed),
                Err(_) => return None,
            }
        }
        None
    }
}

impl Wait {
    /// What is waited for once these bytes, the last of all that are there, came; none where all are to be read.
    pub fn after(self, all: &[u8], bytes: &[u8], at: u64, end: u64) -> Option<Wait>
        requires placed { IsPlaced self (record { at = at; rest = all.now; end = end }) }
        requires ahead { at ≤ end }
        requires fits { at + length all.now < 2 ^ 64 }
        ensures follows { (kept : List ℕ) → all.now ≡ kept ++ bytes.now → resumes_at self ≤ length kept
            → IfSome result (Follows self (record { at = at; rest = kept; end = end }) bytes.now) }
        ensures placed { IfSome result (λ wait. IsPlaced wait (record { at = at; rest = all.now; end = end })) }
    {
        match self {
            Wait::Nothing => None,
            Wait::Bytes(free) => bytes_after(free, bytes),
            Wait::Text { owed, inside } => text_after(owed, inside, bytes),
            Wait::List {
                place,
                owed,
                element,
            } => list_after(place, owed, element, all, bytes, at, end),
        }
    }
}

fn bytes_after(free: u64, bytes: &[u8]) -> Option<Wait>
    ensures follows { (c : Cursor) → IfSome result (Follows (Wait.Bytes free) c bytes.now) }
    ensures place { IfSome result (λ wait. resumes_at wait ≡ 0) }
{
    let came = bytes.len() as u64;
    if free < came {
        return None;
    }
    Some(Wait::Bytes(free - came))
}

fn text_after(owed: u32, inside: Inside, bytes: &[u8]) -> Option<Wait>
    ensures follows { (c : Cursor) → IfSome result (Follows (Wait.Text owed inside) c bytes.now) }
    ensures place { IfSome result (λ wait. resumes_at wait ≡ 0) }
{
    if owed as usize <= bytes.len() {
        return None;
    }
    let owed = owed - bytes.len() as u32;
    let inside = state_after(inside, bytes)?;
    if owed < u32::from(inside.due) {
        return None;
    }
    Some(Wait::Text { owed, inside })
}

fn list_after(
    place: usize,
    owed: u32,
    element: Element,
    all: &[u8],
    bytes: &[u8],
    at: u64,
    end: u64,
) -> Option<Wait>
    requires among { place ≤ length all.now }
    requires inside { at + place ≤ end }
    requires fits { at + length all.now < 2 ^ 64 }
    ensures follows { (kept : List ℕ) → all.now ≡ kept ++ bytes.now → place ≤ length kept
        → IfSome result (Follows (Wait.List place owed element) (record { at = at; rest = kept; end = end }) bytes.now) }
    ensures placed { IfSome result (λ wait. IsPlaced wait (record { at = at; rest = all.now; end = end })) }
{
    let mut fields = Fields::new(&all[place..], at + place as u64, end);
    let owed = element.skim(&mut fields, owed)?;
    Some(Wait::List {
        place: all.len() - fields.rest().len(),
        owed,
        element,
    })
}
