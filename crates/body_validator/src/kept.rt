//! The operands of all frames as they are kept: one by one, but for long lists of types that were put at once.
//!
//! A call of two bytes may leave 1,000 operands, so a list of [`LONG`] types or more is kept as that list. What a body takes is then in
//! proportion to its bytes. Here a call left 1,000 operands, and two were put on top:
//!
//! ```text
//! lists     1,000 types, below 3
//! singles   a b c d e             start 3: d and e are above the list, a, b and c below it
//! ```
//!
//! An instruction that takes five lacks three: the list's last 16 become single ones between c and d, and it takes five of them all.

ghost use Rattle.std.specs.Prelude.{◌≡◌, ℕ, ◌+◌, ◌<◌, ◌≤◌, Bool, false, [], ◌++◌, length, map, reverse, take, drop, is_some, Some, vec_len, IfOk};
ghost use Rattle.std.specs.Prelude.{OnOk, OnErr};
ghost use Rattle.body_validator.specs.Checking.{take_all, none_left};
ghost use Rattle.body_validator.specs.Stacks.{own_of};
ghost use Rattle.body_validator.specs.Exchange.{taken_types, few_types, given_types, Exchanges, TakesOne, TakesThree};
ghost use Rattle.body_validator.specs.Kept.{flat, floor_of, spreads, IsKept, IsSeen, AreShown, AreSame, HasRoom, KeepsRoom, IsTakenFrom, IsTried};

use crate::lists::Lists;
use crate::operands::{
    Few, Operand, Stop, Taken, are_just, count_of, count_of_few, exchange_few, finds, put, put_all,
    remove, selected,
};
use std::alloc::{AllocError, Global};
use wasm_defs::ValType;

// Why: docs/DECISIONS.md, "The check keeps a long list of types as one entry"
/// Lists of fewer types are kept one by one.
const LONG: usize = 16;

/// The most operands in lists, so that all of them fit a usize.
const MOST_LISTED: usize = 1 << 62;

/// The most single operands below a list, whose number has 32 bits: more take 8 GiB, which counts as out of memory.
const MOST_BELOW: usize = 0xFFFF_FFFF;

/// The operands of all frames, seen from the base of the innermost one.
#[derive(Drop)]
pub struct Operands<'a> {
    pub singles: Vec<Operand>,
    pub lists: Lists<'a>,
    /// How many operands are in the lists.
    pub listed: usize,
    /// The single ones from here on are the topmost of the innermost frame: they begin at its base, or above a list of its own.
    pub start: usize,
    /// Whether any others may be below these.
    pub unknown: bool,
    /// Room for operands that are moved up.
    pub moved: Vec<Operand>,
}

/// Puts operands of the types below those from this place on.
fn insert_all(
    singles: &mut Vec<Operand>,
    moved: &mut Vec<Operand>,
    at: usize,
    types: &[ValType],
) -> Result<(), AllocError>
    requires { at ≤ vec_len singles.old }
    ensures ok { OnOk result (singles.new.items ≡ take at singles.old.items ++ (map Some types.now ++ drop at singles.old.items)) }
    ensures err { OnErr result (singles.new.items ≡ singles.old.items) }
{
    moved.clear();
    moved.reserve(types.len())?;
    put_all(moved, types);
    moved.extend_from_slice(&singles[at..])?;
    singles.reserve(types.len())?;
    singles.truncate(at);
    match singles.extend_from_slice(moved) {
        Ok(()) => Ok(()),
        Err(_) => unreachable!(),
    }
}

impl<'a> Operands<'a> {
    pub fn new(alloc: Global) -> Self
        ensures empty { flat result ≡ [] }
        ensures seen { IsSeen 0 false result }
    {
        Operands {
            singles: Vec::new(alloc),
            lists: Lists::new(alloc),
            listed: 0,
            start: 0,
            unknown: false,
            moved: Vec::new(alloc),
        }
    }

    /// Lets go of all, and keeps their room.
    pub fn clear(&mut self)
        ensures empty { flat self.new ≡ [] }
        ensures seen { IsSeen 0 false self.new }
    {
        self.singles.clear();
        self.lists.clear();
        self.listed = 0;
        self.start = 0;
        self.unknown = false;
    }

    /// How many there are.
    pub fn height(&self) -> usize
        requires { IsKept self.now }
        ensures { result ≡ length (flat self.now) }
    {
        self.singles.len() + self.listed
    }

    /// Makes up to so many of the topmost list's last operands single ones.
    fn lower(&mut self, most: usize) -> Result<(), AllocError>
        requires kept { IsKept self.old }
        requires some { 0 < length (spreads self.old.lists) }
        requires more { 0 < most }
        ensures same { flat self.new ≡ flat self.old }
        ensures kept { IsKept self.new }
        ensures fewer { OnOk result (self.new.listed + length (spreads self.new.lists) < self.old.listed + length (spreads self.old.lists)) }
        ensures err { OnErr result (AreSame self.old self.new) }
    {
        let list = self.lists.topmost();
        let count = list.types.len();
        let left = if most < count { count - most } else { 0 };
        insert_all(
            &mut self.singles,
            &mut self.moved,
            list.below,
            &list.types[left..],
        )?;
        self.lists.shorten(left);
        self.listed -= count - left;
        Ok(())
    }

    /// Sees the operands from this base.
    pub fn look(&mut self, base: usize, unknown: bool)
        requires kept { IsKept self.old }
        requires within { base ≤ length (flat self.old) }
        ensures same { flat self.new ≡ flat self.old }
        ensures seen { IsSeen base unknown self.new }
        ensures room { KeepsRoom self.old self.new }
        ensures listed { self.new.listed ≡ self.old.listed }
        ensures lists { length (spreads self.new.lists) ≡ length (spreads self.old.lists) }
    {
        let floor = self.lists.floor();
        if floor + self.listed <= base {
            self.start = base - self.listed;
            self.unknown = unknown;
        } else {
            self.start = floor;
            self.unknown = false;
        }
    }

    /// Makes so many of the topmost operands above the base single ones, or all of them. Mostly they are.
    #[inline(always)]
    fn show(&mut self, base: usize, unknown: bool, count: usize) -> Result<(), AllocError>
        requires { IsSeen base unknown self.old }
        ensures same { flat self.new ≡ flat self.old }
        ensures seen { IsSeen base unknown self.new }
        ensures shown { OnOk result (AreShown base count self.new) }
    {
        if base < self.start + self.listed && self.singles.len() - self.start < count {
            return self.show_lists(base, unknown, count);
        }
        Ok(())
    }

    /// The same where some of them are in lists.
    #[cold]
    #[inline(never)]
    fn show_lists(&mut self, base: usize, unknown: bool, count: usize) -> Result<(), AllocError>
        requires { IsSeen base unknown self.old }
        ensures same { flat self.new ≡ flat self.old }
        ensures seen { IsSeen base unknown self.new }
        ensures shown { OnOk result (AreShown base count self.new) }
    {
        while base < self.start + self.listed && self.singles.len() - self.start < count {
            let missing = count - (self.singles.len() - self.start);
            // some more than are missing, so that the next instructions find single ones
            let most = if missing < LONG { LONG } else { missing };
            self.lower(most)?;
            self.look(base, unknown);
        }
        Ok(())
    }

    /// Takes the topmost list away, or what of it lies above this height.
    #[cold]
    #[inline(never)]
    fn cut_list(&mut self, height: usize)
        requires kept { IsKept self.old }
        requires above { height < floor_of (reverse (spreads self.old.lists)) + self.old.listed }
        ensures same { take height (flat self.new) ≡ take height (flat self.old) }
        ensures within { height ≤ length (flat self.new) }
        ensures kept { IsKept self.new }
        ensures fewer { self.new.listed + length (spreads self.new.lists) < self.old.listed + length (spreads self.old.lists) }
        ensures room { KeepsRoom self.old self.new }
    {
        let list = self.lists.topmost();
        let count = list.types.len();
        let lowest = list.below + (self.listed - count);
        let left = if lowest < height { height - lowest } else { 0 };
        self.singles.truncate(list.below);
        self.lists.shorten(left);
        self.listed -= count - left;
    }

    /// Leaves so many operands.
    pub fn cut(&mut self, height: usize)
        requires kept { IsKept self.old }
        requires within { height ≤ length (flat self.old) }
        ensures left { flat self.new ≡ take height (flat self.old) }
        ensures kept { IsKept self.new }
        ensures room { KeepsRoom self.old self.new }
    {
        while height < self.lists.floor() + self.listed {
            self.cut_list(height);
        }
        self.singles.truncate(height - self.listed);
    }

    /// Makes room for a list of types.
    pub fn make_room(&mut self, types: usize) -> Result<(), AllocError>
        requires { IsKept self.old }
        ensures same { AreSame self.old self.new }
        ensures room { OnOk result (HasRoom types self.new) }
    {
        if types < LONG {
            return self.singles.reserve(types);
        }
        if MOST_LISTED - self.listed < types || MOST_BELOW < self.singles.len() {
            return Err(AllocError);
        }
        self.lists.reserve()
    }

    /// Puts operands of the types on top, for which there is room.
    pub fn put(&mut self, types: &'a [ValType])
        requires kept { IsKept self.old }
        requires room { HasRoom (length types.now) self.old }
        ensures laid { flat self.new ≡ flat self.old ++ map Some types.now }
        ensures seen { (base : ℕ) (unknown : Bool) → IsSeen base unknown self.old → IsSeen base unknown self.new }
    {
        if types.len() < LONG {
            put_all(&mut self.singles, types);
            return;
        }
        self.lists.push(types, self.singles.len());
        self.listed += types.len();
        self.start = self.singles.len();
        self.unknown = false;
    }

    /// Takes few single operands from those above the base, and puts one in their place, or none. A refusal says only that the single
    /// ones don't do. Where they are fewer than it takes, it looks no further.
    #[inline(always)]
    pub fn exchange_few(&mut self, taken: Few, given: Option<ValType>) -> Result<(), Stop>
        requires { self.old.start ≤ vec_len self.old.singles }
        ensures { (base : ℕ) (unknown : Bool) → IsSeen base unknown self.old
            → IsTried base unknown (few_types taken) (given_types given) result self.old self.new }
    {
        if self.singles.len() - self.start < count_of_few(taken) {
            return Err(Stop::Refused);
        }
        exchange_few(&mut self.singles, self.start, taken, given)
    }

    /// Takes operands from those above the base, which may be in lists, and puts others in their place.
    pub fn exchange(
        &mut self,
        base: usize,
        unknown: bool,
        taken: Taken<'_>,
        given: &'a [ValType],
    ) -> Result<(), Stop>
        requires { IsSeen base unknown self.old }
        ensures own { Exchanges unknown base (taken_types taken.entry) (reverse given.now) result (flat self.old) (flat self.new) }
        ensures below { take base (flat self.new) ≡ take base (flat self.old) }
        ensures seen { IsSeen base unknown self.new }
    {
        if !self.finds(base, unknown, taken)? {
            return Err(Stop::Refused);
        }
        self.make_room(given.len())?;
        self.remove(count_of(taken.types, taken.condition));
        self.put(given);
        Ok(())
    }

    /// Whether an instruction finds what it takes.
    #[inline(always)]
    pub fn finds(
        &mut self,
        base: usize,
        unknown: bool,
        taken: Taken<'_>,
    ) -> Result<bool, AllocError>
        requires { IsSeen base unknown self.old }
        ensures found { IfOk result (λ b. b ≡ is_some (take_all unknown (taken_types taken.entry) (own_of (flat self.old) base))) }
        ensures same { flat self.new ≡ flat self.old }
        ensures seen { IsSeen base unknown self.new }
        ensures shown { OnOk result (AreShown base (length (taken_types taken.entry)) self.new) }
    {
        let count = count_of(taken.types, taken.condition);
        self.show(base, unknown, count)?;
        Ok(finds(&self.singles[self.start..], self.unknown, taken))
    }

    /// Whether those above the base are just operands of the types.
    pub fn are_just(
        &mut self,
        base: usize,
        unknown: bool,
        types: &[ValType],
    ) -> Result<bool, AllocError>
        requires { IsSeen base unknown self.old }
        ensures found { IfOk result (λ b. b ≡ none_left (take_all unknown (reverse types.now) (own_of (flat self.old) base))) }
        ensures same { flat self.new ≡ flat self.old }
        ensures seen { IsSeen base unknown self.new }
    {
        let count = types.len() + 1;
        self.show(base, unknown, count)?;
        Ok(are_just(&self.singles[self.start..], self.unknown, types))
    }

    /// Takes one.
    pub fn discard(&mut self, base: usize, unknown: bool) -> Result<(), Stop>
        requires { IsSeen base unknown self.old }
        ensures own { TakesOne unknown base result (flat self.old) (flat self.new) }
        ensures below { take base (flat self.new) ≡ take base (flat self.old) }
        ensures seen { IsSeen base unknown self.new }
    {
        self.show(base, unknown, 1)?;
        if self.singles.len() == self.start && !self.unknown {
            return Err(Stop::Refused);
        }
        remove(&mut self.singles, self.start, 1);
        Ok(())
    }

    /// Takes a condition and two operands of one type, and puts one.
    pub fn select(&mut self, base: usize, unknown: bool) -> Result<(), Stop>
        requires { IsSeen base unknown self.old }
        ensures own { TakesThree unknown base result (flat self.old) (flat self.new) }
        ensures below { take base (flat self.new) ≡ take base (flat self.old) }
        ensures seen { IsSeen base unknown self.new }
    {
        self.show(base, unknown, 3)?;
        let Some(operand) = selected(&self.singles[self.start..], self.unknown) else {
            return Err(Stop::Refused);
        };
        self.singles.reserve(1)?;
        remove(&mut self.singles, self.start, 3);
        put(&mut self.singles, operand);
        Ok(())
    }

    /// Takes so many operands that are there.
    pub fn remove(&mut self, count: usize)
        requires { self.old.start ≤ vec_len self.old.singles }
        ensures taken { (base : ℕ) (unknown : Bool) → IsSeen base unknown self.old → AreShown base count self.old
            → IsTakenFrom base unknown count self.old self.new }
        ensures room { KeepsRoom self.old self.new }
    {
        remove(&mut self.singles, self.start, count);
    }
}
