//! The operands of the innermost frame, as a flat stack keeps them.

ghost use Rattle.std.specs.Prelude.{◌≡◌, Bool, ◌+◌, ◌<◌, ◌≤◌, [], ◌∷◌, ◌++◌, length, map, reverse, take, drop, is_some, Some, vec_len, vec_capacity, OnOk};
ghost use Rattle.body_validator.specs.Checking.{is_of, joined, take_all, none_left, any_at, selected_of};
ghost use Rattle.wasm_defs.specs.Typing.{same_types};
ghost use Rattle.body_validator.specs.Stacks.{own_of};
ghost use Rattle.body_validator.specs.Exchange.{taken_types, with_condition, few_types, given_types, Exchanges};
ghost use Rattle.body_validator.specs.declared.operands.Stop.TheVariants.{NoMemory};

use std::alloc::AllocError;
use wasm_defs::ValType;

/// The type of an operand, where it is known.
pub type Operand = Option<ValType>;

#[inline(always)]
fn is_same(t: ValType, u: ValType) -> bool
    ensures { result ≡ is_of (Some t) u }
{
    match (t, u) {
        (ValType::I32, ValType::I32) => true,
        (ValType::I64, ValType::I64) => true,
        _ => false,
    }
}

/// Whether two lists of types are the same. All are compared, wherever they differ, so that a processor compares many at once.
pub fn are_same(left: &[ValType], right: &[ValType]) -> bool
    ensures { result ≡ same_types (reverse left.now) (reverse right.now) }
{
    if left.len() != right.len() {
        return false;
    }
    let mut same = true;
    let mut owed = left.len();
    while 0 < owed {
        owed -= 1;
        same &= is_same(left[owed], right[owed]);
    }
    same
}

#[inline(always)]
fn is_of_type(operand: Operand, t: ValType) -> bool
    ensures { result ≡ is_of operand t }
{
    match operand {
        Some(u) => is_same(u, t),
        None => true,
    }
}

/// Whether the topmost operands are of the types; where that is unknown, any others may be below these.
#[inline(always)]
pub fn fits(own: &[Operand], unknown: bool, types: &[ValType]) -> bool
    ensures { result ≡ is_some (take_all unknown (reverse types.now) (reverse own.now)) }
{
    let mut owed = types.len();
    let mut left = own.len();
    while 0 < owed {
        if left == 0 {
            return unknown;
        }
        owed -= 1;
        left -= 1;
        if !is_of_type(own[left], types[owed]) {
            return false;
        }
    }
    true
}

/// Whether the operands are just those of the types.
pub fn are_just(own: &[Operand], unknown: bool, types: &[ValType]) -> bool
    ensures { result ≡ none_left (take_all unknown (reverse types.now) (reverse own.now)) }
{
    own.len() <= types.len() && fits(own, unknown, types)
}

/// Takes so many operands, or all that are above the base.
#[inline(always)]
pub fn remove(operands: &mut Vec<Operand>, base: usize, count: usize)
    requires { base ≤ vec_len operands.old }
    ensures own { own_of operands.new.items base ≡ drop count (own_of operands.old.items base) }
    ensures below { take base operands.new.items ≡ take base operands.old.items }
    ensures above { base ≤ vec_len operands.new }
    ensures room { vec_capacity operands.new ≡ vec_capacity operands.old }
    ensures fewer { vec_len operands.new ≤ vec_len operands.old }
    ensures taken { base + count ≤ vec_len operands.old → vec_len operands.new + count ≡ vec_len operands.old }
{
    let height = operands.len();
    if height - base < count {
        operands.truncate(base);
    } else {
        operands.truncate(height - count);
    }
}

/// Puts operands of the types on top, for which there is room.
#[inline(always)]
pub fn put_all(operands: &mut Vec<Operand>, types: &[ValType])
    requires { vec_len operands.old + length types.now ≤ vec_capacity operands.old }
    ensures { operands.new.items ≡ operands.old.items ++ map Some types.now }
{
    for t in types {
        operands.push_reserved(Some(*t));
    }
}

/// What an instruction takes from the operands: values of these types and, where it has a condition, an i32 on top.
#[derive(Clone, Copy)]
pub struct Taken<'a> {
    pub types: &'a [ValType],
    pub condition: bool,
}

/// How many operands these are.
#[inline(always)]
pub fn count_of(types: &[ValType], condition: bool) -> usize
    ensures { result ≡ length (with_condition condition (reverse types.now)) }
{
    if condition {
        types.len() + 1
    } else {
        types.len()
    }
}

/// Whether an instruction finds what it takes.
#[inline(always)]
pub fn finds(own: &[Operand], unknown: bool, taken: Taken<'_>) -> bool
    ensures { result ≡ is_some (take_all unknown (taken_types taken.entry) (reverse own.now)) }
{
    if !taken.condition {
        return fits(own, unknown, taken.types);
    }
    if own.len() == 0 {
        return unknown;
    }
    let top = own.len() - 1;
    is_of_type(own[top], ValType::I32) && fits(&own[..top], unknown, taken.types)
}

/// Why operands stay as they are.
#[derive(Clone, Copy, Debug, PartialEq, Eq)]
pub enum Stop {
    /// They aren't of the types that are taken.
    Refused,
    NoMemory,
}

impl From<AllocError> for Stop {
    ghost from_gives = { λ _ e. e ≡ NoMemory };

    fn from(_e: AllocError) -> Stop {
        Stop::NoMemory
    }
}

/// Makes room for an operand in place of those that are taken. Mostly there is some, and always where any is taken.
#[inline(always)]
fn make_room_after(operands: &mut Vec<Operand>, taken: usize) -> Result<(), AllocError>
    ensures items { operands.new.items ≡ operands.old.items }
    ensures len { vec_len operands.new ≡ vec_len operands.old }
    ensures room { OnOk result (vec_len operands.new < vec_capacity operands.new + taken) }
{
    if 0 < taken || operands.len() < operands.capacity() {
        return Ok(());
    }
    operands.reserve(1)
}

/// The types of at most two operands, the topmost last.
#[derive(Clone, Copy)]
pub enum Few {
    Zero,
    One(ValType),
    Two(ValType, ValType),
}

/// How many these are.
#[inline(always)]
pub fn count_of_few(few: Few) -> usize
    ensures { result ≡ length (few_types few) }
{
    match few {
        Few::Zero => 0,
        Few::One(_) => 1,
        Few::Two(_, _) => 2,
    }
}

/// Whether these are the topmost operands, of which there are as many.
#[inline(always)]
fn are_topmost(operands: &[Operand], few: Few) -> bool
    requires { length (few_types few) ≤ length operands.now }
    ensures { (unknown : Bool) → result ≡ is_some (take_all unknown (few_types few) (reverse operands.now)) }
{
    let height = operands.len();
    match few {
        Few::Zero => true,
        Few::One(t) => is_of_type(operands[height - 1], t),
        Few::Two(s, t) => {
            is_of_type(operands[height - 1], t) && is_of_type(operands[height - 2], s)
        }
    }
}

/// Puts an operand of the type on top, for which there is room, or none.
#[inline(always)]
fn put_maybe(operands: &mut Vec<Operand>, given: Option<ValType>)
    requires { vec_len operands.old + length (given_types given) ≤ vec_capacity operands.old }
    ensures { operands.new.items ≡ operands.old.items ++ map Some (given_types given) }
{
    if let Some(t) = given {
        operands.push_reserved(Some(t));
    }
}

/// Takes few operands from those above the base, which has as many above it, and puts one in their place, or none.
#[inline(always)]
pub fn exchange_few(
    operands: &mut Vec<Operand>,
    base: usize,
    taken: Few,
    given: Option<ValType>,
) -> Result<(), Stop>
    requires { base + length (few_types taken) ≤ vec_len operands.old }
    ensures own { (unknown : Bool) → Exchanges unknown base (few_types taken) (given_types given) result operands.old.items operands.new.items }
    ensures below { take base operands.new.items ≡ take base operands.old.items }
    ensures above { base ≤ vec_len operands.new }
{
    if !are_topmost(&operands[base..], taken) {
        return Err(Stop::Refused);
    }
    let count = count_of_few(taken);
    if make_room_after(operands, count).is_err() {
        return Err(Stop::NoMemory);
    }
    remove(operands, base, count);
    put_maybe(operands, given);
    Ok(())
}

/// Puts an operand on top, for which there is room.
pub fn put(operands: &mut Vec<Operand>, operand: Operand)
    requires { vec_len operands.old < vec_capacity operands.old }
    ensures { operands.new.items ≡ operands.old.items ++ operand ∷ [] }
{
    operands.push_reserved(operand);
}

/// The operand so far below the topmost one.
fn operand_at(own: &[Operand], unknown: bool, depth: usize) -> Option<Operand>
    ensures { result ≡ any_at unknown (reverse own.now) depth }
{
    if depth < own.len() {
        return Some(own[own.len() - 1 - depth]);
    }
    if unknown { Some(None) } else { None }
}

fn joined_type(left: Operand, right: Operand) -> Option<Operand>
    ensures { result ≡ joined left right }
{
    match (left, right) {
        (None, _) => Some(right),
        (_, None) => Some(left),
        (Some(t), Some(u)) => { if is_same(t, u) { Some(left) } else { None } }
    }
}

/// What `select` leaves in place of a condition and two operands of one type.
pub fn selected(own: &[Operand], unknown: bool) -> Option<Operand>
    ensures { result ≡ selected_of unknown (reverse own.now) }
{
    let condition = operand_at(own, unknown, 0)?;
    if !is_of_type(condition, ValType::I32) {
        return None;
    }
    let left = operand_at(own, unknown, 1)?;
    let right = operand_at(own, unknown, 2)?;
    joined_type(left, right)
}
