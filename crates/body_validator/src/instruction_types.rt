//! The types of instructions: what each takes from the operands, and what it leaves in their place.

ghost use Rattle.std.specs.Prelude.{◌≡◌, [], ◌∷◌, reverse, None, slice_get, MatchOption};
ghost use Rattle.wasm_defs.specs.Typing.{Fixed, Stops, with_type, are_labels, only_if, called, operand_types, operated, rule_of, block_type};
ghost use Rattle.body_validator.specs.Checking.{labels};
ghost use Rattle.body_validator.specs.Exchange.{taken_types};
ghost use Rattle.body_validator.specs.Scopes.{with_labels, rule_meant, IsBlockType};

use crate::accesses::{load_alignment, load_type, store_alignment, store_type};
use crate::operands::{Taken, are_same};
use crate::scope::Scope;
use crate::stack::Stack;
use wasm_defs::ValType::{I32, I64};
use wasm_defs::{
    BlockType, BulkOp, FuncType, GlobalType, LoadOp, MemArg, Operands, Operation, Plain, StoreOp,
    ValType,
};

/// What a plain instruction takes from the operands, and what it leaves in their place.
#[derive(Clone, Copy)]
pub enum Rule<'a> {
    Fixed(Taken<'a>, &'a [ValType]),
    /// What follows is not reachable.
    Stops(Taken<'a>),
    Discards,
    Selects,
}

fn none<'a>() -> &'a [ValType]
    ensures { result.now ≡ [] }
{
    &[]
}

fn one<'a>(t: ValType) -> &'a [ValType]
    ensures { result.now ≡ t ∷ [] }
{
    match t {
        ValType::I32 => &[ValType::I32],
        ValType::I64 => &[ValType::I64],
    }
}

/// Three numbers: two addresses or a value, and how many bytes.
fn three_words<'a>() -> &'a [ValType]
    ensures { result.now ≡ ValType.I32 ∷ ValType.I32 ∷ ValType.I32 ∷ [] }
{
    &[ValType::I32, ValType::I32, ValType::I32]
}

/// An address, and a value above it.
fn address_and<'a>(t: ValType) -> &'a [ValType]
    ensures { result.now ≡ ValType.I32 ∷ t ∷ [] }
{
    match t {
        ValType::I32 => &[ValType::I32, ValType::I32],
        ValType::I64 => &[ValType::I32, ValType::I64],
    }
}

/// Whether each of the labels takes these types.
fn are_all_labels(stack: &Stack<'_>, types: &[ValType], indices: &[u32]) -> bool
    ensures { result ≡ are_labels (labels stack.now) (reverse types.now) indices.now }
{
    for index in indices {
        match stack.label(*index) {
            Some(others) => {
                if !are_same(others, types) {
                    return false;
                }
            }
            None => return false,
        }
    }
    true
}

#[inline(always)]
fn plainly(types: &[ValType]) -> Taken<'_>
    ensures { taken_types result ≡ reverse types.now }
{
    Taken {
        types,
        condition: false,
    }
}

/// With an i32 on top: a condition, or an index.
#[inline(always)]
fn conditionally(types: &[ValType]) -> Taken<'_>
    ensures { taken_types result ≡ ValType.I32 ∷ reverse types.now }
{
    Taken {
        types,
        condition: true,
    }
}

fn fixed<'a>(params: &'a [ValType], results: &'a [ValType]) -> Option<Rule<'a>>
    ensures { rule_meant result ≡ Fixed (reverse params.now) (reverse results.now) }
{
    Some(Rule::Fixed(plainly(params), results))
}

/// The types of a numeric instruction's operands.
fn operand_types<'a>(operands: Operands) -> &'a [ValType]
    ensures { reverse result.now ≡ operand_types operands }
{
    match operands {
        Operands::One(t) => one(t),
        Operands::Two(I32, I32) => &[I32, I32],
        Operands::Two(I32, I64) => &[I32, I64],
        Operands::Two(I64, I32) => &[I64, I32],
        Operands::Two(I64, I64) => &[I64, I64],
    }
}

/// Numeric instructions (Core 3.3.1).
fn operation<'a>(op: Operation) -> Option<Rule<'a>>
    ensures { rule_meant result ≡ Fixed (operated op).params (operated op).results }
{
    let ty = op.ty();
    fixed(operand_types(ty.operands), one(ty.result))
}

/// A rule that wants a condition to hold.
fn only_if<'a>(condition: bool, rule: Option<Rule<'a>>) -> Option<Rule<'a>>
    ensures { rule_meant result ≡ only_if condition (rule_meant rule.entry) }
{
    if condition { rule } else { None }
}

fn branch_if<'a>(types: &'a [ValType]) -> Option<Rule<'a>>
    ensures { rule_meant result ≡ Fixed (ValType.I32 ∷ reverse types.now) (reverse types.now) }
{
    Some(Rule::Fixed(conditionally(types), types))
}

fn branch_table<'a>(stack: &Stack<'a>, indices: &[u32], last: u32) -> Option<Rule<'a>>
    ensures { rule_meant result ≡ with_type (slice_get (labels stack.now) last)
        (λ types. only_if (are_labels (labels stack.now) types indices.now) (Stops (ValType.I32 ∷ types))) }
{
    let types = stack.label(last)?;
    only_if(
        are_all_labels(stack, types, indices),
        Some(Rule::Stops(conditionally(types))),
    )
}

fn call<'a>(callee: &'a FuncType) -> Option<Rule<'a>>
    ensures { rule_meant result ≡ called [] callee.now }
{
    fixed(callee.params.as_slice(), callee.results.as_slice())
}

fn call_indirect<'a>(scope: &Scope<'a>, index: u32, table: u32) -> Option<Rule<'a>>
    ensures { rule_meant result ≡ rule_of scope.now (Plain.CallIndirect index table) }
{
    if !scope.has_table(table) {
        return None;
    }
    let callee = scope.type_at(index)?;
    let taken = conditionally(callee.params.as_slice());
    Some(Rule::Fixed(taken, callee.results.as_slice()))
}

fn tee<'a>(t: ValType) -> Option<Rule<'a>>
    ensures { rule_meant result ≡ Fixed (t ∷ []) (t ∷ []) }
{
    fixed(one(t), one(t))
}

fn global_set<'a>(global: GlobalType) -> Option<Rule<'a>>
    ensures { rule_meant result ≡ only_if global.mutable (Fixed (global.ty ∷ []) []) }
{
    only_if(global.mutable, fixed(one(global.ty), none()))
}

fn load<'a>(scope: &Scope<'a>, op: LoadOp, place: MemArg) -> Option<Rule<'a>>
    ensures { rule_meant result ≡ rule_of scope.now (Plain.Load op place) }
{
    only_if(
        scope.can_access(place, load_alignment(op)),
        fixed(one(I32), one(load_type(op))),
    )
}

fn store<'a>(scope: &Scope<'a>, op: StoreOp, place: MemArg) -> Option<Rule<'a>>
    ensures { rule_meant result ≡ rule_of scope.now (Plain.Store op place) }
{
    only_if(
        scope.can_access(place, store_alignment(op)),
        fixed(address_and(store_type(op)), none()),
    )
}

/// `memory.fill`, `memory.copy` and `memory.init` (Core 2.0, 3.3.7).
fn bulk<'a>(scope: &Scope<'a>, op: BulkOp) -> Option<Rule<'a>>
    ensures { rule_meant result ≡ rule_of scope.now (Plain.Bulk op) }
{
    let is_there = match op {
        BulkOp::Fill | BulkOp::Copy => true,
        BulkOp::Init(segment) => scope.has_segment(segment),
    };
    only_if(scope.has_memory() && is_there, fixed(three_words(), none()))
}

/// The types of a plain instruction in the innermost frame, one row for each or each group (Core 3.3.1 to 3.3.5).
pub fn rule_for<'a>(scope: &Scope<'a>, stack: &Stack<'a>, plain: &Plain) -> Option<Rule<'a>>
    ensures { rule_meant result ≡ rule_of (with_labels scope.now (labels stack.now)) plain.now }
{
    match plain {
        Plain::Unreachable => Some(Rule::Stops(plainly(none()))),
        Plain::Nop => fixed(none(), none()),
        Plain::Br(l) => Some(Rule::Stops(plainly(stack.label(*l)?))),
        Plain::BrIf(l) => branch_if(stack.label(*l)?),
        Plain::BrTable(ls, l) => branch_table(stack, ls.as_slice(), *l),
        Plain::Return => Some(Rule::Stops(plainly(scope.results))),
        Plain::Call(f) => call(scope.type_of_function(*f)?),
        Plain::CallIndirect(i, table) => call_indirect(scope, *i, *table),
        Plain::Drop => Some(Rule::Discards),
        Plain::Select => Some(Rule::Selects),
        Plain::LocalGet(x) => fixed(none(), one(scope.local(*x)?)),
        Plain::LocalSet(x) => fixed(one(scope.local(*x)?), none()),
        Plain::LocalTee(x) => tee(scope.local(*x)?),
        Plain::GlobalGet(x) => fixed(none(), one(scope.global(*x)?.ty)),
        Plain::GlobalSet(x) => global_set(scope.global(*x)?),
        Plain::Load(op, place) => load(scope, *op, *place),
        Plain::Store(op, place) => store(scope, *op, *place),
        Plain::MemorySize => only_if(scope.has_memory(), fixed(none(), one(I32))),
        Plain::MemoryGrow => only_if(scope.has_memory(), fixed(one(I32), one(I32))),
        Plain::Bulk(op) => bulk(scope, *op),
        Plain::DataDrop(segment) => only_if(scope.has_segment(*segment), fixed(none(), none())),
        Plain::Const(t, _) => fixed(none(), one(*t)),
        Plain::Numeric(op) => operation(*op),
    }
}

/// What a block takes and gives (Core 2.3.2).
pub fn block_types<'a>(
    scope: &Scope<'a>,
    block: BlockType,
) -> Option<(&'a [ValType], &'a [ValType])>
    ensures { MatchOption result (block_type scope.now block ≡ None) (IsBlockType scope.now block) }
{
    match block {
        BlockType::Empty => Some((none(), none())),
        BlockType::Value(t) => Some((none(), one(t))),
        BlockType::Index(i) => {
            let f = scope.type_at(i)?;
            Some((f.params.as_slice(), f.results.as_slice()))
        }
    }
}
