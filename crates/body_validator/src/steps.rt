//! One token's step of the open frames.

ghost use Rattle.std.specs.Prelude.{◌≡◌, [], ◌∷◌, reverse, IfSome};
ghost use Rattle.body_validator.specs.Checking.{applied, labels, step, fault_kind};
ghost use Rattle.wasm_defs.specs.declared.token.Token.TheVariants.{Plain as PlainGiven};
ghost use Rattle.wasm_defs.specs.Typing.{Fixed, only_if, rule_of};
ghost use Rattle.body_validator.specs.Exchange.{few_types, given_types, Steps, Tries};
ghost use Rattle.body_validator.specs.Scopes.{rule_meant, unlabelled, with_labels, begun};

use crate::accesses::{load_alignment, load_type, store_alignment, store_type};
use crate::instruction_types::{Rule, block_types, rule_for};
use crate::operands::{Few, Stop, Taken};
use crate::scope::Scope;
use crate::stack::{Opening, Stack};
use wasm_defs::{
    BlockType, GlobalType, Kind, LoadOp, MemArg, Operation, Plain, StoreOp, Token, ValType,
};

fn apply<'a>(stack: &mut Stack<'a>, rule: Option<Rule<'a>>) -> Result<(), Stop>
    ensures { Steps (applied (rule_meant rule.entry) stack.old) result stack.old stack.new }
{
    match rule {
        Some(Rule::Fixed(taken, given)) => stack.exchange(taken, given),
        Some(Rule::Stops(taken)) => stack.stop(taken),
        Some(Rule::Discards) => stack.discard(),
        Some(Rule::Selects) => stack.select(),
        None => Err(Stop::Refused),
    }
}

/// A `global.set` takes the type of a global that may be set.
#[inline(always)]
fn set_global(global: GlobalType) -> Option<(Few, Option<ValType>)>
    ensures { IfSome result (λ e. only_if global.mutable (Fixed (global.ty ∷ []) []) ≡ Fixed (few_types e.0) (given_types e.1)) }
{
    if !global.mutable {
        return None;
    }
    Some((Few::One(global.ty), None))
}

/// A load, where the module has a memory and the access is aligned no further than its bytes.
#[inline(always)]
fn load<'a>(scope: &Scope<'a>, op: LoadOp, place: MemArg) -> Option<(Few, Option<ValType>)>
    ensures { IfSome result (λ e. rule_of scope.now (Plain.Load op place) ≡ Fixed (few_types e.0) (given_types e.1)) }
{
    if !scope.can_access(place, load_alignment(op)) {
        return None;
    }
    Some((Few::One(ValType::I32), Some(load_type(op))))
}

/// A store, where the module has a memory and the access is aligned no further than its bytes.
#[inline(always)]
fn store<'a>(scope: &Scope<'a>, op: StoreOp, place: MemArg) -> Option<(Few, Option<ValType>)>
    ensures { IfSome result (λ e. rule_of scope.now (Plain.Store op place) ≡ Fixed (few_types e.0) (given_types e.1)) }
{
    if !scope.can_access(place, store_alignment(op)) {
        return None;
    }
    Some((Few::Two(ValType::I32, store_type(op)), None))
}

/// A `br_if` whose label takes at most one value.
#[inline(always)]
fn branch_if(types: &[ValType]) -> Option<(Few, Option<ValType>)>
    ensures { IfSome result (λ e. Fixed (ValType.I32 ∷ reverse types.now) (reverse types.now) ≡ Fixed (few_types e.0) (given_types e.1)) }
{
    match types.len() {
        0 => Some((Few::One(ValType::I32), None)),
        1 => Some((Few::Two(types[0], ValType::I32), Some(types[0]))),
        _ => None,
    }
}

/// What one of the commonest instructions takes from the operands, and what it leaves in their place: at most two, and at most one.
#[inline(always)]
fn few_of<'a>(scope: &Scope<'a>, stack: &Stack<'a>, plain: &Plain) -> Option<(Few, Option<ValType>)>
    ensures { IfSome result (λ e. rule_of (with_labels scope.now (labels stack.now)) plain.now ≡ Fixed (few_types e.0) (given_types e.1)) }
{
    match plain {
        Plain::LocalGet(x) => Some((Few::Zero, Some(scope.local(*x)?))),
        Plain::LocalSet(x) => Some((Few::One(scope.local(*x)?), None)),
        Plain::LocalTee(x) => {
            let t = scope.local(*x)?;
            Some((Few::One(t), Some(t)))
        }
        Plain::Const(t, _) => Some((Few::Zero, Some(*t))),
        Plain::Numeric(Operation::Binary(t, _)) => Some((Few::Two(*t, *t), Some(*t))),
        Plain::Numeric(Operation::Compare(t, _)) => Some((Few::Two(*t, *t), Some(ValType::I32))),
        Plain::Numeric(Operation::Test(t)) => Some((Few::One(*t), Some(ValType::I32))),
        Plain::GlobalGet(x) => Some((Few::Zero, Some(scope.global(*x)?.ty))),
        Plain::GlobalSet(x) => set_global(scope.global(*x)?),
        Plain::Load(op, place) => load(scope, *op, *place),
        Plain::Store(op, place) => store(scope, *op, *place),
        Plain::BrIf(label) => branch_if(stack.label(*label)?),
        _ => None,
    }
}

/// Takes one of the commonest instructions, where the single operands do. Nothing goes over lists of types here, and where the
/// instruction is known, so is what it takes and leaves. A refusal says nothing.
#[inline(always)]
fn take_common<'a>(scope: &Scope<'a>, stack: &mut Stack<'a>, plain: &Plain) -> Result<(), Stop>
    ensures { Tries (applied (rule_of (with_labels scope.now (labels stack.old)) plain.now) stack.old) result stack.old stack.new }
{
    match few_of(scope, stack, plain) {
        Some((taken, given)) => stack.exchange_few(taken, given),
        None => Err(Stop::Refused),
    }
}

/// Takes one more plain instruction.
fn take_plain<'a>(scope: &Scope<'a>, stack: &mut Stack<'a>, plain: &Plain) -> Result<(), Stop>
    ensures { Steps (applied (rule_of (with_labels scope.now (labels stack.old)) plain.now) stack.old) result stack.old stack.new }
{
    match take_common(scope, stack, plain) {
        Ok(()) => Ok(()),
        Err(Stop::NoMemory) => Err(Stop::NoMemory),
        Err(Stop::Refused) => {
            let rule = rule_for(scope, stack, plain);
            apply(stack, rule)
        }
    }
}

/// Takes one more token that is one of the commonest instructions, where the single operands do. A refusal says nothing.
#[inline(always)]
pub fn try_plain<'a>(scope: &Scope<'a>, stack: &mut Stack<'a>, plain: &Plain) -> Result<(), Stop>
    ensures { Tries (step (unlabelled scope.now) (PlainGiven plain.now) stack.old) result stack.old stack.new }
{
    take_common(scope, stack, plain)
}

fn begin<'a>(
    scope: &Scope<'a>,
    stack: &mut Stack<'a>,
    opening: Opening,
    block: &BlockType,
    condition: bool,
) -> Result<(), Stop>
    ensures { Steps (begun scope.now opening block.now condition stack.old) result stack.old stack.new }
{
    let Some((params, results)) = block_types(scope, *block) else {
        return Err(Stop::Refused);
    };
    let taken = Taken {
        types: params,
        condition,
    };
    stack.enter(opening, taken, results)
}

/// Takes one more token.
pub fn take<'a>(scope: &Scope<'a>, stack: &mut Stack<'a>, token: &Token) -> Result<(), Stop>
    ensures { Steps (step (unlabelled scope.now) token.now stack.old) result stack.old stack.new }
{
    match token {
        Token::Plain(plain) => take_plain(scope, stack, plain),
        Token::Block(block) => begin(scope, stack, Opening::Block, block, false),
        Token::Loop(block) => begin(scope, stack, Opening::Loop, block, false),
        Token::If(block) => begin(scope, stack, Opening::If, block, true),
        Token::Else => stack.turn(),
        Token::End => stack.leave(),
    }
}

/// The kind of the error of a token that isn't taken: no tokens make an `else` that closes no `if`, or anything after
/// the body's own `end`, grammatical.
pub fn kind_of_fault(stack: &Stack<'_>, token: &Token) -> Kind
    ensures { result ≡ fault_kind token.now stack.now }
{
    if !stack.is_open() {
        return Kind::Malformed;
    }
    match token {
        Token::Else => {
            if stack.awaits_else() {
                Kind::Invalid
            } else {
                Kind::Malformed
            }
        }
        _ => Kind::Invalid,
    }
}
