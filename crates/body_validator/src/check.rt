//! The check of a function's body, token by token.
//!
//! It is given the groups of locals and then the tokens, each with its offset, and says of each where it is, or refuses it.
//! A refusal changes nothing. Here is a body of a function from nothing to an i32:
//!
//! ```text
//! let mut check = Check::new(alloc, context, index)?;
//! check.token(30, i32.const 1)    Ok(Step { live: true, height_before: 0, height_after: 1 })
//! check.token(32, i32.const 2)    Ok(Step { live: true, height_before: 1, height_after: 2 })
//! check.token(34, i32.add)        Ok(Step { live: true, height_before: 2, height_after: 1 })
//! check.token(35, i64.eqz)        Err(Refused(invalid at 35)): its operand would be an i64
//! check.token(35, unreachable)    Ok(Step { live: true, height_before: 1, height_after: 0 })
//! check.token(36, i64.eqz)        Ok(Step { live: false, .. }): what isn't reachable may take anything
//! ```

ghost use Rattle.std.specs.Prelude.{◌≡◌, ◌↔◌, IsTrue, IsSome, List, [], ◌∷◌, ◌++◌, length, IfOk, IfSome, OnOk, OnErr, None};
ghost use Rattle.wasm_defs.specs.declared.token.Token.{Token as TokenGiven};
ghost use Rattle.wasm_defs.specs.declared.token.Token.TheVariants.{Plain as PlainGiven};
ghost use Rattle.wasm_defs.specs.declared.types.FuncType.{FuncType as FuncTypeGiven};
ghost use Rattle.wasm_defs.specs.Bodies.{Group};
ghost use Rattle.wasm_defs.specs.Context.{type_of_function};
ghost use Rattle.wasm_defs.specs.Trees.{Seq, Tree};
ghost use Rattle.wasm_defs.specs.Typing.{Context as ContextGiven, IsBody, function_type};
ghost use Rattle.wasm_defs.specs.Places.{places_of, greatest};
ghost use Rattle.index_spaces.specs.Spaces.{context_in};
ghost use Rattle.body_validator.specs.Checks.{Answered, IsAnswered, IsPlaced, IsGrouped, IsCounted, before_code, IsReached};
ghost use Rattle.body_validator.specs.Checking.{start_checker};
ghost use Rattle.body_validator.specs.declared.check.TokenStop.TheVariants.{NoMemory};

use crate::locals::Locals;
use crate::operands::Stop;
use crate::scope::Scope;
use crate::stack::Stack;
use crate::steps::{kind_of_fault, take, try_plain};
use index_spaces::Context;
use std::alloc::{AllocError, AllocFailed, Global};
use std::marker::Model;
use thiserror::Error;
use wasm_defs::{Kind, MAX_LOCALS, Plain, Refusal, Token, ValType};

/// Where a token is: whether the point before it is reachable, and the numbers of operands before and after it, those of the
/// enclosing blocks among them. They count where their points are reachable: what follows `unreachable`, `br`, `br_table` or
/// `return` in a block is not.
#[derive(Clone, Copy, Debug, PartialEq, Eq)]
pub struct Step {
    pub live: bool,
    // Why: docs/DECISIONS.md, "Heights of the check are `usize`"
    pub height_before: usize,
    pub height_after: usize,
}

/// Why a token or a group of locals isn't taken.
#[derive(Clone, Copy, Debug, PartialEq, Eq, Error)]
pub enum TokenStop {
    /// No tokens after it make a valid body, or the locals pass their limit.
    #[error("{:?} at byte {}", .0.kind, .0.offset)]
    Refused(Refusal),
    /// Out of memory.
    #[error("out of memory")]
    NoMemory,
}

impl From<AllocError> for TokenStop {
    ghost from_gives = { λ _ e. e ≡ NoMemory };

    fn from(_e: AllocError) -> TokenStop {
        TokenStop::NoMemory
    }
}

impl<T: Drop> From<AllocFailed<T>> for TokenStop {
    ghost from_gives = { λ _ e. e ≡ NoMemory };

    fn from(_e: AllocFailed<T>) -> TokenStop {
        TokenStop::NoMemory
    }
}

/// What a body needs: its greatest number of operands at a reachable point, and how many parameters and declared locals it has.
#[derive(Clone, Copy, Debug, PartialEq, Eq)]
pub struct Shape {
    pub greatest: usize,
    pub params: usize,
    pub locals: usize,
}

/// The check of one body (Core 3.4.1 and 5.5.13), which its groups of locals and then its tokens are given to in order. It goes
/// over each token once. What grows are the open frames, and their operands, of which a long list of types is one entry.
#[derive(Drop)]
pub struct Check<'a> {
    scope: Scope<'a>,
    stack: Stack<'a>,
    params: usize,
    greatest: usize,
}

impl<'a> Model for Check<'a> {
    ghost use Rattle.body_validator.specs.Checks.{Checked};
    ghost use Rattle.std.specs.Prelude.{◌≤◌, length};
    ghost use Rattle.body_validator.specs.Scopes.{unlabelled};

    ghost Value = { Checked };

    ghost view = { λ c. record {
      context = unlabelled c.scope;
      params = c.params;
      checker = record { frames = c.stack; greatest = c.greatest };
    } };

    ghost invariant = { λ c. c.params ≤ length c.scope.locals };
}

impl<'a> Check<'a> {
    /// The check of no body: it is over.
    pub fn idle(alloc: Global, context: &'a Context) -> Self {
        Check {
            scope: Scope {
                context,
                results: &[],
                locals: Locals::new(alloc, &[]),
            },
            stack: Stack::idle(alloc),
            params: 0,
            greatest: 0,
        }
    }

    /// Begins the body of the function of that index, whose type the context has.
    pub fn new(alloc: Global, context: &'a Context, index: u32) -> Result<Self, AllocError>
        requires { IsSome (function_type (context_in context.now) index) }
        ensures { let c = context_in context.now in
            IfOk result (λ check. check ≡ before_code c (type_of_function c index) []) }
    {
        let mut check = Check::idle(alloc, context);
        check.begin(context, index)?;
        Ok(check)
    }

    /// Begins the body of the function of that index, whose type the context has, in the room that other bodies took. Where memory runs
    /// out the check is as before.
    pub fn begin(&mut self, context: &'a Context, index: u32) -> Result<(), AllocError>
        requires { IsSome (function_type (context_in context.now) index) }
        ensures ok { let c = context_in context.now in
            OnOk result (self.new ≡ before_code c (type_of_function c index) []) }
        ensures err { OnErr result (self.new ≡ self.old) }
    {
        let function = context.type_of_function(index);
        let results = function.results.as_slice();
        self.stack.begin(results)?;
        self.scope
            .begin(context, function.params.as_slice(), results);
        self.params = self.scope.local_count();
        self.greatest = 0;
        Ok(())
    }

    /// Takes a group of declared locals of one type, whose count is at the offset, before the first token. It is refused where
    /// the declared locals pass their limit. The check is then as before, as it is where memory runs out.
    pub fn local_group(&mut self, offset: u64, count: u32, t: ValType) -> Result<(), TokenStop>
        requires { self.old.checker ≡ start_checker self.old.context }
        ensures answer { IsGrouped offset count t result self.old self.new }
        ensures before_tokens { self.new.checker ≡ start_checker self.new.context }
        ensures groups { (c : ContextGiven) (f : FuncTypeGiven) (groups : List Group)
            → self.old ≡ before_code c f groups
            → OnOk result (self.new ≡ before_code c f (groups ++ record { count = count; ty = t } ∷ [])) }
    {
        self.declare(offset, count, t)
    }

    fn declare(&mut self, offset: u64, count: u32, t: ValType) -> Result<(), TokenStop>
        ensures { IsGrouped offset count t result self.old self.new }
    {
        let declared = self.scope.local_count() - self.params;
        let most = MAX_LOCALS as usize;
        if most < declared || most - declared < count as usize {
            return Err(TokenStop::Refused(Refusal {
                offset,
                kind: Kind::Limit,
            }));
        }
        match self.scope.declare(count, t) {
            Ok(()) => Ok(()),
            Err(_) => Err(TokenStop::NoMemory),
        }
    }

    /// Takes the next token, which is at the offset. It is refused exactly where no tokens after it make a valid body: as
    /// malformed where none make a grammatical one, and else as invalid. The check is then as before, as it is where memory
    /// runs out.
    pub fn token(&mut self, offset: u64, token: &Token) -> Result<Step, TokenStop>
        ensures steps { Answered offset token.now result self.old self.new }
        ensures exact { (tokens : List TokenGiven) → IsReached tokens self.old
            → IsAnswered tokens token.now result self.old self.new }
        ensures places { (tokens : List TokenGiven) → IsReached tokens self.old
            → IsPlaced self.old.context tokens token.now result }
    {
        self.answer(offset, token)
    }

    /// Takes one of the commonest instructions as `token` does, or leaves it to `token`: then the check is as before.
    #[inline(always)]
    pub fn common(&mut self, offset: u64, plain: &Plain) -> Option<Result<Step, TokenStop>>
        ensures steps { IfSome result (λ r. Answered offset (PlainGiven plain.now) r self.old self.new) }
        ensures exact { (tokens : List TokenGiven) → IsReached tokens self.old
            → IfSome result (λ r. IsAnswered tokens (PlainGiven plain.now) r self.old self.new) }
        ensures places { (tokens : List TokenGiven) → IsReached tokens self.old
            → IfSome result (λ r. IsPlaced self.old.context tokens (PlainGiven plain.now) r) }
        ensures left { result ≡ None → self.new ≡ self.old }
    {
        self.common_answer(offset, plain)
    }

    #[inline(always)]
    fn common_answer(&mut self, _offset: u64, plain: &Plain) -> Option<Result<Step, TokenStop>>
        ensures steps { IfSome result (λ r. Answered _offset (PlainGiven plain.now) r self.old self.new) }
        ensures left { result ≡ None → self.new ≡ self.old }
    {
        let live = self.stack.is_live();
        let height_before = self.stack.height();
        match try_plain(&self.scope, &mut self.stack, plain) {
            Ok(()) => {}
            Err(Stop::Refused) => return None,
            Err(Stop::NoMemory) => return Some(Err(TokenStop::NoMemory)),
        }
        let height_after = self.stack.height();
        if self.greatest < height_after && self.stack.is_live() {
            self.greatest = height_after;
        }
        Some(Ok(Step {
            live,
            height_before,
            height_after,
        }))
    }

    fn answer(&mut self, offset: u64, token: &Token) -> Result<Step, TokenStop>
        ensures { Answered offset token.now result self.old self.new }
    {
        let live = self.stack.is_live();
        let height_before = self.stack.height();
        match take(&self.scope, &mut self.stack, token) {
            Ok(()) => {}
            // Why: docs/DECISIONS.md, "The first token at fault is the first after which no others complete the body"
            Err(Stop::Refused) => {
                return Err(TokenStop::Refused(Refusal {
                    offset,
                    kind: kind_of_fault(&self.stack, token),
                }));
            }
            Err(Stop::NoMemory) => return Err(TokenStop::NoMemory),
        }
        let height_after = self.stack.height();
        if self.greatest < height_after && self.stack.is_live() {
            self.greatest = height_after;
        }
        Ok(Step {
            live,
            height_before,
            height_after,
        })
    }

    /// The context of the module, which functions, types and globals are named by.
    pub fn context(&self) -> &Context
        ensures types { (context_in result.now).types ≡ self.now.context.types }
        ensures functions { (context_in result.now).functions ≡ self.now.context.functions }
        ensures globals { (context_in result.now).globals ≡ self.now.context.globals }
    {
        self.scope.context
    }

    /// Whether the body's last `end` was taken.
    pub fn is_over(&self) -> bool
        ensures { IsTrue result ↔ (self.now.checker.frames ≡ []) }
    {
        !self.stack.is_open()
    }

    /// What a body needs whose last `end` was taken.
    pub fn shape(&self) -> Shape
        requires { self.now.checker.frames ≡ [] }
        ensures counts { IsCounted result self.now }
        ensures measured { result.greatest ≡ self.now.checker.greatest }
        ensures greatest { (tokens : List TokenGiven) (tree : Seq) → IsReached tokens self.now → Tree tokens tree
            → IsBody self.now.context tree → result.greatest ≡ greatest (places_of self.now.context tree) }
    {
        Shape {
            greatest: self.greatest,
            params: self.params,
            locals: self.scope.local_count() - self.params,
        }
    }
}
