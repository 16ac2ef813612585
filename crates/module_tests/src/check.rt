//! Bodies that were validated by hand, token by token.
ghost use Rattle.std.specs.Prelude.{◌≤◌, IfOk, length};
ghost use Rattle.index_spaces.specs.ItemLimits.{HasSmallType};

use body_validator::{Check, Shape, TokenStop};
use index_spaces::{AddStop, Context, ContextBuilder};
use std::alloc::{AllocError, Global};
use std::test::Fail;
use wasm_defs::{
    BinaryOp, BlockType, Constant, FuncType, Item, Labels, Limits, LoadOp, MemArg, Operation,
    Plain, StoreOp, Token, ValType, ValTypes,
};

/// How many of the items below a module has whose one function is [i32] -> [i32].
const SMALL: u32 = 2;

/// How many it has with function 1, which is [i64 i32] -> [], a table, a memory, and two globals.
const LARGE: u32 = 8;

/// How many it has with function 2, which is [] -> [i32 ..] with 20 results.
const LONG: u32 = 10;

/// Bodies of function 0 of the small module: the tokens, and how many operands a valid body has at most, or the error and the number of
/// its token.
const SMALL_BODIES: &str = "\
unreachable, i32.add, end = valid, 0 operands
unreachable, select, i32.const, br_if 0, i64.eqz = Invalid at byte 4
local.get 0, i32.const, i32.add, end = valid, 2 operands
local.get 0, if, i32.const, end = Invalid at byte 3
else = Malformed at byte 0
block, local.get 0, local.get 0, br_table 0 1 = Invalid at byte 3
memory.size = Invalid at byte 0
local.get 0, local.get 0, call_indirect 0 = Invalid at byte 2
call 1 = Invalid at byte 0
i32.const = None";

/// The same of the large module.
const LARGE_BODIES: &str = "\
local.get 0, i32.load 2, end = valid, 1 operands
local.get 0, i32.load 3 = Invalid at byte 1
local.get 0, i64.const, i64.store32 2, memory.size, memory.grow, end = valid, 2 operands
i64.const, local.get 0, i64.store32 2 = Invalid at byte 2
global.get 0, i64.eqz, end = valid, 1 operands
i32.const, global.set 1 = Invalid at byte 1
global.get 2 = Invalid at byte 0
i64.const, local.get 0, call 1, local.get 0, local.get 0, call_indirect 0, end = valid, 2 operands
local.get 0, call_indirect 0 = Invalid at byte 1
local.get 0, local.get 0, call_indirect 1 = Invalid at byte 2";

/// The same of the long module.
const LONG_BODIES: &str = "\
call 2, select, select, select, select, select, select, select, select, select, i32.add, end = valid, 20 operands
local.get 0, call 2, br_if 0, unreachable, i64.eqz, select, end = valid, 21 operands
call 2, i64.eqz = Invalid at byte 1
call 2, end = Invalid at byte 1
call 2, block, i32.add = Invalid at byte 2";

/// A function type.
fn signature(alloc: Global, params: &[ValType], results: &[ValType]) -> Result<Item, AllocError>
    requires params { length params.now ≤ 2 }
    requires results { length results.now ≤ 20 }
    ensures { IfOk result HasSmallType }
{
    Ok(Item::Signature {
        form: 0,
        params: 0,
        results: 0,
        ty: FuncType {
            params: ValTypes::new(Vec::from_slice(alloc, params)?),
            results: ValTypes::new(Vec::from_slice(alloc, results)?),
        },
    })
}

const LIMITS: Limits = Limits {
    flag: 0,
    min: (1, 1),
    max: None,
};

/// A global, which begins with 0.
fn global(ty: ValType, mutable: bool) -> Item
    ensures { HasSmallType result }
{
    Item::Global {
        ty: (0, ty),
        mutable: (0, mutable),
        init: Constant {
            opcode: 0,
            value: (0, 0),
            end: 0,
        },
    }
}

/// An item by its number, in the order in which the modules list them.
fn item(alloc: Global, number: u32) -> Result<Item, AllocError>
    ensures { IfOk result HasSmallType }
{
    match number {
        0 => signature(alloc, &[ValType::I32], &[ValType::I32]),
        1 => Ok(Item::Function { type_index: (0, 0) }),
        2 => signature(alloc, &[ValType::I64, ValType::I32], &[]),
        3 => Ok(Item::Function { type_index: (0, 1) }),
        4 => Ok(Item::Table {
            element: 0,
            limits: LIMITS,
        }),
        5 => Ok(Item::Memory { limits: LIMITS }),
        6 => Ok(global(ValType::I64, true)),
        8 => signature(alloc, &[], &[ValType::I32; 20]),
        9 => Ok(Item::Function { type_index: (0, 2) }),
        _ => Ok(global(ValType::I32, false)),
    }
}

/// Adds so many of the items.
fn add_items(alloc: Global, builder: &mut ContextBuilder, items: u32) -> Result<(), AddStop> {
    for number in 0..items {
        let Ok(item) = item(alloc, number) else {
            return Err(AddStop::NoMemory);
        };
        builder.add(&item)?;
    }
    Ok(())
}

/// The module of so many of the items.
fn module(alloc: Global, items: u32) -> Result<Context, AddStop> {
    let mut builder = ContextBuilder::new(alloc);
    add_items(alloc, &mut builder, items)?;
    Ok(builder.finish())
}

/// A `br_table` with a label before its last one.
fn br_table(alloc: Global, label: u32, last: u32) -> Result<Plain, AllocError> {
    let labels = Labels::new(Vec::from_slice(alloc, &[label])?);
    Ok(Plain::BrTable(labels, last))
}

/// An instruction but those of control, by its name and its number: an index, a label, or an alignment.
fn plain(alloc: Global, name: &str, number: u32) -> Result<Plain, AllocError> {
    let memory = MemArg {
        align: number,
        offset: 4,
    };
    Ok(match name {
        "unreachable" => Plain::Unreachable,
        "select" => Plain::Select,
        "br_if" => Plain::BrIf(number),
        "br_table" => br_table(alloc, 0, 1)?,
        "call" => Plain::Call(number),
        "call_indirect" => Plain::CallIndirect(number, 0),
        "local.get" => Plain::LocalGet(number),
        "global.get" => Plain::GlobalGet(number),
        "global.set" => Plain::GlobalSet(number),
        "i32.load" => Plain::Load(LoadOp::I32Load, memory),
        "i64.store32" => Plain::Store(StoreOp::I64Store32, memory),
        "memory.size" => Plain::MemorySize,
        "memory.grow" => Plain::MemoryGrow,
        "i32.const" => Plain::Const(ValType::I32, 0),
        "i64.const" => Plain::Const(ValType::I64, 0),
        "i64.eqz" => Plain::Numeric(Operation::Test(ValType::I64)),
        _ => Plain::Numeric(Operation::Binary(ValType::I32, BinaryOp::Add)),
    })
}

/// A token by its text.
fn token(alloc: Global, text: &str) -> Result<Token, AllocError> {
    let (name, number) = text.split_once(' ').unwrap_or((text, ""));
    match name {
        "block" => Ok(Token::Block(BlockType::Empty)),
        "if" => Ok(Token::If(BlockType::Value(ValType::I32))),
        "else" => Ok(Token::Else),
        "end" => Ok(Token::End),
        _ => Ok(Token::Plain(plain(alloc, name, number.parse().unwrap_or(0))?)),
    }
}

/// Takes the tokens of a body, each at its number among them.
fn take_all(alloc: Global, check: &mut Check<'_>, body: &str) -> Result<(), TokenStop> {
    for (i, text) in body.split(", ").enumerate() {
        let Ok(token) = token(alloc, text) else {
            return Err(TokenStop::NoMemory);
        };
        check.token(i as u64, &token)?;
    }
    Ok(())
}

/// The shape of a body that is over.
fn shape_of(check: Check<'_>) -> Option<Shape> {
    if check.is_over() {
        Some(check.shape())
    } else {
        None
    }
}

/// What comes of a body of function 0 in a context.
fn checked_in(alloc: Global, context: &Context, body: &str) -> Result<String, Fail> {
    if !context.has_type_of_function(0) {
        return Err(Fail::new("no function"));
    }
    let mut check = Check::new(alloc, context, 0)?;
    let taken = take_all(alloc, &mut check, body);
    let shape = shape_of(check);
    told(alloc, taken, shape)
}

/// How many operands a valid body has at most, or why it is refused. All bodies are of a function with one parameter, and have no locals.
fn told(alloc: Global, taken: Result<(), TokenStop>, shape: Option<Shape>) -> Result<String, Fail> {
    match (taken, shape) {
        (Err(stop), _) => Ok(format!(in alloc; "{stop}")?),
        (
            Ok(()),
            Some(
                Shape {
                    greatest,
                    params: 1,
                    locals: 0,
                },
            ),
        ) => Ok(format!(in alloc; "valid, {greatest} operands")?),
        (Ok(()), shape) => Ok(format!(in alloc; "{shape:?}")?),
    }
}

/// What comes of a body of function 0 in the module of so many of the items.
fn checked(alloc: Global, items: u32, body: &str) -> Result<String, Fail> {
    let context = module(alloc, items)?;
    checked_in(alloc, &context, body)
}

#[test]
fn small_bodies_are_checked(rt: HostRuntime) -> Result<(), Fail> {
    for row in SMALL_BODIES.lines() {
        let (body, want) = row.split_once(" = ").unwrap_or((row, ""));
        assert_eq!(rt; checked(rt.alloc(), SMALL, body)?.as_str(), want, "{row}");
    }
    Ok(())
}

#[test]
fn large_bodies_are_checked(rt: HostRuntime) -> Result<(), Fail> {
    for row in LARGE_BODIES.lines() {
        let (body, want) = row.split_once(" = ").unwrap_or((row, ""));
        assert_eq!(rt; checked(rt.alloc(), LARGE, body)?.as_str(), want, "{row}");
    }
    Ok(())
}

#[test]
fn long_bodies_are_checked(rt: HostRuntime) -> Result<(), Fail> {
    for row in LONG_BODIES.lines() {
        let (body, want) = row.split_once(" = ").unwrap_or((row, ""));
        assert_eq!(rt; checked(rt.alloc(), LONG, body)?.as_str(), want, "{row}");
    }
    Ok(())
}

/// What comes of groups of locals in a context: too many, as many as there may be, and then one more.
fn grouped_in(alloc: Global, context: &Context) -> Result<String, Fail> {
    if !context.has_type_of_function(0) {
        return Err(Fail::new("no function"));
    }
    let mut check = Check::new(alloc, context, 0)?;
    let many = check.local_group(7, 50_001, ValType::I32);
    let all = check.local_group(7, 50_000, ValType::I64);
    let more = check.local_group(9, 1, ValType::I32);
    Ok(format!(in alloc; "{many:?} {all:?} {more:?}")?)
}

/// The same in the small module.
fn grouped(alloc: Global) -> Result<String, Fail> {
    let context = module(alloc, SMALL)?;
    grouped_in(alloc, &context)
}

#[test]
fn locals_have_a_limit(rt: HostRuntime) -> Result<(), Fail> {
    assert_eq!(rt;
        grouped(rt.alloc())?.as_str(),
        "Err(Refused(Refusal { offset: 7, kind: Limit })) Ok(()) Err(Refused(Refusal { offset: 9, kind: Limit }))"
    );
    Ok(())
}
