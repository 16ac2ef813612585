//! A context of items that were worked out by hand, and what it has.
ghost use Rattle.std.specs.Prelude.{◌≡◌, ◌≤◌, IfOk, length};
ghost use Rattle.index_spaces.specs.ItemLimits.{HasSmallType};

use index_spaces::{AddStop, Context, ContextBuilder};
use std::alloc::{AllocError, Global};
use std::test::Fail;
use wasm_defs::{
    Bytes, Constant, Extern, FuncType, Indices, Item, Kind, Limits, Name, Refusal, ValType,
    ValTypes,
};

/// What the context of the items below has and answers: its lists; whether types and functions with the indices 0 to 2 are there, the types
/// of these functions, how many functions there are, how many of them are imported and declared, whether there are a memory, global 0 and
/// global 1; and what the first of each kind is.
const TOLD: &str = "\
types [FuncType { params: Sequence { elements: [I64] }, results: Sequence { elements: [] } }, FuncType { params: Sequence { elements: [] }, \
    results: Sequence { elements: [] } }]
functions of types [0, 1]
tables []
memories [Limits { flag: 50, min: (51, 2), max: None }]
globals [GlobalType { ty: I64, mutable: true }] from [-7]
imports [Import { offset: 18, module: Sequence { elements: [101, 110, 118] }, name: Sequence { elements: [108, 111, 103] }, type_index: 0 }]
exports [Export { name: Sequence { elements: [109, 101, 109] }, kind: Memory, index: 0 }, Export { name: Sequence { elements: [114, 117, 110] }, \
    kind: Function, index: 1 }]
elements [ElementRow { place: 3, functions: Sequence { elements: [1, 0] } }, ElementRow { place: 4294967295, functions: Sequence { elements: [] } }]
data [DataRow { place: Some(65535), bytes: Sequence { elements: [97, 98] } }, DataRow { place: Some(4294967295), bytes: Sequence { elements: [] } \
    }, DataRow { place: None, bytes: Sequence { elements: [99] } }]
data count Some(3)
start Some(1)
[true, true, false] [true, true, false] [Some(0), Some(1), None] (2, 1, 1) (true, true, false)
18 FuncType { params: Sequence { elements: [I64] }, results: Sequence { elements: [] } } FuncType { params: Sequence { elements: [I64] }, results: \
    Sequence { elements: [] } } GlobalType { ty: I64, mutable: true } -7
";

fn types(alloc: Global, types: &[ValType]) -> Result<ValTypes, AllocError>
    ensures { IfOk result (λ list. list ≡ types.now) }
{
    Ok(ValTypes::new(Vec::from_slice(alloc, types)?))
}

fn name(alloc: Global, text: &str) -> Result<Name, AllocError> {
    Ok(Name::new(Vec::from_slice(alloc, text.as_bytes())?))
}

fn signature(alloc: Global, params: &[ValType], results: &[ValType]) -> Result<Item, AllocError>
    requires params { length params.now ≤ 1 }
    requires results { length results.now ≤ 1 }
    ensures { IfOk result HasSmallType }
{
    let params = types(alloc, params)?;
    let results = types(alloc, results)?;
    Ok(Item::Signature {
        form: 11,
        params: 12,
        results: 14,
        ty: FuncType { params, results },
    })
}

fn imported(alloc: Global) -> Result<Item, AllocError>
    ensures { IfOk result HasSmallType }
{
    Ok(Item::Imported {
        module: (18, name(alloc, "env")?),
        name: (20, name(alloc, "log")?),
        kind: 22,
        type_index: (23, 0),
    })
}

fn exported(alloc: Global, text: &str, kind: Extern, index: u32) -> Result<Item, AllocError>
    ensures { IfOk result HasSmallType }
{
    Ok(Item::Exported {
        name: (80, name(alloc, text)?),
        kind: (83, kind),
        index: (84, index),
    })
}

const fn constant(value: i64) -> Constant {
    Constant {
        opcode: 62,
        value: (63, value),
        end: 64,
    }
}

fn element(alloc: Global, place: i64, functions: &[u32]) -> Result<Item, AllocError>
    ensures { IfOk result HasSmallType }
{
    Ok(Item::Element {
        table: (70, 0),
        place: constant(place),
        functions: (75, Indices::new(Vec::from_slice(alloc, functions)?)),
    })
}

fn segment(alloc: Global, place: i64, bytes: &[u8]) -> Result<Item, AllocError>
    ensures { IfOk result HasSmallType }
{
    Ok(Item::Segment {
        form: 90,
        memory: None,
        place: constant(place),
        bytes: (95, Bytes::new(Vec::from_slice(alloc, bytes)?)),
    })
}

fn passive(alloc: Global, bytes: &[u8]) -> Result<Item, AllocError>
    ensures { IfOk result HasSmallType }
{
    Ok(Item::Passive {
        form: 110,
        bytes: (111, Bytes::new(Vec::from_slice(alloc, bytes)?)),
    })
}

/// An item by its number, in the order in which a module lists them: two types, an imported function and one of the module's own, a
/// memory, a global, two exports, a start function, two element segments, the data count, two active data segments and a passive one.
fn item(alloc: Global, number: u32) -> Result<Item, AllocError>
    ensures { IfOk result HasSmallType }
{
    match number {
        0 => signature(alloc, &[ValType::I64], &[]),
        1 => signature(alloc, &[], &[]),
        2 => imported(alloc),
        3 => Ok(Item::Function {
            type_index: (27, 1),
        }),
        4 => Ok(Item::Memory {
            limits: Limits {
                flag: 50,
                min: (51, 2),
                max: None,
            },
        }),
        5 => Ok(Item::Global {
            ty: (60, ValType::I64),
            mutable: (61, true),
            init: constant(-7),
        }),
        6 => exported(alloc, "mem", Extern::Memory, 0),
        7 => exported(alloc, "run", Extern::Function, 1),
        8 => Ok(Item::Start { index: (68, 1) }),
        9 => element(alloc, 3, &[1, 0]),
        10 => element(alloc, -1, &[]),
        11 => Ok(Item::DataCount { count: (80, 3) }),
        12 => segment(alloc, 65_535, b"ab"),
        13 => segment(alloc, -1, &[]),
        _ => passive(alloc, b"c"),
    }
}

/// Adds so many of the items.
fn add_items(alloc: Global, builder: &mut ContextBuilder, items: u32) -> Result<(), AddStop> {
    for number in 0..items {
        let Ok(item) = item(alloc, number) else {
            return Err(AddStop::NoMemory);
        };
        builder.add(&item)?;
    }
    Ok(())
}

/// The context of all items.
fn context_of(alloc: Global) -> Result<Context, AddStop> {
    let mut builder = ContextBuilder::new(alloc);
    add_items(alloc, &mut builder, 15)?;
    Ok(builder.finish())
}

/// What a context has of each kind, in the order of the indices.
fn lists_of(alloc: Global, context: &Context) -> Result<String, AllocError> {
    format!(in alloc;
        "types {:?}\nfunctions of types {:?}\ntables {:?}\nmemories {:?}\nglobals {:?} from {:?}\nimports {:?}\n\
         exports {:?}\nelements {:?}\ndata {:?}\ndata count {:?}\nstart {:?}\n",
        context.types(),
        context.type_indices(),
        context.tables(),
        context.memories(),
        context.globals(),
        context.initials(),
        context.imports(),
        context.exports(),
        context.elements(),
        context.segments(),
        context.data_count(),
        context.start(),
    )
}

/// What a context answers of the indices up to 2.
fn answers_of(alloc: Global, context: &Context) -> Result<String, AllocError> {
    if context.type_indices().len() > 2 {
        return format!(in alloc; "too many functions");
    }
    let has_type = [0, 1, 2].map(|index| context.has_type(index));
    let has_function = [0, 1, 2].map(|index| context.has_function(index));
    let type_index = [0, 1, 2].map(|index| context.type_index(index));
    let counts = (context.functions(), context.imported(), context.declared());
    let has = (
        context.has_memory(),
        context.has_global(0),
        context.has_global(1),
    );
    format!(in alloc; "{has_type:?} {has_function:?} {type_index:?} {counts:?} {has:?}")
}

/// What a context answers of its first function, its first type, its first import and its first global.
fn firsts_of(alloc: Global, context: &Context) -> Result<String, AllocError> {
    let has = context.has_type_of_function(0) && context.has_type(0) && context.has_global(0);
    if !has || context.imports().is_empty() {
        return format!(in alloc; "the context lacks something");
    }
    let import = context.import_offset(0);
    let (function, first) = (context.type_of_function(0), context.type_at(0));
    let (global, initial) = (context.global(0), context.initial(0));
    format!(in alloc; "{import} {function:?} {first:?} {global:?} {initial}")
}

/// All that the context of the items has and answers.
fn told(alloc: Global) -> Result<String, Fail> {
    let context = context_of(alloc)?;
    let (lists, answers) = (lists_of(alloc, &context), answers_of(alloc, &context));
    let firsts = firsts_of(alloc, &context);
    Ok(format!(in alloc; "{}{}\n{}\n", lists?, answers?, firsts?)?)
}

#[test]
fn a_context_keeps_what_is_added(rt: HostRuntime) -> Result<(), Fail> {
    assert_eq!(rt; told(rt.alloc())?.as_str(), TOLD);
    Ok(())
}

/// What comes of a start function after the first five items, and whether the context then has it.
fn started(alloc: Global, index: u32) -> (Result<(), AddStop>, Result<(), AddStop>, Option<u32>) {
    let mut builder = ContextBuilder::new(alloc);
    let items = add_items(alloc, &mut builder, 5);
    let added = builder.add(&Item::Start { index: (68, index) });
    let start = builder.context().start();
    (items, added, start)
}

#[test]
fn a_start_function_takes_and_gives_nothing(rt: HostRuntime) -> Result<(), Fail> {
    let refused = Err(AddStop::Refused(Refusal {
        offset: 68,
        kind: Kind::Invalid,
    }));
    for (index, added, start) in [(0, refused, None), (2, refused, None), (1, Ok(()), Some(1))] {
        assert!(rt;
            started(rt.alloc(), index) == (Ok(()), added, start),
            "{index}"
        );
    }
    Ok(())
}

/// Adds a type of one of three sorts, and answers the least index of an equal one.
fn like(
    alloc: Global,
    builder: &mut ContextBuilder,
    index: u32,
    sort: u32,
) -> Result<u32, AddStop> {
    let item = match sort {
        0 => signature(alloc, &[ValType::I32], &[]),
        1 => signature(alloc, &[], &[ValType::I32]),
        _ => signature(alloc, &[ValType::I64], &[]),
    };
    let Ok(item) = item else {
        return Err(AddStop::NoMemory);
    };
    builder.add(&item)?;
    Ok(if builder.context().has_type(index) {
        builder.context().like(index)
    } else {
        100
    })
}

#[test]
fn equal_types_have_one_least_index(rt: HostRuntime) -> Result<(), Fail> {
    let mut builder = ContextBuilder::new(rt.alloc());
    for (index, sort, least) in [(0, 0, 0), (1, 1, 1), (2, 0, 0), (3, 2, 3), (4, 1, 1)] {
        assert!(rt;
            like(rt.alloc(), &mut builder, index, sort) == Ok(least),
            "type {index}"
        );
    }
    Ok(())
}
