//! What a WebAssembly module is (WebAssembly Core 1.0, without floats): its types, its limits, and in `specs/` the
//! definitions that every contract above cites.
#![tactic(auto)]

mod context;
mod fault;
mod front_stop;
mod item;
mod laws;
mod limits;
mod lists;
mod opcodes;
mod operation;
mod place;
mod text;
mod token;
mod types;
mod value;

pub use context::GlobalType;
pub use fault::{Kind, Refusal};
pub use front_stop::FrontStop;
pub use item::{Constant, Extern, Item, Limits};
pub use laws::{numbers_are_prefix_free, rows_are_in_order, rows_have_types};
pub use limits::{
    MAX_BODY, MAX_ENTRIES, MAX_LOCALS, MAX_MODULE, MAX_NAME, MAX_PAGES, MAX_PARAMS, MAX_RESULTS,
    MAX_TABLE, MAX_TEXT, TOP_PAGES,
};
pub use lists::{Bytes, Indices, Labels, Name, Sequence, ValTypes};
pub use opcodes::{
    ACCESS_NAMES, ACCESS_TYPES, ACCESSES, OPERATION_NAMES, OPERATION_TYPES, OPERATIONS,
};
pub use operation::{
    Access, AccessType, BinaryOp, CompareOp, ConvertOp, ExtendOp, LoadOp, NumericType, Operands,
    Operation, StoreOp, UnaryOp,
};
pub use place::Place;
pub use text::Inside;
pub use token::{BlockType, BulkOp, MemArg, Plain, Token};
pub use types::{FuncType, ValType};
pub use value::{TrapKind, Value};
