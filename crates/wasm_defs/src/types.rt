//! Types of values and functions.

use crate::lists::ValTypes;

/// A value type (Core 2.3.1). Float types are left out.
#[derive(Clone, Copy, Debug, PartialEq, Eq)]
pub enum ValType {
    I32,
    I64,
}

/// A function type (Core 2.3.3). Its lists are in the order of the module's bytes: the last one's value is
/// topmost.
#[derive(Debug, Drop)]
pub struct FuncType {
    pub params: ValTypes,
    pub results: ValTypes,
}
