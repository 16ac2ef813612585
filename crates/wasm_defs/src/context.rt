//! Types of what a module's context holds (Core 3.1).

use crate::types::ValType;

/// A global's type (Core 2.3.7): that of its value, and whether it may be set.
#[derive(Clone, Copy, Debug, PartialEq, Eq)]
pub struct GlobalType {
    pub ty: ValType,
    pub mutable: bool,
}
