//! Values, and the ends of runs that a trap brings.

ghost use Rattle.std.specs.Prelude.{◌≡◌};
ghost use Rattle.wasm_defs.specs.Values.{trap_text, trap_number, trap_of, type_of};

use crate::types::ValType;

/// A value (WebAssembly Core 1.0, 4.2.1), as the signed number of its bits.
#[derive(Clone, Copy, Debug, PartialEq, Eq)]
pub enum Value {
    I32(i32),
    I64(i64),
}

impl Value {
    /// The type of the value.
    pub fn ty(self) -> ValType
        ensures { result ≡ type_of self }
    {
        match self {
            Value::I32(_) => ValType::I32,
            Value::I64(_) => ValType::I64,
        }
    }
}

/// Why a run traps (Core 4.4). The numbers are those that compiled code gives to its environment.
#[derive(Clone, Copy, Debug, PartialEq, Eq)]
pub enum TrapKind {
    /// `unreachable` was reached (4.4.5.2).
    Unreachable,
    /// An integer was divided by zero (4.3.2).
    DivideByZero,
    /// The quotient of the least number by -1 can't be represented (4.3.2).
    Overflow,
    /// Bytes outside the memory were loaded or stored (4.4.4).
    MemoryBounds,
    /// An indirect call with an index outside the table (4.4.5.11).
    UndefinedElement,
    /// An indirect call of a table's row that has no function (4.4.5.11).
    UninitializedElement,
    /// An indirect call of a function with another type (4.4.5.11).
    TypeMismatch,
    /// A call for which the stack has no room (appendix "Implementation Limitations").
    StackExhausted,
}

impl TrapKind {
    /// The number of the kind, from 1 to 8.
    pub fn number(self) -> u8
        ensures { result ≡ trap_number self }
    {
        match self {
            TrapKind::Unreachable => 1,
            TrapKind::DivideByZero => 2,
            TrapKind::Overflow => 3,
            TrapKind::MemoryBounds => 4,
            TrapKind::UndefinedElement => 5,
            TrapKind::UninitializedElement => 6,
            TrapKind::TypeMismatch => 7,
            TrapKind::StackExhausted => 8,
        }
    }

    /// The kind of a number: none but 1 to 8 has one.
    pub fn of_number(number: u64) -> Option<TrapKind>
        ensures { result ≡ trap_of number }
    {
        match number {
            1 => Some(TrapKind::Unreachable),
            2 => Some(TrapKind::DivideByZero),
            3 => Some(TrapKind::Overflow),
            4 => Some(TrapKind::MemoryBounds),
            5 => Some(TrapKind::UndefinedElement),
            6 => Some(TrapKind::UninitializedElement),
            7 => Some(TrapKind::TypeMismatch),
            8 => Some(TrapKind::StackExhausted),
            _ => None,
        }
    }

    /// What is wrong, in the words of the standard's tests.
    pub fn text(self) -> &'static str
        ensures { result.now ≡ trap_text self }
    {
        match self {
            TrapKind::Unreachable => "unreachable",
            TrapKind::DivideByZero => "integer divide by zero",
            TrapKind::Overflow => "integer overflow",
            TrapKind::MemoryBounds => "out of bounds memory access",
            TrapKind::UndefinedElement => "undefined element",
            TrapKind::UninitializedElement => "uninitialized element",
            TrapKind::TypeMismatch => "indirect call type mismatch",
            TrapKind::StackExhausted => "call stack exhausted",
        }
    }
}
