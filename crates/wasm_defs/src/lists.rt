//! Lists inside items, tokens and types, which contracts see as lists.

ghost use Rattle.std.specs.Prelude.{◌≡◌};

use crate::types::ValType;
use std::marker::Model;

/// Elements in order. Contracts see the list of them.
#[derive(Debug, Drop)]
pub struct Sequence<T> {
    elements: Vec<T>,
}

impl<T> Model for Sequence<T> {
    ghost use Rattle.std.specs.Prelude.{List};

    ghost Value = { List T };

    ghost view = { λ s. s.elements.items };
}

impl<T> Sequence<T> {
    /// The list of the vector's elements.
    pub fn new(elements: Vec<T>) -> Self
        ensures { result ≡ elements.items }
    {
        Sequence { elements }
    }

    /// The elements in order.
    pub fn as_slice(&self) -> &[T]
        ensures { result.now ≡ self.now }
    {
        self.elements.as_slice()
    }

    /// Gives the elements back, without taking memory.
    pub fn into_vec(self) -> Vec<T>
        ensures { result.items ≡ self }
    {
        self.elements
    }
}

/// A name's bytes (Core 5.2.4). Those of a module's names are UTF-8, as its readers find; the type holds any bytes.
pub type Name = Sequence<u8>;

/// Bytes of a data segment.
pub type Bytes = Sequence<u8>;

/// Indices, as those of an element segment's functions.
pub type Indices = Sequence<u32>;

/// The labels of a `br_table` but its last one, 0 being the innermost (Core 2.4.5).
pub type Labels = Sequence<u32>;

/// Value types in the order of the module's bytes.
pub type ValTypes = Sequence<ValType>;
