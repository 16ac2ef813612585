//! What a command keeps of the command line, which contracts see as lists.

ghost use Rattle.std.specs.Prelude.{◌≡◌, string_bytes};

use crate::argument::Argument;
use std::marker::Model;

/// The arguments of a function, the first first.
#[derive(Debug, Drop)]
pub struct Arguments {
    arguments: Vec<Argument>,
}

impl Model for Arguments {
    ghost use Rattle.std.specs.Prelude.{List};
    ghost use Rattle.command_words.specs.declared.argument.Argument.{Argument};

    ghost Value = { List Argument };

    ghost view = { λ l. l.arguments.items };
}

impl Arguments {
    /// The list of the vector's elements.
    pub fn new(arguments: Vec<Argument>) -> Self
        ensures { result ≡ arguments.items }
    {
        Arguments { arguments }
    }

    /// The elements in order.
    pub fn as_slice(&self) -> &[Argument]
        ensures { result.now ≡ self.now }
    {
        self.arguments.as_slice()
    }

    /// Gives the elements back, without taking memory.
    pub fn into_vec(self) -> Vec<Argument>
        ensures { result.items ≡ self }
    {
        self.arguments
    }
}

/// The name of an exported function: contracts see the list of its UTF-8 bytes.
#[derive(Debug, Drop)]
pub struct Export {
    name: String,
}

impl Model for Export {
    ghost use Rattle.std.specs.Prelude.{List, ℕ, string_bytes};

    ghost Value = { List ℕ };

    ghost view = { λ e. string_bytes e.name };
}

impl Export {
    /// The list of the string's bytes.
    pub fn new(name: String) -> Self
        ensures { result ≡ string_bytes name }
    {
        Export { name }
    }

    /// The name as a string.
    pub fn as_str(&self) -> &str
        ensures { result.now ≡ self.now }
    {
        self.name.as_str()
    }

    /// Gives the string back, without taking memory.
    pub fn into_string(self) -> String
        ensures { string_bytes result ≡ self }
    {
        self.name
    }
}
