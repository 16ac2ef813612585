//! The commands of the program and their options.

ghost use Rattle.command_words.specs.declared.command.WordsStop.TheVariants.{NoMemory};
ghost use Rattle.std.specs.Prelude.{◌≡◌};

use crate::lists::{Arguments, Export};
use crate::peek::Peek;
use std::alloc::{AllocError, AllocFailed};

/// The options of each command on a module.
#[derive(Clone, Copy, Debug, PartialEq, Eq)]
pub struct Options {
    /// The worker threads, from 0 to 64: 4 where the command line says none.
    pub workers: u64,
    /// The most bytes of bodies that a worker is handed at a time, from 1 to 1,048,576: 4,096 where the command line
    /// says none.
    pub batch: u64,
}

/// A call of an exported function.
#[derive(Debug, Drop)]
pub struct Call {
    /// The name under which the function is exported: any string, also the empty one.
    pub export: Export,
    /// What the function is called with, in the order of the command line.
    pub arguments: Arguments,
    /// The most steps that the call may take, from 0 to 1,000,000,000,000: 100,000,000 where the command line says
    /// none.
    pub steps: u64,
    /// Which bytes of the memory are shown after the call, if any.
    pub peek: Option<Peek>,
}

/// What `run` does: how it compiles the module, and the call that it makes.
#[derive(Debug, Drop)]
pub struct Run {
    /// The options that all commands on a module have.
    pub options: Options,
    /// The call of a function that the module exports.
    pub call: Call,
}

/// What `drill` does: how it compiles the drill's module, and how long it may run.
#[derive(Clone, Copy, Debug, PartialEq, Eq)]
pub struct Drill {
    /// The options that all commands on a module have.
    pub options: Options,
    /// How many functions the module has that each add a number, from 1 to 50,000.
    pub count: u64,
    /// The most steps that the run may take, from 0 to 1,000,000,000,000: 100,000,000 where the command line says none.
    pub steps: u64,
}

/// A command of the program.
#[derive(Debug, Drop)]
pub enum Command {
    /// `check`: validate the module.
    Check(Options),
    /// `compile`: compile the module to its image.
    Compile(Options),
    /// `many`: compile each of several modules, whose bytes come in frames, interleaved.
    Many(Options),
    /// `run`: compile the module, and call a function that it exports.
    Run(Run),
    /// `exec`: call a function that an image exports.
    Exec(Call),
    /// `drill`: compile a module that the program makes by itself, and run it.
    Drill(Drill),
}

/// Why a command line gives no command.
#[derive(Clone, Copy, Debug, PartialEq, Eq)]
pub enum WordsStop {
    /// The command line is outside the command grammar.
    Outside,
    /// Memory ran out.
    NoMemory,
}

impl From<AllocError> for WordsStop {
    ghost from_gives = { λ _ e. e ≡ NoMemory };

    fn from(_e: AllocError) -> WordsStop {
        WordsStop::NoMemory
    }
}

impl<T: Drop> From<AllocFailed<T>> for WordsStop {
    ghost from_gives = { λ _ e. e ≡ NoMemory };

    fn from(_e: AllocFailed<T>) -> WordsStop {
        WordsStop::NoMemory
    }
}
