//! The program's command line: its commands with their options, and the arguments of a function.
#![tactic(auto)]

mod argument;
mod command;
mod laws;
mod lists;
mod parser;
mod peek;
mod reading;

pub use argument::{Argument, argument_of};
pub use command::{Call, Command, Drill, Options, Run, WordsStop};
pub use laws::{arguments_are_one, commands_are_one};
pub use lists::{Arguments, Export};
pub use peek::{Peek, peek_of};
pub use reading::command_of;
