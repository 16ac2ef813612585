//! What the grammar says of any command line.

ghost use Rattle.std.specs.Prelude.{◌≡◌, ◌⊎◌, ◌↔◌, ℕ, List, Some};
ghost use Rattle.clap.specs.Walk.{Text};
ghost use Rattle.clap.specs.Simple.{subcommand_of};
ghost use Rattle.command_words.specs.Arguments.{AreArguments, IsArgument, argument_in};
ghost use Rattle.command_words.specs.Grammar.{IsCommand, IsInRange, IsOutside, program, call_words};
ghost use Rattle.command_words.specs.declared.argument.Argument.{Argument as Value};
ghost use Rattle.command_words.specs.declared.command.Call.{Call};
ghost use Rattle.command_words.specs.declared.command.Command.{Command as Named};
ghost use Rattle.command_words.specs.declared.command.Command.TheVariants as command;
ghost use Rattle.command_words.specs.declared.command.Run.{Run};

/// Any command line is a command or outside the grammar, and not both; the command that it gives is one, its numbers are
/// in their ranges, and the arguments of a call are those that it says.
pub fn commands_are_one()
    ensures total { (words : List Text) → ((c : Named) × IsCommand words c) ⊎ IsOutside words }
    ensures apart { (words : List Text) (c : Named) → IsCommand words c → IsOutside words → ⊥ }
    ensures one { (words : List Text) (a b : Named) → IsCommand words a → IsCommand words b → a ≡ b }
    ensures ranges { (words : List Text) (c : Named) → IsCommand words c → IsInRange c }
    ensures run_arguments { (words : List Text) (r : Run) → IsCommand words (command.Run r)
        → AreArguments (call_words (subcommand_of program words)) r.call.arguments }
    ensures exec_arguments { (words : List Text) (c : Call) → IsCommand words (command.Exec c)
        → AreArguments (call_words (subcommand_of program words)) c.arguments }
{}

/// A string is at most one argument, and `argument_in` computes which.
pub fn arguments_are_one()
    ensures one { (word : List ℕ) (a b : Value) → IsArgument word a → IsArgument word b → a ≡ b }
    ensures computed { (word : List ℕ) (a : Value) → (argument_in word ≡ Some a) ↔ IsArgument word a }
{}
