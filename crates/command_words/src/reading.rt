//! What the command line says, from what the parser found in it.

ghost use Rattle.std.specs.Prelude.{◌≡◌, codes, map, option_and_then, option_map, string_bytes};
ghost use Rattle.clap.specs.Words.{first_of, found_of, one_of, rows_of, subcommand_rows_of};
ghost use Rattle.command_words.specs.Arguments.{arguments_in};
ghost use Rattle.command_words.specs.Grammar.{Gives, Reads, call_in, found_words, command_in, command_named, drill_in, found_peek, in_range, number_in};
ghost use Rattle.command_words.specs.Grammar.{options_in, peek_said, run_in};

use crate::argument::argument_of;
use crate::command::{Call, Command, Drill, Options, Run, WordsStop};
use crate::lists::{Arguments, Export};
use crate::parser::program;
use crate::peek::{Peek, peek_of};
use clap::ArgMatches;
use clap::error::ErrorKind;
use std::alloc::Global;

/// The number, where it is in the range. Clap keeps to the range by itself; that it is tested here too says so of the options.
pub(crate) fn in_range(number: Option<u64>, least: u64, most: u64) -> Option<u64>
    ensures { result ≡ option_and_then (in_range least most) number }
{
    match number {
        Some(number) if least <= number && number <= most => Some(number),
        _ => None,
    }
}

/// The number that was found for an option, where it is in the range.
fn number_in(matches: &ArgMatches<'_>, id: &str, least: u64, most: u64) -> Option<u64>
    ensures { result ≡ option_and_then (number_in least most) (one_of id.now (rows_of (found_of matches.now))) }
{
    in_range(matches.get_one::<u64>(id), least, most)
}

fn steps_in(matches: &ArgMatches<'_>) -> Option<u64>
    ensures { result ≡ option_and_then (number_in 0 1000000000000) (one_of (codes "steps") (rows_of (found_of matches.now))) }
{
    number_in(matches, "steps", 0, 1_000_000_000_000)
}

fn options_in(matches: &ArgMatches<'_>) -> Option<Options>
    ensures { result ≡ options_in (rows_of (found_of matches.now)) }
{
    Some(Options {
        workers: number_in(matches, "workers", 0, 64)?,
        batch: number_in(matches, "batch", 1, 1_048_576)?,
    })
}

/// The function's arguments that these strings are: `Outside` where one is none.
fn arguments_of(alloc: Global, words: &[&str]) -> Result<Arguments, WordsStop>
    ensures { Gives (arguments_in (map (λ w. w.now) words.now)) result }
{
    let mut arguments = Vec::with_capacity(alloc, words.len())?;
    for word in words {
        let Some(argument) = argument_of(word) else {
            return Err(WordsStop::Outside);
        };
        arguments.push(argument)?;
    }
    Ok(Arguments::new(arguments))
}

/// The arguments that were found for ARGS.
fn arguments_in(alloc: Global, matches: &ArgMatches<'_>) -> Result<Arguments, WordsStop>
    ensures { Gives (arguments_in (found_words (rows_of (found_of matches.now)))) result }
{
    let words = matches.get_strs("arguments").unwrap_or(&[]);
    arguments_of(alloc, words)
}

/// What was found for EXPORT.
fn export_in<'a>(matches: &ArgMatches<'a>) -> Option<&'a str>
    ensures { option_map (λ s. s.now) result ≡ first_of (codes "export") (rows_of (found_of matches.now)) }
{
    matches.get_str("export")
}

/// What was found for `--peek`.
fn found_peek<'a>(matches: &ArgMatches<'a>) -> Option<&'a str>
    ensures { option_map (λ s. s.now) result ≡ found_peek (rows_of (found_of matches.now)) }
{
    matches.get_str("peek")
}

/// What the argument of `--peek` says: `Outside` where it says nothing.
fn peek_in(matches: &ArgMatches<'_>) -> Result<Option<Peek>, WordsStop>
    ensures { Gives (peek_said (found_peek (rows_of (found_of matches.now)))) result }
{
    let Some(word) = found_peek(matches) else {
        return Ok(None);
    };
    match peek_of(word) {
        Some(peek) => Ok(Some(peek)),
        None => Err(WordsStop::Outside),
    }
}

fn call_in(alloc: Global, matches: &ArgMatches<'_>) -> Result<Call, WordsStop>
    ensures { Gives (call_in (rows_of (found_of matches.now))) result }
{
    let export = export_in(matches).ok_or(WordsStop::Outside)?;
    let arguments = arguments_in(alloc, matches)?;
    let steps = steps_in(matches).ok_or(WordsStop::Outside)?;
    let peek = peek_in(matches)?;
    Ok(Call {
        export: Export::new(String::from_str(alloc, export)?),
        arguments,
        steps,
        peek,
    })
}

fn run_in(alloc: Global, matches: &ArgMatches<'_>) -> Result<Run, WordsStop>
    ensures { Gives (run_in (rows_of (found_of matches.now))) result }
{
    let options = options_in(matches).ok_or(WordsStop::Outside)?;
    let call = call_in(alloc, matches)?;
    Ok(Run { options, call })
}

fn drill_in(matches: &ArgMatches<'_>) -> Option<Drill>
    ensures { result ≡ drill_in (rows_of (found_of matches.now)) }
{
    Some(Drill {
        options: options_in(matches)?,
        count: number_in(matches, "n", 1, 50_000)?,
        steps: steps_in(matches)?,
    })
}

fn command_in(alloc: Global, matches: &ArgMatches<'_>) -> Result<Command, WordsStop>
    ensures { Gives (option_and_then command_named (subcommand_rows_of matches.now)) result }
{
    let (name, inner) = matches.subcommand().ok_or(WordsStop::Outside)?;
    match name {
        "check" => Ok(Command::Check(options_in(inner).ok_or(WordsStop::Outside)?)),
        "compile" => Ok(Command::Compile(options_in(inner).ok_or(WordsStop::Outside)?)),
        "many" => Ok(Command::Many(options_in(inner).ok_or(WordsStop::Outside)?)),
        "run" => Ok(Command::Run(run_in(alloc, inner)?)),
        "exec" => Ok(Command::Exec(call_in(alloc, inner)?)),
        "drill" => Ok(Command::Drill(drill_in(inner).ok_or(WordsStop::Outside)?)),
        _ => Err(WordsStop::Outside),
    }
}

/// Reads the command that a command line gives, whose first argument is the program's name.
///
/// After it comes a subcommand: `check`, `compile`, `many`, `run EXPORT ARGS`, `exec EXPORT ARGS`, or `drill N`. EXPORT is one
/// argument, any string, and ARGS are any number of arguments, each `i32:N` or `i64:N` as `argument_of` reads them. All but `exec`
/// have the options `--workers N` and `--batch N`; `run`, `exec` and `drill` have `--steps N`; and `run` and `exec`
/// have `--peek A:N`, which `peek_of` reads. An option may be written `--workers=N`, and comes once at most, before, between or
/// after the other arguments of its subcommand. N is decimal digits, before which a plus may be. All arguments that follow a `--`
/// belong to EXPORT and ARGS, or are the N of `drill`. A request for help is outside the grammar.
///
/// `Outside` says that the command line is outside the grammar, and `NoMemory`, which may come with any command line, that memory
/// ran out.
pub fn command_of(alloc: Global, words: &Vec<String>) -> Result<Command, WordsStop>
    ensures reads { Reads (map string_bytes words.now.items) result }
    ensures value { Gives (command_in (map string_bytes words.now.items)) result }
{
    let program = program(alloc)?;
    match program.try_get_matches_from(words.as_slice()) {
        Ok(matches) => command_in(alloc, &matches),
        Err(error) if error.kind() == ErrorKind::OutOfMemory => Err(WordsStop::NoMemory),
        Err(_) => Err(WordsStop::Outside),
    }
}
