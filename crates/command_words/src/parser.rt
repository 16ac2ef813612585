//! The grammar of the command line, as a parser of clap's.

ghost use Rattle.std.specs.Prelude.{◌≡◌, IfOk, false};
ghost use Rattle.clap.specs.Words.{app_of, rule_of};
ghost use Rattle.clap.specs.declared.builder.command.Command.TheViews.{out-Command};
ghost use Rattle.command_words.specs.Grammar.{arguments, batch, check, compile, count, drill, exec, export, many, peek, program, run, steps, with_calls};
ghost use Rattle.command_words.specs.Grammar.{with_modules, with_options, with_words, workers};

use clap::{Arg, ArgAction, Command as Parser, value_parser};
use std::alloc::{AllocError, Global};

/// `--workers N`.
fn workers<'a>(alloc: Global) -> Arg<'a>
    ensures rule { rule_of result ≡ workers }
    ensures local { result.global ≡ false }
{
    Arg::new(alloc, "workers")
        .long("workers")
        .value_parser(value_parser!(u64).range(0..=64))
        .default_value("4")
}

/// `--batch N`.
fn batch<'a>(alloc: Global) -> Arg<'a>
    ensures rule { rule_of result ≡ batch }
    ensures local { result.global ≡ false }
{
    Arg::new(alloc, "batch")
        .long("batch")
        .value_parser(value_parser!(u64).range(1..=1_048_576))
        .default_value("4096")
}

/// `--steps N`.
fn steps<'a>(alloc: Global) -> Arg<'a>
    ensures rule { rule_of result ≡ steps }
    ensures local { result.global ≡ false }
{
    Arg::new(alloc, "steps")
        .long("steps")
        .value_parser(value_parser!(u64).range(0..=1_000_000_000_000))
        .default_value("100000000")
}

/// `--peek A:N`.
fn peek<'a>(alloc: Global) -> Arg<'a>
    ensures rule { rule_of result ≡ peek }
    ensures local { result.global ≡ false }
{
    Arg::new(alloc, "peek").long("peek")
}

/// `EXPORT`.
fn export<'a>(alloc: Global) -> Arg<'a>
    ensures rule { rule_of result ≡ export }
    ensures local { result.global ≡ false }
{
    Arg::new(alloc, "export").required(true)
}

/// `ARGS`.
fn arguments<'a>(alloc: Global) -> Arg<'a>
    ensures rule { rule_of result ≡ arguments }
    ensures local { result.global ≡ false }
{
    Arg::new(alloc, "arguments").action(ArgAction::Append)
}

/// `N`.
fn count<'a>(alloc: Global) -> Arg<'a>
    ensures rule { rule_of result ≡ count }
    ensures local { result.global ≡ false }
{
    Arg::new(alloc, "n")
        .required(true)
        .value_parser(value_parser!(u64).range(1..=50_000))
}

/// The parser with the options of each command on a module.
fn with_options<'a>(alloc: Global, parser: Parser<'a>) -> Result<Parser<'a>, AllocError>
    ensures app { IfOk result (λ p. app_of p ≡ with_options (app_of parser.entry)) }
    ensures local { (out-Command parser.entry).has_globals ≡ false → IfOk result (λ p. (out-Command p).has_globals ≡ false) }
{
    parser.arg(workers(alloc))?.arg(batch(alloc))
}

/// The subcommand `check`.
fn check<'a>(alloc: Global) -> Result<Parser<'a>, AllocError>
    ensures app { IfOk result (λ p. app_of p ≡ check) }
    ensures local { IfOk result (λ p. (out-Command p).has_globals ≡ false) }
{
    with_options(alloc, Parser::new(alloc, "check"))
}

/// The subcommand `compile`.
fn compile<'a>(alloc: Global) -> Result<Parser<'a>, AllocError>
    ensures app { IfOk result (λ p. app_of p ≡ compile) }
    ensures local { IfOk result (λ p. (out-Command p).has_globals ≡ false) }
{
    with_options(alloc, Parser::new(alloc, "compile"))
}

/// The subcommand `many`.
fn many<'a>(alloc: Global) -> Result<Parser<'a>, AllocError>
    ensures app { IfOk result (λ p. app_of p ≡ many) }
    ensures local { IfOk result (λ p. (out-Command p).has_globals ≡ false) }
{
    with_options(alloc, Parser::new(alloc, "many"))
}

/// The parser with the arguments of a call and its options.
fn with_words<'a>(alloc: Global, parser: Parser<'a>) -> Result<Parser<'a>, AllocError>
    ensures app { IfOk result (λ p. app_of p ≡ with_words (app_of parser.entry)) }
    ensures local { (out-Command parser.entry).has_globals ≡ false → IfOk result (λ p. (out-Command p).has_globals ≡ false) }
{
    let words = parser.arg(export(alloc))?.arg(arguments(alloc))?;
    words.arg(steps(alloc))?.arg(peek(alloc))
}

/// The subcommand `run`.
fn run<'a>(alloc: Global) -> Result<Parser<'a>, AllocError>
    ensures app { IfOk result (λ p. app_of p ≡ run) }
    ensures local { IfOk result (λ p. (out-Command p).has_globals ≡ false) }
{
    let words = with_words(alloc, Parser::new(alloc, "run"))?;
    with_options(alloc, words)
}

/// The subcommand `exec`.
fn exec<'a>(alloc: Global) -> Result<Parser<'a>, AllocError>
    ensures app { IfOk result (λ p. app_of p ≡ exec) }
    ensures local { IfOk result (λ p. (out-Command p).has_globals ≡ false) }
{
    with_words(alloc, Parser::new(alloc, "exec"))
}

/// The subcommand `drill`.
fn drill<'a>(alloc: Global) -> Result<Parser<'a>, AllocError>
    ensures app { IfOk result (λ p. app_of p ≡ drill) }
    ensures local { IfOk result (λ p. (out-Command p).has_globals ≡ false) }
{
    let words = Parser::new(alloc, "drill").arg(count(alloc))?;
    with_options(alloc, words)?.arg(steps(alloc))
}

/// The parser with `check`, `compile` and `many`.
fn with_modules<'a>(alloc: Global, parser: Parser<'a>) -> Result<Parser<'a>, AllocError>
    ensures { IfOk result (λ p. app_of p ≡ with_modules (app_of parser.entry)) }
{
    parser
        .subcommand(check(alloc)?)?
        .subcommand(compile(alloc)?)?
        .subcommand(many(alloc)?)
}

/// The parser with `run`, `exec` and `drill`.
fn with_calls<'a>(alloc: Global, parser: Parser<'a>) -> Result<Parser<'a>, AllocError>
    ensures { IfOk result (λ p. app_of p ≡ with_calls (app_of parser.entry)) }
{
    parser
        .subcommand(run(alloc)?)?
        .subcommand(exec(alloc)?)?
        .subcommand(drill(alloc)?)
}

/// The parser of the grammar.
pub(crate) fn program<'a>(alloc: Global) -> Result<Parser<'a>, AllocError>
    ensures { IfOk result (λ p. app_of p ≡ program) }
{
    let program = Parser::new(alloc, "wstream")
        .disable_help_flag(true)
        .disable_help_subcommand(true)
        .subcommand_required(true);
    with_calls(alloc, with_modules(alloc, program)?)
}
