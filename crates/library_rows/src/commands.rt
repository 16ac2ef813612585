//! Words and what they mean.

use command_words::{Call, Command, Options, Peek, WordsStop, argument_of, command_of, peek_of};
use std::alloc::{AllocError, Global};
use std::test::Fail;

/// The argument that a word is.
pub fn argument_answer(alloc: Global, word: &str) -> Result<String, Fail> {
    Ok(format!(in alloc; "{:?}", argument_of(word))?)
}

/// Which bytes a word says are shown.
pub fn peek_answer(alloc: Global, word: &str) -> Result<String, Fail> {
    Ok(format!(in alloc; "{:?}", peek_of(word))?)
}

/// A word of a line, where `~` means a blank and `''` means no characters.
fn word_of(alloc: Global, text: &str) -> Result<String, AllocError> {
    let mut word = String::new(alloc);
    if text != "''" {
        for c in text.chars() {
            word.push(if c == '~' { ' ' } else { c })?;
        }
    }
    Ok(word)
}

/// The words of a line.
fn words_of(alloc: Global, line: &str) -> Result<Vec<String>, AllocError> {
    let mut words = Vec::new(alloc);
    for text in line.split(' ') {
        if !text.is_empty() {
            words.push(word_of(alloc, text)?)?;
        }
    }
    Ok(words)
}

fn options_told(alloc: Global, options: Options) -> Result<String, AllocError> {
    format!(in alloc; "workers={} batch={}", options.workers, options.batch)
}

fn peek_told(alloc: Global, peek: Option<Peek>) -> Result<String, AllocError> {
    match peek {
        None => Ok(String::new(alloc)),
        Some(peek) => format!(in alloc; " peek={}:{}", peek.address, peek.count),
    }
}

fn call_told(alloc: Global, call: Call) -> Result<String, AllocError> {
    let Call {
        export,
        arguments,
        steps,
        peek,
    } = call;
    let (export, arguments) = (export.into_string(), arguments.into_vec());
    let peek = peek_told(alloc, peek)?;
    format!(in alloc; "\"{export}\" {arguments:?} steps={steps}{peek}")
}

fn command_told(alloc: Global, command: Command) -> Result<String, AllocError> {
    match command {
        Command::Check(options) => { format!(in alloc; "check {}", options_told(alloc, options)?) }
        Command::Compile(options) => {
            format!(in alloc; "compile {}", options_told(alloc, options)?)
        }
        Command::Many(options) => { format!(in alloc; "many {}", options_told(alloc, options)?) }
        Command::Run(run) => {
            let options = options_told(alloc, run.options)?;
            format!(in alloc; "run {options} {}", call_told(alloc, run.call)?)
        }
        Command::Exec(call) => format!(in alloc; "exec {}", call_told(alloc, call)?),
        Command::Drill(drill) => {
            let options = options_told(alloc, drill.options)?;
            format!(in alloc; "drill {} {options} steps={}", drill.count, drill.steps)
        }
    }
}

/// The command that the words of a line are.
pub fn command_answer(alloc: Global, line: &str) -> Result<String, Fail> {
    match command_of(alloc, &words_of(alloc, line)?) {
        Ok(command) => Ok(command_told(alloc, command)?),
        Err(WordsStop::Outside) => Ok(String::from_str(alloc, "outside")?),
        Err(WordsStop::NoMemory) => Err(Fail::new("out of memory")),
    }
}
