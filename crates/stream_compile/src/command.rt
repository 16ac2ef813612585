//! The commands of the program.

ghost use Rattle.std.specs.Prelude.{◌≡◌, ◌<◌, ◌^◌, ◌-◌, true, None, Some, nat_lt, IfOk, IfSome, OnErr};
ghost use Rattle.io_edges.specs.Streams.{TookFront};
ghost use Rattle.command_words.specs.Grammar.{IsInRange};
ghost use Rattle.command_words.specs.declared.command.Command.TheVariants.{Check, Compile, Exec, Many, Run as RunCommand};
ghost use Rattle.stream_compile.specs.Outputs.{view};
ghost use Rattle.stream_compile.specs.Running.{IsTold};
ghost use Rattle.stream_compile.specs.Texts.{command_said, settings_of, ComesTo, AnswersAndWrites, ReadsNothing};

use crate::compiling::{stream_check, stream_compile};
use crate::drill::drill;
use crate::foreign::{LoadedImage, read_foreign};
use crate::image_pieces::write_compiled;
use crate::output::{Output, accepted, bad_image, read_fault, rejected, usage};
use crate::running::run_image;
use crate::several::{bad_frame, told_many};
use crate::writing::write;
use command_words::{Call, Command, Options, Run, WordsStop, command_of};
use io_edges::{Gate, Sink, Source};
use many_streams::{ManyStop, check_many};
use module_stream::Settings;
use source_reading::{Answer, CheckAnswer};
use std::alloc::{AllocError, Global};
use std::sync::Wait;
use std::thread::Threads;

fn settings_of(options: &Options) -> Settings
    ensures { result ≡ settings_of options.now }
{
    Settings {
        workers: options.workers.min(64) as u32,
        batch: options.batch.min(1_048_576) as u32,
    }
}

/// The command that the command line gives, or that it is outside the command grammar.
fn command_in(alloc: Global, words: &Vec<String>) -> Result<Option<Command>, AllocError>
    ensures said { IfOk result (λ command. command ≡ command_said words.now.items) }
    ensures ranges { IfOk result (λ command. IfSome command IsInRange) }
{
    match command_of(alloc, words) {
        Ok(command) => Ok(Some(command)),
        Err(WordsStop::Outside) => Ok(None),
        Err(WordsStop::NoMemory) => Err(AllocError),
    }
}

/// Validates what the source gives.
fn check<R: Threads + Wait + Sync, S: Source, G: Gate>(
    rt: &R,
    alloc: Global,
    options: &Options,
    source: &mut S,
    gate: &G,
) -> Result<Output, AllocError>
    requires faults { S.faults source.old < 2 ^ 64 - 1 }
    requires open { S.is_open source.old ≡ true }
    ensures answer { IfOk result (λ o. ComesTo (Some (Check options.now)) (nat_lt (S.faults source.old) (S.faults source.new)) (S.left source.old)
        (S.left source.new) (view o)) }
    ensures front { TookFront (S.left source.old) (S.faults source.old) (S.left source.new) (S.faults source.new) }
{
    match stream_check(rt, alloc, source, gate, settings_of(options)) {
        CheckAnswer::Valid(checked) => accepted(alloc, checked.functions, checked.bytes),
        CheckAnswer::Refused(refusal) => rejected(alloc, refusal),
        CheckAnswer::ReadFault => read_fault(alloc),
        CheckAnswer::NoMemory => Err(AllocError),
    }
}

/// Compiles what the source gives, and writes its image. The result is the status.
fn compile<R: Threads + Wait + Sync, S: Source, O: Sink, G: Gate>(
    rt: &R,
    alloc: Global,
    options: &Options,
    source: &mut S,
    out: &mut O,
    gate: &G,
) -> Result<u8, AllocError>
    requires faults { S.faults source.old < 2 ^ 64 - 1 }
    requires open { S.is_open source.old ≡ true }
    requires sink_count { O.faults out.old < 2 ^ 64 - 1 }
    requires sink_open { O.is_open out.old ≡ true }
    ensures told { IfOk result (λ status. IsTold (ComesTo (Some (Compile options.now)) (nat_lt (S.faults source.old) (S.faults source.new)) (S.left source.old)
        (S.left source.new)) status (nat_lt (O.faults out.old) (O.faults out.new)) (O.written out.old) (O.written out.new)) }
    ensures kept { OnErr result (out.new ≡ out.old) }
    ensures front { TookFront (S.left source.old) (S.faults source.old) (S.left source.new) (S.faults source.new) }
{
    match stream_compile(rt, alloc, source, gate, settings_of(options)) {
        Answer::Image(built) => write_compiled(alloc, &built.image, out),
        Answer::Refused(refusal) => Ok(write(out, &rejected(alloc, refusal)?)),
        Answer::ReadFault => Ok(write(out, &read_fault(alloc)?)),
        Answer::NoMemory => Err(AllocError),
    }
}

/// Validates each of the modules whose bytes the source gives in frames.
fn many<R: Threads + Wait + Sync, S: Source, G: Gate>(
    rt: &R,
    alloc: Global,
    options: &Options,
    source: &mut S,
    gate: &G,
) -> Result<Output, AllocError>
    requires faults { S.faults source.old < 2 ^ 64 - 1 }
    requires open { S.is_open source.old ≡ true }
    ensures answer { IfOk result (λ o. ComesTo (Some (Many options.now)) (nat_lt (S.faults source.old) (S.faults source.new)) (S.left source.old)
        (S.left source.new) (view o)) }
    ensures front { TookFront (S.left source.old) (S.faults source.old) (S.left source.new) (S.faults source.new) }
{
    match check_many(rt, alloc, source, gate, settings_of(options)) {
        Ok(each) => told_many(alloc, each.as_slice()),
        Err(ManyStop::Frame(offset)) => bad_frame(alloc, offset),
        Err(ManyStop::ReadFault) => read_fault(alloc),
        Err(ManyStop::NoMemory) => Err(AllocError),
    }
}

/// Compiles what the source gives, and calls one of its functions. The result is the status.
fn run<R: Threads + Wait + Sync, S: Source, O: Sink, G: Gate>(
    rt: &R,
    alloc: Global,
    call: &Run,
    source: &mut S,
    out: &mut O,
    gate: &G,
) -> Result<u8, AllocError>
    requires faults { S.faults source.old < 2 ^ 64 - 1 }
    requires open { S.is_open source.old ≡ true }
    requires sink_count { O.faults out.old < 2 ^ 64 - 1 }
    requires sink_open { O.is_open out.old ≡ true }
    ensures told { IfOk result (λ status. IsTold (ComesTo (Some (RunCommand call.now)) (nat_lt (S.faults source.old) (S.faults source.new)) (S.left source.old)
        (S.left source.new)) status (nat_lt (O.faults out.old) (O.faults out.new)) (O.written out.old) (O.written out.new)) }
    ensures kept { OnErr result (out.new ≡ out.old) }
    ensures front { TookFront (S.left source.old) (S.faults source.old) (S.left source.new) (S.faults source.new) }
{
    match stream_compile(rt, alloc, source, gate, settings_of(&call.options)) {
        Answer::Image(built) => run_image(alloc, &built.image, &call.call, None, out),
        Answer::Refused(refusal) => Ok(write(out, &rejected(alloc, refusal)?)),
        Answer::ReadFault => Ok(write(out, &read_fault(alloc)?)),
        Answer::NoMemory => Err(AllocError),
    }
}

/// Calls one of the functions of the image that the source gives. The result is the status.
fn exec<S: Source, O: Sink>(
    alloc: Global,
    call: &Call,
    source: &mut S,
    out: &mut O,
) -> Result<u8, AllocError>
    requires faults { S.faults source.old < 2 ^ 64 - 1 }
    requires open { S.is_open source.old ≡ true }
    requires sink_count { O.faults out.old < 2 ^ 64 - 1 }
    requires sink_open { O.is_open out.old ≡ true }
    ensures told { IfOk result (λ status. IsTold (ComesTo (Some (Exec call.now)) (nat_lt (S.faults source.old) (S.faults source.new)) (S.left source.old)
        (S.left source.new)) status (nat_lt (O.faults out.old) (O.faults out.new)) (O.written out.old) (O.written out.new)) }
    ensures kept { OnErr result (out.new ≡ out.old) }
    ensures front { TookFront (S.left source.old) (S.faults source.old) (S.left source.new) (S.faults source.new) }
{
    let given = read_foreign(alloc, source)?;
    match given {
        LoadedImage::Image(image) => run_image(alloc, &image, call, None, out),
        LoadedImage::Bad(offset) => Ok(write(out, &bad_image(alloc, offset)?)),
        LoadedImage::Failed => Ok(write(out, &read_fault(alloc)?)),
    }
}

/// Writes what the source comes to, and gives the status: where there is no command, the command line asks for nothing. There,
/// and where the command is `drill`, the source stays as it is.
#[tactic(auto, using(source_reading::proofs::Fronts::took_nothing))]
fn answer_to<R: Threads + Wait + Sync, S: Source, O: Sink, G: Gate>(
    rt: &R,
    alloc: Global,
    command: &Option<Command>,
    source: &mut S,
    out: &mut O,
    gate: &G,
) -> Result<u8, AllocError>
    requires faults { S.faults source.old < 2 ^ 64 - 1 }
    requires open { S.is_open source.old ≡ true }
    requires ranges { IfSome command.now IsInRange }
    requires sink_count { O.faults out.old < 2 ^ 64 - 1 }
    requires sink_open { O.is_open out.old ≡ true }
    ensures answer { IfOk result (λ status. IsTold (ComesTo command.now (nat_lt (S.faults source.old) (S.faults source.new)) (S.left source.old)
        (S.left source.new)) status (nat_lt (O.faults out.old) (O.faults out.new)) (O.written out.old) (O.written out.new)) }
    ensures kept { OnErr result (out.new ≡ out.old) }
    ensures untouched { ReadsNothing command.now → source.new ≡ source.old }
    ensures front { TookFront (S.left source.old) (S.faults source.old) (S.left source.new) (S.faults source.new) }
{
    match command {
        None => Ok(write(out, &usage(alloc)?)),
        Some(Command::Check(options)) => Ok(write(out, &check(rt, alloc, options, source, gate)?)),
        Some(Command::Compile(options)) => compile(rt, alloc, options, source, out, gate),
        Some(Command::Many(options)) => Ok(write(out, &many(rt, alloc, options, source, gate)?)),
        Some(Command::Run(call)) => run(rt, alloc, call, source, out, gate),
        Some(Command::Exec(call)) => exec(alloc, call, source, out),
        Some(Command::Drill(words)) => {
            drill(rt, alloc, words, settings_of(&words.options), out, gate)
        }
    }
}

/// Does all that the program does: reads the command line and the source, and writes the answer to the sink.
///
/// `words` begins with the program's name. The result is the status that the program ends with: 0 where the command was done, 1
/// where the command line is outside the command grammar, 2 where the bytes are no module, 3 where the function can't be called
/// so, 4 where it trapped, 5 where its run hadn't ended after all steps, 6 where the source failed and the bytes that came have
/// no error that more bytes don't mend, 7 where the sink failed, 8 where memory ran out, after which nothing is written, 9 where
/// the machine had no step, and 10 where the bytes are no image; the last two come of `exec` alone. It is 11 where the run called
/// `proc_exit` with another code than 0, and 12 where the bytes are no frames, which comes of `many` alone; that gives 2 where one
/// of the modules is refused. For a command line outside the command grammar, and for `drill`, the source isn't read.
#[tactic(auto, using(source_reading::proofs::Fronts::took_nothing))]
pub fn top<R: Threads + Wait + Sync, S: Source, O: Sink, G: Gate>(
    rt: &R,
    alloc: Global,
    words: &Vec<String>,
    source: &mut S,
    out: &mut O,
    gate: &G,
) -> u8
    requires source_count { S.faults source.old < 2 ^ 64 - 1 }
    requires source_open { S.is_open source.old ≡ true }
    requires sink_count { O.faults out.old < 2 ^ 64 - 1 }
    requires sink_open { O.is_open out.old ≡ true }
    ensures answer { AnswersAndWrites (out.new ≡ out.old) (command_said words.now.items) (nat_lt (S.faults source.old) (S.faults source.new))
        (S.left source.old) (S.left source.new) result
        (nat_lt (O.faults out.old) (O.faults out.new)) (O.written out.old) (O.written out.new) }
    ensures untouched { ReadsNothing (command_said words.now.items) → source.new ≡ source.old }
    ensures front { TookFront (S.left source.old) (S.faults source.old) (S.left source.new) (S.faults source.new) }
{
    let Ok(command) = command_in(alloc, words) else {
        return 8;
    };
    match answer_to(rt, alloc, &command, source, out, gate) {
        Ok(status) => status,
        Err(_) => 8,
    }
}
