//! The program `replay`.
ghost use Rattle.std.specs.Prelude.{◌≡◌, ◌≢◌, ◌⊎◌, ◌++◌, [], All, Err, IfOk, IfErr, IfSome, OnOk, OnErr, string_bytes};
ghost use Rattle.std.specs.Io.KnownBytes.{Appends};
ghost use Rattle.std.specs.IoError.{error_kind};
ghost use Rattle.iolite.specs.Answers.{Answering, AnswersLine, EndsWantingIn, EndsWithin, IsAnswer, IsNew, LosesLine, Replays, ReplaysText};
ghost use Rattle.iolite.specs.Failure.{IsOfAnswers, IsOfInput};
ghost use Rattle.iolite.specs.PrintedText.{answer_text, newline};
ghost use Rattle.iolite.specs.Script.{AsksSomething, IsScriptText, IsWholeOrTooLong, asking, commands, lines};

use crate::failure::Failure;
use crate::lines::{Printed, PrintedReport};
use crate::output::{BUFFER_BYTES, finish, gather};
use crate::script::{Line, is_asking, judge, read_line};
use crate::setup::Setup;
use iol_back::faulty::FaultyBacking;
use iol_back::memory::MemoryBacking;
use iol_core::configuration::Config;
use iol_core::events::Reply;
use iol_system::Report;
use iol_system::system::System;
use std::alloc::Global;
use std::io;
use std::io::{ErrorKind, Read, Write};

/// The maximum number of bytes of a script.
const MAX_SCRIPT_BYTES: u64 = 0x100_0000;

/// The result of a line of a script.
#[derive(Debug, Drop)]
pub enum Answer {
    Reply(Reply),
    Report(Report),
}

/// Runs the script in the input, and prints one reply per line, up to the first failure.
///
/// The whole script is read and checked before the first event, so an invalid script prints
/// nothing. Then each line is parsed again and executed on the system that the headers define,
/// before the next line is parsed. Output is written in pieces of about 8 KiB. If the output
/// fails, a prefix of the replies is printed. If a line runs out of memory, the replies to all
/// earlier lines are printed first.
pub fn replay<R: Read, W: Write>(
    alloc: Global,
    input: &mut R,
    output: &mut W,
) -> Result<(), Failure>
    ensures { Replays (R.remaining input.old) (W.contents output.old) (W.contents output.new)
        output.old output.new result }
{
    match read_text(alloc, input) {
        Ok(text) => replay_text(alloc, text.as_str(), output),
        Err(failure) => Err(failure),
    }
}

/// Checks a script, then executes its lines in order.
fn replay_text<W: Write>(alloc: Global, text: &str, output: &mut W) -> Result<(), Failure>
    ensures { ReplaysText text.now (W.contents output.old) (W.contents output.new)
        output.old output.new result }
{
    let setup = judge(alloc, text)?;
    let mut system = system_of(alloc, setup)?;
    answer_lines(alloc, &mut system, text, output)
}

/// Reads the input to its end, as a script.
fn read_text<R: Read>(alloc: Global, input: &mut R) -> Result<String, Failure>
    ensures whole { IfOk result
        (λ text. IfSome (R.remaining input.old) (λ given. string_bytes text ≡ given)) }
    ensures script { IfOk result (λ text. IsScriptText (string_bytes text)) }
    ensures bad { result ≡ Err Failure.BadScript →
        IfSome (R.remaining input.old) (λ given. ¬ (IsScriptText given)) }
    ensures error { IfErr result IsOfInput }
{
    let bytes = read_bytes(alloc, input)?;
    text_of(bytes)
}

/// Reads the input to its end, or to one byte more than a script may have.
fn read_bytes<R: Read>(alloc: Global, input: &mut R) -> Result<Vec<u8>, Failure>
    ensures bytes { IfOk result
        (λ bytes. IfSome (R.remaining input.old) (IsWholeOrTooLong bytes.items)) }
    ensures error { IfErr result
        (λ failure. (failure ≡ Failure.Input) ⊎ (failure ≡ Failure.Memory)) }
{
    let mut bytes = Vec::new(alloc);
    match input.take(MAX_SCRIPT_BYTES + 1).read_to_end(&mut bytes) {
        Ok(_) => Ok(bytes),
        Err(e) => Err(failure_of(&e)),
    }
}

/// The bytes of a script as text.
fn text_of(bytes: Vec<u8>) -> Result<String, Failure>
    ensures text { IfOk result (λ text. string_bytes text ≡ bytes.items) }
    ensures script { IfOk result (λ text. IsScriptText (string_bytes text)) }
    ensures bad { OnErr result (¬ (IsScriptText bytes.items)) }
    ensures error { IfErr result (λ failure. failure ≡ Failure.BadScript) }
{
    if bytes.len() as u64 > MAX_SCRIPT_BYTES {
        return Err(Failure::BadScript);
    }
    match String::from_utf8(bytes) {
        Ok(text) => Ok(text),
        Err(_) => Err(Failure::BadScript),
    }
}

/// A system over a store in memory, in which one read or write may fail.
type ScriptSystem = System<FaultyBacking<MemoryBacking>>;

// The system that the headers of a script define.
fn system_of(alloc: Global, setup: Setup) -> Result<ScriptSystem, Failure>
    ensures new { IfOk result (IsNew setup) }
    ensures error { IfErr result (λ failure. failure ≡ Failure.Memory) }
{
    let config = setup.config.unwrap_or(Config::DEFAULT);
    let store = FaultyBacking::new(MemoryBacking::new(setup.slots), setup.fault.unwrap_or(0));
    // The parameters are in their ranges, so the only possible error is out of memory.
    match System::new(alloc, config, store) {
        Ok(system) => Ok(system),
        Err(_) => Err(Failure::Memory),
    }
}

// Executes each line before it parses the next, so that memory holds the event of one line and one
// reply at a time. If a line runs out of memory, the replies to earlier lines are written first.
fn answer_lines<W: Write>(
    alloc: Global,
    system: &mut ScriptSystem,
    text: &str,
    output: &mut W,
) -> Result<(), Failure>
    requires { All AsksSomething (asking (commands text.now)) }
    ensures within { EndsWithin (lines text.now) system.old (W.contents output.old)
        (W.contents output.new) }
    ensures answered { OnOk result (Answering (lines text.now) system.old system.new
        (W.contents output.old) (W.contents output.new) []) }
    ensures memory { result ≡ Err Failure.Memory → EndsWantingIn W.contents text.now system.old
        system.new output.old output.new }
    ensures error { IfErr result IsOfAnswers }
{
    let mut pending = match Vec::with_capacity(alloc, BUFFER_BYTES) {
        Ok(pending) => pending,
        Err(_) => return Err(Failure::Memory),
    };
    let mut answer = Vec::new(alloc);
    for line in text.split('\n') {
        if !is_asking(line) {
            continue;
        }
        if let Err(failure) = answer_line(alloc, system, line, &mut answer) {
            finish(pending.as_slice(), output)?;
            return Err(failure);
        }
        gather(answer.as_slice(), &mut pending, output)?;
    }
    finish(pending.as_slice(), output)
}

// Executes one line, and replaces the previous reply's text by that of this reply. The text has a
// buffer of its own, since a text that is incomplete for lack of memory must not follow those to
// be written.
fn answer_line(
    alloc: Global,
    system: &mut ScriptSystem,
    line: &str,
    text: &mut Vec<u8>,
) -> Result<(), Failure>
    requires { AsksSomething line.now }
    ensures answers { OnOk result
        (AnswersLine line.now system.old system.new text.new.items) }
    ensures lost { OnErr result (LosesLine line.now system.old system.new) }
    ensures error { IfErr result (λ failure. failure ≡ Failure.Memory) }
{
    let Some(asked) = read_line(line) else {
        unreachable!();
    };
    let Ok(line) = asked.make(alloc) else {
        return Err(Failure::Memory);
    };
    let answer = answer_to(system, line)?;
    text.clear();
    match write_answer(&answer, text) {
        Ok(()) => Ok(()),
        Err(_) => Err(Failure::Memory),
    }
}

// Executes an event, or makes a report, which changes nothing.
fn answer_to(system: &mut ScriptSystem, line: Line) -> Result<Answer, Failure>
    ensures answer { IfOk result (λ answer. IsAnswer system.old line answer system.new) }
    ensures same { OnErr result (system.new ≡ system.old) }
    ensures error { IfErr result (λ failure. failure ≡ Failure.Memory) }
{
    match line {
        Line::Event(event) => {
            let reply = system.step_ref(&event);
            Ok(Answer::Reply(reply))
        }
        Line::Report => match system.report() {
            Ok(report) => Ok(Answer::Report(report)),
            Err(_) => Err(Failure::Memory),
        },
    }
}

// Writes the text of a reply, and a line feed.
fn write_answer<W: Write>(answer: &Answer, output: &mut W) -> io::Result<()>
    ensures { OnOk result (Appends (W.contents output.old) (W.contents output.new)
        (answer_text answer.now ++ newline)) }
{
    match answer {
        Answer::Reply(reply) => {
            let printed = Printed(reply);
            writeln!(output, "{printed}")
        }
        Answer::Report(report) => {
            let printed = PrintedReport(report);
            writeln!(output, "{printed}")
        }
    }
}

// The failure for an error of the input.
fn failure_of(error: &io::Error) -> Failure
    ensures memory { error_kind error.now ≡ ErrorKind.OutOfMemory → result ≡ Failure.Memory }
    ensures otherwise { error_kind error.now ≢ ErrorKind.OutOfMemory → result ≡ Failure.Input }
{
    if error.kind() == ErrorKind::OutOfMemory {
        Failure::Memory
    } else {
        Failure::Input
    }
}
