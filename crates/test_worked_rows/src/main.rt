//! Rows of the file server, of scripts and of borrowed paths, over a site in memory:
//! `scripts/hostile_rows` runs each with one resource failure after another.
//!
//! `test_worked_rows served CHUNKS FAULT FILE ..` serves one connection from standard input to
//! standard output, and prints its ending. A FILE is `all` or `guest` (the domains that may read
//! it), a name, a count and a text, which is repeated as often. CHUNKS are those of the pool
//! `site`. Device call number FAULT fails, if it is not 0.
//!
//! `test_worked_rows turns CHUNKS FAULT FILE ..` requests the script `s.cgi` and the file `f` at
//! once, and the guest writes `f` before the script reads it.
//!
//! `test_worked_rows borrowed COUNT TEXT MOST FAILS MOST FAILS STEP ..` takes a connection through
//! steps, each a word and a number, on a site without files. Its reader gives the text COUNT
//! times, at most MOST bytes at once, and fails at read number FAILS, if that is not 0. The same
//! holds for its writer.
//!
//! One empty line is written before the site is created, after its inputs are made, and one when
//! it exists. A step that runs out of memory from there on, the creation of the site or an
//! external event, is retried.
#![tactic(auto)]

mod host;
mod streams;
mod turns;

use anyhow::Context;
use host::{Beginning, File, Host, Plan, connect};
use iol_core::refusals::Refusal;
use iol_serve::ending::Ending;
use iol_serve::serve::serve_connection;
use std::alloc::{AllocError, Global};
use std::io::{Read, Write};
use std::{env, io};
use streams::{Deed, Step, Streams, carry_out_all};
use test_parts::streams::{Sink, Source};
use test_parts::texts::repeated;
use test_parts::words::{number, word};
use turns::Course;

/// The kinds of rows.
#[derive(Clone, Copy, Drop)]
enum Mode {
    Served,
    Turns,
    Borrowed,
}

impl Mode {
    /// The kind of a word.
    fn of_word(word: &str) -> Option<Mode> {
        match word {
            "served" => Some(Mode::Served),
            "turns" => Some(Mode::Turns),
            "borrowed" => Some(Mode::Borrowed),
            _ => None,
        }
    }
}

// A text, repeated as often as the count before it.
fn given(alloc: Global, words: &mut env::Args) -> anyhow::Result<Vec<u8>> {
    let count = number(words)?;
    let text = word(words)?;
    let bytes = repeated(alloc, text.as_bytes(), count as usize)?;
    Ok(bytes)
}

fn file_of(alloc: Global, first: &str, words: &mut env::Args) -> anyhow::Result<File> {
    let private = first == "guest";
    let name = word(words)?;
    let bytes = given(alloc, words)?;
    Ok(File {
        private,
        name,
        bytes,
    })
}

fn files_of(alloc: Global, words: &mut env::Args) -> anyhow::Result<Vec<File>> {
    let mut files = Vec::new(alloc);
    for _ in 0..1000 {
        let Some(first) = words.next() else {
            break;
        };
        files.push(file_of(alloc, first.as_str(), words)?)?;
    }
    Ok(files)
}

fn plan_of(alloc: Global, words: &mut env::Args) -> anyhow::Result<Plan> {
    let chunks = number(words)?;
    let fault = u64::from(number(words)?);
    let files = files_of(alloc, words)?;
    Ok(Plan {
        chunks,
        fault,
        files,
    })
}

fn steps_of(alloc: Global, words: &mut env::Args) -> anyhow::Result<Vec<Step>> {
    let mut steps = Vec::new(alloc);
    for _ in 0..1000 {
        let Some(first) = words.next() else {
            break;
        };
        let deed = Deed::of_word(first.as_str()).context("which step?")?;
        let number = number(words)?;
        steps.push(Step { deed, number })?;
    }
    Ok(steps)
}

fn word_of(ending: Option<Ending>) -> &'static str {
    match ending {
        Some(Ending::Over) => "over",
        Some(Ending::Failed) => "failed",
        Some(Ending::Silent) => "silent",
        Some(Ending::Long) => "long",
        None => "no connection",
    }
}

// Prints the ending, and whether a turn ran out of memory, or met a fault.
fn tell<W: Write>(host: &Host, how: &str, output: &mut W) -> io::Result<()> {
    let resource_failure = if host.is_resource_failure() {
        ", rough"
    } else {
        ""
    };
    writeln!(output, "{how}{resource_failure}")
}

fn serve<R: Read, W: Write>(host: &mut Host, input: &mut R, output: &mut W) -> io::Result<()> {
    let ending = match connect(host) {
        Some(conn) => Some(serve_connection(host.world(), conn, input, output)),
        None => None,
    };
    tell(host, word_of(ending), output)
}

// The host of a site, with an empty line before it is created and one afterwards.
fn begun<W: Write>(alloc: Global, beginning: Beginning, output: &mut W) -> Result<Host, Refusal> {
    let _before = output.write_all(b"\n");
    let host = host::begun(alloc, beginning);
    let _behind = output.write_all(b"\n");
    host
}

fn served<R: Read, W: Write>(
    alloc: Global,
    beginning: Beginning,
    input: &mut R,
    output: &mut W,
) -> Result<(), Refusal> {
    let mut host = begun(alloc, beginning, output)?;
    let _after_reply = serve(&mut host, input, output);
    drop(host);
    Ok(())
}

fn serve_by_turns<W: Write>(host: &mut Host, course: &Course, output: &mut W) -> io::Result<()> {
    turns::carry_out(host, course, output)?;
    tell(host, "over", output)
}

fn by_turns<W: Write>(
    alloc: Global,
    beginning: Beginning,
    course: &Course,
    output: &mut W,
) -> Result<(), Refusal> {
    let mut host = begun(alloc, beginning, output)?;
    let _after_reply = serve_by_turns(&mut host, course, output);
    drop(host);
    Ok(())
}

fn take_steps<W: Write>(
    host: &mut Host,
    steps: &[Step],
    streams: &mut Streams<'_>,
    output: &mut W,
) -> io::Result<()> {
    carry_out_all(host, steps, streams, output)?;
    tell(host, "over", output)
}

fn stepped<W: Write>(
    alloc: Global,
    beginning: Beginning,
    steps: &[Step],
    streams: &mut Streams<'_>,
    output: &mut W,
) -> Result<(), Refusal> {
    let mut host = begun(alloc, beginning, output)?;
    let _after_reply = take_steps(&mut host, steps, streams, output);
    drop(host);
    Ok(())
}

fn run_served(rt: &HostRuntime, words: &mut env::Args) -> anyhow::Result<()> {
    let alloc = rt.alloc();
    let plan = plan_of(alloc, words)?;
    let beginning = Beginning::of(alloc, &plan)?;
    served(alloc, beginning, &mut rt.stdin(), &mut rt.stdout())?;
    Ok(())
}

fn run_turns(rt: &HostRuntime, words: &mut env::Args) -> anyhow::Result<()> {
    let alloc = rt.alloc();
    let plan = plan_of(alloc, words)?;
    let beginning = Beginning::of(alloc, &plan)?;
    let course = Course::new(alloc)?;
    by_turns(alloc, beginning, &course, &mut rt.stdout())?;
    Ok(())
}

// A site without files.
fn empty(alloc: Global) -> Plan {
    Plan {
        chunks: 1,
        fault: 0,
        files: Vec::new(alloc),
    }
}

fn run_borrowed(rt: &HostRuntime, words: &mut env::Args) -> anyhow::Result<()> {
    let alloc = rt.alloc();
    let bytes = given(alloc, words)?;
    let source = Source::new(&bytes, number(words)?, number(words)?);
    let (most, fails) = (number(words)?, number(words)?);
    let sink = Sink::with_room(alloc, bytes.len(), most, fails)?;
    let steps = steps_of(alloc, words)?;
    let beginning = Beginning::of(alloc, &empty(alloc))?;
    let mut streams = Streams { source, sink };
    stepped(alloc, beginning, &steps, &mut streams, &mut rt.stdout())?;
    Ok(())
}

fn run(rt: &HostRuntime, mode: Mode, words: &mut env::Args) -> anyhow::Result<()> {
    match mode {
        Mode::Served => run_served(rt, words),
        Mode::Turns => run_turns(rt, words),
        Mode::Borrowed => run_borrowed(rt, words),
    }
}

fn main(rt: HostRuntime) -> anyhow::Result<()> {
    let mut words = env::args(&rt)?;
    let _program = words.next();
    let mode = Mode::of_word(word(&mut words)?.as_str()).context("served, turns or borrowed?")?;
    run(&rt, mode, &mut words)
}
