//! Programs over an IO-Lite system.
//!
//! `iolite replay` runs a script from standard input and prints one reply per line. `iolite serve
//! PORT ROOT COUNT` serves the files of a folder by HTTP/1.1 on a port of 127.0.0.1, to COUNT
//! connections. `iolite loop ROOT PATH` requests a path from such a server, over a connection to
//! itself, and prints the response.
#![tactic(auto)]

ghost use Rattle.std.specs.Prelude.{◌≡◌, ◌⊎◌, map, string_bytes};
ghost use Rattle.iolite.specs.Commands.{IsNoCommand, MayBeBad};

mod calls;
mod commands;
mod failure;
mod headers;
mod lines;
mod names;
mod output;
mod outside;
mod replay;
mod script;
mod setup;
mod words;

use commands::{Command, read_command};
use failure::status_after;
use flash_folder::fault::{Fault, ended};
use flash_folder::loopback::loop_on;
use flash_folder::serve::serve;
use replay::replay;
use std::alloc::AllocError;
use std::env;
use std::io::{ErrorKind, Write};
use std::process::ExitCode;
use std::rt::Env;

const USAGE: &str = "usage: iolite replay | serve PORT ROOT COUNT | loop ROOT PATH";

/// The exit status for words that are no command.
const BAD_WORDS: u8 = 2;

/// The words after the program's name; if one is not UTF-8, there are none. The only error is out
/// of memory.
fn words_of<R: Env + AllocGlobal>(rt: &R) -> Result<Vec<String>, AllocError> {
    let mut words = Vec::new(rt.alloc());
    let mut arguments = match env::args(rt) {
        Ok(arguments) => arguments,
        Err(e) if e.kind() == ErrorKind::OutOfMemory => return Err(AllocError),
        Err(_) => return Ok(words),
    };
    let _program = arguments.next();
    for word in arguments {
        words.push(word)?;
    }
    Ok(words)
}

/// Runs the command and returns its status. If the words are no command, reports that on standard
/// error.
fn run(rt: &HostRuntime, words: &[String]) -> u8
    ensures statuses { (result ≡ 0) ⊎ ((result ≡ 2) ⊎ (result ≡ 3)) }
    ensures bad { result ≡ 2 → MayBeBad (map string_bytes words.now) }
    ensures none { IsNoCommand (map string_bytes words.now) → result ≡ 2 }
{
    let (mut output, mut errors) = (rt.stdout(), rt.stderr());
    match read_command(words) {
        Some(Command::Replay) => {
            let replayed = replay(rt.alloc(), &mut rt.stdin(), &mut output);
            status_after(replayed, &mut errors)
        }
        Some(Command::Serve { port, root, count }) => {
            serve(rt, port, root, count, &mut output, &mut errors)
        }
        Some(Command::Loop { root, path }) => loop_on(rt, root, path, &mut output, &mut errors),
        None => {
            let _ = writeln!(errors, "{USAGE}");
            BAD_WORDS
        }
    }
}

/// Runs the command, and ends with its status.
fn main(rt: HostRuntime) -> ExitCode {
    let status = match words_of(&rt) {
        Ok(words) => run(&rt, &words),
        Err(_) => ended(Err(Fault::Memory), &mut rt.stderr()),
    };
    ExitCode::from(status)
}
