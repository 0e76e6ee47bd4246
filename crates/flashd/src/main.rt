//! `flashd`: serves the files below a folder by HTTP/1.1 to many concurrent clients.
#![tactic(auto)]

ghost use Rattle.std.specs.Prelude.{◌≡◌, ◌≢◌, ◌⊎◌, IfErr, IfOk};
ghost use Rattle.clap.specs.Words.{kind_of};
ghost use Rattle.flashd.specs.declared.TheConstants.{BAD_WORDS, FAULT};
ghost use Rattle.clap.specs.declared.error.ErrorKind.TheVariants.{DisplayHelp, DisplayVersion};

mod fault;
mod notices;
mod options;
mod serve;
mod service;
mod storage;

use fault::{Fault, Step};
use options::{Options, command};
use serve::serve;
use std::io::{ErrorKind, Write};
use std::process::ExitCode;
use std::rt::Env;
use std::{env, io};

/// The exit status for words that are not accepted.
const BAD_WORDS: u8 = 2;

/// The exit status after a fault.
const FAULT: u8 = 3;

/// The words of the command line, the program's own first.
fn words_of<R: Env + AllocGlobal>(rt: &R) -> io::Result<Vec<String>> {
    let mut words = Vec::new(rt.alloc());
    for word in env::args(rt)? {
        words.push(word)?;
    }
    Ok(words)
}

/// Runs the program that the words request, and returns its exit status.
fn run<'a>(rt: &HostRuntime, words: &'a [String]) -> Result<u8, Fault<'a>>
    ensures { IfOk result (λ status. (status ≡ 0) ⊎ (status ≡ 2)) }
{
    let command = command(rt.alloc())?;
    let matches = match command.try_get_matches_from(words) {
        Ok(matches) => matches,
        Err(error) => {
            let shown = error.print(rt);
            let status = status_of_words(&error);
            shown.map_err(|error| Fault::of(Step::Print, error))?;
            return Ok(status);
        }
    };
    let Some(options) = Options::of(&matches) else {
        writeln!(
            rt.stderr(),
            "error: --listen wants an IP address and a port, as 127.0.0.1:8080 or [::1]:8080"
        )
        .map_err(|error| Fault::of(Step::Print, error))?;
        return Ok(BAD_WORDS);
    };
    serve(rt, &options)?;
    Ok(0)
}

// The exit status for words that were not parsed: 0 if they request the help or the version.
fn status_of_words(error: &clap::Error) -> u8
    ensures shown { (kind_of error.now ≡ DisplayHelp) ⊎ (kind_of error.now ≡ DisplayVersion)
        → result ≡ 0 }
    ensures wrong { kind_of error.now ≢ DisplayHelp → kind_of error.now ≢ DisplayVersion
        → result ≡ BAD_WORDS }
{
    if error.use_stderr() { BAD_WORDS } else { 0 }
}

/// Runs the program, and reports on standard error the fault that ended it early. An error of that
/// write is ignored.
fn main(rt: HostRuntime) -> ExitCode {
    let words = words_of(&rt);
    let done = match &words {
        Ok(words) => run(&rt, words),
        Err(error) => Err(Fault::of(Step::ReadWords, *error)),
    };
    if let Err(fault) = &done {
        let _ = writeln!(rt.stderr(), "flashd: {fault}");
    }
    ExitCode::from(status_of(&done))
}

// The exit status.
fn status_of(done: &Result<u8, Fault<'_>>) -> u8
    ensures ok { IfOk done.now (λ status. result ≡ status) }
    ensures fault { IfErr done.now (λ fault. result ≡ FAULT) }
{
    match done {
        Ok(status) => *status,
        Err(_) => FAULT,
    }
}
