//! The command line of the program.
ghost use Rattle.std.specs.Prelude.{◌≡◌, ◌↔◌, IsSome, IfSome, map, string_bytes};
ghost use Rattle.iolite.specs.Commands.{IsCommand, IsCount, IsLoop, IsPort, IsReplay, IsServe};
ghost use Rattle.iolite.specs.Reads.{Reads};
ghost use Rattle.iolite.specs.Words.{value};

use crate::words::parse_u32;

/// The maximum number of bytes of a path.
pub const MAX_PATH_BYTES: usize = 8000;

/// The maximum number of connections of `serve`.
pub const MAX_COUNT: u32 = 1_000_000;

/// A command, with its arguments.
#[derive(Clone, Copy, Debug)]
pub enum Command<'a> {
    Replay,
    Serve {
        port: u16,
        root: &'a str,
        count: u32,
    },
    Loop {
        root: &'a str,
        path: &'a str,
    },
}

/// Parses the words after the program's name, if they are a command.
pub fn read_command(words: &[String]) -> Option<Command<'_>>
    ensures { Reads (IsCommand (map string_bytes words.now)) result }
{
    match words {
        [name] => read_replay(name.as_str()),
        [name, root, path] => read_loop(name.as_str(), root.as_str(), path.as_str()),
        [name, port, root, count] => read_serve(
            name.as_str(),
            port.as_str(),
            root.as_str(),
            count.as_str(),
        ),
        _ => None,
    }
}

fn read_replay(name: &str) -> Option<Command<'_>>
    ensures { Reads (IsReplay name.now) result }
{
    if name == "replay" {
        Some(Command::Replay)
    } else {
        None
    }
}

fn read_loop<'a>(name: &str, root: &'a str, path: &'a str) -> Option<Command<'a>>
    ensures { Reads (IsLoop name.now root.now path.now) result }
{
    if name == "loop" && path.len() <= MAX_PATH_BYTES {
        Some(Command::Loop { root, path })
    } else {
        None
    }
}

fn read_serve<'a>(name: &str, port: &str, root: &'a str, count: &str) -> Option<Command<'a>>
    ensures { Reads (IsServe name.now port.now root.now count.now) result }
{
    if name != "serve" {
        return None;
    }
    let port = parse_port(port)?;
    let count = parse_count(count)?;
    Some(Command::Serve { port, root, count })
}

/// Parses a port, of decimal digits only.
fn parse_port(word: &str) -> Option<u16>
    ensures accepts { IsSome result ↔ IsPort word.now }
    ensures value { IfSome result (λ n. n ≡ value word.now) }
{
    if word.as_bytes().first() == Some(&b'+') {
        return None;
    }
    word.parse::<u16>().ok()
}

/// Parses the number of connections to be served, of decimal digits only.
fn parse_count(word: &str) -> Option<u32>
    ensures accepts { IsSome result ↔ IsCount word.now }
    ensures value { IfSome result (λ n. n ≡ value word.now) }
{
    let count = parse_u32(word)?;
    if 1 <= count && count <= MAX_COUNT {
        Some(count)
    } else {
        None
    }
}
