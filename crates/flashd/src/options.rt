//! The options of the command line.
ghost use Rattle.std.specs.Prelude.{◌≡◌, ◌*◌, ◌⊎◌, ◌++◌, ℕ, Option, IfNone, IfOk, IfSome, Some};
ghost use Rattle.std.specs.Prelude.{None, codes, false, true};
ghost use Rattle.std.specs.Prelude.{option_map};
ghost use Rattle.std.specs.Option.{option_map_or, unwrap_or};
ghost use Rattle.clap.specs.Words.{first_value, found_of, one_text};
ghost use Rattle.flashd.specs.Command as cmd;
ghost use Rattle.flashd.specs.Options.{IsGiven, IsOmitted, ReadsText, SetsLimits, SetsPreload};
ghost use Rattle.iol_reactor.specs.declared.limits.TheConstants.Limits.{DEFAULT};

use clap::{Arg, ArgAction, ArgMatches, Command, value_parser};
use flash_site::source::PRELOAD_BYTES;
use iol_reactor::limits::Limits;
use std::alloc::{AllocError, Global};
use std::net::SocketAddr;
use std::str::FromStr;

const VERSION: &str = "0.1.0";

const ABOUT: &str = "Serves the files below a folder by HTTP/1.1 to many clients at once.";

const AFTER_HELP: &str =
    "Ends with 0 after --stop-after clients, with 2 where the words are wrong, and with 3 where \
    ROOT cannot be read or ADDR:PORT cannot be listened on.";

const DAY: i64 = 86_400;

const MILLIS: u64 = 1_000;

/// The options of the command line.
#[derive(Clone, Copy, Debug)]
pub struct Options<'a> {
    /// The address to listen on.
    pub listen: SocketAddr,

    /// The folder whose files are served.
    pub root: &'a str,

    /// The path of the access log: `-` is standard output.
    pub access_log: Option<&'a str>,

    /// The maximum number of bytes of files that are read into memory, if any.
    pub preload: Option<u64>,

    /// Whether only states of the site that are in memory are served.
    pub memory_only: bool,

    pub limits: Limits,
}

impl<'a> Options<'a> {
    /// The options. None: there is no valid address to listen on, or no folder.
    pub fn of(matches: &ArgMatches<'a>) -> Option<Options<'a>>
        ensures root { IfSome result (λ o. first_value (found_of matches.now) (codes "root")
            ≡ Some o.root.now) }
        ensures log { IfSome result (λ o. first_value (found_of matches.now) (codes "access-log")
            ≡ option_map (λ path. path.now) o.access_log) }
        ensures folder { IsGiven (found_of matches.now) (codes "no-preload")
            → IfSome result (λ o. o.preload ≡ None) }
        ensures preload { IsOmitted (found_of matches.now) (codes "no-preload")
            → IfSome result (λ o. SetsPreload ⟦<u64 as FromStr>⟧.from_str_gives
            (found_of matches.now) o.preload) }
        ensures memory { IsGiven (found_of matches.now) (codes "memory-only")
            → IfSome result (λ o. o.memory_only ≡ true) }
        ensures anywhere { IsOmitted (found_of matches.now) (codes "memory-only")
            → IfSome result (λ o. o.memory_only ≡ false) }
        ensures listen { IfSome result (λ o. ReadsText ⟦<SocketAddr as FromStr>⟧.from_str_gives
            (one_text (found_of matches.now) (codes "listen")) (Some o.listen)) }
        ensures limits { IfSome result (λ o. SetsLimits ⟦<u32 as FromStr>⟧.from_str_gives
            (found_of matches.now) o.limits) }
        ensures none { IfNone result ((first_value (found_of matches.now) (codes "root") ≡ None)
            ⊎ ReadsText ⟦<SocketAddr as FromStr>⟧.from_str_gives
            (one_text (found_of matches.now) (codes "listen")) None) }
    {
        let listen = matches.get_one::<SocketAddr>("listen")?;
        let root = matches.get_str("root")?;
        Some(Options {
            listen,
            root,
            access_log: matches.get_str("access-log"),
            preload: preload_of(matches),
            memory_only: matches.get_flag("memory-only"),
            limits: limits_of(matches),
        })
    }
}

// The maximum number of bytes of files that are read into memory, if any.
fn preload_of(matches: &ArgMatches<'_>) -> Option<u64>
    ensures folder { IsGiven (found_of matches.now) (codes "no-preload") → result ≡ None }
    ensures preload { IsOmitted (found_of matches.now) (codes "no-preload")
        → SetsPreload ⟦<u64 as FromStr>⟧.from_str_gives (found_of matches.now) result }
{
    if matches.get_flag("no-preload") {
        None
    } else {
        Some(
            matches
                .get_one::<u64>("preload-limit")
                .unwrap_or(PRELOAD_BYTES),
        )
    }
}

// The number that an option has as its value. None: it has none, or its text is no number.
fn number_of(matches: &ArgMatches<'_>, id: &str) -> Option<u32>
    ensures { ReadsText ⟦<u32 as FromStr>⟧.from_str_gives (one_text (found_of matches.now) id.now)
        result }
{
    matches.get_one::<u32>(id)
}

// The limits of the event loop, with the given changes.
fn limits_of(matches: &ArgMatches<'_>) -> Limits
    ensures { SetsLimits ⟦<u32 as FromStr>⟧.from_str_gives (found_of matches.now) result }
{
    Limits {
        stop_after: number_of(matches, "stop-after"),
        max_clients: clients_of(matches),
        idle_millis: millis_of(matches, "idle-timeout", Limits::DEFAULT.idle_millis),
        head_millis: millis_of(matches, "request-timeout", Limits::DEFAULT.head_millis),
        min_rate: rate_of(matches),
        retire_millis: millis_of(matches, "retire-timeout", Limits::DEFAULT.retire_millis),
        ..Limits::DEFAULT
    }
}

// The maximum number of clients.
fn clients_of(matches: &ArgMatches<'_>) -> usize
    ensures { (count : Option ℕ) × ReadsText ⟦<u32 as FromStr>⟧.from_str_gives
        (one_text (found_of matches.now) (codes "max-clients")) count
        × (result ≡ unwrap_or count DEFAULT.max_clients) }
{
    match number_of(matches, "max-clients") {
        Some(count) => count as usize,
        None => Limits::DEFAULT.max_clients,
    }
}

// The milliseconds of an option in seconds, or this default.
fn millis_of(matches: &ArgMatches<'_>, id: &str, default: u64) -> u64
    ensures { (seconds : Option ℕ) × ReadsText ⟦<u32 as FromStr>⟧.from_str_gives
        (one_text (found_of matches.now) id.now) seconds
        × (result ≡ option_map_or (λ n. n * 1000) seconds default) }
{
    match number_of(matches, id) {
        Some(seconds) => u64::from(seconds).saturating_mul(MILLIS),
        None => default,
    }
}

// The minimum rate of a client, in bytes per second.
fn rate_of(matches: &ArgMatches<'_>) -> u64
    ensures { (bytes : Option ℕ) × ReadsText ⟦<u32 as FromStr>⟧.from_str_gives
        (one_text (found_of matches.now) (codes "min-rate")) bytes
        × (result ≡ unwrap_or bytes DEFAULT.min_rate) }
{
    match number_of(matches, "min-rate") {
        Some(bytes) => u64::from(bytes),
        None => Limits::DEFAULT.min_rate,
    }
}

/// The command line: its options, and their help texts.
pub fn command<'a>(alloc: Global) -> Result<Command<'a>, AllocError>
    ensures { IfOk result (λ c. cmd.arguments_of c ≡ cmd.arguments) }
{
    let command = Command::new(alloc, "flashd")
        .version(VERSION)
        .about(ABOUT)
        .after_help(AFTER_HELP)
        .arg(listen(alloc))?
        .arg(root(alloc))?;
    files_arguments(alloc, clients_arguments(alloc, command)?)
}

// The options that limit clients.
fn clients_arguments<'a>(alloc: Global, command: Command<'a>) -> Result<Command<'a>, AllocError>
    ensures { IfOk result (λ c. cmd.arguments_of c
        ≡ cmd.arguments_of command.entry ++ cmd.client_arguments) }
{
    command
        .arg(stop_after(alloc))?
        .arg(max_clients(alloc))?
        .arg(idle_timeout(alloc))?
        .arg(request_timeout(alloc))?
        .arg(min_rate(alloc))?
        .arg(retire_timeout(alloc))
}

// The options for files.
fn files_arguments<'a>(alloc: Global, command: Command<'a>) -> Result<Command<'a>, AllocError>
    ensures { IfOk result (λ c. cmd.arguments_of c
        ≡ cmd.arguments_of command.entry ++ cmd.file_arguments) }
{
    command
        .arg(access_log(alloc))?
        .arg(preload_limit(alloc))?
        .arg(no_preload(alloc))?
        .arg(memory_only(alloc)?)
}

fn listen<'a>(alloc: Global) -> Arg<'a>
    ensures { cmd.IsArgument cmd.listen result }
{
    Arg::new(alloc, "listen")
        .long("listen")
        .value_name("ADDR:PORT")
        .default_value("127.0.0.1:8080")
        .help("Listen on this IP address and port; port 0 is any that is free")
}

fn root<'a>(alloc: Global) -> Arg<'a>
    ensures { cmd.IsArgument cmd.root result }
{
    Arg::new(alloc, "root")
        .value_name("ROOT")
        .required(true)
        .help("Serve the files in this folder and in the folders below it")
}

fn stop_after<'a>(alloc: Global) -> Arg<'a>
    ensures { cmd.IsArgument (cmd.option (codes "stop-after")) result }
{
    Arg::new(alloc, "stop-after")
        .long("stop-after")
        .value_name("N")
        .value_parser(value_parser!(u32).range(1..))
        .help("End after this number of clients")
}

fn max_clients<'a>(alloc: Global) -> Arg<'a>
    ensures { cmd.IsArgument (cmd.option (codes "max-clients")) result }
{
    Arg::new(alloc, "max-clients")
        .long("max-clients")
        .value_name("N")
        .value_parser(value_parser!(u32).range(1..1_000_000))
        .help(
            "Serve at most this number of clients at once; more wait to be accepted [default: 4096]",
        )
}

fn idle_timeout<'a>(alloc: Global) -> Arg<'a>
    ensures { cmd.IsArgument (cmd.option (codes "idle-timeout")) result }
{
    Arg::new(alloc, "idle-timeout")
        .long("idle-timeout")
        .value_name("SECONDS")
        .value_parser(value_parser!(u32).range(1..DAY))
        .help("Close a connection after this time without a request [default: 60]")
}

fn request_timeout<'a>(alloc: Global) -> Arg<'a>
    ensures { cmd.IsArgument (cmd.option (codes "request-timeout")) result }
{
    Arg::new(alloc, "request-timeout")
        .long("request-timeout")
        .value_name("SECONDS")
        .value_parser(value_parser!(u32).range(1..DAY))
        .help("Close a connection whose request is not complete after this time [default: 10]")
}

fn min_rate<'a>(alloc: Global) -> Arg<'a>
    ensures { cmd.IsArgument (cmd.option (codes "min-rate")) result }
{
    Arg::new(alloc, "min-rate")
        .long("min-rate")
        .value_name("BYTES")
        .value_parser(value_parser!(u32))
        .help(
            "Close a connection that accepts fewer bytes of a response a second, over 20 seconds [default: 1024]",
        )
}

fn retire_timeout<'a>(alloc: Global) -> Arg<'a>
    ensures { cmd.IsArgument (cmd.option (codes "retire-timeout")) result }
{
    Arg::new(alloc, "retire-timeout")
        .long("retire-timeout")
        .value_name("SECONDS")
        .value_parser(value_parser!(u32).range(1..DAY))
        .help(
            "Cut off a response that takes longer than this after a change of the site [default: 300]",
        )
}

fn access_log<'a>(alloc: Global) -> Arg<'a>
    ensures { cmd.IsArgument (cmd.option (codes "access-log")) result }
{
    Arg::new(alloc, "access-log")
        .long("access-log")
        .value_name("FILE")
        .help(
            "Append a line for each response to this file, in the Common Log Format; - is standard output",
        )
}

fn preload_limit<'a>(alloc: Global) -> Arg<'a>
    ensures { cmd.IsArgument (cmd.option (codes "preload-limit")) result }
{
    Arg::new(alloc, "preload-limit")
        .long("preload-limit")
        .value_name("BYTES")
        .value_parser(value_parser!(u64))
        .help(
            "Read the site into memory if it has at most this number of bytes [default: 268435456]",
        )
}

fn no_preload<'a>(alloc: Global) -> Arg<'a>
    ensures { cmd.IsArgument (cmd.flag (codes "no-preload")) result }
{
    Arg::new(alloc, "no-preload")
        .long("no-preload")
        .action(ArgAction::SetTrue)
        .help("Read no file into memory: serve all from the folder")
}

fn memory_only<'a>(alloc: Global) -> Result<Arg<'a>, AllocError>
    ensures { IfOk result (cmd.IsArgument (cmd.flag (codes "memory-only"))) }
{
    Arg::new(alloc, "memory-only")
        .long("memory-only")
        .action(ArgAction::SetTrue)
        .help(
            "Serve no state of the site that exceeds --preload-limit: the last one before is served",
        )
        .conflicts_with("no-preload")
}
