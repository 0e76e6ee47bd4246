//! The server.
ghost use Rattle.std.specs.Prelude.{◌≡◌, ◌↔◌, [], IfOk, IfSome, IsSome, IsTrue, OnOk, Some, true};
ghost use Rattle.std.specs.Fs.{new_options, with_append, with_create};
ghost use Rattle.flash_site.specs.Reads.{is_within};
ghost use Rattle.flash_site.specs.World.{BeginsSiteIn};
ghost use Rattle.flashd.specs.Announcement.{Announces};

use crate::fault::{Fault, Step};
use crate::options::Options;
use crate::service::SiteService;
use crate::storage::{Anywhere, InMemory, Storage};
use flash_lite::actor::Actor;
use flash_log::log::AccessLog;
use flash_site::source::{Loaded, Source};
use iol_proc::world::World;
use iol_reactor::reactor::Reactor;
use iol_reactor::service::Service;
use iol_tree::backing::TreeBacking;
use mio::net::TcpListener;
use std::alloc::AllocError;
use std::fs::{File, OpenOptions};
use std::io;
use std::io::Write;
use std::net::SocketAddr;

/// The reason for which `--memory-only` does not serve a site.
const NOT_IN_MEMORY: &str = "its files exceed --preload-limit, change, or cannot be read";

// The event loop of a site.
type SiteReactor<W, K> = Reactor<
    TcpListener,
    TreeBacking<HostRuntime>,
    Actor,
    SiteService<HostRuntime, W, K>,
>;

/// Serves a site with the options of the command line, until the given number of clients was
/// served.
pub fn serve<'a>(rt: &HostRuntime, options: &Options<'a>) -> Result<(), Fault<'a>> {
    let log = match options.access_log {
        Some("-") => return serve_site(rt, options, Some(AccessLog::new(rt.alloc(), rt.stdout()))),
        Some(path) => Some(AccessLog::new(rt.alloc(), open_log(rt, path)?)),
        None => None,
    };
    serve_site(rt, options, log)
}

// Opens the log file.
fn open_log<'a>(rt: &HostRuntime, path: &'a str) -> Result<File, Fault<'a>> {
    log_options()
        .open(rt, path)
        .map_err(|error| Fault::of(Step::OpenLog(path), error))
}

// The log file is appended to, and created if it is missing.
fn log_options() -> OpenOptions
    ensures { result ≡ with_create (with_append new_options true) true }
{
    let mut options = OpenOptions::new();
    options.append(true).create(true);
    options
}

// Reads the site.
fn read_site(
    rt: &HostRuntime,
    options: &Options<'_>,
) -> io::Result<(Source<HostRuntime>, Loaded<HostRuntime>)>
    ensures root { IfOk result (λ read. read.0.root.bytes.items ≡ options.now.root.now) }
    ensures preload { IfOk result (λ read. read.0.preload ≡ options.now.preload) }
    ensures memory { IfOk result (λ read. IsTrue read.1.summary.is_in_memory
        → IsTrue (is_within options.now.preload read.1.summary.bytes)) }
{
    let mut source = Source::new(rt, options.root, options.preload)?;
    let loaded = source.load()?;
    Ok((source, loaded))
}

// Reads the site, and serves it: with `--memory-only` only from memory.
fn serve_site<'a, W: Write + Drop>(
    rt: &HostRuntime,
    options: &Options<'a>,
    log: Option<AccessLog<W>>,
) -> Result<(), Fault<'a>>
    requires { IsSome log ↔ IsSome options.now.access_log }
{
    let root = options.root;
    let read = read_site(rt, options);
    let (source, loaded) = read.map_err(|error| Fault::of(Step::Read(root), error))?;
    if !options.memory_only {
        return serve_loaded::<W, Anywhere>(rt, options, source, loaded, log);
    }
    if !loaded.summary.is_in_memory {
        let error = io::Error::other(NOT_IN_MEMORY);
        return Err(Fault::of(Step::ReadIntoMemory(root), error));
    }
    serve_loaded::<W, InMemory>(rt, options, source, loaded, log)
}

// Listens, and serves a site that was read.
fn serve_loaded<'a, W: Write + Drop, K: Storage>(
    rt: &HostRuntime,
    options: &Options<'a>,
    source: Source<HostRuntime>,
    loaded: Loaded<HostRuntime>,
    log: Option<AccessLog<W>>,
) -> Result<(), Fault<'a>>
    requires memory { K.IN_MEMORY ≡ true → loaded.summary.is_in_memory ≡ true }
    requires storage { K.IN_MEMORY ≡ options.now.memory_only }
    requires log { IsSome log ↔ IsSome options.now.access_log }
{
    let Loaded { world, summary } = loaded;
    let mut reactor = listen::<W, K>(rt, options, world)?;
    let service = SiteService::<_, _, K>::new(rt, options.root, source, summary, log);
    let served = serve_clients(rt, service, &mut reactor);
    drop(reactor);
    served
}

// A reactor that listens on the address, and has the limits of the options.
fn listen<'a, W: Write + Drop, K: Storage>(
    rt: &HostRuntime,
    options: &Options<'a>,
    world: World<TreeBacking<HostRuntime>, Actor>,
) -> Result<SiteReactor<W, K>, Fault<'a>>
    requires { BeginsSiteIn K.IN_MEMORY world }
    ensures limits { IfOk result (λ reactor. reactor.engine.limits ≡ options.now.limits) }
    ensures stops { IfOk result (λ reactor. reactor.acceptor.left
        ≡ options.now.limits.stop_after) }
    ensures world { IfOk result (λ reactor. reactor.engine.places.worlds.current.world ≡ world) }
{
    let address = options.listen;
    let reactor = Reactor::new(rt, rt.alloc(), address, world, options.limits);
    reactor.map_err(|error| Fault::of(Step::Listen(address), error))
}

// Serves if there was memory for the service.
fn serve_clients<'a, W: Write + Drop, K: Storage>(
    rt: &HostRuntime,
    service: Result<SiteService<HostRuntime, W, K>, AllocError>,
    reactor: &mut SiteReactor<W, K>,
) -> Result<(), Fault<'a>>
    ensures { OnOk result (reactor.new.acceptor.left ≡ Some 0) }
{
    let mut service = service?;
    serve_logged(rt, &mut service, reactor)
}

// Prints its address, serves, and writes the rest of the log.
fn serve_logged<'a, W: Write + Drop, K: Storage>(
    rt: &HostRuntime,
    service: &mut SiteService<HostRuntime, W, K>,
    reactor: &mut SiteReactor<W, K>,
) -> Result<(), Fault<'a>>
    ensures written { IfSome service.new.log (λ log. log ≡ []) }
    ensures done { OnOk result (reactor.new.acceptor.left ≡ Some 0) }
{
    let served = match tell_address(rt, reactor) {
        Ok(()) => reactor
            .serve(rt, service)
            .map_err(|error| Fault::of(Step::Poll, error)),
        Err(error) => Err(Fault::of(Step::Print, error)),
    };
    service.flush();
    served
}

// Prints the line with its address.
fn tell_address<W: Write + Drop, K: Storage>(
    rt: &HostRuntime,
    reactor: &SiteReactor<W, K>,
) -> io::Result<()> {
    let address = reactor.local_addr()?;
    announce(address, &mut rt.stdout())
}

// Prints an address.
fn announce<O: Write>(address: SocketAddr, output: &mut O) -> io::Result<()>
    ensures { OnOk result (Announces address (O.contents output.old) (O.contents output.new)) }
{
    writeln!(output, "listening on http://{address}/")?;
    output.flush()
}
