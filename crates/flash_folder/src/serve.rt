//! The server of a folder.
ghost use Rattle.std.specs.Prelude.{◌≡◌, ◌≤◌, ◌⊎◌, IfErr, IfOk, OnOk, Some, length};
ghost use Rattle.flash_folder.specs.Fault.{StopsServing, StopsStart};
ghost use Rattle.flash_folder.specs.Announcement.{Announces, AnnouncesPort};
ghost use Rattle.flash_folder.specs.Serving.{limits_for};
ghost use Rattle.flash_folder.specs.World.{BeginsFolder};

use crate::fault::{Fault, ended};
use crate::folder::world_of;
use crate::service::FolderService;
use flash_lite::actor::Actor;
use iol_back::backing::Backing;
use iol_back::folder::FolderBacking;
use iol_reactor::limits::Limits;
use iol_reactor::reactor::Reactor;
use iol_reactor::service::Service;
use mio::net::TcpListener;
use std::io;
use std::io::Write;
use std::net::{Ipv4Addr, Net, SocketAddr};
use std::rt::{Clock, Files};

/// Serves the files of a folder on a port of 127.0.0.1 to this number of connections, and returns
/// the exit status. It prints the port once it listens; port 0 is any free port.
pub fn serve<R, W: Write, E: Write>(
    rt: &R,
    port: u16,
    root: &str,
    count: u32,
    output: &mut W,
    errors: &mut E,
) -> u8
where
    R: Net + Files + Clock + AllocGlobal + Clone + Drop,
    ensures statuses { (result ≡ 0) ⊎ (result ≡ 3) }
    ensures announced { result ≡ 0 → Announces (W.contents output.old) (W.contents output.new) }
    ensures silent { result ≡ 0 → errors.new ≡ errors.old }
{
    ended(listen_and_serve(rt, port, root, count, output), errors)
}

// Does the work of `serve`, up to the first fault.
fn listen_and_serve<R, W: Write>(
    rt: &R,
    port: u16,
    root: &str,
    count: u32,
    output: &mut W,
) -> Result<(), Fault>
where
    R: Net + Files + Clock + AllocGlobal + Clone + Drop,
    ensures { OnOk result (Announces (W.contents output.old) (W.contents output.new)) }
{
    let mut server = Server::listen(rt, port, root, count)?;
    announce_and_serve(rt, &mut server, output)
}

// Prints the port, and serves.
fn announce_and_serve<R, W: Write>(
    clock: &R,
    server: &mut FolderServer<R>,
    output: &mut W,
) -> Result<(), Fault>
where
    R: Files + Clock + Drop,
    ensures { OnOk result (Announces (W.contents output.old) (W.contents output.new)) }
{
    announce(server.port()?, output)?;
    server.serve(clock)
}

/// A server that listens on a port of 127.0.0.1.
#[derive(Drop)]
pub struct Server<B: Backing, V: Service<B, Actor>> {
    reactor: Reactor<TcpListener, B, Actor, V>,
}

/// The server of the files of a folder.
pub type FolderServer<R> = Server<FolderBacking<R>, FolderService>;

impl<R: Files + Drop> Server<FolderBacking<R>, FolderService> {
    /// Reads the folder, and listens for this number of connections. It reads the folder first, so
    /// that no client connects to a server without files.
    pub fn listen(rt: &R, port: u16, root: &str, count: u32) -> Result<FolderServer<R>, Fault>
    where
        R: Net + AllocGlobal + Clone,
        ensures fault { IfErr result (λ fault. StopsStart fault ⊎ (fault ≡ Fault.Listen)) }
        ensures count { IfOk result (λ server. server.reactor.acceptor.left ≡ Some count) }
        ensures limits { IfOk result (λ server. server.reactor.engine.limits ≡ limits_for count) }
        ensures world { IfOk result
            (λ server. BeginsFolder server.reactor.engine.places.worlds.current.world) }
    {
        let world = world_of(rt, root)?;
        let address = SocketAddr::from((Ipv4Addr::LOCALHOST, port));
        match Reactor::new(rt, rt.alloc(), address, world, limits_of(count)) {
            Ok(reactor) => Ok(Server { reactor }),
            Err(e) => Err(Fault::of(&e, Fault::Listen)),
        }
    }

    /// The port that it listens on.
    pub fn port(&self) -> Result<u16, Fault>
        ensures { IfErr result (λ fault. fault ≡ Fault.Listen) }
    {
        match self.reactor.local_addr() {
            Ok(address) => Ok(address.port()),
            Err(_) => Err(Fault::Listen),
        }
    }

    /// Serves the connections. It returns when all have ended, or none can be accepted.
    pub fn serve(&mut self, clock: &impl Clock) -> Result<(), Fault>
        ensures fault { IfErr result StopsServing }
        ensures done { OnOk result (self.new.reactor.acceptor.left ≡ Some 0) }
        ensures gone { OnOk result (length self.new.reactor.engine.places.clients.items
            ≤ length self.new.reactor.engine.free.items) }
    {
        let mut service = FolderService;
        match self.reactor.serve(clock, &mut service) {
            Ok(()) => Ok(()),
            Err(e) => Err(Fault::of(&e, Fault::Accept)),
        }
    }
}

// The limits of a service that accepts this number of connections.
fn limits_of(count: u32) -> Limits
    ensures { result ≡ limits_for count }
{
    let mut limits = Limits::DEFAULT;
    limits.stop_after = Some(count);
    limits.ends_unaccepted = true;
    limits
}

// Prints a port.
fn announce<W: Write>(port: u16, output: &mut W) -> Result<(), Fault>
    ensures { OnOk result (AnnouncesPort port (W.contents output.old) (W.contents output.new)) }
{
    match print_port(port, output) {
        Ok(()) => Ok(()),
        Err(e) => Err(Fault::of(&e, Fault::Output)),
    }
}

fn print_port<W: Write>(port: u16, output: &mut W) -> io::Result<()>
    ensures { OnOk result (AnnouncesPort port (W.contents output.old) (W.contents output.new)) }
{
    writeln!(output, "listening {port}")?;
    output.flush()
}
