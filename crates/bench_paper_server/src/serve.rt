//! The server behind the event loop of `flashd`.
ghost use Rattle.bench_paper_server.specs.declared.site.TheConstants.{NET_POOL};

use crate::request::{Request, head_len};
use crate::server::Server;
use crate::site::{NET_POOL, Site, world};
use iol_back::memory::MemoryBacking;
use iol_core::refusals::Refusal;
use iol_proc::world::World;
use iol_reactor::limits::Limits;
use iol_reactor::reactor::Reactor;
use iol_reactor::service::{Exchange, Frame, Progress, Service};
use mio::net::TcpListener;
use std::alloc::{AllocError, Global};
use std::io;
use std::io::{ErrorKind, Write};
use std::net::{Ipv4Addr, SocketAddr};

/// The connections of the system at once: those of all clients that are measured.
const LIVE: usize = 512;

/// The event loop of the server.
type FileReactor = Reactor<TcpListener, MemoryBacking, Server, Files>;

/// The service of files of these lengths. Clients send one request at a time.
#[derive(Drop)]
struct Files {
    lengths: Vec<u32>,
}

impl Files {
    // The bytes of the response of an exchange, once they begin with all of its head.
    fn response_len(&self, exchange: &Exchange<'_>, file: Option<u32>) -> Option<u64> {
        let head = head_len(exchange.head)?;
        let length = self.lengths.get(file? as usize)?;
        Some(u64::from(*length).saturating_add(head as u64))
    }
}

impl Service<MemoryBacking, Server> for Files {
    const POOL: u32 = NET_POOL;

    ghost POOL = { NET_POOL };

    fn frame(&self, alloc: Global, bytes: &[u8]) -> Result<Frame, AllocError> {
        let _ = alloc;
        let Some(length) = head_len(bytes) else {
            return Ok(Frame::Incomplete);
        };
        if Request::of_bytes(&bytes[..length.min(bytes.len())]).is_last {
            Ok(Frame::Last(length))
        } else {
            Ok(Frame::Complete(length))
        }
    }

    fn progress(&self, exchange: &Exchange<'_>) -> Progress {
        let request = Request::of_bytes(exchange.request);
        if request.is_last {
            return Progress::Last;
        }
        match self.response_len(exchange, request.file) {
            Some(length) if exchange.produced >= length => Progress::Complete,
            _ => Progress::Unknown,
        }
    }

    fn record(&mut self, exchange: &Exchange<'_>) {
        let _ = exchange;
    }

    fn flush(&mut self) {}

    fn renew(&mut self, is_worn: bool) -> Option<World<MemoryBacking, Server>> {
        let _ = is_worn;
        None
    }
}

fn error_of(refusal: Refusal) -> io::Error {
    match refusal {
        Refusal::Memory => io::Error::from(AllocError),
        _ => io::Error::from(ErrorKind::InvalidInput),
    }
}

// A world of the site.
fn host(rt: &HostRuntime, site: &Site) -> io::Result<World<MemoryBacking, Server>> {
    match world(rt.alloc(), site) {
        Ok(world) => Ok(world),
        Err(refusal) => Err(error_of(refusal)),
    }
}

/// Serves a site at a free port, which it prints, until this number of clients have come and gone.
pub fn serve(rt: &HostRuntime, site: &Site, clients: u32) -> io::Result<()> {
    let address = SocketAddr::from((Ipv4Addr::LOCALHOST, 0));
    let limits = Limits {
        live: LIVE,
        stop_after: Some(clients),
        ..Limits::DEFAULT
    };
    let lengths = site.lengths.clone()?;
    let world = host(rt, site)?;
    let mut reactor = Reactor::new(rt, rt.alloc(), address, world, limits)?;
    let mut service = Files { lengths };
    let served = serve_clients(rt, &mut service, &mut reactor);
    drop(reactor);
    served
}

// Prints its address, and serves.
fn serve_clients(
    rt: &HostRuntime,
    service: &mut Files,
    reactor: &mut FileReactor,
) -> io::Result<()> {
    let address = reactor.local_addr()?;
    let mut output = rt.stdout();
    writeln!(output, "listening on http://{address}/")?;
    output.flush()?;
    reactor.serve(rt, service)
}
