//! A server and its client in one program, over a connection to itself.
ghost use Rattle.std.specs.Prelude.{◌≡◌, ◌⊎◌, ◌≤◌, ◌↔◌, false, length, IfErr, IfOk, IsOk};
ghost use Rattle.iol_serve.specs.Prelude.{hung_up};

use crate::fault::{Fault, ended};
use crate::folder::world_of;
use flash_lite::actor::Actor;
use flash_lite::layout::NET_POOL;
use iol_back::folder::FolderBacking;
use iol_core::events::{Event, Reply};
use iol_core::numbers::{ConnId, PoolId};
use iol_proc::world::World;
use iol_serve::ending::Ending;
use iol_serve::serve::serve_connection;
use std::io;
use std::io::{ErrorKind, Read, Write};
use std::net::{Ipv4Addr, Net, SocketAddr, TcpListener, TcpStream};
use std::rt::Files;
use std::time::Duration;

/// The timeout of either end, in seconds.
const WAIT: u64 = 5;

/// The maximum number of bytes that are sent before they are read again. They fit into any socket
/// buffer.
const PIECE: usize = 4096;

/// The server's end of a connection whose other end is in this program, too. Sent bytes are read
/// there at once, and printed.
#[derive(Drop)]
struct Looped<'a, W: Write> {
    server: &'a TcpStream,
    client: &'a TcpStream,
    output: &'a mut W,
    fault: Option<Fault>,
}

impl<'a, W: Write> Looped<'a, W> {
    // Sends a piece, reads it at the other end, and prints it.
    fn pass(&mut self, buf: &[u8]) -> Result<usize, Fault>
        ensures { IfOk result (λ n. n ≤ length buf.now) }
    {
        let mut piece = [0u8; PIECE];
        let sent = self.send(buf, &mut piece)?;
        match self.output.write_all(&piece[..sent]) {
            Ok(()) => Ok(sent),
            Err(e) => Err(Fault::of(&e, Fault::Output)),
        }
    }

    // Sends the first bytes of a buffer, and reads them at the other end.
    fn send(&mut self, buf: &[u8], piece: &mut [u8]) -> Result<usize, Fault>
        ensures { IfOk result (λ n. (n ≤ length buf.now) × (n ≤ length piece.new)) }
    {
        let (mut server, mut client) = (self.server, self.client);
        let most = buf.len().min(piece.len());
        let Ok(sent) = server.write(&buf[..most]) else {
            return Err(Fault::Connect);
        };
        match client.read_exact(&mut piece[..sent]) {
            Ok(()) => Ok(sent),
            Err(_) => Err(Fault::Connect),
        }
    }
}

impl<'a, W: Write> Write for Looped<'a, W> {
    fn write(&mut self, buf: &[u8]) -> io::Result<usize> {
        match self.pass(buf) {
            Ok(sent) => Ok(sent),
            Err(fault) => {
                self.fault = Some(fault);
                Err(io::Error::from(ErrorKind::Other))
            }
        }
    }

    fn flush(&mut self) -> io::Result<()> {
        Ok(())
    }
}

/// Requests a path from a server of the files of a folder, prints the response, and returns the
/// exit status.
pub fn loop_on<R, W: Write, E: Write>(
    rt: &R,
    root: &str,
    path: &str,
    output: &mut W,
    errors: &mut E,
) -> u8
where
    R: Net<Listener = TcpListener, Stream = TcpStream> + Files + AllocGlobal + Clone + Drop,
    ensures statuses { (result ≡ 0) ⊎ (result ≡ 3) }
    ensures silent { result ≡ 0 → errors.new ≡ errors.old }
{
    ended(ask_and_print(rt, root, path, output), errors)
}

// The work of `loop_on`, up to the first fault.
fn ask_and_print<R, W: Write>(rt: &R, root: &str, path: &str, output: &mut W) -> Result<(), Fault>
where
    R: Net<Listener = TcpListener, Stream = TcpStream> + Files + AllocGlobal + Clone + Drop,
{
    let mut world = world_of(rt, root)?;
    ask_world(rt, &mut world, path, output)
}

// Sends the request over a connection to this program itself.
fn ask_world<R, W: Write>(
    rt: &R,
    world: &mut World<FolderBacking<R>, Actor>,
    path: &str,
    output: &mut W,
) -> Result<(), Fault>
where
    R: Net<Listener = TcpListener, Stream = TcpStream> + Files + Drop,
{
    let (client, server) = connect(rt)?;
    if ask(&client, path).is_err() {
        return Err(Fault::Connect);
    }
    pass_through(world, &server, &client, output)?;
    match output.flush() {
        Ok(()) => Ok(()),
        Err(e) => Err(Fault::of(&e, Fault::Output)),
    }
}

// A connection to this program itself: its client's end, and its server's end.
fn connect<R>(rt: &R) -> Result<(TcpStream, TcpStream), Fault>
where
    R: Net<Listener = TcpListener, Stream = TcpStream>,
{
    let Ok(listener) = TcpListener::bind(rt, SocketAddr::from((Ipv4Addr::LOCALHOST, 0))) else {
        return Err(Fault::Listen);
    };
    let Ok(address) = listener.local_addr() else {
        return Err(Fault::Listen);
    };
    let Ok(client) = TcpStream::connect(rt, address) else {
        return Err(Fault::Connect);
    };
    if set_waits(&client).is_err() {
        return Err(Fault::Connect);
    }
    let Ok((server, _)) = listener.accept() else {
        return Err(Fault::Accept);
    };
    match set_waits(&server) {
        Ok(()) => Ok((client, server)),
        Err(_) => Err(Fault::Accept),
    }
}

fn set_waits(stream: &TcpStream) -> io::Result<()> {
    stream.set_nodelay(true)?;
    stream.set_read_timeout(Some(Duration::from_secs(WAIT)))?;
    stream.set_write_timeout(Some(Duration::from_secs(WAIT)))
}

// Sends the request.
fn ask(client: &TcpStream, path: &str) -> io::Result<()> {
    let mut to = client;
    to.write_all(b"GET ")?;
    to.write_all(path.as_bytes())?;
    to.write_all(b" HTTP/1.1\r\nHost: 127.0.0.1\r\nConnection: close\r\n\r\n")
}

// Serves the connection, and prints its response.
fn pass_through<R: Files + Drop, W: Write>(
    world: &mut World<FolderBacking<R>, Actor>,
    server: &TcpStream,
    client: &TcpStream,
    output: &mut W,
) -> Result<(), Fault> {
    let mut reader = server;
    let mut writer = Looped {
        server,
        client,
        output,
        fault: None,
    };
    let conn = new_connection(world)?;
    let ending = serve_connection(world, conn, &mut reader, &mut writer);
    match writer.fault {
        Some(fault) => Err(fault),
        None => whole(ending),
    }
}

// Creates a connection of the world. There is room for the first one, so the only possible error
// is out of memory.
fn new_connection<R: Files + Drop>(
    world: &mut World<FolderBacking<R>, Actor>,
) -> Result<ConnId, Fault>
    ensures { IfErr result (λ fault. fault ≡ Fault.Memory) }
{
    let pool = PoolId::new(NET_POOL);
    let reply = world.step_outside(Event::ConnNew { pool });
    match &reply {
        Reply::Conn(conn) => Ok(*conn),
        _ => Err(Fault::Memory),
    }
}

// Returns a fault if the response is incomplete: its connection was hung up.
fn whole(ending: Ending) -> Result<(), Fault>
    ensures { IsOk result ↔ (hung_up ending ≡ false) }
{
    if ending.is_hung_up() {
        Err(Fault::Connect)
    } else {
        Ok(())
    }
}
