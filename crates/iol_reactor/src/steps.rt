//! Operations on one connection of a world.
ghost use Rattle.std.specs.Prelude.{◌≡◌, [], true, false, IsNone};
ghost use Rattle.iol_core.specs.Prelude.{lacks_conn};
ghost use Rattle.iol_proc.specs.Prelude.{KeepsHonesty, copied};
ghost use Rattle.iol_serve.specs.Service.{ProceedsIn, SendsIn};
ghost use Rattle.iol_sock.specs.Gathers.{IsCalled};
ghost use Rattle.iol_reactor.specs.Bytes.{IsRestOf};
ghost use Rattle.iol_reactor.specs.Serving.{ArrivesIn, EndsIn};

use iol_back::backing::Backing;
use iol_core::descriptors::How;
use iol_core::events::Event;
use iol_core::limits::{MAX_QUEUE_BYTES, PAGE_BYTES};
use iol_core::numbers::ConnId;
use iol_proc::process::Process;
use iol_proc::world::World;
use iol_sock::{Drained, Gather};
use std::io;
use std::io::Write;

/// The pages that are handed in at once.
const MAX_PIECES: u32 = 8;

/// The bytes of one page.
const PIECE: u32 = PAGE_BYTES as u32;

/// The bytes of a connection's whole queue.
pub const QUEUE: u32 = MAX_QUEUE_BYTES as u32;

/// The peer of a connection sends no more.
pub fn close<B: Backing + Drop, P: Process>(world: &mut World<B, P>, conn: ConnId)
    ensures honest { KeepsHonesty world.old.machine world.new.machine }
    ensures reported { EndsIn P.turns conn How.Done world.old world.new }
    ensures alone { ProceedsIn P.turns conn [] [] false world.old world.new }
{
    let how = How::Done;
    let _ = world.step_outside(Event::PeerClosed { conn, how });
}

/// The peer of a connection is gone.
pub fn hang_up<B: Backing + Drop, P: Process>(world: &mut World<B, P>, conn: ConnId)
    ensures honest { KeepsHonesty world.old.machine world.new.machine }
    ensures reported { EndsIn P.turns conn How.Gone world.old world.new }
    ensures alone { ProceedsIn P.turns conn [] [] true world.old world.new }
{
    let how = How::Gone;
    let _ = world.step_outside(Event::PeerClosed { conn, how });
}

/// Whether a connection does not exist, tested by a drain of zero bytes, which changes nothing.
pub fn is_over<B: Backing + Drop, P: Process>(world: &mut World<B, P>, conn: ConnId) -> bool
    ensures over { result ≡ lacks_conn (copied world.old).machine conn }
    ensures honest { KeepsHonesty world.old.machine world.new.machine }
    ensures same { copied world.new ≡ copied world.old }
{
    let mut nowhere = io::sink();
    match world.drain_to(conn, &mut nowhere, 0) {
        Ok(_) => false,
        Err(_) => true,
    }
}

/// Bytes arrive, a page at a time, as many as fit. Returns the rest.
pub fn hand_in<'a, B: Backing + Drop, P: Process>(
    world: &mut World<B, P>,
    conn: ConnId,
    bytes: &'a [u8],
) -> &'a [u8]
    ensures honest { KeepsHonesty world.old.machine world.new.machine }
    ensures rest { IsRestOf bytes.now result.now }
    ensures alone { ArrivesIn P.turns conn bytes.now result.now world.old world.new }
{
    let mut rest = bytes;
    for _ in 0..MAX_PIECES {
        if rest.is_empty() {
            return rest;
        }
        if !hand_in_page(world, conn, &mut rest) {
            return rest;
        }
    }
    rest
}

// The bytes of one page arrive. False: there is no room for them.
fn hand_in_page<'a, B: Backing + Drop, P: Process>(
    world: &mut World<B, P>,
    conn: ConnId,
    rest: &mut &'a [u8],
) -> bool
    ensures honest { KeepsHonesty world.old.machine world.new.machine }
    ensures rest { IsRestOf rest.old.now rest.new.now }
    ensures alone { ArrivesIn P.turns conn rest.old.now rest.new.now world.old world.new }
{
    match world.arrive_from(conn, rest, PIECE) {
        Ok(_) => true,
        Err(_) => false,
    }
}

/// Sends queued output to a writer, at most this number of bytes. Returns how many, or none if the
/// connection does not exist.
pub fn collect<B: Backing + Drop, P: Process, W: Write>(
    world: &mut World<B, P>,
    conn: ConnId,
    writer: &mut W,
    most: u32,
) -> Option<u32>
    ensures honest { KeepsHonesty world.old.machine world.new.machine }
    ensures over { IsNone result → lacks_conn (copied world.new).machine conn ≡ true }
    ensures alone { SendsIn P.turns conn W.contents writer.old writer.new world.old world.new }
{
    match world.drain_to(conn, writer, most) {
        Ok(drained) => Some(drained.taken),
        Err(_) => None,
    }
}

/// Offers queued output to a taker, at most this number of bytes. None: the connection does not
/// exist.
pub fn offer<B: Backing + Drop, P: Process, G: Gather>(
    world: &mut World<B, P>,
    conn: ConnId,
    taker: &mut G,
    most: u32,
) -> Option<Drained>
    ensures honest { KeepsHonesty world.old.machine world.new.machine }
    ensures over { IsNone result → lacks_conn (copied world.new).machine conn ≡ true }
    ensures alone { SendsIn P.turns conn G.contents taker.old taker.new world.old world.new }
    ensures calls { IsCalled G.gathers taker.old taker.new }
{
    match world.drain_into(conn, taker, most) {
        Ok(drained) => Some(drained),
        Err(_) => None,
    }
}
