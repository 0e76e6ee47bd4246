//! A system with connection 1, which is served from outside.
use super::taker::Taker;
use iol_back::memory::MemoryBacking;
use iol_core::configuration::Config;
use iol_core::descriptors::How;
use iol_core::events::{Call, Event, Reply};
use iol_core::lists::{Bytes, Domains};
use iol_core::numbers::{AggId, ConnId, DomainId, Fd, PoolId};
use iol_core::refusals::Refusal;
use iol_sock::{Arrived, Drained};
use std::alloc::{AllocError, Global};
use test_parts::streams::{Sink, Source};
use test_worlds::files::empty_store;
use test_worlds::systems::{TestSystem, call_of};

// The existing connection.
const CONN: u32 = 1;

/// A connection that does not exist.
pub const NONE: u32 = 2;

const FD: u32 = 0;

/// The result of a read: the number of bytes, whether the reader is at its end, and whether it
/// failed.
pub type Gave = (u32, bool, bool);

const CONFIG: Config = Config {
    chunks: 2,
    gen_limit: u32::MAX,
    sums: 8,
};

// The events that create the pool, for these domains, and the connection.
fn beginnings(domains: Domains) -> [Event; 4] {
    let (pool, chunks) = (PoolId::new(1), CONFIG.chunks);
    [
        call_of(1, Call::PoolCreate { chunks, domains }),
        call_of(1, Call::SetPool { pool }),
        Event::ConnNew { pool },
        call_of(1, Call::Accept),
    ]
}

// The input is read as the first aggregate, written back and dropped.
fn echoing() -> [Event; 3] {
    let (fd, agg) = (Fd::new(FD), AggId::new(1));
    [
        call_of(1, Call::IolRead { fd, count: 65_536 }),
        call_of(1, Call::IolWrite { fd, agg }),
        call_of(1, Call::AggDrop { agg }),
    ]
}

/// `count` bytes.
pub fn text(alloc: Global, count: usize) -> Result<Bytes, AllocError> {
    let list = vec![in alloc; b'a'; count]?;
    Ok(Bytes::from_vec(list))
}

/// A system over an empty store, with pool 1 of 32 pages, the default of domain 1, and connection
/// 1 of it, which domain 1 accepted as descriptor 0.
#[derive(Drop)]
pub struct Line {
    /// The allocator of the test.
    pub alloc: Global,
    system: TestSystem<MemoryBacking>,
}

impl Line {
    pub fn new(alloc: Global) -> Result<Line, Refusal> {
        let domains = Domains::from_vec([DomainId::new(1)].to_vec(alloc)?);
        let events = beginnings(domains);
        let system = TestSystem::begun(alloc, CONFIG, empty_store(alloc), &[&events])?;
        Ok(Line { alloc, system })
    }

    // Returns whether the reply to an event is an aggregate.
    fn makes(&mut self, event: &Event) -> bool {
        matches!(self.system.step(event), Reply::Agg(_))
    }

    // Returns whether the reply is a count.
    fn counts(&mut self, event: &Event) -> bool {
        matches!(self.system.step(event), Reply::Count(_))
    }

    // Returns whether the reply is Done.
    fn completes(&mut self, event: &Event) -> bool {
        matches!(self.system.step(event), Reply::Done)
    }

    /// Bytes come in from a reader.
    pub fn arrive_from(
        &mut self,
        conn: u32,
        reader: &mut Source<'_>,
        max: u32,
    ) -> Result<Arrived, Refusal> {
        self.system.arrive_from(ConnId::new(conn), reader, max)
    }

    /// Returns whether a read gives these bytes.
    pub fn arrives(&mut self, reader: &mut Source<'_>, max: u32, want: Gave) -> bool {
        let (taken, end, failed) = want;
        let want = Arrived { taken, end, failed };
        self.arrive_from(CONN, reader, max) == Ok(want)
    }

    /// Returns whether this number of bytes arrives, and the reader neither ends nor fails.
    pub fn takes(&mut self, reader: &mut Source<'_>, max: u32, taken: u32) -> bool {
        self.arrives(reader, max, (taken, false, false))
    }

    /// Returns whether the arrival of a reader's bytes gets this refusal.
    pub fn refuses(&mut self, reader: &mut Source<'_>, max: u32, want: Refusal) -> bool {
        self.arrive_from(CONN, reader, max) == Err(want)
    }

    /// Bytes go out to a writer.
    pub fn drain_to(&mut self, conn: u32, writer: &mut Sink, max: u32) -> Result<Drained, Refusal> {
        self.system.drain_to(ConnId::new(conn), writer, max)
    }

    /// Returns whether this number of bytes goes to a writer, and whether it fails.
    pub fn drains(&mut self, writer: &mut Sink, max: u32, (taken, failed): (u32, bool)) -> bool {
        self.drain_to(CONN, writer, max) == Ok(Drained { taken, failed })
    }

    /// Bytes are offered to a taker of several slices.
    pub fn drain_into(
        &mut self,
        conn: u32,
        taker: &mut Taker,
        max: u32,
    ) -> Result<Drained, Refusal> {
        self.system.drain_into(ConnId::new(conn), taker, max)
    }

    /// Returns whether a taker takes this number of bytes, and whether it takes fewer than it is
    /// offered.
    pub fn offers(&mut self, taker: &mut Taker, max: u32, (taken, failed): (u32, bool)) -> bool {
        self.drain_into(CONN, taker, max) == Ok(Drained { taken, failed })
    }

    /// `count` bytes arrive without a reader.
    pub fn arrive(&mut self, count: usize) -> bool {
        let conn = ConnId::new(CONN);
        match text(self.alloc, count) {
            Ok(bytes) => self.counts(&Event::Arrive { conn, bytes }),
            Err(_) => false,
        }
    }

    /// Domain 1 makes an aggregate of `count` bytes.
    pub fn fill(&mut self, count: usize) -> bool {
        match text(self.alloc, count) {
            Ok(bytes) => self.makes(&call_of(1, Call::AggMake { bytes })),
            Err(_) => false,
        }
    }

    /// The peer sends no more.
    pub fn end(&mut self) -> bool {
        let (conn, how) = (ConnId::new(CONN), How::Done);
        self.completes(&Event::PeerClosed { conn, how })
    }

    /// Domain 1 reads the input, as its first aggregate, and writes it back.
    pub fn echo(&mut self) -> bool {
        let [read, write, end] = &echoing();
        self.makes(read) && self.counts(write) && self.completes(end)
    }

    /// Returns whether this is sent as a segment: these bytes, with their checksum.
    pub fn transmits(&mut self, max: u32, (want, sum): (&[u8], u16)) -> bool {
        let conn = ConnId::new(CONN);
        match self.system.step(&Event::Transmit { conn, max }) {
            Reply::Segment { bytes, checksum } => bytes.as_slice() == want && checksum == sum,
            _ => false,
        }
    }

    /// Returns whether domain 1 reads these bytes of the input.
    pub fn reads(&mut self, want: &[u8]) -> bool {
        let (fd, count) = (Fd::new(FD), 65_536);
        match self.system.step(&call_of(1, Call::Read { fd, count })) {
            Reply::Bytes(bytes) => bytes.as_slice() == want,
            _ => false,
        }
    }

    /// Returns whether this number of buffers is live.
    pub fn holds(&self, want: u32) -> bool {
        self.system.buffers() == Ok(want)
    }
}
