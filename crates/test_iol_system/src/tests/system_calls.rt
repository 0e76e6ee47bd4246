//! Each call of a system that needs memory succeeds if there is enough.
use iol_back::memory::MemoryBacking;
use iol_core::configuration::Config;
use iol_core::descriptors::Mode;
use iol_core::events::{Call, Event, Reply};
use iol_core::lists::{Bytes, Domains};
use iol_core::numbers::{AggId, ConnId, DomainId, Fd, PoolId};
use iol_core::refusals::Refusal;
use iol_system::system::System;
use std::alloc::{AllocError, Global};
use std::test::Fail;
use test_parts::checks::{lend, pass};
use test_worlds::files::empty_store;
use test_worlds::systems::call_of;

const ROUNDS: u32 = 100_000;

fn bytes(alloc: Global, text: &[u8]) -> Result<Bytes, AllocError> {
    Ok(Bytes::from_vec(Vec::from_slice(alloc, text)?))
}

// Domain 2, and a pool of domain 1, to which it is admitted.
fn of_pools(domains: Domains) -> [Event; 4] {
    let (pool, domain) = (PoolId::new(1), DomainId::new(2));
    let chunks = 1;
    [
        call_of(1, Call::DomainNew),
        call_of(1, Call::PoolCreate { chunks, domains }),
        call_of(1, Call::PoolAdmit { pool, domain }),
        call_of(1, Call::SetPool { pool }),
    ]
}

const POOLS_ANSWERED: [&str; 4] = [
    "Domain(DomainId { number: 2 })",
    "Pool(PoolId { number: 1 })",
    "Done",
    "Done",
];

// An aggregate in parts, one of which is given to domain 2.
fn of_parts(bytes: Bytes) -> [Event; 5] {
    let (one, two) = (AggId::new(1), AggId::new(2));
    let (three, to) = (AggId::new(3), DomainId::new(2));
    let (from, at) = (1, 1);
    [
        call_of(1, Call::AggMake { bytes }),
        call_of(1, Call::AggDup { agg: one }),
        call_of(
            1,
            Call::AggCut {
                agg: one,
                from,
                to: 3,
            },
        ),
        call_of(1, Call::AggSplit { agg: two, at }),
        call_of(1, Call::AggGive { agg: three, to }),
    ]
}

const PARTS_ANSWERED: [&str; 5] = [
    "Agg(AggId { number: 1 })",
    "Agg(AggId { number: 2 })",
    "Agg(AggId { number: 3 })",
    "Aggs(AggId { number: 4 }, AggId { number: 5 })",
    "Agg(AggId { number: 1 })",
];

// The parts joined in another order.
fn of_wholes() -> [Event; 3] {
    let (first, second) = (AggId::new(5), AggId::new(4));
    let (agg, with) = (AggId::new(6), AggId::new(1));
    let (from, to) = (0, 2);
    [
        call_of(1, Call::AggJoin { first, second }),
        call_of(
            1,
            Call::AggReplace {
                agg,
                from,
                to,
                with,
            },
        ),
        call_of(1, Call::Show { agg: AggId::new(7) }),
    ]
}

const WHOLES_ANSWERED: [&str; 3] = [
    "Agg(AggId { number: 6 })",
    "Agg(AggId { number: 7 })",
    "Bytes(Bytes { list: [97, 98, 99, 100, 100, 97] })",
];

// A file, which is written and read both ways.
fn of_files(name: Bytes, again: Bytes, bytes: Bytes) -> [Event; 6] {
    let (pool, mode) = (PoolId::new(1), Mode::Both);
    let (fd, agg) = (Fd::new(0), AggId::new(1));
    let (at, count) = (2, 9);
    [
        call_of(1, Call::FileNew { name, pool }),
        call_of(1, Call::OpenFile { name: again, mode }),
        call_of(1, Call::IolWrite { fd, agg }),
        call_of(1, Call::Write { fd, bytes }),
        call_of(1, Call::Seek { fd, at }),
        call_of(1, Call::Read { fd, count }),
    ]
}

const FILES_ANSWERED: [&str; 6] = [
    "File(FileId { number: 1 })",
    "Fd(Fd { number: 0 })",
    "Count(4)",
    "Count(2)",
    "Done",
    "Bytes(Bytes { list: [99, 100, 120, 121] })",
];

// A pipe, whose read end domain 2 gets.
fn of_pipes(bytes: Bytes) -> [Event; 5] {
    let (fd, write_end) = (Fd::new(1), Fd::new(2));
    let (to, count) = (DomainId::new(2), 9);
    [
        call_of(1, Call::Pipe),
        call_of(
            1,
            Call::Write {
                fd: write_end,
                bytes,
            },
        ),
        call_of(1, Call::GiveFd { fd, to }),
        call_of(
            2,
            Call::IolRead {
                fd: Fd::new(0),
                count,
            },
        ),
        call_of(2, Call::Show { agg: AggId::new(2) }),
    ]
}

const PIPES_ANSWERED: [&str; 5] = [
    "Fds(Fd { number: 1 }, Fd { number: 2 })",
    "Count(2)",
    "Fd(Fd { number: 0 })",
    "Agg(AggId { number: 2 })",
    "Bytes(Bytes { list: [120, 121] })",
];

// A connection that receives and sends bytes.
fn of_connections(bytes: Bytes) -> [Event; 5] {
    let (pool, conn) = (PoolId::new(1), ConnId::new(1));
    let (fd, agg) = (Fd::new(1), AggId::new(1));
    [
        Event::ConnNew { pool },
        Event::Arrive { conn, bytes },
        call_of(1, Call::Accept),
        call_of(1, Call::IolWrite { fd, agg }),
        Event::Transmit { conn, max: 3 },
    ]
}

const CONNECTIONS_ANSWERED: [&str; 5] = [
    "Conn(ConnId { number: 1 })",
    "Count(2)",
    "Fd(Fd { number: 1 })",
    "Count(4)",
    "Segment { bytes: Bytes { list: [97, 98, 99] }, checksum: 15261 }",
];

/// All events, by subject.
#[derive(Drop)]
struct Events {
    pools: [Event; 4],
    parts: [Event; 5],
    wholes: [Event; 3],
    files: [Event; 6],
    pipes: [Event; 5],
    connections: [Event; 5],
}

fn events_of(alloc: Global) -> Result<Events, AllocError> {
    let domains = Domains::from_vec([DomainId::new(1)].to_vec(alloc)?);
    let (name, again) = (bytes(alloc, b"f")?, bytes(alloc, b"f")?);
    Ok(Events {
        pools: of_pools(domains),
        parts: of_parts(bytes(alloc, b"abcd")?),
        wholes: of_wholes(),
        files: of_files(name, again, bytes(alloc, b"xy")?),
        pipes: of_pipes(bytes(alloc, b"xy")?),
        connections: of_connections(bytes(alloc, b"in")?),
    })
}

fn is_reported(alloc: Global, reply: &Reply, expected: &str) -> Result<bool, AllocError> {
    let reported = format!(in alloc; "{reply:?}")?;
    Ok(reported.as_str() == expected)
}

fn are_reported(alloc: Global, replies: &[Reply], expected: &[&str]) -> Result<bool, AllocError> {
    for (reply, text) in replies.iter().zip(expected) {
        if !is_reported(alloc, reply, text)? {
            return Ok(false);
        }
    }
    Ok(replies.len() == expected.len())
}

type TestedSystem = System<MemoryBacking>;

// Executes these events, in order.
fn run(alloc: Global, system: &mut TestedSystem, events: &[Event], expected: &[&str]) -> bool {
    match system.run(events) {
        Ok(replies) => matches!(are_reported(alloc, &replies, expected), Ok(true)),
        Err(_) => false,
    }
}

// Three bytes arrive on the connection from a reader.
fn hears(system: &mut TestedSystem) -> bool {
    let mut reader = b"abc".as_slice();
    match system.arrive_from(ConnId::new(1), &mut reader, 9) {
        Ok(arrived) => arrived.taken == 3,
        Err(_) => false,
    }
}

fn is_agg(reply: &Reply, number: u64) -> bool {
    match reply {
        Reply::Agg(agg) => agg.number() == number,
        _ => false,
    }
}

// The next aggregate of domain 1 is made of borrowed bytes.
fn makes(system: &mut TestedSystem) -> bool {
    let made = system.make_agg(DomainId::new(1), b"ab");
    is_agg(&made, 8)
}

// Two borrowed bytes are written to the pipe.
fn writes(system: &mut TestedSystem) -> bool {
    let written = system.write_bytes(DomainId::new(1), Fd::new(2), b"cd");
    matches!(written, Reply::Count(2))
}

// Domain 2 reads them from the pipe into its own memory.
fn reads(system: &mut TestedSystem) -> bool {
    let mut memory = [0; 3];
    let read = system.read_into(DomainId::new(2), Fd::new(0), &mut memory);
    read == Ok(2) && memory == *b"cd\0"
}

// The new aggregate of domain 1 is shown in memory.
fn shows(system: &TestedSystem) -> bool {
    let mut memory = [0; 3];
    let shown = system.show_into(DomainId::new(1), AggId::new(8), &mut memory);
    shown == Ok(2) && memory == *b"ab\0"
}

fn reports(system: &TestedSystem) -> bool {
    match system.report() {
        Ok(report) => (report.pools.len(), report.dirty, report.extents) == (1, 2, 2),
        Err(_) => false,
    }
}

fn all_answer(alloc: Global, system: &mut TestedSystem, events: &Events) -> bool {
    run(alloc, system, &events.pools, &POOLS_ANSWERED)
        && run(alloc, system, &events.parts, &PARTS_ANSWERED)
        && run(alloc, system, &events.wholes, &WHOLES_ANSWERED)
        && run(alloc, system, &events.files, &FILES_ANSWERED)
        && run(alloc, system, &events.pipes, &PIPES_ANSWERED)
        && run(alloc, system, &events.connections, &CONNECTIONS_ANSWERED)
        && hears(system)
        && makes(system)
        && writes(system)
        && reads(system)
        && shows(system)
        && reports(system)
}

// One round: the new aggregate has this number.
fn makes_and_drops(system: &mut TestedSystem, make: &Event, number: u64) -> bool {
    let drops = call_of(
        1,
        Call::AggDrop {
            agg: AggId::new(number),
        },
    );
    let made = system.step_ref(make);
    let dropped = system.step(drops);
    is_agg(&made, number) && matches!(dropped, Reply::Done)
}

fn all_rounds(system: &mut TestedSystem, make: &Event) -> bool {
    for round in 0..ROUNDS {
        if !makes_and_drops(system, make, u64::from(round) + 1) {
            return false;
        }
    }
    true
}

fn rounds_answer(system: &mut TestedSystem, pools: &[Event], make: &Event) -> bool {
    system.run(pools).is_ok() && all_rounds(system, make)
}

fn calls_hold(alloc: Global, events: &Events) -> Result<bool, Refusal> {
    let made = System::new(alloc, Config::DEFAULT, empty_store(alloc));
    lend(made, |system| all_answer(alloc, system, events))
}

fn rounds_hold(alloc: Global, pools: &[Event]) -> Result<bool, Refusal> {
    let bytes = bytes(alloc, b"a")?;
    let make = call_of(1, Call::AggMake { bytes });
    let made = System::new(alloc, Config::DEFAULT, empty_store(alloc));
    lend(made, |system| rounds_answer(system, pools, &make))
}

#[test]
fn ample(rt: HostRuntime) -> Result<(), Fail> {
    let alloc = rt.alloc();
    let events = events_of(alloc)?;
    pass(calls_hold(alloc, &events))?;
    pass(rounds_hold(alloc, &events.pools))
}
