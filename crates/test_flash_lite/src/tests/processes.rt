//! Each call of a connection, of a client and of a process that needs memory succeeds if there is
//! enough.
use super::host::{Host, Plan, on_host};
use flash_lite::actor::{Actor, Role, Worker};
use flash_lite::client::{Client, Context, Course};
use flash_lite::conn::{Conn, Onward};
use flash_lite::received::Received;
use flash_lite::server::Server;
use iol_back::memory::MemoryBacking;
use iol_core::configuration::Config;
use iol_core::descriptors::Mode;
use iol_core::events::{Call, Event, Reply};
use iol_core::lists::{Bytes, Domains};
use iol_core::numbers::{AggId, DomainId, Fd, PoolId};
use iol_core::refusals::Refusal;
use iol_proc::process::{Process, Turn};
use iol_system::system::System;
use std::alloc::{AllocError, Global};
use std::test::Fail;
use test_parts::checks::{lend, pass};
use test_worlds::files::{Kept, empty_store};
use test_worlds::systems::{TestSystem, call_of};

const REQUEST: &[u8] = b"GET /a HTTP/1.1\r\nHost: a\r\n\r\n";

// Domain 1 has the bytes of a request as aggregate 1.
fn beginnings(alloc: Global) -> Result<[Event; 3], AllocError> {
    let domains = Domains::from_vec([DomainId::new(1)].to_vec(alloc)?);
    let bytes = Bytes::from_vec(Vec::from_slice(alloc, REQUEST)?);
    let (pool, chunks) = (PoolId::new(1), 1);
    Ok([
        call_of(1, Call::PoolCreate { chunks, domains }),
        call_of(1, Call::SetPool { pool }),
        call_of(1, Call::AggMake { bytes }),
    ])
}

fn with_request(alloc: Global) -> Result<System<MemoryBacking>, Refusal> {
    let events = beginnings(alloc)?;
    let system = TestSystem::begun(alloc, Config::DEFAULT, empty_store(alloc), &[&events])?;
    Ok(system.into_system())
}

// Returns whether a call drops the aggregate.
fn is_drop(call: &Option<Call>) -> bool {
    matches!(call, Some(Call::AggDrop { agg }) if agg.number() == 1)
}

// Returns whether a call opens the requested file.
fn is_open(call: &Option<Call>) -> bool {
    match call {
        Some(Call::OpenFile { name, mode }) => {
            name.as_slice() == b"a".as_slice() && *mode == Mode::Read
        }
        _ => false,
    }
}

// A connection: the calls after the request is read, after its bytes are dropped, and the last
// call again.

fn conn_receives(conn: &mut Conn, system: &System<MemoryBacking>) -> Option<Call> {
    let agg = AggId::new(1);
    let parts = system.parts(DomainId::new(1), agg).ok();
    let last = Reply::Agg(agg);
    match conn.advance(Fd::new(1), Received { last: &last, parts }) {
        Ok(Onward::Asks(call)) => Some(call),
        _ => None,
    }
}

fn conn_proceeds(conn: &mut Conn) -> Option<Call> {
    let (last, parts) = (Reply::Done, None);
    match conn.advance(Fd::new(1), Received { last: &last, parts }) {
        Ok(Onward::Asks(call)) => Some(call),
        _ => None,
    }
}

fn conn_wants(conn: &Conn) -> Option<Call> {
    conn.next_call(Fd::new(1)).ok()
}

fn conn_answers(alloc: Global, system: &System<MemoryBacking>) -> bool {
    let mut conn = Conn::new(alloc);
    let received = conn_receives(&mut conn, system);
    let gone = conn_proceeds(&mut conn);
    let again = conn_wants(&conn);
    drop(conn);
    is_drop(&received) && is_open(&gone) && is_open(&again)
}

// A client, with the same calls.

fn client_receives(client: &mut Client, system: &System<MemoryBacking>) -> Option<Call> {
    let agg = AggId::new(1);
    let parts = system.parts(DomainId::new(1), agg).ok();
    let last = Reply::Agg(agg);
    let context = Context {
        scripts: true,
        fd: Fd::new(1),
        worker: 0,
    };
    match client.advance(context, Received { last: &last, parts }) {
        Ok(Course::Asks(call)) => Some(call),
        _ => None,
    }
}

fn client_proceeds(client: &mut Client) -> Option<Call> {
    let (last, parts) = (Reply::Done, None);
    let context = Context {
        scripts: true,
        fd: Fd::new(1),
        worker: 0,
    };
    match client.advance(context, Received { last: &last, parts }) {
        Ok(Course::Asks(call)) => Some(call),
        _ => None,
    }
}

fn client_wants(client: &Client) -> Option<Call> {
    client.next_call(true, Fd::new(1)).ok()
}

fn client_answers(alloc: Global, system: &System<MemoryBacking>) -> bool {
    let mut client = Client::new(alloc);
    let received = client_receives(&mut client, system);
    let gone = client_proceeds(&mut client);
    let again = client_wants(&client);
    drop(client);
    is_drop(&received) && is_open(&gone) && is_open(&again)
}

fn both_answer(alloc: Global) -> Result<bool, Refusal> {
    lend(
        with_request(alloc),
        |system| conn_answers(alloc, system) && client_answers(alloc, system),
    )
}

// The first turns of the processes: the server accepts a connection, and a worker reads a job.

const FILES: [Kept<'static>; 1] = [("a", b"hi\n", false)];

fn turn_of<P: Process>(process: &mut P, host: &mut Host) -> Option<Call> {
    let look = host.world().look(DomainId::new(1));
    match process.next(&Reply::Done, &look) {
        Ok(Turn::Make(call)) => Some(call),
        _ => None,
    }
}

fn accepts<P: Process>(process: &mut P, host: &mut Host) -> bool {
    matches!(turn_of(process, host), Some(Call::Accept))
}

// Returns whether a call reads the first descriptor.
fn is_read(call: &Option<Call>) -> bool {
    matches!(call, Some(Call::IolRead { fd, .. }) if fd.number() == 0)
}

fn reads<P: Process>(process: &mut P, host: &mut Host) -> bool {
    let call = turn_of(process, host);
    is_read(&call)
}

fn actor(role: Role) -> Actor {
    Actor { role }
}

fn all_begin(alloc: Global, host: &mut Host) -> bool {
    let (mut server, mut worker) = (Server::new(alloc), Worker::new(alloc));
    let mut first = actor(Role::Server(Server::with_workers(alloc, 1)));
    let mut second = actor(Role::Worker(Worker::new(alloc)));
    let all = accepts(&mut server, host)
        && reads(&mut worker, host)
        && accepts(&mut first, host)
        && reads(&mut second, host);
    drop((server, worker, first, second));
    all
}

#[test]
fn ample(rt: HostRuntime) -> Result<(), Fail> {
    let alloc = rt.alloc();
    pass(both_answer(alloc))?;
    pass(on_host(alloc, &Plan::of(&FILES), |host| all_begin(alloc, host)))
}
