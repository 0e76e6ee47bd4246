//! Heads at the limit, and a stream in a store.
ghost use Rattle.std.specs.Prelude.{[]};
ghost use Rattle.iol_hold.specs.Prelude.{Moves, bufs_of, AllReadable};

use super::texts::repeated;
use flash_http::{Window, window, window_of};
use iol_agg::Agg;
use iol_core::configuration::Config;
use iol_core::limits::{MAX_AGGREGATE_BYTES, MAX_POOLS};
use iol_core::numbers::{DomainId, PoolId};
use iol_hold::Store;
use iol_pool::names::Names;
use std::alloc::{AllocError, Global};
use std::process::Abort;
use std::test::Fail;
use test_parts::checks::{pass, pass_each};

const HEAD: &str = "GET / HTTP/1.1\r\nHost: a\r\nX: ";

const AFTER_LINE: &str = "\r\nGET / HTTP/1.1\r\nHost: a\r\nX: ";

// `len` bytes that begin with this text and are one head, except for empty lines before it.
fn stream_of(alloc: Global, begin: &str, len: usize) -> Result<String, AllocError> {
    let count = len.saturating_sub(begin.len()).saturating_sub(4);
    repeated(alloc, begin, "y", count, "\r\n\r\n")
}

// The beginning of a stream, its length, and its window.
const SIZES: [(&str, usize, Window); 5] = [
    (HEAD, 8191, Window::Head { skip: 0, len: 8191 }),
    (HEAD, 8192, Window::Head { skip: 0, len: 8192 }),
    (HEAD, 8193, Window::TooLarge),
    (AFTER_LINE, 8192, Window::Head { skip: 2, len: 8190 }),
    (AFTER_LINE, 8193, Window::TooLarge),
];

fn is_window(alloc: Global, begin: &str, len: usize, expected: Window) -> Result<bool, AllocError> {
    let text = stream_of(alloc, begin, len)?;
    Ok(text.len() == len && window_of(text.as_bytes()) == expected)
}

#[test]
fn heads_at_the_limit(rt: HostRuntime) -> Result<(), Fail> {
    let alloc = rt.alloc();
    pass_each(
        &SIZES,
        |(begin, len, expected)| is_window(alloc, begin, *len, *expected),
    )
}

// A line that never ends.
fn waits_or_ends(alloc: Global) -> Result<bool, AllocError> {
    let line = vec![in alloc; b'a'; 8192]?;
    Ok(window_of(&line) == Window::TooLarge && window_of(&line[1..]) == Window::Wait)
}

#[test]
fn endless_line(rt: HostRuntime) -> Result<(), Fail> {
    pass(waits_or_ends(rt.alloc()))
}

// Streams, and the windows of their first heads.
const STREAMS: [(&str, Window); 8] = [
    ("", Window::Wait),
    ("\r\n\n\r", Window::Wait),
    ("a\r\n\r", Window::Wait),
    ("a\n\n", Window::Head { skip: 0, len: 3 }),
    ("a\r\n\r\n", Window::Head { skip: 0, len: 5 }),
    ("\r\n\na\n\r\nb\n\n", Window::Head { skip: 3, len: 4 }),
    ("a\n\r\r\n\n", Window::Head { skip: 0, len: 6 }),
    ("a\r\r\n\r\n", Window::Head { skip: 0, len: 6 }),
];

fn begins_so(stream: &str, expected: Window) -> Result<bool, AllocError> {
    Ok(window_of(stream.as_bytes()) == expected)
}

#[test]
fn streams(_rt: HostRuntime) -> Result<(), Fail> {
    pass_each(&STREAMS, |(stream, expected)| begins_so(stream, *expected))
}

// A store of one chunk.
fn new_store<R: Abort>(rt: &R, alloc: Global) -> Store {
    let config = Config {
        chunks: 1,
        gen_limit: u32::MAX,
        sums: 1,
    };
    let Ok(store) = Store::new(alloc, config) else {
        panic!(rt; "memory");
    };
    store
}

// A pool of one chunk.
fn add_pool<R: Abort>(rt: &R, alloc: Global, store: &mut Store) -> PoolId {
    assert!(rt; store.pools().len() < MAX_POOLS);
    let names = Names::of(&[DomainId::new(1)]).expect(rt, "a domain");
    store.create_pool(alloc, 1, names).expect(rt, "room")
}

// New bytes of the pool.
fn filled<R: Abort>(rt: &R, alloc: Global, store: &mut Store, pool: PoolId, text: &[u8]) -> Agg
    ensures readable { AllReadable store.new result }
    ensures moves { Moves store.old store.new [] (bufs_of result) }
{
    assert!(rt; text.len() <= MAX_AGGREGATE_BYTES);
    assert!(rt; !store.pools().is_closed(pool));
    Agg::fill(alloc, store, pool, text).expect(rt, "room")
}

// The window of a stream in place.
fn window_at(agg: &Agg, store: &Store) -> Window
    requires { AllReadable store.now agg.now }
{
    window(agg.parts(store))
}

// The window of a stream that is in a store temporarily.
fn window_in_store<R: Abort>(
    rt: &R,
    alloc: Global,
    store: &mut Store,
    pool: PoolId,
    stream: &[u8],
) -> Window {
    let agg = filled(rt, alloc, store, pool, stream);
    let found = window_at(&agg, store);
    agg.release(store);
    found
}

// A head at the limit after an empty line.
fn stored_holds<R: Abort>(rt: &R, alloc: Global) -> Result<bool, AllocError> {
    let text = stream_of(alloc, AFTER_LINE, 8192)?;
    let mut store = new_store(rt, alloc);
    let pool = add_pool(rt, alloc, &mut store);
    let found = window_in_store(rt, alloc, &mut store, pool, text.as_bytes());
    Ok(found == Window::Head { skip: 2, len: 8190 })
}

#[test]
fn stored_stream(rt: HostRuntime) -> Result<(), Fail> {
    pass(stored_holds(&rt, rt.alloc()))
}
