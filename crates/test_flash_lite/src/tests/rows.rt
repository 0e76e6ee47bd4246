//! Rows: the input of a connection, and its whole output.
use super::host::{Host, Plan, connect, host_of};
use iol_core::descriptors::How;
use iol_core::events::{Event, Reply};
use iol_core::lists::Bytes;
use iol_core::numbers::ConnId;
use iol_core::refusals::Refusal;
use std::alloc::{AllocError, Global};
use std::test::Fail;
use test_parts::checks::pass_all;

/// The input of a connection, its whole output, and whether it is closed afterwards.
pub type Row<'a> = (&'a str, &'a str, bool);

/// A stream in pieces of `size` bytes, to arrive on a connection.
pub fn arrivals(
    alloc: Global,
    number: u32,
    stream: &[u8],
    size: usize,
) -> Result<Vec<Event>, AllocError> {
    let mut events = Vec::new(alloc);
    for piece in stream.chunks(size.max(1)) {
        events.push(Event::Arrive {
            conn: ConnId::new(number),
            bytes: Bytes::from_vec(Vec::from_slice(alloc, piece)?),
        })?;
    }
    Ok(events)
}

/// Executes events, such as the arrival of pieces, without turns.
pub fn let_wait(host: &mut Host, events: Vec<Event>) {
    for event in events {
        let _reply = host.step(event);
    }
}

/// Executes events, with turns after each, and returns whether all were idle after each. Input
/// after a close is refused.
pub fn let_arrive(host: &mut Host, events: Vec<Event>) -> bool {
    let mut idle = true;
    for event in events {
        let _reply = host.step(event);
        idle &= host.quiesce();
    }
    idle
}

/// Takes the whole output of a connection, with turns after each segment, and compares it.
pub fn is_sent(host: &mut Host, number: u32, wanted: &[u8]) -> bool {
    let conn = ConnId::new(number);
    let mut left = wanted;
    for _ in 0..100_000 {
        match host.step(Event::Transmit { conn, max: 4096 }) {
            Reply::Segment { bytes, .. } => match left.strip_prefix(bytes.as_slice()) {
                Some(rest) => left = rest,
                None => return false,
            },
            _ => return left.is_empty(),
        }
        if !host.quiesce() {
            return false;
        }
    }
    false
}

/// Returns whether a connection was removed.
pub fn is_gone(host: &mut Host, number: u32) -> bool {
    !host.has(ConnId::new(number))
}

/// The peer of a connection closes, with turns afterwards.
pub fn end(host: &mut Host, number: u32, how: How) -> bool {
    let conn = ConnId::new(number);
    let _reply = host.step(Event::PeerClosed { conn, how });
    host.quiesce()
}

/// Returns whether the input of a new connection of this number gets this output, and whether the
/// connection is closed afterwards.
pub fn is_answered(
    host: &mut Host,
    number: u32,
    events: Vec<Event>,
    answer: &[u8],
    closes: bool,
) -> bool {
    connect(host) == Some(ConnId::new(number))
        && let_arrive(host, events)
        && is_sent(host, number, answer)
        && is_gone(host, number) == closes
        && end(host, number, How::Gone)
}

/// Whether a row holds on a new connection of this number.
pub fn holds(host: &mut Host, number: u32, events: Vec<Event>, row: &Row<'_>) -> bool {
    let (_stream, answer, closes) = *row;
    is_answered(host, number, events, answer.as_bytes(), closes)
}

// The streams of rows, each on a connection of its own, in pieces of `size` bytes.
fn streams(alloc: Global, rows: &[Row<'_>], size: usize) -> Result<Vec<Vec<Event>>, AllocError> {
    let mut streams = Vec::new(alloc);
    let mut number = 1u32;
    for (stream, _answer, _closes) in rows {
        streams.push(arrivals(alloc, number, stream.as_bytes(), size)?)?;
        number = number.saturating_add(1);
    }
    Ok(streams)
}

// The number of rows that hold, up to the first that does not.
fn count_held(host: &mut Host, streams: Vec<Vec<Event>>, rows: &[Row<'_>]) -> u32 {
    let mut held = 0u32;
    for (row, events) in rows.iter().zip(streams) {
        let number = held.saturating_add(1);
        if !holds(host, number, events, row) {
            return held;
        }
        held = number;
    }
    held
}

/// The number of rows that hold on one site, each with its stream, up to the first that does not.
pub fn held_with(
    alloc: Global,
    plan: &Plan<'_>,
    streams: Vec<Vec<Event>>,
    rows: &[Row<'_>],
) -> Result<usize, Refusal> {
    let mut host = host_of(alloc, plan)?;
    let count = count_held(&mut host, streams, rows);
    drop(host);
    Ok(count as usize)
}

// The number of rows that hold on one site, up to the first that does not; streams arrive in
// pieces of `size` bytes.
fn held(alloc: Global, plan: &Plan<'_>, rows: &[Row<'_>], size: usize) -> Result<usize, Refusal> {
    let streams = streams(alloc, rows, size)?;
    held_with(alloc, plan, streams, rows)
}

/// Passes if all rows hold on one site with whole streams, and on one with streams that arrive
/// byte by byte.
pub fn pass_rows(alloc: Global, plan: &Plan<'_>, rows: &[Row<'_>]) -> Result<(), Fail> {
    pass_all(held(alloc, plan, rows, 8192), rows.len())?;
    pass_all(held(alloc, plan, rows, 1), rows.len())
}
