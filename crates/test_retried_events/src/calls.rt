//! Events by name.
use crate::asked::Request;
use iol_core::descriptors::{How, Mode};
use iol_core::events::{Call, Event};
use iol_core::lists::{Bytes, Domains};
use iol_core::numbers::{AggId, ConnId, DomainId, Fd, PoolId};
use std::alloc::{AllocError, Global};

/// The numbers of an event; those that it does not use are ignored.
#[derive(Clone, Copy, Drop)]
pub struct Numbers {
    pub agg: u64,
    pub with: u64,
    pub from: u32,
    pub to: u32,
}

fn mode_of(number: u32) -> Mode {
    match number {
        0 => Mode::Read,
        1 => Mode::Write,
        _ => Mode::Both,
    }
}

fn how_of(number: u32) -> How {
    match number {
        0 => How::Done,
        _ => How::Gone,
    }
}

// A call of domains and pools.
fn of_pools(name: &str, numbers: Numbers) -> Option<Call> {
    let (pool, domain) = (PoolId::new(numbers.from), DomainId::new(numbers.to));
    match name {
        "domain_new" => Some(Call::DomainNew),
        "exit" => Some(Call::Exit),
        "pool_close" => Some(Call::PoolClose { pool }),
        "pool_admit" => Some(Call::PoolAdmit { pool, domain }),
        "set_pool" => Some(Call::SetPool { pool }),
        _ => None,
    }
}

// A call of aggregates.
fn of_aggregates(name: &str, numbers: Numbers) -> Option<Call> {
    let (agg, with) = (AggId::new(numbers.agg), AggId::new(numbers.with));
    let (from, to) = (numbers.from, numbers.to);
    match name {
        "agg_dup" => Some(Call::AggDup { agg }),
        "agg_cut" => Some(Call::AggCut { agg, from, to }),
        "agg_split" => Some(Call::AggSplit { agg, at: from }),
        "agg_join" => Some(Call::AggJoin {
            first: agg,
            second: with,
        }),
        "agg_replace" => Some(Call::AggReplace {
            agg,
            from,
            to,
            with,
        }),
        "agg_drop" => Some(Call::AggDrop { agg }),
        "agg_give" => Some(Call::AggGive {
            agg,
            to: DomainId::new(from),
        }),
        "show" => Some(Call::Show { agg }),
        _ => None,
    }
}

// A call of descriptors.
fn of_descriptors(name: &str, numbers: Numbers) -> Option<Call> {
    let (fd, count) = (Fd::new(numbers.from), numbers.to);
    match name {
        "pipe" => Some(Call::Pipe),
        "give_fd" => Some(Call::GiveFd {
            fd,
            to: DomainId::new(count),
        }),
        "close" => Some(Call::Close { fd }),
        "seek" => Some(Call::Seek { fd, at: count }),
        "length" => Some(Call::Length { fd }),
        "iol_read" => Some(Call::IolRead { fd, count }),
        "iol_write" => Some(Call::IolWrite {
            fd,
            agg: AggId::new(numbers.agg),
        }),
        "fsync" => Some(Call::Fsync { fd }),
        "read" => Some(Call::Read { fd, count }),
        "accept" => Some(Call::Accept),
        _ => None,
    }
}

// A call with a text.
fn of_text(name: &str, numbers: Numbers, bytes: Bytes) -> Option<Call> {
    match name {
        "agg_make" => Some(Call::AggMake { bytes }),
        "write" => Some(Call::Write {
            fd: Fd::new(numbers.from),
            bytes,
        }),
        "file_new" => Some(Call::FileNew {
            name: bytes,
            pool: PoolId::new(numbers.from),
        }),
        "open_file" => Some(Call::OpenFile {
            name: bytes,
            mode: mode_of(numbers.from),
        }),
        _ => None,
    }
}

// An external event.
fn from_outside(name: &str, numbers: Numbers, bytes: Bytes) -> Option<Event> {
    let conn = ConnId::new(numbers.from);
    match name {
        "conn_new" => Some(Event::ConnNew {
            pool: PoolId::new(numbers.from),
        }),
        "arrive" => Some(Event::Arrive { conn, bytes }),
        "peer_closed" => Some(Event::PeerClosed {
            conn,
            how: how_of(numbers.to),
        }),
        "transmit" => Some(Event::Transmit {
            conn,
            max: numbers.to,
        }),
        "flush" => Some(Event::Flush),
        "drop_clean" => Some(Event::DropClean),
        _ => None,
    }
}

fn call_of(name: &str, numbers: Numbers, bytes: Bytes) -> Option<Call> {
    of_pools(name, numbers)
        .or(of_aggregates(name, numbers))
        .or(of_descriptors(name, numbers))
        .or(of_text(name, numbers, bytes))
}

// The call that creates a pool. Its text is the list of domains, one byte each.
fn pool_create(alloc: Global, chunks: u32, list: &[u8]) -> Result<Call, AllocError> {
    let mut domains = Vec::new(alloc);
    for number in list {
        domains.push(DomainId::new(u32::from(*number)))?;
    }
    Ok(Call::PoolCreate {
        chunks,
        domains: Domains::from_vec(domains),
    })
}

/// The request of this name, with its numbers and its text; of domain `by`, or of no domain if
/// that is 0.
pub fn request_of(
    alloc: Global,
    name: &str,
    by: u32,
    numbers: Numbers,
    text: Vec<u8>,
) -> Result<Option<Request>, AllocError> {
    if name == "report" {
        return Ok(Some(Request::Report));
    }
    if by == 0 {
        let event = from_outside(name, numbers, Bytes::from_vec(text));
        return Ok(event.map(Request::Event));
    }
    let call = if name == "pool_create" {
        Some(pool_create(alloc, numbers.from, &text)?)
    } else {
        call_of(name, numbers, Bytes::from_vec(text))
    };
    let by = DomainId::new(by);
    Ok(call.map(|call| Request::Event(Event::Call { by, call })))
}
