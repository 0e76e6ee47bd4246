//! Events as passed by C: a struct of numbers, and slices for bytes and domains.
ghost use Rattle.std.specs.Prelude.{◌≡◌, ◌≢◌, ◌<◌, IfErr, IfNone, IfOk, IfSome};
ghost use Rattle.iol_ffi.specs.Events.{CopiesInCall, CopiesList, IsCall, IsEvent, IsNoCall, IsNoEvent, IsNoPlainKind, IsPlainCall, IsUnread, event_with, how_number, mode_number};
ghost use Rattle.iol_ffi.specs.Memory.{NeedsAsPassed};
ghost use Rattle.iol_ffi.specs.Room.{IsMost};
ghost use Rattle.iol_ffi.specs.Room as spec;

use iol_core::descriptors::{How, Mode};
use iol_core::events::{Call, Event};
use iol_core::lists::{Bytes, Domains};
use iol_core::numbers::{AggId, ConnId, DomainId, Fd, PoolId};
use std::alloc::{AllocError, Global};

/// An event. `iolite.h` documents the fields that each kind reads; all others are ignored.
#[repr(C)]
#[derive(Drop)]
pub struct IolEvent {
    pub kind: u32,
    pub by: u32,
    pub agg: u64,
    pub with: u64,
    pub id: u32,
    pub to: u32,
    pub from: u32,
    pub until: u32,
}

/// The request of C. If it is not an event, it is one of the bytes that C passed, or one whose
/// bytes are written to C's memory. These bytes are not copied into a list.
#[derive(Drop)]
pub(crate) enum Request {
    Event(Event),
    AggMake { by: DomainId },
    Show { by: DomainId, agg: AggId },
    Read { by: DomainId, fd: Fd, count: u32 },
    Write { by: DomainId, fd: Fd },
}

/// The reason for which C's arguments are no event.
#[derive(Drop)]
pub enum Unread {
    /// There is no memory for the event's bytes.
    Memory,

    /// The kind, or a number that it reads, is out of its range.
    Bad,
}

impl From<AllocError> for Unread {
    ghost use Rattle.iol_ffi.specs.declared.events.Unread.TheVariants.{Memory};

    ghost from_gives = { λ _ e. e ≡ Memory };

    fn from(_error: AllocError) -> Unread {
        Unread::Memory
    }
}

fn copied(alloc: Global, bytes: &[u8]) -> Result<Bytes, AllocError>
    ensures { IfOk result (λ b. b ≡ bytes.now) }
{
    let list = bytes.to_vec(alloc)?;
    Ok(Bytes::from_vec(list))
}

fn domains_of(alloc: Global, names: &[u32]) -> Result<Domains, AllocError>
    ensures { IfOk result (λ d. d ≡ names.now) }
{
    let mut list = Vec::new(alloc);
    for name in names {
        list.push(DomainId::new(*name))?;
    }
    Ok(Domains::from_vec(list))
}

fn mode_of(number: u32) -> Option<Mode>
    ensures some { IfSome result (λ m. number ≡ mode_number m) }
    ensures none { IfNone result (2 < number) }
{
    match number {
        0 => Some(Mode::Read),
        1 => Some(Mode::Write),
        2 => Some(Mode::Both),
        _ => None,
    }
}

fn how_of(number: u32) -> Option<How>
    ensures some { IfSome result (λ h. number ≡ how_number h) }
    ensures none { IfNone result (1 < number) }
{
    match number {
        0 => Some(How::Done),
        1 => Some(How::Gone),
        _ => None,
    }
}

// The calls that read only the fields of the event.
fn plain_call(e: &IolEvent) -> Option<Call>
    ensures some { IfSome result (λ c. IsPlainCall c e.now) }
    ensures none { IfNone result (IsNoPlainKind e.now.kind) }
{
    let (agg, fd, pool) = (AggId::new(e.agg), Fd::new(e.id), PoolId::new(e.id));
    let to = DomainId::new(e.to);
    let call = match e.kind {
        0 => Call::DomainNew,
        1 => Call::Exit,
        3 => Call::PoolClose { pool },
        4 => Call::PoolAdmit { pool, domain: to },
        5 => Call::SetPool { pool },
        7 => Call::AggDup { agg },
        8 => Call::AggCut {
            agg,
            from: e.from,
            to: e.until,
        },
        9 => Call::AggSplit { agg, at: e.from },
        10 => Call::AggJoin {
            first: agg,
            second: AggId::new(e.with),
        },
        11 => Call::AggReplace {
            agg,
            from: e.from,
            to: e.until,
            with: AggId::new(e.with),
        },
        12 => Call::AggDrop { agg },
        13 => Call::AggGive { agg, to },
        17 => Call::Pipe,
        18 => Call::GiveFd { fd, to },
        19 => Call::Close { fd },
        20 => Call::Seek { fd, at: e.from },
        21 => Call::Length { fd },
        22 => Call::IolRead { fd, count: e.from },
        23 => Call::IolWrite { fd, agg },
        24 => Call::Fsync { fd },
        27 => Call::Accept,
        _ => return None,
    };
    Some(call)
}

// The call of an event that is not carried out with C's own bytes or memory.
fn call_of(alloc: Global, e: &IolEvent, bytes: &[u8], names: &[u32]) -> Result<Call, Unread>
    requires makes { e.now.kind ≢ 6 }
    requires shows { e.now.kind ≢ 14 }
    requires reads { e.now.kind ≢ 25 }
    requires writes { e.now.kind ≢ 26 }
    ensures ok { IfOk result (λ c. IsCall c e.now bytes.now names.now) }
    ensures err { IfErr result (λ why. IsUnread why (IsNoCall e.now) (CopiesInCall e.now)) }
{
    match e.kind {
        2 => Ok(Call::PoolCreate {
            chunks: e.from,
            domains: domains_of(alloc, names)?,
        }),
        15 => Ok(Call::FileNew {
            name: copied(alloc, bytes)?,
            pool: PoolId::new(e.id),
        }),
        16 => match mode_of(e.from) {
            Some(mode) => Ok(Call::OpenFile {
                name: copied(alloc, bytes)?,
                mode,
            }),
            None => Err(Unread::Bad),
        },
        _ => match plain_call(e) {
            Some(call) => Ok(call),
            None => Err(Unread::Bad),
        },
    }
}

// The event of a kind that is not carried out with C's own bytes or memory.
fn event_of(alloc: Global, e: &IolEvent, bytes: &[u8], names: &[u32]) -> Result<Event, Unread>
    requires makes { e.now.kind ≢ 6 }
    requires shows { e.now.kind ≢ 14 }
    requires reads { e.now.kind ≢ 25 }
    requires writes { e.now.kind ≢ 26 }
    ensures ok { IfOk result (λ event. IsEvent event e.now bytes.now names.now) }
    ensures err { IfErr result (λ why. IsUnread why (IsNoEvent e.now) (CopiesList e.now)) }
{
    let conn = ConnId::new(e.id);
    match e.kind {
        100 => Ok(Event::ConnNew {
            pool: PoolId::new(e.id),
        }),
        101 => Ok(Event::Arrive {
            conn,
            bytes: copied(alloc, bytes)?,
        }),
        102 => match how_of(e.from) {
            Some(how) => Ok(Event::PeerClosed { conn, how }),
            None => Err(Unread::Bad),
        },
        103 => Ok(Event::Transmit { conn, max: e.from }),
        104 => Ok(Event::Flush),
        105 => Ok(Event::DropClean),
        _ => Ok(Event::Call {
            by: DomainId::new(e.by),
            call: call_of(alloc, e, bytes, names)?,
        }),
    }
}

/// The request that C's struct and slices represent.
pub(crate) fn request_of(
    alloc: Global,
    e: &IolEvent,
    bytes: &[u8],
    names: &[u32],
) -> Result<Request, Unread>
    ensures ok { IfOk result
        (λ request. IsEvent (event_with request bytes.now) e.now bytes.now names.now) }
    ensures needs { IfOk result (λ request. NeedsAsPassed e.now request) }
    ensures err { IfErr result (λ why. IsUnread why (IsNoEvent e.now) (CopiesList e.now)) }
{
    let (by, agg, fd) = (DomainId::new(e.by), AggId::new(e.agg), Fd::new(e.id));
    match e.kind {
        6 => Ok(Request::AggMake { by }),
        14 => Ok(Request::Show { by, agg }),
        25 => Ok(Request::Read {
            by,
            fd,
            count: e.from,
        }),
        26 => Ok(Request::Write { by, fd }),
        _ => Ok(Request::Event(event_of(alloc, e, bytes, names)?)),
    }
}

// The most bytes that a call may take and return as a copy.
fn most_of_call(call: &Call) -> usize
    ensures { result ≡ spec.most_of_call call.now }
{
    match call {
        Call::Read { count, .. } => *count as usize,
        _ => 0,
    }
}

// The most bytes that an event may take from a file or a queue and return as a copy. A second
// event does not return them again.
fn most_of_event(event: &Event) -> usize
    ensures { result ≡ spec.most_bytes event.now }
{
    match event {
        Event::Call { call, .. } => most_of_call(call),
        Event::Transmit { max, .. } => *max as usize,
        _ => 0,
    }
}

/// The most bytes that the event of a request may take and return as a copy, whatever the bytes
/// that C passed.
pub(crate) fn most_bytes(request: &Request) -> usize
    ensures { IsMost request.now result }
{
    match request {
        Request::Event(event) => most_of_event(event),
        Request::Read { count, .. } => *count as usize,
        _ => 0,
    }
}
