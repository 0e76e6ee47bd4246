//! The events in the lines of a script: a call of a domain, or an external event of the network.
ghost use Rattle.std.specs.Prelude.{◌≡◌, IfOk};
ghost use Rattle.iolite.specs.Outside.{CanHappen, Happens, IsArrive, IsCallOf, IsConnNew, IsEvent, IsPeerClosed, IsTransmit, event_of, how_word};
ghost use Rattle.iolite.specs.Reads.{Reads, ReadsAs};

use crate::calls::{CallLine, read_call};
use crate::words::{decode_text, parse_u32, split_word};
use iol_core::descriptors::How;
use iol_core::events::Event;
use iol_core::numbers::{ConnId, DomainId, PoolId};
use std::alloc::{AllocError, Global};

/// An event as parsed from a line, with its texts still encoded.
#[derive(Drop)]
pub enum EventLine<'a> {
    /// An event without a text.
    Whole(Event),
    Arrive { conn: ConnId, text: &'a str },
    Call { by: DomainId, call: CallLine<'a> },
}

/// Parses a call of the domain of that number, or an external event of that name. Allocates
/// nothing.
pub fn read_event<'a>(first: &str, rest: &'a str) -> Option<EventLine<'a>>
    ensures { ReadsAs (IsEvent first.now rest.now) event_of CanHappen result }
{
    match read_call_of(first, rest) {
        Some(line) => Some(line),
        None => read_outside(first, rest),
    }
}

/// Parses a call of the domain of that number.
fn read_call_of<'a>(first: &str, rest: &'a str) -> Option<EventLine<'a>>
    ensures { ReadsAs (IsCallOf first.now rest.now) event_of CanHappen result }
{
    let by = DomainId::new(parse_u32(first)?);
    match read_call(rest) {
        Some(call) => Some(EventLine::Call { by, call }),
        None => None,
    }
}

/// Parses an external event, by its name and its arguments. A missing text is empty.
fn read_outside<'a>(name: &str, rest: &'a str) -> Option<EventLine<'a>>
    ensures { ReadsAs (Happens name.now rest.now) event_of CanHappen result }
{
    let event = match name {
        "conn_new" => read_conn_new(rest)?,
        "arrive" => return read_arrive(rest),
        "peer_closed" => read_peer_closed(rest)?,
        "transmit" => read_transmit(rest)?,
        _ => return None,
    };
    Some(EventLine::Whole(event))
}

fn read_conn_new(rest: &str) -> Option<Event>
    ensures { Reads (IsConnNew rest.now) result }
{
    let pool = PoolId::new(parse_u32(rest)?);
    Some(Event::ConnNew { pool })
}

fn read_arrive(rest: &str) -> Option<EventLine<'_>>
    ensures { ReadsAs (IsArrive rest.now) event_of CanHappen result }
{
    let (conn, text) = split_word(rest);
    let conn = ConnId::new(parse_u32(conn)?);
    Some(EventLine::Arrive { conn, text })
}

fn read_peer_closed(rest: &str) -> Option<Event>
    ensures { Reads (IsPeerClosed rest.now) result }
{
    let (conn, how) = split_word(rest);
    let conn = ConnId::new(parse_u32(conn)?);
    let how = parse_how(how)?;
    Some(Event::PeerClosed { conn, how })
}

fn read_transmit(rest: &str) -> Option<Event>
    ensures { Reads (IsTransmit rest.now) result }
{
    let (conn, max) = split_word(rest);
    let conn = ConnId::new(parse_u32(conn)?);
    let max = parse_u32(max)?;
    Some(Event::Transmit { conn, max })
}

/// Parses how a peer closed its connection.
fn parse_how(word: &str) -> Option<How>
    ensures { Reads (λ how. word.now ≡ how_word how) result }
{
    match word {
        "done" => Some(How::Done),
        "gone" => Some(How::Gone),
        _ => None,
    }
}

impl EventLine<'_> {
    /// Makes the event, with its texts decoded.
    pub fn make(self, alloc: Global) -> Result<Event, AllocError>
        requires { CanHappen self }
        ensures { IfOk result (λ event. event ≡ event_of self.entry) }
    {
        match self {
            EventLine::Whole(event) => Ok(event),
            EventLine::Arrive { conn, text } => {
                let bytes = decode_text(alloc, text)?;
                Ok(Event::Arrive { conn, bytes })
            }
            EventLine::Call { by, call } => {
                let call = call.make(alloc)?;
                Ok(Event::Call { by, call })
            }
        }
    }
}
