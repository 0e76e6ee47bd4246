//! The measured rounds.
use crate::setup::{FILE, Machine, READ_END, SOCKET, WRITE_END, call, text};
use iol_core::events::{Call, Event, Reply};
use iol_core::numbers::{AggId, ConnId, Fd};
use iol_core::refusals::Refusal;
use std::alloc::{AllocError, Global};
use std::io;

/// The way of the bytes.
#[derive(Clone, Copy, Drop)]
pub enum Way {
    /// Read from a file that is in memory.
    File,

    /// Written to a pipe and read from it.
    Pipe,

    /// Written to a connection and taken by its peer.
    Sent,

    /// Arrived on a connection and read from it.
    Received,
}

/// How bytes are passed.
#[derive(Clone, Copy, Drop)]
pub enum Passing {
    Shared,
    Copied,
}

const WAYS: [(&str, Way); 4] = [
    ("file", Way::File),
    ("pipe", Way::Pipe),
    ("sent", Way::Sent),
    ("received", Way::Received),
];

impl Way {
    /// The way of a word.
    pub fn of_word(word: &str) -> Option<Way> {
        for (name, way) in &WAYS {
            if *name == word {
                return Some(*way);
            }
        }
        None
    }
}

impl Passing {
    /// The kind of passing of a word.
    pub fn of_word(word: &str) -> Option<Passing> {
        match word {
            "shared" => Some(Passing::Shared),
            "copied" => Some(Passing::Copied),
            _ => None,
        }
    }
}

// Bytes are written.
fn write(alloc: Global, fd: u32, passing: Passing, len: u32) -> Result<Event, AllocError> {
    let (fd, agg) = (Fd::new(fd), AggId::new(1));
    if matches!(passing, Passing::Shared) {
        return Ok(call(Call::IolWrite { fd, agg }));
    }
    let bytes = text(alloc, len)?;
    Ok(call(Call::Write { fd, bytes }))
}

// Bytes are read.
fn read(fd: u32, passing: Passing, count: u32) -> Event {
    let fd = Fd::new(fd);
    match passing {
        Passing::Shared => call(Call::IolRead { fd, count }),
        Passing::Copied => call(Call::Read { fd, count }),
    }
}

// Bytes arrive.
fn arrive(alloc: Global, len: u32) -> Result<Event, AllocError> {
    let conn = ConnId::new(1);
    let bytes = text(alloc, len)?;
    Ok(Event::Arrive { conn, bytes })
}

// The file is read from its beginning.
fn seek() -> Event {
    let (fd, at) = (Fd::new(FILE), 0);
    call(Call::Seek { fd, at })
}

// The event that writes the bytes or makes them available.
fn first(alloc: Global, way: Way, passing: Passing, len: u32) -> Result<Event, AllocError> {
    match way {
        Way::File => Ok(seek()),
        Way::Pipe => write(alloc, WRITE_END, passing, len),
        Way::Sent => write(alloc, SOCKET, passing, len),
        Way::Received => arrive(alloc, len),
    }
}

// The event that reads the bytes, unless a peer takes them.
fn second(way: Way, passing: Passing, count: u32) -> Option<Event> {
    match way {
        Way::File => Some(read(FILE, passing, count)),
        Way::Pipe => Some(read(READ_END, passing, count)),
        Way::Sent => None,
        Way::Received => Some(read(SOCKET, passing, count)),
    }
}

// Drops an aggregate.
fn drop_agg(machine: &mut Machine, agg: AggId) -> Result<(), Refusal> {
    match machine.step(&call(Call::AggDrop { agg })) {
        Reply::Refused(refusal) => Err(refusal),
        _ => Ok(()),
    }
}

// Executes an event. An aggregate that it makes is dropped at once.
fn pass(machine: &mut Machine, event: &Event) -> Result<(), Refusal> {
    let reply = machine.step(event);
    match &reply {
        Reply::Agg(agg) => drop_agg(machine, *agg),
        Reply::Refused(refusal) => Err(*refusal),
        _ => Ok(()),
    }
}

// The peer of a connection takes all queued output.
fn send(machine: &mut Machine, conn: ConnId) -> Result<(), Refusal> {
    match machine.drain_to(conn, &mut io::sink(), u32::MAX) {
        Ok(_) => Ok(()),
        Err(refusal) => Err(refusal),
    }
}

/// One or two events, after which a peer may take the queued output.
#[derive(Drop)]
pub struct Round {
    first: Event,
    second: Option<Event>,
    sends: bool,
}

impl Round {
    /// The round in which `len` bytes take this way.
    pub fn new(alloc: Global, way: Way, passing: Passing, len: u32) -> Result<Round, AllocError> {
        let first = first(alloc, way, passing, len)?;
        let second = second(way, passing, len);
        let sends = matches!(way, Way::Sent);
        Ok(Round {
            first,
            second,
            sends,
        })
    }

    // Executes the round.
    fn carry_out(&self, machine: &mut Machine) -> Result<(), Refusal> {
        pass(machine, &self.first)?;
        if let Some(event) = &self.second {
            pass(machine, event)?;
        }
        if self.sends {
            send(machine, ConnId::new(1))?;
        }
        Ok(())
    }

    /// Executes the round `rounds` times.
    pub fn repeat(&self, machine: &mut Machine, rounds: u64) -> Result<(), Refusal> {
        for _ in 0..rounds {
            self.carry_out(machine)?;
        }
        Ok(())
    }
}
