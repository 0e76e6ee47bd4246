//! A script and a file that are requested at once, and a file that is written before the script
//! reads it.
use crate::host::{Host, choose};
use iol_core::descriptors::Mode;
use iol_core::events::{Call, Event};
use iol_core::lists::Bytes;
use iol_core::numbers::{ConnId, DomainId, Fd, PoolId};
use iol_proc::choice::Choice;
use std::alloc::{AllocError, Global};
use std::io;
use std::io::Write;
use test_worlds::systems::call_of;

const SCRIPT: &[u8] = b"GET /s.cgi?q=1 HTTP/1.1\r\nHost: a\r\n\r\n";

const FILE: &[u8] = b"GET /f HTTP/1.1\r\nHost: a\r\n\r\n";

// The turns in which the server reads the file and makes the worker's job.
const TURNS: u32 = 1000;

fn bytes_of(alloc: Global, text: &[u8]) -> Result<Bytes, AllocError> {
    Ok(Bytes::from_vec(Vec::from_slice(alloc, text)?))
}

fn arrives(alloc: Global, number: u32, text: &[u8]) -> Result<Choice, AllocError> {
    let conn = ConnId::new(number);
    let bytes = bytes_of(alloc, text)?;
    Ok(Choice::Outside(Event::Arrive { conn, bytes }))
}

// A call of the guest, whose domain follows that of the only worker.
fn of_guest(call: Call) -> Choice {
    Choice::Outside(call_of(3, call))
}

fn opens(alloc: Global) -> Result<Choice, AllocError> {
    let name = bytes_of(alloc, b"f")?;
    let mode = Mode::Write;
    Ok(of_guest(Call::OpenFile { name, mode }))
}

fn writes(alloc: Global) -> Result<Choice, AllocError> {
    let fd = Fd::new(0);
    let bytes = bytes_of(alloc, b"two")?;
    Ok(of_guest(Call::Write { fd, bytes }))
}

/// The events, in order.
#[derive(Drop)]
pub struct Course {
    /// Two connections, and a request on each.
    asked: Vec<Choice>,

    /// Turns of the server only.
    turns: Vec<Choice>,

    /// The guest writes the file.
    written: Vec<Choice>,
}

fn asked_by(alloc: Global) -> Result<Vec<Choice>, AllocError> {
    let pool = PoolId::new(2);
    let mut choices = Vec::new(alloc);
    choices.push(Choice::Outside(Event::ConnNew { pool }))?;
    choices.push(Choice::Outside(Event::ConnNew { pool }))?;
    choices.push(arrives(alloc, 1, SCRIPT)?)?;
    choices.push(arrives(alloc, 2, FILE)?)?;
    Ok(choices)
}

fn turns_of_server(alloc: Global) -> Result<Vec<Choice>, AllocError> {
    let mut choices = Vec::new(alloc);
    for _ in 0..TURNS {
        choices.push(Choice::Turn(DomainId::new(1)))?;
    }
    Ok(choices)
}

impl Course {
    pub fn new(alloc: Global) -> Result<Course, AllocError> {
        let asked = asked_by(alloc)?;
        let turns = turns_of_server(alloc)?;
        let mut written = Vec::new(alloc);
        written.push(opens(alloc)?)?;
        written.push(writes(alloc)?)?;
        Ok(Course {
            asked,
            turns,
            written,
        })
    }
}

// Sends at most 4,096 bytes, and returns the number sent.
fn send<W: Write>(host: &mut Host, conn: ConnId, output: &mut W) -> u32 {
    match host.drain_to(conn, output, 4096) {
        Ok(drained) => drained.taken,
        Err(_) => 0,
    }
}

// Sends all output of a connection, with turns before each part.
fn send_all<W: Write>(host: &mut Host, number: u32, output: &mut W) -> bool {
    let conn = ConnId::new(number);
    for _ in 0..1000 {
        if !host.quiesce() {
            return false;
        }
        if send(host, conn, output) == 0 {
            return true;
        }
    }
    false
}

// Executes choices, one at a time.
fn choose_all(host: &mut Host, choices: &[Choice]) {
    for choice in choices.chunks(1) {
        let _reply = choose(host, choice);
    }
}

/// Executes all events, and writes the output of both connections.
pub fn carry_out<W: Write>(host: &mut Host, course: &Course, output: &mut W) -> io::Result<()> {
    choose_all(host, &course.asked);
    let _last = choose(host, &course.turns);
    choose_all(host, &course.written);
    for number in 1..=2 {
        let is_idle = send_all(host, number, output);
        writeln!(output, "\nconnection {number}, idle: {is_idle}")?;
    }
    Ok(())
}
