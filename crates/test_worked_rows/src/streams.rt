//! A connection that is served in place, step by step, with the result of each step written.
use crate::host::{Host, arrive_from, choose, connect};
use iol_core::descriptors::How;
use iol_core::events::{Call, Event, Reply};
use iol_core::numbers::{AggId, ConnId, Fd};
use iol_core::refusals::Refusal;
use iol_proc::choice::Choice;
use iol_sock::{Arrived, Drained};
use std::io;
use std::io::Write;
use test_parts::streams::{Sink, Source};
use test_worlds::systems::call_of;

/// The action of a step; its number is a limit.
#[derive(Clone, Copy, Drop)]
pub enum Deed {
    /// Reads at most this number of bytes from the reader.
    In,

    /// The server's domain accepts the connection, reads at most this number of bytes, and writes
    /// them back.
    Echo,

    /// Writes at most this number of bytes to the writer.
    Out,

    /// Sends at most this number of bytes as a segment.
    Segment,

    /// The peer sends no more.
    End,
}

impl Deed {
    /// The action of a word.
    pub fn of_word(word: &str) -> Option<Deed> {
        match word {
            "in" => Some(Deed::In),
            "echo" => Some(Deed::Echo),
            "out" => Some(Deed::Out),
            "segment" => Some(Deed::Segment),
            "end" => Some(Deed::End),
            _ => None,
        }
    }
}

/// An action, and its number.
#[derive(Clone, Copy, Drop)]
pub struct Step {
    pub deed: Deed,
    pub number: u32,
}

/// The reader and the writer of a connection.
#[derive(Drop)]
pub struct Streams<'a> {
    pub source: Source<'a>,
    pub sink: Sink,
}

fn write_arrived<W: Write>(
    output: &mut W,
    arrived: Result<Arrived, Refusal>,
    reads: u32,
) -> io::Result<()> {
    match arrived {
        Ok(it) => writeln!(
            output,
            "in {} {} {}, {reads} reads",
            it.taken, it.end, it.failed
        ),
        Err(refusal) => writeln!(output, "in refused {refusal}, {reads} reads"),
    }
}

fn write_drained<W: Write>(
    output: &mut W,
    drained: Result<Drained, Refusal>,
    sink: &Sink,
) -> io::Result<()> {
    let writes = sink.writes;
    match drained {
        Ok(it) => writeln!(output, "out {} {}, {writes} writes", it.taken, it.failed)?,
        Err(refusal) => writeln!(output, "out refused {refusal}, {writes} writes")?,
    }
    output.write_all(sink.bytes())?;
    writeln!(output, "")
}

fn write_reply<W: Write>(output: &mut W, reply: &Reply) -> io::Result<()> {
    match reply {
        Reply::Done => writeln!(output, "done"),
        Reply::Fd(fd) => writeln!(output, "fd {}", fd.number()),
        Reply::Agg(agg) => writeln!(output, "agg {}", agg.number()),
        Reply::Count(count) => writeln!(output, "count {count}"),
        Reply::Refused(refusal) => writeln!(output, "refused {refusal}"),
        Reply::Segment { bytes, checksum } => {
            writeln!(output, "segment {checksum:04x}")?;
            output.write_all(bytes.as_slice())?;
            writeln!(output, "")
        }
        _ => writeln!(output, "another"),
    }
}

// A call of the server's domain.
fn call(call: Call) -> [Choice; 1] {
    [Choice::Outside(call_of(1, call))]
}

// The connection is accepted as the first descriptor, and its input is the first aggregate.
fn echo<W: Write>(host: &mut Host, count: u32, output: &mut W) -> io::Result<()> {
    let (fd, agg) = (Fd::new(0), AggId::new(1));
    write_reply(output, &choose(host, &call(Call::Accept)))?;
    write_reply(output, &choose(host, &call(Call::IolRead { fd, count })))?;
    write_reply(output, &choose(host, &call(Call::IolWrite { fd, agg })))?;
    write_reply(output, &choose(host, &call(Call::AggDrop { agg })))
}

fn carry_out<W: Write>(
    host: &mut Host,
    conn: ConnId,
    step: Step,
    streams: &mut Streams<'_>,
    output: &mut W,
) -> io::Result<()> {
    let max = step.number;
    match step.deed {
        Deed::In => {
            let arrived = arrive_from(host, conn, &mut streams.source, max);
            write_arrived(output, arrived, streams.source.reads)
        }
        Deed::Echo => echo(host, max, output),
        Deed::Out => {
            let drained = host.drain_to(conn, &mut streams.sink, max);
            write_drained(output, drained, &streams.sink)
        }
        Deed::Segment => {
            let reply = choose(host, &[Choice::Outside(Event::Transmit { conn, max })]);
            write_reply(output, &reply)
        }
        Deed::End => {
            let how = How::Done;
            let reply = choose(host, &[Choice::Outside(Event::PeerClosed { conn, how })]);
            write_reply(output, &reply)
        }
    }
}

/// Executes the steps on a new connection, in order.
pub fn carry_out_all<W: Write>(
    host: &mut Host,
    steps: &[Step],
    streams: &mut Streams<'_>,
    output: &mut W,
) -> io::Result<()> {
    let Some(conn) = connect(host) else {
        return writeln!(output, "no connection");
    };
    for step in steps {
        carry_out(host, conn, *step, streams, output)?;
    }
    Ok(())
}
