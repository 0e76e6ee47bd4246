//! Input from a reader.
use super::line::{Gave, Line, NONE, text};
use iol_core::numbers::PoolId;
use iol_core::refusals::Refusal;
use std::alloc::Global;
use std::test::Fail;
use test_parts::checks::{lend, pass, pass_each};
use test_parts::streams::{Sink, Source};

const END: Gave = (0, true, false);

// A request arrives, and is sent back: one byte to a writer that fails then, the others as a
// segment.
fn echoes_get(line: &mut Line) -> bool {
    let mut reader = Source::new(b"GET", 8, 0);
    let mut writer = Sink::new(line.alloc, 1, 2);
    line.takes(&mut reader, 8, 3)
        && line.arrives(&mut reader, 8, END)
        && line.echo()
        && line.drains(&mut writer, 8, (1, true))
        && writer.bytes() == b"G".as_slice()
        && line.transmits(9, (b"ET", 0xbaab))
}

#[test]
fn borrowed_get(rt: HostRuntime) -> Result<(), Fail> {
    pass(lend(Line::new(rt.alloc()), echoes_get))
}

// A full queue, a peer that sends no more, and a connection that does not exist.
fn refuses_all(line: &mut Line) -> bool {
    let mut reader = Source::new(b"abc", 9, 0);
    line.arrive(65_536)
        && line.refuses(&mut reader, 9, Refusal::WouldBlock)
        && line.end()
        && line.refuses(&mut reader, 0, Refusal::BadRange)
        && line.refuses(&mut reader, 9, Refusal::BrokenPipe)
        && line.arrive_from(NONE, &mut reader, 0) == Err(Refusal::BadFd)
        && reader.reads == 0
}

#[test]
fn refused_before_it_reads(rt: HostRuntime) -> Result<(), Fail> {
    pass(lend(Line::new(rt.alloc()), refuses_all))
}

// All pages are in use.
fn refuses_room(line: &mut Line) -> bool {
    let mut reader = Source::new(b"abc", 9, 0);
    let pool = PoolId::new(1);
    line.fill(131_072)
        && line.refuses(&mut reader, 9, Refusal::NoRoom { pool })
        && reader.reads == 0
}

#[test]
fn no_room_before_it_reads(rt: HostRuntime) -> Result<(), Fail> {
    pass(lend(Line::new(rt.alloc()), refuses_room))
}

// The number of bytes that arrived before, the number requested, and the number taken: at most the
// requested number, a page, and the room in the queue.
const ASKED: [(usize, u32, u32); 3] = [(0, 1, 1), (0, 9000, 4096), (65_530, 9000, 6)];

// After these bytes have arrived, reads at once from a reader with more than a page.
fn takes(line: &mut Line, more: &[u8], row: &(usize, u32, u32)) -> bool {
    let (before, max, taken) = *row;
    let mut reader = Source::new(more, 5000, 0);
    line.arrive(before) && line.takes(&mut reader, max, taken) && reader.reads == 1
}

fn asks_for(alloc: Global, row: &(usize, u32, u32)) -> Result<bool, Refusal> {
    let more = text(alloc, 5000)?;
    lend(Line::new(alloc), |line| takes(line, more.as_slice(), row))
}

#[test]
fn asks_for_what_fits(rt: HostRuntime) -> Result<(), Fail> {
    let alloc = rt.alloc();
    pass_each(&ASKED, |row| asks_for(alloc, row))
}

// Four bytes arrived, and the rest of six.
const SOME: Gave = (4, false, false);

const MORE: Gave = (2, false, false);

const FAILURE: Gave = (0, false, true);

// An arrival: its result, the number of reads so far, and the number of live buffers.
type Arrival = (Gave, u32, u32);

// A reader of six bytes gives four at once, and fails at that read. Each arrival is one read, and
// makes a buffer if it gives bytes.
const FAILING: [(u32, &[Arrival]); 4] = [
    (0, &[(SOME, 1, 1), (MORE, 2, 2), (END, 3, 2)]),
    (1, &[(FAILURE, 1, 0), (SOME, 2, 1), (MORE, 3, 2)]),
    (2, &[(SOME, 1, 1), (FAILURE, 2, 1), (MORE, 3, 2)]),
    (
        3,
        &[(SOME, 1, 1), (MORE, 2, 2), (FAILURE, 3, 2), (END, 4, 2)],
    ),
];

fn arrival_holds(line: &mut Line, reader: &mut Source<'_>, arrival: &Arrival) -> bool {
    let (want, reads, buffers) = *arrival;
    line.arrives(reader, 9, want) && reader.reads == reads && line.holds(buffers)
}

// Arrivals in order. At the end all bytes have arrived.
fn all_arrive(line: &mut Line, row: &(u32, &[Arrival])) -> bool {
    let (fails, arrivals) = *row;
    let mut reader = Source::new(b"abcdef", 4, fails);
    let mut all = true;
    for arrival in arrivals {
        all &= arrival_holds(line, &mut reader, arrival);
    }
    all && line.reads(b"abcdef") && line.holds(0)
}

fn fails_at(alloc: Global, row: &(u32, &[Arrival])) -> Result<bool, Refusal> {
    lend(Line::new(alloc), |line| all_arrive(line, row))
}

#[test]
fn fails_at_each_read(rt: HostRuntime) -> Result<(), Fail> {
    let alloc = rt.alloc();
    pass_each(&FAILING, |row| fails_at(alloc, row))
}
