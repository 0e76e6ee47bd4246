//! The order of time slices, and when a run of turns ends.
use iol_proc::activity::Activity;
use iol_reactor::turns::{Order, Stopwatch};
use std::alloc::AllocError;
use std::test::Fail;
use test_parts::checks::pass_each;

// A clock that shows this number of quarters of a millisecond.
#[derive(Drop)]
struct Shown(u8);

impl Stopwatch for Shown {
    fn micros(&mut self) -> u64 {
        u64::from(self.0).saturating_mul(250)
    }
}

// The number of processes, and the one with which rounds go on; the turns, each a yield (y), a wait
// (w), or an act and the digit that the clock shows after it; the process that has the next turn,
// whether all are idle, and whether the run ends.
const ROWS: [(usize, usize, &[u8], usize, bool, bool); 22] = [
    // A time slice ends by two yields without an act between, and the next process of the round has
    // the next one.
    (3, 0, b"", 0, false, false),
    (3, 0, b"ww", 0, false, false),
    (3, 0, b"ywwy", 1, false, false),
    (3, 0, b"y0y", 0, false, false),
    (3, 0, b"y0yy", 1, false, false),
    (3, 0, b"yyy0yyyy", 0, false, false),
    // The first process has the first one, and then rounds go on.
    (3, 2, b"y", 0, false, false),
    (3, 2, b"yy", 2, false, false),
    (3, 2, b"yyyy", 0, false, false),
    (3, 3, b"yy", 1, false, false),
    // Idle are those that were idle in a round in which none acted.
    (2, 0, b"yyy", 1, false, false),
    (2, 0, b"yyywy", 0, true, true),
    (2, 0, b"yyy0yy", 0, false, false),
    (2, 1, b"yyyyy", 0, false, false),
    (2, 1, b"yyyyyy", 1, true, true),
    (0, 0, b"", 0, true, true),
    // A time slice ends by its time, and the run after one that is not of the first process.
    (3, 0, b"yy1", 1, false, false),
    (3, 0, b"yy2", 2, false, false),
    (3, 0, b"yy24", 0, false, true),
    // The clock is read after eight turns in which the first process acted.
    (3, 0, b"8888888", 0, false, false),
    (3, 0, b"00000008", 1, false, false),
    (3, 0, b"00000008yy", 2, false, true),
];

fn activity_of(turn: u8) -> Activity {
    match turn {
        b'y' => Activity::Yields,
        b'w' => Activity::Waits,
        _ => Activity::Acts,
    }
}

fn goes(row: &(usize, usize, &[u8], usize, bool, bool)) -> Result<bool, AllocError> {
    let (count, next, turns, place, idle, over) = *row;
    let mut order = Order::new(count, next);
    for turn in turns {
        order.note(activity_of(*turn), &mut Shown(turn.saturating_sub(b'0')));
    }
    Ok(order.place() == place && order.is_idle() == idle && order.is_over() == over)
}

#[test]
fn each_run(_rt: HostRuntime) -> Result<(), Fail> {
    pass_each(&ROWS, goes)
}
