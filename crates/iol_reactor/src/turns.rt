//! The order of process turns, and the end of a run of turns.
ghost use Rattle.std.specs.Prelude.{◌≡◌, ◌≤◌, ◌<◌, ◌+◌, ◌-◌, ◌^◌, ◌&&◌, ◌||◌, None, Some, IfSome};
ghost use Rattle.std.specs.Prelude.{if◌then◌else◌, false, max, min, nat_le, nat_lt};
ghost use Rattle.std.specs.Option.{unwrap_or};
ghost use Rattle.std.proofs.Props.{props};
ghost use Rattle.iol_reactor.specs.Turns.{place_after};

use crate::limits::{RUN_MICROS, SLICE_MICROS, UNTIMED_TURNS};
use iol_proc::activity::Activity;

/// The time of a run of turns.
pub trait Stopwatch {
    /// The microseconds since the run began.
    fn micros(&mut self) -> u64;
}

/// A time that does not pass: a run ends when all processes are idle, or by its number of turns.
#[derive(Drop)]
pub struct Stopped;

impl Stopwatch for Stopped {
    fn micros(&mut self) -> u64 {
        0
    }
}

/// The order of the turns of a run. Each process has a time slice: turns until it is idle, that is
/// has yielded twice and not acted between, or for `SLICE_MICROS`. The first process has the first
/// one; then rounds of time slices continue with the process at which those of the run before
/// ended.
#[derive(Debug, Drop)]
pub struct Order {
    count: usize,

    // The process that has its time slice, and the next one if that is not the one after it.
    place: usize,
    resumes: Option<usize>,

    // The yields in the time slice, and the time slices of rounds, one after another, that ended as
    // the process was idle: since a process acted.
    yields: usize,
    idle_count: usize,

    // The turns of the first process in which it acted, since the clock was read.
    untimed: usize,

    // The time when the clock was read, and when the time slice began.
    now: u64,
    began: u64,

    is_over: bool,
    ghost within: { place < max count 1 },
    ghost resumed: { IfSome resumes (λ next. next < count) } by { Prim.hlevel props },
}

impl Order {
    /// A run of this number of processes, whose rounds continue with the process at this index.
    pub fn new(count: usize, next: usize) -> Order
        ensures count { result.count ≡ count }
        ensures place { result.place ≡ 0 }
        ensures idle_count { result.idle_count ≡ 0 }
        ensures over { result.is_over ≡ false }
        ensures yields { result.yields ≡ 0 }
        ensures resumes { result.resumes ≡
            (if nat_lt 0 next && nat_lt next count then Some next else None) }
    {
        Order {
            count,
            place: 0,
            resumes: if 0 < next && next < count {
                Some(next)
            } else {
                None
            },
            yields: 0,
            idle_count: 0,
            untimed: 0,
            now: 0,
            began: 0,
            is_over: false,
        }
    }

    /// The process that has the next turn.
    pub fn place(&self) -> usize
        ensures { result ≡ self.entry.now.place }
    {
        self.place
    }

    /// The process with which the rounds continue.
    pub fn next(&self) -> usize
        ensures within { result < max self.entry.now.count 1 }
        ensures next { result ≡ unwrap_or self.entry.now.resumes self.entry.now.place }
    {
        self.resumes.unwrap_or(self.place)
    }

    /// Whether all processes are idle: each was idle in a round in which none acted.
    pub fn is_idle(&self) -> bool
        ensures { result ≡ nat_le self.entry.now.count self.entry.now.idle_count }
    {
        self.count <= self.idle_count
    }

    /// Whether the run ends: all processes are idle, or its time is over. It ends by time only
    /// after a time slice of another process than the first, if there is one.
    pub fn is_over(&self) -> bool
        ensures { result ≡ (self.entry.now.is_over
            || nat_le self.entry.now.count self.entry.now.idle_count) }
    {
        self.is_over || self.is_idle()
    }

    /// The process had its turn.
    pub fn note<W: Stopwatch>(&mut self, activity: Activity, watch: &mut W)
        ensures count { self.new.count ≡ self.old.count }
        ensures waits { activity ≡ Activity.Waits → self.new ≡ self.old }
        ensures acts { activity ≡ Activity.Acts → self.new.idle_count ≡ 0 }
        ensures restarts { activity ≡ Activity.Acts → self.new.yields ≡ 0 }
        ensures idle_count { self.new.idle_count ≤ self.old.idle_count + 1 }
        ensures second_yield { self.new.idle_count ≡ self.old.idle_count + 1 →
            (activity ≡ Activity.Yields) × (1 ≤ self.old.yields) }
        ensures first_yield { activity ≡ Activity.Yields → self.old.yields ≡ 0 →
            (self.new.idle_count ≡ self.old.idle_count) × (self.new.place ≡ self.old.place) }
        ensures resumed { activity ≡ Activity.Yields → 1 ≤ self.old.yields → IfSome self.old.resumes
            (λ next. (self.new.place ≡ next) × (self.new.idle_count ≡ self.old.idle_count)) }
        ensures next { activity ≡ Activity.Yields → 1 ≤ self.old.yields →
            self.old.resumes ≡ None → self.new.place ≡ place_after self.old.place self.old.count }
        ensures counted { activity ≡ Activity.Yields → 1 ≤ self.old.yields →
            self.old.resumes ≡ None →
            self.new.idle_count ≡ min (self.old.idle_count + 1) (2 ^ 64 - 1) }
    {
        match activity {
            Activity::Waits => {}
            Activity::Yields => {
                self.yields = self.yields.saturating_add(1);
                if 2 <= self.yields {
                    self.count_idle();
                }
            }
            Activity::Acts => {
                self.yields = 0;
                self.idle_count = 0;
                self.untimed = self.untimed.saturating_add(1);
                if 0 < self.place || UNTIMED_TURNS <= self.untimed {
                    self.read(watch);
                }
            }
        }
    }

    // The process is idle, so its time slice is over.
    fn count_idle(&mut self)
        ensures count { self.new.count ≡ self.old.count }
        ensures idle_count { self.new.idle_count ≤ self.old.idle_count + 1 }
        ensures resumed { IfSome self.old.resumes
            (λ next. (self.new.place ≡ next) × (self.new.idle_count ≡ self.old.idle_count)) }
        ensures next { self.old.resumes ≡ None →
            self.new.place ≡ place_after self.old.place self.old.count }
        ensures counted { self.old.resumes ≡ None →
            self.new.idle_count ≡ min (self.old.idle_count + 1) (2 ^ 64 - 1) }
    {
        if self.resumes.is_none() {
            self.idle_count = self.idle_count.saturating_add(1);
        }
        self.end_slice();
    }

    // Reads the clock. The time slice may be over.
    fn read<W: Stopwatch>(&mut self, watch: &mut W)
        ensures count { self.new.count ≡ self.old.count }
        ensures idle_count { self.new.idle_count ≡ self.old.idle_count }
        ensures yields { self.old.yields ≡ 0 → self.new.yields ≡ 0 }
    {
        self.untimed = 0;
        self.now = watch.micros();
        if SLICE_MICROS <= self.now.saturating_sub(self.began) {
            self.end_slice();
        }
    }

    // The next process has its time slice.
    fn end_slice(&mut self)
        ensures count { self.new.count ≡ self.old.count }
        ensures idle_count { self.new.idle_count ≡ self.old.idle_count }
        ensures resumed { IfSome self.old.resumes (λ next. self.new.place ≡ next) }
        ensures next { self.old.resumes ≡ None →
            self.new.place ≡ place_after self.old.place self.old.count }
        ensures resumes { self.new.resumes ≡ None }
        ensures yields { self.new.yields ≡ 0 }
    {
        let is_last = 0 < self.place || self.count <= 1;
        self.is_over = is_last && RUN_MICROS <= self.now;
        self.began = self.now;
        self.yields = 0;
        self.place = match self.resumes.take() {
            Some(next) => next,
            None => {
                let next = self.place.saturating_add(1);
                if next < self.count { next } else { 0 }
            }
        };
    }
}
