//! Each call that needs memory succeeds if there is enough, and still does after many rounds.
ghost use Rattle.std.specs.Prelude.{true};

use iol_core::descriptors::Descriptor;
use iol_core::numbers::{AggId, DomainId, Fd, PipeId};
use iol_desc::table::Table;
use std::alloc::Global;
use std::process::Abort;
use std::test::Fail;
use test_parts::checks::pass_if;

// Adds an aggregate.
fn add(table: &mut Table<u32>, d: DomainId, agg: u32) -> Option<AggId> {
    if !table.live(d) || table.reserve_aggs(d, 1).is_err() {
        return None;
    }
    if !table.live(d) || table.is_too_many(d, 1, 0) {
        return None;
    }
    Some(table.add_agg(d, agg))
}

// Takes an aggregate, if it exists.
fn take(table: &mut Table<u32>, d: DomainId, agg: AggId) -> Option<u32> {
    if !table.live(d) || table.agg(d, agg).is_none() {
        return None;
    }
    Some(table.take_agg(d, agg))
}

// Takes all aggregates, and counts them.
fn take_all(table: &mut Table<u32>, d: DomainId) -> usize {
    if !table.live(d) {
        return 0;
    }
    let mut taken = table.take_aggs(d);
    for count in 0..10_000 {
        if taken.pop().is_none() {
            return count;
        }
    }
    10_000
}

// Opens a descriptor, and returns its number.
fn open(table: &mut Table<u32>, d: DomainId) -> Option<u32> {
    if !table.live(d) || table.is_open_beyond(d, 1) {
        return None;
    }
    let pipe = PipeId::new(0);
    match table.add_fd(d, Descriptor::ReadEnd { pipe }) {
        Ok(fd) => Some(fd.number()),
        Err(_) => None,
    }
}

// Closes a descriptor, if it exists.
fn close(table: &mut Table<u32>, d: DomainId, number: u32) -> bool {
    let fd = Fd::new(number);
    if !table.live(d) || table.descriptor(d, fd).is_none() {
        return false;
    }
    table.take_fd(d, fd);
    true
}

// Opens both ends of a pipe, under these numbers.
fn opens_ends(table: &mut Table<u32>, d: DomainId, numbers: (u32, u32)) -> bool {
    if !table.live(d) || table.is_open_beyond(d, 2) {
        return false;
    }
    table.add_ends(d, PipeId::new(0)) == Ok((Fd::new(numbers.0), Fd::new(numbers.1)))
}

// An aggregate is added under that number, and taken.
fn comes_and_goes(table: &mut Table<u32>, d: DomainId, round: u32) -> bool {
    match add(table, d, round) {
        Some(agg) => agg.number() == round as u64 && take(table, d, agg) == Some(round),
        None => false,
    }
}

// Aggregates are added and taken, each under the next number.
fn come_and_go(table: &mut Table<u32>, d: DomainId) -> bool {
    let mut all = true;
    for round in 3..100_000 {
        all &= comes_and_goes(table, d, round);
    }
    all
}

// Returns whether of two aggregates only the second exists, which is 2.
fn has_second(table: &Table<u32>, d: DomainId, first: AggId, second: AggId) -> bool {
    table.live(d) && table.agg(d, first).is_none() && table.agg(d, second).copied() == Some(2)
}

// The first aggregate is taken, and the second remains.
fn take_first(table: &mut Table<u32>, d: DomainId) -> bool {
    let (Some(first), Some(second)) = (add(table, d, 1), add(table, d, 2)) else {
        return false;
    };
    come_and_go(table, d) && take(table, d, first) == Some(1) && has_second(table, d, first, second)
}

// Many aggregates are taken at once, in addition to an existing one.
fn take_many(table: &mut Table<u32>, d: DomainId) -> bool {
    let mut all = true;
    for round in 0..1000 {
        all &= add(table, d, round).is_some();
    }
    all && take_all(table, d) == 1001
}

// A table with domain 1.
fn with_one<R: Abort>(rt: &R, alloc: Global) -> Table<u32> {
    let mut table = Table::new(alloc);
    table.add_domain().expect(rt, "memory");
    table
}

fn all_taken<R: Abort>(rt: &R, alloc: Global) -> bool {
    let mut table = with_one(rt, alloc);
    let d = DomainId::new(1);
    let all = take_first(&mut table, d)
        && take_many(&mut table, d)
        && open(&mut table, d) == Some(0)
        && opens_ends(&mut table, d, (1, 2));
    drop(table);
    all
}

#[test]
fn ample(rt: HostRuntime) -> Result<(), Fail> {
    pass_if(all_taken(&rt, rt.alloc()))
}

// Opens descriptors up to the last, with ascending numbers.
fn open_all(table: &mut Table<u32>, d: DomainId) -> bool {
    let mut all = true;
    for number in 0..1024 {
        all &= open(table, d) == Some(number);
    }
    all && table.live(d) && table.is_open_beyond(d, 1)
}

// Numbers that are free again are used in ascending order.
fn reuse(table: &mut Table<u32>, d: DomainId) -> bool {
    let mut all = true;
    for number in [7, 3, 1000] {
        all &= close(table, d, number);
    }
    for number in [3, 7, 1000] {
        all &= open(table, d) == Some(number);
    }
    all
}

// The last descriptor moves to a number that is free again.
fn move_last(table: &mut Table<u32>, d: DomainId) -> bool {
    let is_closed = close(table, d, 5);
    let last = Fd::new(1023);
    let pipe = PipeId::new(0);
    if !table.live(d) || table.descriptor(d, last).is_none() {
        return false;
    }
    let moved = table.move_fd(d, last, Descriptor::WriteEnd { pipe });
    is_closed && moved.number() == 5
}

// The last number is opened and closed.
fn repeat(table: &mut Table<u32>, d: DomainId) -> bool {
    let mut all = true;
    for _ in 0..100_000 {
        all &= open(table, d) == Some(1023) && close(table, d, 1023);
    }
    all
}

fn all_open<R: Abort>(rt: &R, alloc: Global) -> bool {
    let mut table = with_one(rt, alloc);
    let d = DomainId::new(1);
    let all = open_all(&mut table, d)
        && reuse(&mut table, d)
        && move_last(&mut table, d)
        && repeat(&mut table, d);
    drop(table);
    all
}

#[test]
fn descriptors(rt: HostRuntime) -> Result<(), Fail> {
    pass_if(all_open(&rt, rt.alloc()))
}
