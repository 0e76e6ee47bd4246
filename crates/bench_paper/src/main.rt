//! Experiments of the IO-Lite paper, as programs that are measured: `bench_paper EXPERIMENT WORDS`. HOW is
//! `shared` (by reference) or `copied`. `bench/paper` measures them.
//!
//! `run PROGRAM HOW LEN ROUNDS` runs a program over a cached file of LEN bytes: `wc`, `grep` (`cat FILE | grep
//! WORD`), `permute` (`permute | wc`), `chain` (`cat FILE | cat | wc`), `file` (a server sends the file) or
//! `script` (a script outputs it, and a server sends that). It prints a number that the output determines.
//!
//! `segments HOW SUMS LEN ROUNDS` sends a file of at most 65,536 bytes in segments with their sums, of which
//! the system remembers SUMS. It prints the bytes of the last round, and its sums together.
//!
//! `slow HOW LEN CONNS` queues a file on connections whose peers take nothing. It prints the connections that
//! have bytes, those for which there was no room, and the used pages before and after.
//!
//! `trace CHUNKS FILES LEN .. READS PLACE ..` reads whole files of these lengths through a cache of this number
//! of chunks, by their places from 0. It prints how many reads did not ask the store, and their bytes.
#![tactic(auto)]

mod counting;
mod machine;
mod permute;
mod piece;
mod programs;
mod scans;
mod segments;
mod setup;
mod slow;
mod trace;

use anyhow::{Context, bail};
use piece::Passing;
use programs::Program;
use std::alloc::Global;
use std::cell::Cell;
use std::env;
use test_parts::words::{number, word};

/// All chunks of a system, and the sums that it remembers if none are named.
const CHUNKS: u32 = 256;

const SUMS: u32 = 1_024;

// How bytes are passed on: the next word.
fn passing_of(words: &mut env::Args) -> anyhow::Result<Passing> {
    let word = word(words)?;
    let passing = Passing::of_word(word.as_str()).context("shared or copied?")?;
    Ok(passing)
}

fn program_of(words: &mut env::Args) -> anyhow::Result<Program> {
    let word = word(words)?;
    let program = Program::of_word(word.as_str()).context("which program?")?;
    Ok(program)
}

// A number of numbers.
fn numbers(alloc: Global, words: &mut env::Args) -> anyhow::Result<Vec<u32>> {
    let count = number(words)?;
    let mut list = Vec::new(alloc);
    for _ in 0..count {
        list.push(number(words)?)?;
    }
    Ok(list)
}

fn measure_run(rt: &HostRuntime, words: &mut env::Args) -> anyhow::Result<()> {
    let alloc = rt.alloc();
    let program = program_of(words)?;
    let passing = passing_of(words)?;
    let text = setup::text(alloc, number(words)?)?;
    let rounds = number(words)?;
    let reads = Cell::new(0u64);
    let mut machine = setup::machine(alloc, setup::config_of(CHUNKS, SUMS), &text, &reads)?;
    let result = programs::repeat(alloc, &mut machine, program, passing, rounds);
    drop(machine);
    let result = result?;
    println!(rt; "{result}")?;
    Ok(())
}

fn measure_segments(rt: &HostRuntime, words: &mut env::Args) -> anyhow::Result<()> {
    let alloc = rt.alloc();
    let passing = passing_of(words)?;
    let sums = number(words)?;
    let text = setup::text(alloc, number(words)?)?;
    let rounds = number(words)?;
    let reads = Cell::new(0u64);
    let mut machine = setup::machine(alloc, setup::config_of(CHUNKS, sums), &text, &reads)?;
    let result = segments::segments(&mut machine, passing, rounds);
    drop(machine);
    let (sent, together) = result?;
    println!(rt; "{sent} {together:04x}")?;
    Ok(())
}

fn measure_slow(rt: &HostRuntime, words: &mut env::Args) -> anyhow::Result<()> {
    let alloc = rt.alloc();
    let passing = passing_of(words)?;
    let text = setup::text(alloc, number(words)?)?;
    let conns = number(words)?;
    let reads = Cell::new(0u64);
    let mut machine = setup::machine(alloc, setup::config_of(CHUNKS, SUMS), &text, &reads)?;
    let result = slow::queue_on(&mut machine, passing, conns);
    drop(machine);
    let queued = result?;
    let (filled, refused) = (queued.filled, queued.refused);
    let (before, after) = (queued.before, queued.after);
    println!(rt; "{filled} {refused} {before} {after}")?;
    Ok(())
}

fn measure_trace(rt: &HostRuntime, words: &mut env::Args) -> anyhow::Result<()> {
    let alloc = rt.alloc();
    let chunks = number(words)?;
    let lengths = numbers(alloc, words)?;
    let order = numbers(alloc, words)?;
    let mut longest = 0u32;
    for length in &lengths {
        longest = longest.max(*length);
    }
    let text = setup::text(alloc, longest)?;
    let reads = Cell::new(0u64);
    let mut machine = setup::library(alloc, chunks, &text, &lengths, &reads)?;
    let result = trace::follow(&mut machine, &lengths, &order, &reads);
    drop(machine);
    let hits = result?;
    let (count, bytes) = (hits.count, hits.bytes);
    println!(rt; "{count} {bytes}")?;
    Ok(())
}

fn main(rt: HostRuntime) -> anyhow::Result<()> {
    let mut words = env::args(&rt)?;
    let _program = words.next();
    let first = word(&mut words)?;
    match first.as_str() {
        "run" => measure_run(&rt, &mut words),
        "segments" => measure_segments(&rt, &mut words),
        "slow" => measure_slow(&rt, &mut words),
        "trace" => measure_trace(&rt, &mut words),
        _ => bail!("which experiment?"),
    }
}
