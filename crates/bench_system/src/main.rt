//! Measures calls: `bench_system MEASUREMENT ..` executes each measurement in turn. There are two.
//!
//! `WAY HOW LEN ROUNDS` passes LEN bytes ROUNDS times. WAY is `file` (read, from memory), `pipe`
//! (written and read), `sent` (written to a connection and taken by its peer) or `received`
//! (arrived on a connection and read). HOW is `shared` or `copied`. `bench/shared` measures it.
//!
//! `turns KIND ROUNDS` gives five processes two turns each, in rounds, ROUNDS times. By KIND each
//! process yields (`yield`), accepts a connection (`accept`), or reads an empty pipe (`read`). It
//! prints whether all were idle each time. `bench/turns` measures it.
#![tactic(auto)]

mod rounds;
mod setup;
mod turns;
mod waiter;

use anyhow::Context;
use rounds::{Passing, Round, Way};
use std::alloc::Global;
use std::env;
use test_parts::words::{number, word};
use turns::{give_rounds, waiting_world};
use waiter::Waiter;

// The number of rounds: the next word.
fn count_of(words: &mut env::Args) -> anyhow::Result<u64> {
    let word = word(words)?;
    let rounds: u64 = word.parse()?;
    Ok(rounds)
}

// How bytes are passed: the next word.
fn passing_of(words: &mut env::Args) -> anyhow::Result<Passing> {
    let word = word(words)?;
    let passing = Passing::of_word(word.as_str()).context("shared or copied?")?;
    Ok(passing)
}

// The behavior of each process: the next word.
fn waiter_of(words: &mut env::Args) -> anyhow::Result<Waiter> {
    let word = word(words)?;
    let waiter = Waiter::of_word(word.as_str()).context("yield, accept or read?")?;
    Ok(waiter)
}

// The round of the words, and the number of rounds.
fn round(alloc: Global, way: &str, words: &mut env::Args) -> anyhow::Result<(Round, u32, u64)> {
    let way = Way::of_word(way).context("which way?")?;
    let passing = passing_of(words)?;
    let len = number(words)?;
    let rounds = count_of(words)?;
    let round = Round::new(alloc, way, passing, len)?;
    Ok((round, len, rounds))
}

// Passes bytes.
fn pass(alloc: Global, way: &str, words: &mut env::Args) -> anyhow::Result<()> {
    let (round, len, rounds) = round(alloc, way, words)?;
    let mut system = setup::system(alloc, len)?;
    let passed = round.repeat(&mut system, rounds);
    drop(system);
    Ok(passed?)
}

// Gives turns, and prints whether all were idle each time.
fn give_turns(alloc: Global, words: &mut env::Args) -> anyhow::Result<bool> {
    let waiter = waiter_of(words)?;
    let rounds = count_of(words)?;
    let system = setup::five_domains(alloc)?;
    let mut world = waiting_world(alloc, system, waiter)?;
    let idle = give_rounds(&mut world, rounds);
    drop(world);
    Ok(idle)
}

fn main(rt: HostRuntime) -> anyhow::Result<()> {
    let alloc = rt.alloc();
    let mut words = env::args(&rt)?;
    let _program = words.next();
    for _ in 0..u64::MAX {
        let Some(first) = words.next() else {
            break;
        };
        if first.as_str() == "turns" {
            let idle = give_turns(alloc, &mut words)?;
            println!(rt; "{idle}")?;
        } else {
            pass(alloc, first.as_str(), &mut words)?;
        }
    }
    Ok(())
}
