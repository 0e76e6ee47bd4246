//! Executes the events of a script on a system: `scripts/hostile` runs it with each growth of
//! memory refused in turn.
//!
//! `test_retried_events CHUNKS GENERATIONS SUMS FAULT PIECES FILE COUNT TEXT .. NAME BY AGG WITH FROM
//! TO COUNT TEXT AGAIN ..` creates a system over a store in memory. Device call number FAULT
//! fails, if it is not 0. PIECES is the number of the following texts, each of which is appended
//! to a file, whose number counts from 0. Then each nine words are an event: the name of the call
//! or of the external event, the calling domain, or 0, the numbers of two aggregates, two more
//! numbers, and a text. A count before every text is the number of its repetitions; `%` and two
//! hexadecimal digits are one byte. A list of domains is a text of one byte each.
//!
//! A system, an event or a report that runs out of memory is retried, also an event with the AGAIN
//! `fault` after a fault. One empty line is written before the system is created, after its
//! inputs are made. All replies are printed at the end, including those of events that were
//! retried.
#![tactic(auto)]

mod asked;
mod calls;
mod plans;
mod retried;

use asked::Asked;
use iol_core::refusals::Refusal;
use plans::{Plan, asked_of, plan_of};
use retried::{Answer, Retried};
use std::alloc::Global;
use std::io::Write;
use std::{env, io};

// Executes all events, with their replies.
fn carried_out(plan: Plan, asked: &[Asked], answers: &mut Vec<Answer>) -> Result<(), Refusal> {
    let mut system = Retried::of(plan)?;
    for one in asked {
        system.answer(one, answers);
    }
    drop(system);
    Ok(())
}

fn print<W: Write>(answers: &[Answer], output: &mut W) -> io::Result<()> {
    for answer in answers {
        writeln!(output, "{answer:?}")?;
    }
    Ok(())
}

fn run(rt: &HostRuntime, words: &mut env::Args) -> anyhow::Result<()> {
    let alloc = rt.alloc();
    let plan = plan_of(alloc, words)?;
    let asked = asked_of(alloc, words)?;
    let mut answers = Vec::with_capacity(alloc, 4 * asked.len().min(1000))?;
    let mut output = rt.stdout();
    output.write_all(b"\n")?;
    carried_out(plan, &asked, &mut answers)?;
    print(&answers, &mut output)?;
    Ok(())
}

fn main(rt: HostRuntime) -> anyhow::Result<()> {
    let mut words = env::args(&rt)?;
    let _program = words.next();
    run(&rt, &mut words)
}
