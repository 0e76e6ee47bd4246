//! Measures requests to the file server: `bench_serving WHAT REQUEST LEN OTHERS ROUNDS ..`
//! executes each of these measurements in turn, each on a site of its own, with one file of LEN
//! bytes. REQUEST is `get`, `head`, `none` (a GET of a file that does not exist), `pair` (two GETs
//! at once) or `script` (a GET of a script that outputs the file), on an open connection in
//! addition to OTHERS idle ones.
//!
//! WHAT is `calls` (prints the number of calls of the server for the request), `answers` (ROUNDS
//! requests, one after another) or `rests` (one request, and then ROUNDS times the number of turns
//! that it took, with nothing to do in them); these two print the number of bytes sent.
//! `bench/serving` measures them.
#![tactic(auto)]

mod host;
mod requests;

use anyhow::Context;
use host::host_of;
use iol_core::refusals::Refusal;
use requests::{Plan, Request, What, measure};
use std::alloc::Global;
use std::env;
use test_parts::texts::bytes_of;
use test_parts::words::{number, word};

// Executes a measurement on a new site, with a file of these bytes.
fn measured(alloc: Global, bytes: &[u8], plan: &Plan) -> Result<Option<u64>, Refusal> {
    let mut host = host_of(alloc, bytes, plan.request.is_for_script())?;
    let count = measure(&mut host, plan);
    drop(host);
    Ok(count)
}

// Executes the measurement that the words name.
fn carry_out(alloc: Global, what: &str, words: &mut env::Args) -> anyhow::Result<u64> {
    let what = What::of_word(what).context("calls, answers or rests?")?;
    let request = Request::of_word(word(words)?.as_str()).context("which request?")?;
    let len = number(words)?;
    let others = number(words)?;
    let rounds = number(words)?;
    let bytes = bytes_of(alloc, len as usize)?;
    let plan = Plan {
        what,
        request,
        others,
        rounds,
    };
    let count = measured(alloc, &bytes, &plan)?.context("no connection was made")?;
    Ok(count)
}

fn main(rt: HostRuntime) -> anyhow::Result<()> {
    let alloc = rt.alloc();
    let mut words = env::args(&rt)?;
    let _program = words.next();
    for _ in 0..u64::MAX {
        let Some(first) = words.next() else {
            break;
        };
        let count = carry_out(alloc, first.as_str(), &mut words)?;
        println!(rt; "{count}")?;
    }
    Ok(())
}
