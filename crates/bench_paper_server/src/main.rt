//! A server of files in memory, by reference or by copying, that `bench/paper` measures next to other
//! servers. HOW is `shared` (by reference) or `copied`. CHUNKS, of 64 KiB each, have the cached files
//! and all bytes that the server makes.
//!
//! `serve HOW CLIENTS CHUNKS LEN ..` serves files of these lengths by HTTP/1.1, the one with index N
//! at `/N`, at a free port of the loopback interface, which it prints. It ends when CLIENTS clients
//! have come and gone.
//!
//! `ask HOW CHUNKS LEN ROUNDS` requests a file of this length ROUNDS times on one connection, in one
//! process, and prints the number of bytes of all responses.
#![tactic(auto)]

mod ask;
mod passing;
mod request;
mod serve;
mod server;
mod site;

use anyhow::{Context, bail};
use passing::Passing;
use site::Site;
use std::alloc::Global;
use std::env;
use test_parts::words::{number, word};

fn passing_of(words: &mut env::Args) -> anyhow::Result<Passing> {
    let word = word(words)?;
    let passing = Passing::of_word(word.as_str()).context("shared or copied?")?;
    Ok(passing)
}

// All words that are left, which are lengths.
fn lengths_of(alloc: Global, words: &mut env::Args) -> anyhow::Result<Vec<u32>> {
    let mut lengths = Vec::new(alloc);
    for word in words {
        let length: u32 = word.parse()?;
        lengths.push(length)?;
    }
    Ok(lengths)
}

fn serve_all(rt: &HostRuntime, words: &mut env::Args) -> anyhow::Result<()> {
    let passing = passing_of(words)?;
    let clients = number(words)?;
    let chunks = number(words)?;
    let lengths = lengths_of(rt.alloc(), words)?;
    let site = Site {
        passing,
        chunks,
        lengths,
    };
    serve::serve(rt, &site, clients)?;
    Ok(())
}

fn ask_for_one(rt: &HostRuntime, words: &mut env::Args) -> anyhow::Result<()> {
    let alloc = rt.alloc();
    let passing = passing_of(words)?;
    let chunks = number(words)?;
    let lengths = [number(words)?].to_vec(alloc)?;
    let rounds = number(words)?;
    let site = Site {
        passing,
        chunks,
        lengths,
    };
    let sent = ask::ask(alloc, &site, rounds)?;
    println!(rt; "{sent}")?;
    Ok(())
}

fn main(rt: HostRuntime) -> anyhow::Result<()> {
    let mut words = env::args(&rt)?;
    let _program = words.next();
    let first = word(&mut words)?;
    match first.as_str() {
        "serve" => serve_all(&rt, &mut words),
        "ask" => ask_for_one(&rt, &mut words),
        _ => bail!("serve or ask?"),
    }
}
