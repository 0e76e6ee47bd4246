//! Measures sums: `bench_sums bytes LEN ROUNDS` sums LEN bytes ROUNDS times, `bench_sums remembered
//! LEN ROUNDS` requests the sum of an aggregate of them ROUNDS times, which is remembered. Both
//! print the sum. `bench/sums` measures them.
#![tactic(auto)]

mod rounds;

use anyhow::{Context, bail};
use iol_agg::Agg;
use iol_core::configuration::Config;
use iol_core::limits::MAX_AGGREGATE_BYTES;
use iol_core::numbers::DomainId;
use iol_hold::Store;
use iol_pool::names::Names;
use iol_sum::SumCache;
use rounds::{sum_often, sum_remembered_often};
use std::alloc::Global;
use std::env;
use test_parts::texts::bytes_of;

// The sum of an aggregate of these bytes, requested repeatedly.
fn remembered(alloc: Global, text: &[u8], rounds: u64) -> anyhow::Result<u16> {
    let config = Config {
        chunks: 256,
        gen_limit: 1,
        sums: 1_024,
    };
    let mut store = Store::new(alloc, config)?;
    let names = Names::of(&[DomainId::new(1)]).context("a domain")?;
    let pool = store.create_pool(alloc, config.chunks, names)?;
    if text.len() > MAX_AGGREGATE_BYTES || store.pools().is_closed(pool) {
        bail!("too many bytes");
    }
    let agg = Agg::fill(alloc, &mut store, pool, text)?;
    let mut sums = SumCache::new(alloc, config.sums)?;
    Ok(sum_remembered_often(&mut sums, &store, &agg, rounds))
}

fn main(rt: HostRuntime) -> anyhow::Result<()> {
    let alloc = rt.alloc();
    let mut words = env::args(&rt)?;
    let _program = words.next();
    let what = words.next().context("bytes or remembered?")?;
    let len: usize = words.next().context("how many bytes?")?.parse()?;
    let rounds: u64 = words.next().context("how often?")?.parse()?;
    let text = bytes_of(alloc, len)?;
    let sum = match what.as_str() {
        "bytes" => sum_often(&text, rounds),
        "remembered" => remembered(alloc, &text, rounds)?,
        _ => bail!("bytes or remembered?"),
    };
    println!(rt; "{sum:04x}")?;
    Ok(())
}
