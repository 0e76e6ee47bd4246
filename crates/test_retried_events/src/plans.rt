//! The inputs that the words define.
ghost use Rattle.iol_back.specs.Prelude.{IsSlot};

use crate::asked::Asked;
use crate::calls::{Numbers, request_of};
use anyhow::Context;
use iol_back::faulty::FaultyBacking;
use iol_back::memory::MemoryBacking;
use iol_back::slots::Slots;
use iol_core::configuration::Config;
use iol_core::numbers::FileId;
use percent_encoding::percent_decode;
use std::alloc::Global;
use std::env;
use test_parts::words::{number, word};

const MOST_EVENTS: u32 = 1000;

/// A store in memory, of which one device call may fail.
pub type Store = FaultyBacking<MemoryBacking>;

/// The inputs of a system, twice: if it runs out of memory, its store is lost.
#[derive(Drop)]
pub struct Plan {
    pub alloc: Global,
    pub config: Config,
    pub first: Store,
    pub second: Store,
}

fn large_number(words: &mut env::Args) -> anyhow::Result<u64> {
    let number: u64 = word(words)?.parse()?;
    Ok(number)
}

// A text, repeated as many times as the count before it.
fn text_of(alloc: Global, words: &mut env::Args) -> anyhow::Result<Vec<u8>> {
    let count = number(words)?;
    let word = word(words)?;
    let mut text = Vec::new(alloc);
    percent_decode(word.as_bytes()).append_to(&mut text)?;
    let bytes = text.repeat(alloc, count as usize)?;
    Ok(bytes)
}

// A text to be appended to a file, whose number counts from 0.
#[derive(Drop)]
struct Piece {
    place: u32,
    text: Vec<u8>,
}

fn pieces_of(alloc: Global, words: &mut env::Args) -> anyhow::Result<Vec<Piece>> {
    let mut pieces = Vec::new(alloc);
    for _ in 0..number(words)? {
        let place = number(words)?;
        let text = text_of(alloc, words)?;
        pieces.push(Piece { place, text })?;
    }
    Ok(pieces)
}

// The slot of the file at an index.
fn slot(place: u32) -> FileId
    ensures { IsSlot result }
{
    FileId::new(place.min(1023) + 1)
}

fn store_of(alloc: Global, pieces: &[Piece], fault: u64) -> anyhow::Result<Store> {
    let mut slots = Slots::new(alloc);
    for piece in pieces {
        slots.append(slot(piece.place), &piece.text)?;
    }
    Ok(FaultyBacking::new(MemoryBacking::new(slots), fault))
}

/// The parameters and the store.
pub fn plan_of(alloc: Global, words: &mut env::Args) -> anyhow::Result<Plan> {
    let config = Config {
        chunks: number(words)?,
        gen_limit: number(words)?,
        sums: number(words)?,
    };
    let fault = large_number(words)?;
    let pieces = pieces_of(alloc, words)?;
    let first = store_of(alloc, &pieces, fault)?;
    let second = store_of(alloc, &pieces, fault)?;
    Ok(Plan {
        alloc,
        config,
        first,
        second,
    })
}

fn numbers_of(words: &mut env::Args) -> anyhow::Result<Numbers> {
    Ok(Numbers {
        agg: large_number(words)?,
        with: large_number(words)?,
        from: number(words)?,
        to: number(words)?,
    })
}

fn one_of(alloc: Global, name: &str, words: &mut env::Args) -> anyhow::Result<Asked> {
    let by = number(words)?;
    let numbers = numbers_of(words)?;
    let text = text_of(alloc, words)?;
    let request = request_of(alloc, name, by, numbers, text)?.context("which event?")?;
    let is_retried_at_a_fault = word(words)?.as_str() == "fault";
    Ok(Asked {
        request,
        is_retried_at_a_fault,
    })
}

/// The events, up to the last word.
pub fn asked_of(alloc: Global, words: &mut env::Args) -> anyhow::Result<Vec<Asked>> {
    let mut asked = Vec::new(alloc);
    for _ in 0..MOST_EVENTS {
        let Some(name) = words.next() else {
            break;
        };
        asked.push(one_of(alloc, name.as_str(), words)?)?;
    }
    Ok(asked)
}
