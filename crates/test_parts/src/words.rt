//! The words of a program's command line.
use anyhow::Context;
use std::env;

/// The next word.
pub fn word(words: &mut env::Args) -> anyhow::Result<String> {
    let word = words.next().context("a word is missing")?;
    Ok(word)
}

/// The next number.
pub fn number(words: &mut env::Args) -> anyhow::Result<u32> {
    let number: u32 = word(words)?.parse()?;
    Ok(number)
}
