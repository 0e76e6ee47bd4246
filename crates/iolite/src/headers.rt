//! The header lines of a script: the parameters of its system, and the store under its files.
ghost use Rattle.std.specs.Prelude.{◌≡◌, ◌↔◌, IsSome, IfSome};
ghost use Rattle.iolite.specs.Setup.{AreSizes, SetsFault, SetsSizes, SetsUp, StoresBytes, StoresRepeated, Takes, is_header, sizes_of};
ghost use Rattle.iolite.specs.Words.{word, rest_of};
ghost use Rattle.iolite.specs.declared.headers.HeaderError.TheVariants.{Memory};
ghost use Rattle.percent_encoding.specs.Percent.{percent_decode as decoded};

use crate::setup::Setup;
use crate::words::{
    MAX_REPEATED_BYTES, can_repeat, decode_text, parse_u32, parse_u64, repeat_text, split_word,
};
use iol_core::configuration::Config;
use iol_core::limits::MAX_FILES;
use iol_core::numbers::FileId;
use std::alloc::{AllocError, Global};

/// The reason for which a header line has no effect.
#[derive(Clone, Copy, Debug, PartialEq, Eq)]
pub enum HeaderError {
    /// The line is not a command, or not valid here.
    NotACommand,

    /// The allocator refused memory.
    Memory,
}

impl From<AllocError> for HeaderError {
    ghost from_gives = { λ _ e. e ≡ Memory };

    fn from(_error: AllocError) -> HeaderError {
        HeaderError::Memory
    }
}

/// Returns whether a line that begins with this word is a header.
pub fn is_header(word: &str) -> bool
    ensures { result ≡ is_header word.now }
{
    matches!(word, "config" | "fault" | "store" | "storen")
}

impl Setup {
    /// Applies a header, by its first word and its arguments. Parameters and a fault may be given
    /// once.
    pub fn add(&mut self, alloc: Global, name: &str, rest: &str) -> Result<(), HeaderError>
        ensures { Takes (SetsUp name.now rest.now self.old) self.new result }
    {
        match name {
            "config" => self.set_sizes(rest),
            "fault" => self.set_fault(rest),
            "store" => self.store_text(alloc, rest),
            "storen" => self.store_repeated(alloc, rest),
            _ => Err(HeaderError::NotACommand),
        }
    }

    // Sets the parameters, if none were given.
    fn set_sizes(&mut self, words: &str) -> Result<(), HeaderError>
        ensures { Takes (SetsSizes words.now self.old) self.new result }
    {
        if self.config.is_some() {
            return Err(HeaderError::NotACommand);
        }
        let Some(config) = parse_sizes(words) else {
            return Err(HeaderError::NotACommand);
        };
        self.config = Some(config);
        Ok(())
    }

    // Sets the number of the store call that fails, unless it was given before.
    fn set_fault(&mut self, word: &str) -> Result<(), HeaderError>
        ensures { Takes (SetsFault word.now self.old) self.new result }
    {
        let Some(call) = parse_u64(word) else {
            return Err(HeaderError::NotACommand);
        };
        if call == 0 || self.fault.is_some() {
            return Err(HeaderError::NotACommand);
        }
        self.fault = Some(call);
        Ok(())
    }

    // Appends a text to a file of the store.
    fn store_text(&mut self, alloc: Global, rest: &str) -> Result<(), HeaderError>
        ensures { Takes (StoresBytes (word rest.now) (decoded (rest_of rest.now)) self.old) self.new
            result }
    {
        let (slot, text) = split_word(rest);
        let bytes = decode_text(alloc, text)?;
        self.store(slot, bytes.as_slice())
    }

    // Appends a text to a file of the store, a number of times.
    fn store_repeated(&mut self, alloc: Global, rest: &str) -> Result<(), HeaderError>
        ensures { Takes (StoresRepeated (word rest.now) (word (rest_of rest.now))
            (rest_of (rest_of rest.now)) self.old) self.new result }
    {
        let (slot, repeated) = split_word(rest);
        let (numeral, text) = split_word(repeated);
        let Some(count) = parse_u32(numeral) else {
            return Err(HeaderError::NotACommand);
        };
        if !can_repeat(count, text) {
            return Err(HeaderError::NotACommand);
        }
        let bytes = repeat_text(alloc, count, text)?;
        self.store(slot, bytes.as_slice())
    }

    // Appends bytes to a file of the store, if the file exists and stays within its limit.
    fn store(&mut self, slot: &str, bytes: &[u8]) -> Result<(), HeaderError>
        ensures { Takes (StoresBytes slot.now bytes.now self.old) self.new result }
    {
        let Some(number) = parse_u32(slot) else {
            return Err(HeaderError::NotACommand);
        };
        if number == 0 || number as usize > MAX_FILES {
            return Err(HeaderError::NotACommand);
        }
        let file = FileId::new(number);
        let stored = self.slots.bytes(file).len() as u64;
        if stored.saturating_add(bytes.len() as u64) > MAX_REPEATED_BYTES {
            return Err(HeaderError::NotACommand);
        }
        self.slots.append(file, bytes)?;
        Ok(())
    }
}

// Parses the parameters of a system: three words, each in its range.
fn parse_sizes(words: &str) -> Option<Config>
    ensures accepts { IsSome result ↔ AreSizes words.now }
    ensures sizes { IfSome result (λ config. config ≡ sizes_of words.now) }
{
    let (chunks, rest) = split_word(words);
    let (gen_limit, sums) = split_word(rest);
    let config = Config {
        chunks: parse_u32(chunks)?,
        gen_limit: parse_u32(gen_limit)?,
        sums: parse_u32(sums)?,
    };
    if config.is_in_range() {
        Some(config)
    } else {
        None
    }
}
