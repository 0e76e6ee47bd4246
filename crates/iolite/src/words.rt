//! The words of a script's lines: numbers, lists of numbers, and texts. Parsing and checking
//! allocate nothing; only decoding a text and making a list do.
ghost use Rattle.std.specs.Prelude.{◌≡◌, ◌↔◌, ◌≤◌, ◌*◌, IsSome, IfOk, IfSome, length, true};
ghost use Rattle.std.specs.List.{repeat};
ghost use Rattle.iolite.specs.declared.words.TheConstants.{MAX_REPEATED_BYTES};
ghost use Rattle.iolite.specs.Calls.{AreDomains, domains_of, mode_word};
ghost use Rattle.iolite.specs.Reads.{Reads};
ghost use Rattle.iolite.specs.Words.{IsLong, IsShort, rest_of, value, word};
ghost use Rattle.percent_encoding.specs.Percent.{percent_decode as decoded};

use iol_core::descriptors::Mode;
use iol_core::limits::MAX_AGGREGATE_BYTES;
use iol_core::lists::{Bytes, Domains};
use iol_core::numbers::DomainId;
use percent_encoding::percent_decode;
use std::alloc::{AllocError, Global};

/// The maximum number of bytes of a repeated text, and of a file of the store: one more than the
/// limit of an aggregate and of a file, so that a script can test these limits.
pub const MAX_REPEATED_BYTES: u64 = MAX_AGGREGATE_BYTES as u64 + 1;

/// Splits a line at its first space, which is in neither part. Without a space, the whole line is
/// the word.
pub fn split_word(line: &str) -> (&str, &str)
    ensures word { result.0.now ≡ word line.now }
    ensures rest { result.1.now ≡ rest_of line.now }
{
    line.split_once(' ').unwrap_or((line, ""))
}

/// Parses a number of decimal digits only.
pub fn parse_u32(word: &str) -> Option<u32>
    ensures accepts { IsSome result ↔ IsShort word.now }
    ensures value { IfSome result (λ n. n ≡ value word.now) }
{
    if word.as_bytes().first() == Some(&b'+') {
        return None;
    }
    word.parse::<u32>().ok()
}

/// Parses a number of decimal digits only.
pub fn parse_u64(word: &str) -> Option<u64>
    ensures accepts { IsSome result ↔ IsLong word.now }
    ensures value { IfSome result (λ n. n ≡ value word.now) }
{
    if word.as_bytes().first() == Some(&b'+') {
        return None;
    }
    word.parse::<u64>().ok()
}

/// Parses the access mode of a file.
pub fn parse_mode(word: &str) -> Option<Mode>
    ensures { Reads (λ mode. word.now ≡ mode_word mode) result }
{
    match word {
        "read" => Some(Mode::Read),
        "write" => Some(Mode::Write),
        "both" => Some(Mode::Both),
        _ => None,
    }
}

/// Returns whether a word is a list of domain numbers, separated by commas.
pub fn are_domains(word: &str) -> bool
    ensures { result ≡ true ↔ AreDomains word.now }
{
    word.split(',').all(|number| parse_u32(number).is_some())
}

/// Parses a list of domain numbers, separated by commas.
pub fn list_domains(alloc: Global, word: &str) -> Result<Domains, AllocError>
    requires { AreDomains word.now }
    ensures { IfOk result (λ domains. domains ≡ domains_of word.now) }
{
    let mut domains = Vec::new(alloc);
    for number in word.split(',') {
        let Some(number) = parse_u32(number) else {
            unreachable!();
        };
        domains.push(DomainId::new(number))?;
    }
    Ok(Domains::from_vec(domains))
}

/// Decodes a text: `%` and two hexadecimal digits are one byte, every other byte is itself.
pub fn decode_text(alloc: Global, text: &str) -> Result<Bytes, AllocError>
    ensures { IfOk result (λ bytes. bytes ≡ decoded text.now) }
{
    let mut bytes = Vec::new(alloc);
    percent_decode(text.as_bytes()).append_to(&mut bytes)?;
    Ok(Bytes::from_vec(bytes))
}

/// Returns whether a text, repeated `count` times, is within the limit.
pub fn can_repeat(count: u32, text: &str) -> bool
    ensures { result ≡ true ↔ (count * length (decoded text.now) ≤ MAX_REPEATED_BYTES) }
{
    let length = percent_decode(text.as_bytes()).count() as u64;
    length.saturating_mul(u64::from(count)) <= MAX_REPEATED_BYTES
}

/// Decodes a text, repeated `count` times.
pub fn repeat_text(alloc: Global, count: u32, text: &str) -> Result<Bytes, AllocError>
    ensures { IfOk result (λ bytes. bytes ≡ repeat count (decoded text.now)) }
{
    let once = decode_text(alloc, text)?;
    let bytes = once.as_slice().repeat(alloc, count as usize)?;
    Ok(Bytes::from_vec(bytes))
}
