//! Byte ranges: the part of a file that a field requests, and the part that is sent.
ghost use Rattle.std.specs.Prelude.{◌≡◌, ◌≤◌, length, true};
ghost use Rattle.std.specs.List.{list_all, position};
ghost use Rattle.std.specs.Char.{is_ascii_digit};
ghost use Rattle.flash_http.specs.Range as spec;

use crate::requests::Part;
use std::str;

/// The maximum number of digits of a number in a Range field.
pub const MAX_DIGITS: usize = 15;

/// The part of a file that is sent (RFC 9110, section 14.1.2). Positions count from 0.
#[derive(Clone, Copy, Debug, PartialEq, Eq)]
pub enum Selection {
    /// The whole file, with status 200.
    Whole,
    /// The bytes from position `first` to position `last`, inclusive, with status 206.
    Bytes { first: u64, last: u64 },
    /// The file has none of the requested bytes: status 416.
    Unsatisfiable,
}

fn all_digits(text: &[u8]) -> bool
    ensures { result ≡ list_all is_ascii_digit text.now }
{
    text.iter().all(|b| b.is_ascii_digit())
}

fn parse_digits(digits: &str) -> Option<u64>
    requires digits { list_all is_ascii_digit digits.now ≡ true }
    requires short { length digits.now ≤ MAX_DIGITS }
    ensures { result ≡ spec.number digits.now }
{
    digits.parse().ok()
}

// The number that the digits represent.
fn number_of(digits: &[u8]) -> Option<u64>
    ensures { result ≡ spec.number digits.now }
{
    if digits.len() > MAX_DIGITS || !all_digits(digits) {
        return None;
    }
    match str::from_utf8(digits) {
        Ok(text) => parse_digits(text),
        Err(_) => None,
    }
}

// The part given by the texts before and after the hyphen.
fn part_between(first: &[u8], last: &[u8]) -> Option<Part>
    ensures { result ≡ spec.part_between first.now last.now }
{
    if first.is_empty() {
        let n = number_of(last)?;
        return Some(Part::Final { n });
    }
    let start = number_of(first)?;
    if last.is_empty() {
        return Some(Part::From {
            first: start,
            last: None,
        });
    }
    let end = number_of(last)?;
    if start <= end {
        Some(Part::From {
            first: start,
            last: Some(end),
        })
    } else {
        None
    }
}

fn hyphen_in(range: &[u8]) -> Option<usize>
    ensures { result ≡ position spec.is_hyphen range.now }
{
    range.iter().position(|b| *b == b'-')
}

// The part that one range specifies.
fn part_in(range: &[u8]) -> Option<Part>
    ensures { result ≡ spec.part_in range.now }
{
    let hyphen = hyphen_in(range)?;
    part_between(&range[..hyphen], &range[hyphen + 1..])
}

// The part that the value of a Range field requests.
pub(crate) fn part_of_value(value: &[u8]) -> Option<Part>
    ensures { result ≡ spec.part_of_value value.now }
{
    part_in(value.strip_prefix(b"bytes=".as_slice())?)
}

fn bytes_between(first: u64, last: u64, len: u64) -> Selection
    requires { first ≤ last }
    ensures selection { result ≡ spec.bytes_between first last len }
    ensures within { spec.LiesWithin len result }
{
    if first >= len {
        return Selection::Unsatisfiable;
    }
    Selection::Bytes {
        first,
        last: last.min(len - 1),
    }
}

/// The part of a file of `len` bytes that is sent for a request of `part`.
///
/// It is the whole file if the file is empty, or if the part ends before it begins.
pub fn select(part: Option<Part>, len: u64) -> Selection
    ensures selection { result ≡ spec.selected part len }
    ensures within { spec.LiesWithin len result }
{
    if len == 0 {
        return Selection::Whole;
    }
    match part {
        None => Selection::Whole,
        Some(Part::From { first, last: None }) => bytes_between(first, u64::MAX, len),
        Some(
            Part::From {
                first,
                last: Some(last),
            },
        ) if last < first => Selection::Whole,
        Some(
            Part::From {
                first,
                last: Some(last),
            },
        ) => bytes_between(first, last, len),
        Some(Part::Final { n: 0 }) => Selection::Unsatisfiable,
        Some(Part::Final { n }) => Selection::Bytes {
            first: len - n.min(len),
            last: len - 1,
        },
    }
}

/// A selected range is within the file and not empty. A law: the function has no effect.
pub fn selections_lie_within()
    ensures { spec.SelectionsLieWithin }
{}
