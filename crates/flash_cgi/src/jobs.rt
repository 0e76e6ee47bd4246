//! Jobs of workers.
ghost use Rattle.std.specs.Prelude.{◌≡◌, ◌==◌, ◌≤◌, IfNone, IfOk, IfSome, Some, None, length, true};
ghost use Rattle.std.specs.List.{list_all, position};
ghost use Rattle.std.specs.Char.{is_ascii_digit};
ghost use Rattle.flash_cgi.specs.Job as spec;

use crate::script::Script;
use iol_core::lists::Bytes;
use iol_core::numbers::Fd;
use std::alloc::{AllocError, Global};
use std::marker::Model;
use std::str;

/// The maximum number of digits of a number in a job.
pub const MAX_DIGITS: usize = 9;

/// A script to be run for a request: the descriptor of its output, the query, and its lines.
#[derive(Debug, Drop)]
pub struct Job {
    pub(crate) fd: Fd,
    pub(crate) query: Vec<u8>,
    pub(crate) script: Script,
}

impl Model for Job {
    ghost use Rattle.flash_cgi.specs.Job.{Task};

    ghost Value = { Task };

    ghost view = { λ j. record { fd = j.fd; query = j.query.items; lines = j.script } };
}

fn all_digits(text: &[u8]) -> bool
    ensures { result ≡ list_all is_ascii_digit text.now }
{
    text.iter().all(|b| b.is_ascii_digit())
}

fn parse_digits(digits: &str) -> Option<u32>
    requires digits { list_all is_ascii_digit digits.now ≡ true }
    requires short { length digits.now ≤ MAX_DIGITS }
    ensures { result ≡ spec.number digits.now }
{
    digits.parse().ok()
}

// The number that the digits represent.
fn number_of(digits: &[u8]) -> Option<u32>
    ensures { result ≡ spec.number digits.now }
{
    if digits.len() > MAX_DIGITS || !all_digits(digits) {
        return None;
    }
    match str::from_utf8(digits) {
        Ok(text) => parse_digits(text),
        Err(_) => None,
    }
}

fn place_of(text: &[u8], byte: u8) -> Option<usize>
    ensures { result ≡ position (λ b. b == byte) text.now }
{
    text.iter().position(|b| *b == byte)
}

// The number before the first byte of this value, and the text after it.
fn number_before(text: &[u8], byte: u8) -> Option<(u32, &[u8])>
    ensures none { IfNone result (spec.number_before byte text.now ≡ None) }
    ensures some { IfSome result (λ r. spec.number_before byte text.now ≡ Some (r.0, r.1.now)) }
{
    let end = place_of(text, byte)?;
    let number = number_of(&text[..end])?;
    Some((number, &text[end + 1..]))
}

// The job of this descriptor and these lengths.
fn job_with(
    alloc: Global,
    fd: u32,
    query: u32,
    script: u32,
    body: &[u8],
) -> Result<Option<Job>, AllocError>
    ensures { IfOk result (λ job. job ≡ spec.job_with fd query script body.now) }
{
    let query = query as usize;
    if query + script as usize != body.len() {
        return Ok(None);
    }
    match Script::read(alloc, &body[query..])? {
        Some(script) => {
            let query = Vec::from_slice(alloc, &body[..query])?;
            Ok(Some(Job {
                fd: Fd::new(fd),
                query,
                script,
            }))
        }
        None => Ok(None),
    }
}

impl Job {
    /// The empty job.
    pub(crate) fn nothing(alloc: Global) -> Job
        ensures { result ≡ spec.no_task }
    {
        let script = Script {
            lines: Vec::new(alloc),
        };
        Job {
            fd: Fd::new(0),
            query: Vec::new(alloc),
            script,
        }
    }

    /// Parses a job, if the text is one.
    pub fn read(alloc: Global, text: &[u8]) -> Result<Option<Job>, AllocError>
        ensures { IfOk result (λ job. job ≡ spec.job_of text.now) }
    {
        let Some((fd, rest)) = number_before(text, b' ') else {
            return Ok(None);
        };
        let Some((query, rest)) = number_before(rest, b' ') else {
            return Ok(None);
        };
        let Some((script, body)) = number_before(rest, b'\n') else {
            return Ok(None);
        };
        job_with(alloc, fd, query, script, body)
    }
}

/// The text of a job for the domain that has this descriptor.
pub fn job_text(alloc: Global, fd: Fd, query: &[u8], script: &[u8]) -> Result<Bytes, AllocError>
    ensures { IfOk result (λ text. text ≡ spec.job_text fd query.now script.now) }
{
    let (queries, scripts) = (query.len(), script.len());
    let head = format!(in alloc; "{fd} {queries} {scripts}\n")?;
    let mut text = Vec::from_slice(alloc, head.as_bytes())?;
    text.extend_from_slice(query)?;
    text.extend_from_slice(script)?;
    Ok(Bytes::from_vec(text))
}
