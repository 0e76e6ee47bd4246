//! The answer to a head, in one line: the status of a refusal, or the file with its query,
//! followed by the differences from an HTTP/1.1 GET of the whole file on a connection that stays
//! open. Tables have such a line for each head.
use flash_http::{Asked, Part, Request, Window, read_head, window_of};
use std::alloc::{AllocError, Global};
use std::test::Fail;
use test_parts::checks::pass_each;

/// A head, and its answer.
pub type Row = (&'static str, &'static str);

fn word(is: bool, word: &str) -> &str {
    if is {
        return word;
    }
    ""
}

fn range_words(alloc: Global, range: Option<Part>) -> Result<String, AllocError> {
    match range {
        None => Ok(String::new(alloc)),
        Some(
            Part::From {
                first,
                last: Some(last),
            },
        ) => format!(in alloc; " {first}-{last}"),
        Some(Part::From { first, last: None }) => format!(in alloc; " {first}-"),
        Some(Part::Final { n }) => format!(in alloc; " -{n}"),
    }
}

fn request_words(alloc: Global, request: &Request) -> Result<String, AllocError> {
    let name: &str = &request.name;
    let mark = word(!request.query.is_empty(), "?");
    let query: &str = &request.query;
    let head = word(request.head_only, " head");
    let close = word(!request.keep, " close");
    let version = word(!request.chunked, " 1.0");
    let range = range_words(alloc, request.range)?;
    format!(in alloc; "{name}{mark}{query}{head}{close}{version}{range}")
}

/// The answer to a head, in words.
pub fn outcome_of(alloc: Global, head: &str) -> Result<String, AllocError> {
    match read_head(alloc, head.as_bytes())? {
        Asked::Serve(request) => request_words(alloc, &request),
        Asked::Refuse {
            status,
            head_only,
            close,
        } => {
            let code = status.as_u16();
            let head = word(head_only, " head");
            let close = word(close, " close");
            format!(in alloc; "{code}{head}{close}")
        }
    }
}

/// Returns whether a head has this answer.
pub fn comes_to(alloc: Global, head: &str, outcome: &str) -> Result<bool, AllocError> {
    let found = outcome_of(alloc, head)?;
    Ok(found.as_str() == outcome)
}

// Returns whether a head is the first of its own stream, and whole.
fn is_whole(head: &str) -> bool {
    let len = head.len();
    window_of(head.as_bytes()) == Window::Head { skip: 0, len }
}

/// Passes if each head has the answer in its row.
pub fn pass_outcomes(alloc: Global, rows: &[Row]) -> Result<(), Fail> {
    pass_each(rows, |(head, outcome)| comes_to(alloc, head, outcome))
}

// Returns whether a head is found whole in its stream, and has this answer.
fn is_read(alloc: Global, head: &str, outcome: &str) -> Result<bool, AllocError> {
    Ok(is_whole(head) && comes_to(alloc, head, outcome)?)
}

/// Passes if each head is also found whole in its stream.
pub fn pass_heads(alloc: Global, rows: &[Row]) -> Result<(), Fail> {
    pass_each(rows, |(head, outcome)| is_read(alloc, head, outcome))
}
