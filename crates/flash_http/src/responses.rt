//! The heads of responses, and the bodies of refusals.
ghost use Rattle.std.specs.Prelude.{◌≡◌, IfOk, codes, length, string_bytes, unwrap_or};
ghost use Rattle.http.specs.StatusCode.{reason_phrase};
ghost use Rattle.flash_http.specs.Range.{LiesWithin};
ghost use Rattle.flash_http.specs.Response as spec;

use crate::names::MediaType;
use crate::ranges::Selection;
use http::StatusCode;
use std::alloc::{AllocError, Global};
use std::fmt;

// The initial capacity of the text of a head. Most heads have fewer bytes, so that it does not grow.
const HEAD_ROOM: usize = 160;

/// The indication of the end of a response's body (RFC 9112, section 6.3).
#[derive(Clone, Copy, Debug, PartialEq, Eq)]
pub enum Framing {
    /// Its length in bytes.
    Length(u64),
    /// The last chunk.
    Chunked,
    /// The close of the connection.
    UntilClose,
}

/// The bytes of a file in a response (RFC 9110, section 14.4). Positions count from 0.
#[derive(Clone, Copy, Debug, PartialEq, Eq)]
pub enum ContentRange {
    /// Those from position `first` to position `last`, inclusive, of a file of `len` bytes.
    Bytes { first: u64, last: u64, len: u64 },
    /// None: the file has `len` bytes, and none of the requested ones.
    Unsatisfied { len: u64 },
}

/// The head of a response.
#[derive(Clone, Copy, Debug, PartialEq, Eq)]
pub struct ResponseHead {
    /// The status, written with its phrase, and for 405 with the allowed methods.
    pub status: StatusCode,
    pub media_type: MediaType,
    pub framing: Framing,
    /// The bytes of a file in the body (206), or that the file has none of the requested ones
    /// (416).
    pub range: Option<ContentRange>,
    /// Whether the connection closes after the response.
    pub close: bool,
}

#[derive(Clone, Copy)]
struct FramingLine(Framing);

impl fmt::Display for FramingLine {
    ghost use Rattle.std.specs.Prelude.{Some};
    ghost use Rattle.flash_http.specs.Response.{framing_line};

    ghost output = { λ line. Some (framing_line line.0) };

    fn fmt<W: fmt::Write>(&self, f: &mut fmt::Formatter<W>) -> fmt::Result {
        match self.0 {
            Framing::Length(len) => write!(f, "Content-Length: {len}\r\n"),
            Framing::Chunked => f.write_str("Transfer-Encoding: chunked\r\n"),
            Framing::UntilClose => Ok(()),
        }
    }
}

#[derive(Clone, Copy)]
struct RangeLine(Option<ContentRange>);

impl fmt::Display for RangeLine {
    ghost use Rattle.std.specs.Prelude.{Some};
    ghost use Rattle.flash_http.specs.Response.{range_line};

    ghost output = { λ line. Some (range_line line.0) };

    fn fmt<W: fmt::Write>(&self, f: &mut fmt::Formatter<W>) -> fmt::Result {
        match self.0 {
            Some(ContentRange::Bytes { first, last, len }) => {
                write!(f, "Content-Range: bytes {first}-{last}/{len}\r\n")
            }
            Some(ContentRange::Unsatisfied { len }) => {
                write!(f, "Content-Range: bytes */{len}\r\n")
            }
            None => Ok(()),
        }
    }
}

#[tactic(auto, unfolding(crate::specs::Response::allow_line))]
fn allow_line(status: StatusCode) -> &'static str
    ensures { result.now ≡ spec.allow_line status }
{
    if status == StatusCode::METHOD_NOT_ALLOWED {
        "Allow: GET, HEAD\r\n"
    } else {
        ""
    }
}

#[tactic(auto, unfolding(crate::specs::Response::connection_line))]
fn connection_line(close: bool) -> &'static str
    ensures { result.now ≡ spec.connection_line close }
{
    if close { "Connection: close\r\n" } else { "" }
}

// The phrase that is written after a status code.
fn phrase_of(status: StatusCode) -> &'static str
    ensures { result.now ≡ unwrap_or (reason_phrase status) (codes "<unknown status code>") }
{
    status.canonical_reason().unwrap_or("<unknown status code>")
}

// The length of a refusal's body: the code, a space, the phrase and a line feed.
#[tactic(auto, using(crate::proofs::StatusTexts::error_body_len))]
fn error_len(status: StatusCode) -> u64
    ensures { result ≡ length (spec.error_body status) }
{
    // The proof needs this call: it shows that the code has three digits.
    let _code = status.as_u16();
    (status.as_str().len() + phrase_of(status).len() + 2) as u64
}

/// The body of a refusal: the code and the phrase of its status, and a line feed.
pub fn error_body(alloc: Global, status: StatusCode) -> Result<String, AllocError>
    ensures { IfOk result (λ text. string_bytes text ≡ spec.error_body status) }
{
    format!(in alloc; "{status}\n")
}

impl ResponseHead {
    /// The head of a refusal, whose body is its `error_body`.
    pub fn of_refusal(status: StatusCode, close: bool) -> ResponseHead
        ensures { result ≡ spec.refusal_head status close }
    {
        ResponseHead {
            status,
            media_type: MediaType::PlainText,
            framing: Framing::Length(error_len(status)),
            range: None,
            close,
        }
    }

    /// The head for the selected part of a file of `len` bytes. If nothing is selected, the body
    /// is the `error_body` of 416.
    pub fn of_file(
        media_type: MediaType,
        selection: Selection,
        len: u64,
        close: bool,
    ) -> ResponseHead
        requires { LiesWithin len selection }
        ensures { result ≡ spec.file_head media_type selection len close }
    {
        let (status, body_len, range) = match selection {
            Selection::Whole => (StatusCode::OK, len, None),
            Selection::Bytes { first, last } => (
                StatusCode::PARTIAL_CONTENT,
                last - first + 1,
                Some(ContentRange::Bytes { first, last, len }),
            ),
            Selection::Unsatisfiable => {
                return ResponseHead {
                    range: Some(ContentRange::Unsatisfied { len }),
                    ..ResponseHead::of_refusal(StatusCode::RANGE_NOT_SATISFIABLE, close)
                };
            }
        };
        ResponseHead {
            status,
            media_type,
            framing: Framing::Length(body_len),
            range,
            close,
        }
    }

    /// The head for the output of a script, sent in chunks, or up to the close of the connection:
    /// then the head announces the close.
    pub fn of_script(chunked: bool, close: bool) -> ResponseHead
        ensures { result ≡ spec.script_head chunked close }
    {
        ResponseHead {
            status: StatusCode::OK,
            media_type: MediaType::PlainText,
            framing: if chunked {
                Framing::Chunked
            } else {
                Framing::UntilClose
            },
            range: None,
            close: close || !chunked,
        }
    }

    /// The text of the head, including the empty line at its end. If memory is refused, the call
    /// can be retried.
    pub fn to_text(&self, alloc: Global) -> Result<String, AllocError>
        ensures { IfOk result (λ text. string_bytes text ≡ spec.head_text self.now) }
    {
        let status = self.status;
        let media_type = self.media_type.as_str();
        let framing = FramingLine(self.framing);
        let range = RangeLine(self.range);
        let allow = allow_line(self.status);
        let connection = connection_line(self.close);
        let mut text = String::with_capacity(alloc, HEAD_ROOM)?;
        write!(
            text,
            "HTTP/1.1 {status}\r\nContent-Type: {media_type}\r\n{framing}{range}{allow}{connection}\r\n"
        )?;
        Ok(text)
    }
}
