//! Interprets the head of a request.
ghost use Rattle.std.specs.Prelude.{◌≡◌, ◌≤◌, true, false, Some, None, IfOk, OnErr, length, option_map};
ghost use Rattle.httparse.specs.Spans.{IsRequestWithin, IsRequestOf};
ghost use Rattle.flash_http.specs.Request as spec;
ghost use Rattle.flash_http.specs.Target.{has_fragment};
ghost use Rattle.flash_http.specs.Views.{reading};

use crate::fields::Fields;
use crate::methods::{is_head_only, is_known_method, is_served_method};
use crate::names::is_script;
use crate::ranges::part_of_value;
use crate::requests::{Asked, Part, Request};
use crate::targets::file_of;
use http::StatusCode;
use httparse::Status;
use httparse::spans::{EMPTY_HEADER_SPAN, HeaderSpan, RequestSpans, parse_request};
use std::alloc::{AllocError, Global};

/// The maximum number of fields of a head.
pub const MAX_FIELDS: usize = 64;

// The parts of a head that are interpreted, as ranges in it.
#[derive(Drop)]
pub(crate) struct Parsed<'a> {
    pub(crate) method: &'a [u8],
    pub(crate) target: &'a [u8],
    pub(crate) minor: u8,
    pub(crate) fields: Fields<'a>,
}

fn bad_request(head_only: bool) -> Asked
    ensures { spec.answer result ≡ spec.refuse 400 head_only true }
{
    Asked::Refuse {
        status: StatusCode::BAD_REQUEST,
        head_only,
        close: true,
    }
}

impl Parsed<'_> {
    fn closes(&self) -> bool
        ensures { result ≡ spec.closes (reading self.now) }
    {
        self.minor == 0 || self.fields.asks_to_close()
    }

    fn is_host_fine(&self) -> bool
        ensures { result ≡ spec.is_host_fine (reading self.now) }
    {
        self.minor == 0 || self.fields.has_one_host()
    }

    // The refusal that follows from the fields and the method.
    fn refusal(&self) -> Option<Asked>
        ensures { option_map spec.answer result ≡ spec.refusal (reading self.now) }
    {
        let head_only = is_head_only(self.method);
        if !self.is_host_fine() || self.fields.has_content() {
            return Some(bad_request(head_only));
        }
        if is_served_method(self.method) {
            return None;
        }
        let status = if is_known_method(self.method) {
            StatusCode::METHOD_NOT_ALLOWED
        } else {
            StatusCode::NOT_IMPLEMENTED
        };
        Some(Asked::Refuse {
            status,
            head_only,
            close: self.closes(),
        })
    }

    // The requested part of the file of this name.
    fn range_of(&self, name: &str) -> Option<Part>
        ensures { result ≡ spec.range_of (reading self.now) name.now }
    {
        if is_head_only(self.method) || is_script(name) {
            return None;
        }
        part_of_value(self.fields.range()?)
    }

    fn ask(&self, alloc: Global) -> Result<Asked, AllocError>
        ensures answer { IfOk result
            (λ asked. spec.Asks (Some (reading self.now)) (spec.answer asked)) }
        ensures memory { OnErr result (spec.refusal (reading self.now) ≡ None) }
        ensures fragment { OnErr result (has_fragment self.now.target.now ≡ false) }
    {
        if let Some(refusal) = self.refusal() {
            return Ok(refusal);
        }
        let head_only = is_head_only(self.method);
        let Some(file) = file_of(alloc, self.target)? else {
            return Ok(bad_request(head_only));
        };
        let range = self.range_of(&file.name);
        Ok(Asked::Serve(Request {
            head_only,
            name: file.name,
            query: file.query,
            keep: !self.closes(),
            range,
            chunked: self.minor == 1,
        }))
    }
}

// The parts of a head that was parsed completely.
fn parts_of<'a>(head: &'a [u8], found: RequestSpans, spans: &'a [HeaderSpan]) -> Parsed<'a>
    requires within { IsRequestWithin head.now spans.now found }
    requires complete { IsRequestOf head.now spans.now found }
    requires whole { found.len ≡ length head.now }
    requires room { length spans.now ≤ MAX_FIELDS }
    ensures { spec.Reads head.now (Some (reading result)) }
{
    Parsed {
        method: found.method.of(head),
        target: found.path.of(head),
        minor: found.version,
        fields: Fields::new(head, &spans[..found.headers]),
    }
}

/// Interprets `head`, a whole head from its first line to the empty line at its end.
///
/// It follows RFC 9110, RFC 9112 and RFC 3986, with the profile of docs/HTTP.md. Only the target
/// needs memory, and only if the fields and the method refuse nothing and the target has no `#`.
/// If memory is refused, the call can be retried.
pub fn read_head(alloc: Global, head: &[u8]) -> Result<Asked, AllocError>
    ensures answer { IfOk result (λ asked. spec.IsAnswerTo head.now (spec.answer asked)) }
    ensures memory { OnErr result (spec.LooksAtTarget head.now) }
{
    let mut spans = [EMPTY_HEADER_SPAN; MAX_FIELDS];
    match parse_request(head, &mut spans) {
        Ok(Status::Complete(found)) if found.len == head.len() => {
            parts_of(head, found, &spans).ask(alloc)
        }
        _ => Ok(bad_request(false)),
    }
}

/// A head has exactly one answer. A law: the function has no effect.
pub fn one_answer()
    ensures { spec.OneAnswer }
{}

/// For every head with the answer `Serve`: its name is plain, the connection closes if no chunks
/// may be sent, HEAD has no range, and the query is no longer than the head. A law: the function
/// has no effect.
pub fn served_requests()
    ensures names { spec.NamesArePlain }
    ensures closes { spec.ClosesWithoutChunks }
    ensures ranges { spec.HeadsHaveNoRange }
    ensures queries { spec.QueriesFit }
{}
