//! The phases after each call that finds the requested file: its stream is read, its file opened,
//! read and closed.
ghost use Rattle.std.specs.Prelude.{◌≡◌};
ghost use Rattle.flash_http.specs.Prelude.{wanted, answer, selected};
ghost use Rattle.flash_laws.specs.Conn as spec;
ghost use Rattle.flash_lite.specs.ReceivedBytes.{received};
ghost use Rattle.flash_lite.specs.Small.{IsSmall};

use crate::received::count;
use flash_http::{Asked, Request, Selection, select};
use flash_laws::phase::{FileResult, Payload, Phase};
use http::StatusCode;
use iol_agg::Parts;
use iol_core::events::Reply;
use iol_core::numbers::{AggId, Fd};
use iol_core::refusals::Refusal;

// The status of a response if opening or reading the file was refused.
fn status_of(refusal: Refusal) -> StatusCode
    ensures { result ≡ spec.status_of refusal }
{
    match refusal {
        Refusal::NoFile => StatusCode::NOT_FOUND,
        Refusal::Denied { pool: _ } => StatusCode::FORBIDDEN,
        Refusal::Fault { file: _ } => StatusCode::INTERNAL_SERVER_ERROR,
        _ => StatusCode::SERVICE_UNAVAILABLE,
    }
}

/// The first phase of a request.
pub(crate) fn begins(asked: &Asked) -> Phase
    ensures begins { result ≡ spec.begins (answer asked.now) }
    ensures small { IsSmall result }
{
    match asked {
        Asked::Serve(_) => Phase::Opening,
        Asked::Refuse {
            status,
            head_only: _,
            close: _,
        } => Phase::MakingHead {
            content: Payload::Error { status: *status },
        },
    }
}

/// After dropping the aggregate of a read of the stream.
pub(crate) fn after_discard(agg: AggId, last: &Reply) -> Phase
    ensures after_reply { result ≡ spec.after_discard agg last.now }
    ensures small { IsSmall result }
{
    match last {
        Reply::Done => Phase::Receiving,
        _ => Phase::DroppingInput { agg },
    }
}

/// After opening the file.
pub(crate) fn after_open(last: &Reply) -> Phase
    ensures after_reply { result ≡ spec.after_open last.now }
    ensures small { IsSmall result }
{
    match last {
        Reply::Fd(file) => Phase::Reading { file: *file },
        Reply::Refused(Refusal::WouldBlock) => Phase::Opening,
        Reply::Refused(refusal) => Phase::MakingHead {
            content: Payload::Error {
                status: status_of(*refusal),
            },
        },
        _ => Phase::Opening,
    }
}

/// After reading the file, or asking for its length.
pub(crate) fn after_read(file: Fd, last: &Reply, parts: Option<Parts<'_>>) -> Phase
    ensures after_reply { result ≡ spec.after_read file last.now (received parts.entry) }
    ensures small { IsSmall result }
{
    let file_result = match last {
        Reply::Agg(agg) => FileResult::File {
            agg: *agg,
            len: count(parts),
        },
        Reply::Count(len) => FileResult::Length { len: *len },
        Reply::Refused(Refusal::WouldBlock) => return Phase::Reading { file },
        Reply::Refused(refusal) => FileResult::Fails {
            status: status_of(*refusal),
        },
        _ => return Phase::Reading { file },
    };
    Phase::ClosingFile { file, file_result }
}

// The phase that sends the selected part of a file that was read.
fn sends_of(request: &Request, agg: AggId, len: u32) -> Phase
    ensures sends { result ≡ spec.sends_of (selected (wanted request.now).range len) agg len }
    ensures small { IsSmall result }
{
    match select(request.range, u64::from(len)) {
        Selection::Whole => Phase::MakingHead {
            content: Payload::Body {
                agg,
                size: len,
                len,
            },
        },
        Selection::Bytes { first, last } => Phase::Slicing {
            agg,
            first: first as u32,
            last: (last + 1) as u32,
            len,
        },
        Selection::Unsatisfiable => Phase::DroppingWhole {
            agg,
            content: Payload::Bare { len },
        },
    }
}

// The body of the response to a request of a script: its output, if it can run.
fn script_payload(runs: bool) -> Payload
    ensures { result ≡ spec.script_payload runs }
{
    if runs {
        Payload::Script
    } else {
        Payload::Error {
            status: StatusCode::INTERNAL_SERVER_ERROR,
        }
    }
}

// The phase after the file is closed.
fn resolved(asked: &Asked, file_result: FileResult) -> Phase
    ensures resolved { result ≡ spec.resolved (answer asked.now) file_result }
    ensures small { IsSmall result }
{
    match file_result {
        FileResult::File { agg, len } => match asked {
            Asked::Serve(request) => sends_of(request, agg, len),
            Asked::Refuse {
                status: _,
                head_only: _,
                close: _,
            } => Phase::MakingHead {
                content: Payload::Body {
                    agg,
                    size: len,
                    len,
                },
            },
        },
        FileResult::Length { len } => Phase::MakingHead {
            content: Payload::Bare { len },
        },
        FileResult::Fails { status } => Phase::MakingHead {
            content: Payload::Error { status },
        },
        FileResult::Text { agg, runs } => Phase::DroppingWhole {
            agg,
            content: script_payload(runs),
        },
    }
}

/// After closing the file.
pub(crate) fn after_close_file(
    asked: &Asked,
    file: Fd,
    file_result: FileResult,
    last: &Reply,
) -> Phase
    ensures after_reply { result
        ≡ spec.after_close_file (answer asked.now) file file_result last.now }
    ensures small { IsSmall result }
{
    match last {
        Reply::Done => resolved(asked, file_result),
        _ => Phase::ClosingFile { file, file_result },
    }
}

/// After cutting the requested part.
pub(crate) fn after_slice(agg: AggId, from: u32, to: u32, len: u32, last: &Reply) -> Phase
    ensures after_reply { result ≡ spec.after_slice agg from to len last.now }
    ensures small { IsSmall result }
{
    match last {
        Reply::Agg(part) => Phase::DroppingWhole {
            agg,
            content: Payload::Body {
                agg: *part,
                size: to.saturating_sub(from),
                len,
            },
        },
        _ => Phase::Slicing {
            agg,
            first: from,
            last: to,
            len,
        },
    }
}

/// After dropping the bytes that are not sent.
pub(crate) fn after_drop_whole(agg: AggId, content: Payload, last: &Reply) -> Phase
    ensures after_reply { result ≡ spec.after_drop_whole agg content last.now }
    ensures small { IsSmall result }
{
    match last {
        Reply::Done => Phase::MakingHead { content },
        _ => Phase::DroppingWhole { agg, content },
    }
}
