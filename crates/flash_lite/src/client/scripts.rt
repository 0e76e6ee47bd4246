//! Finds a script: it is opened, read and closed like any file, but read whole also for HEAD, and
//! its text is buffered until the job is made.
ghost use Rattle.std.specs.Prelude.{◌≡◌, ◌<◌, IfNone, IfOk, IfSome, OnErr, length};
ghost use Rattle.std.specs.List.{concat};
ghost use Rattle.flash_http.specs.MediaType as names;
ghost use Rattle.flash_http.specs.Prelude.{answer};
ghost use Rattle.flash_laws.specs.Client as spec;
ghost use Rattle.flash_lite.specs.Course as course;
ghost use Rattle.flash_lite.specs.ReceivedBytes.{received};

use crate::conn::request_calls::MAX_READ_BYTES;
use flash_cgi::script::{MAX_SCRIPT_BYTES, Script};
use flash_http::Asked;
use flash_laws::phase::{Payload, Phase};
use iol_agg::Parts;
use iol_core::events::{Call, Reply};
use iol_core::numbers::{AggId, Fd};
use std::alloc::{AllocError, Global};

/// The result of a reply for a script.
#[derive(Clone, Copy, Debug, PartialEq, Eq)]
pub(crate) enum Found {
    /// The text is read, and the file is to be closed.
    Text { file: Fd, agg: AggId },

    /// The aggregate of the text is dropped, and the run begins.
    Runs,

    /// The same as for any file.
    AsFile,
}

// Returns whether the name is that of a script.
fn is_script(name: &str) -> bool
    ensures { result ≡ names.is_script name.now }
{
    name.as_bytes().ends_with(".cgi".as_bytes())
}

/// Returns whether a request is for a script, if scripts are run.
pub(crate) fn is_for_script(scripts: bool, asked: &Asked) -> bool
    ensures { result ≡ spec.is_for_script scripts (answer asked.now) }
{
    match asked {
        Asked::Serve(request) => scripts && is_script(&request.name),
        Asked::Refuse {
            status: _,
            head_only: _,
            close: _,
        } => false,
    }
}

// The result of the reply to reading a script.
fn reads(file: Fd, last: &Reply) -> Found
    ensures { result ≡ course.read file last.now }
{
    match last {
        Reply::Agg(agg) => Found::Text { file, agg: *agg },
        _ => Found::AsFile,
    }
}

// Returns whether the reply to dropping the aggregate of a script lets its run begin.
fn runs(last: &Reply, head_only: bool) -> bool
    ensures { result ≡ course.runs last.now head_only }
{
    match last {
        Reply::Done => !head_only,
        _ => false,
    }
}

// The result of the reply to dropping the bytes that are not sent.
fn spares(content: Payload, last: &Reply, head_only: bool) -> Found
    ensures { result ≡ course.spared content last.now head_only }
{
    match content {
        Payload::Script => {
            if runs(last, head_only) {
                Found::Runs
            } else {
                Found::AsFile
            }
        }
        _ => Found::AsFile,
    }
}

/// The result of a reply for a file, if it is a script.
pub(crate) fn reports(script: bool, phase: Phase, last: &Reply, head_only: bool) -> Found
    ensures { result ≡ course.found script phase last.now head_only }
{
    if !script {
        return Found::AsFile;
    }
    match phase {
        Phase::Reading { file } => reads(file, last),
        Phase::DroppingWhole { agg: _, content } => spares(content, last, head_only),
        _ => Found::AsFile,
    }
}

/// The call for a script, given that for a file: a script is read whole.
pub(crate) fn whole(script: bool, phase: Phase, call: Call) -> Call
    ensures { result ≡ course.whole script phase call }
{
    if !script {
        return call;
    }
    match phase {
        Phase::Reading { file } => Call::IolRead {
            fd: file,
            count: MAX_READ_BYTES,
        },
        _ => call,
    }
}

// The bytes of these parts, if they are at most `most`.
fn gather_all(alloc: Global, parts: Parts<'_>, most: usize) -> Result<Option<Vec<u8>>, AllocError>
    ensures long { IfOk result (λ o. IfNone o (most < length (concat parts.entry))) }
    ensures bytes { IfOk result (λ o. IfSome o (λ bytes. bytes.items ≡ concat parts.entry)) }
    ensures wants { OnErr result (0 < length (concat parts.entry)) }
{
    let mut bytes = Vec::new(alloc);
    for part in parts {
        if part.len() > most.saturating_sub(bytes.len()) {
            return Ok(None);
        }
        bytes.extend_from_slice(part)?;
    }
    Ok(Some(bytes))
}

// The bytes that were read, if they are at most the limit.
fn gather(
    alloc: Global,
    parts: Option<Parts<'_>>,
    most: usize,
) -> Result<Option<Vec<u8>>, AllocError>
    ensures long { IfOk result (λ o. IfNone o (most < length (received parts.entry))) }
    ensures bytes { IfOk result (λ o. IfSome o (λ bytes. bytes.items ≡ received parts.entry)) }
    ensures wants { OnErr result (0 < length (received parts.entry)) }
{
    match parts {
        Some(parts) => gather_all(alloc, parts, most),
        None => Ok(Some(Vec::new(alloc))),
    }
}

// Returns whether a text is a script. An empty text is one, without a line.
#[tactic(auto, using(crate::proofs::Responses::Clients::empty_runs))]
fn can_run(alloc: Global, text: &[u8]) -> Result<bool, AllocError>
    ensures runs { IfOk result (λ runs. runs ≡ spec.can_run text.now) }
    ensures wants { OnErr result (0 < length text.now) }
{
    if text.is_empty() {
        return Ok(true);
    }
    let script = Script::read(alloc, text)?;
    Ok(script.is_some())
}

// The text that is buffered: that of a script that will run.
fn buffered_if(alloc: Global, head_only: bool, runs: bool, text: Vec<u8>) -> Vec<u8>
    ensures { result.items ≡ spec.buffered_if head_only runs text.items }
{
    if head_only || !runs {
        Vec::new(alloc)
    } else {
        text
    }
}

/// Returns whether the text that was read is a script, and the text to be buffered. A text that
/// exceeds the limit of a script is not copied, and an empty text needs no memory.
#[tactic(auto, using(crate::proofs::Responses::Clients::long_runs, crate::proofs::Responses::Clients::long_buffered))]
pub(crate) fn received_text(
    alloc: Global,
    head_only: bool,
    parts: Option<Parts<'_>>,
) -> Result<(bool, Vec<u8>), AllocError>
    ensures runs { IfOk result (λ r. r.0 ≡ spec.can_run (received parts.entry)) }
    ensures buffered { IfOk result
        (λ r. r.1.items ≡ course.buffered_script head_only (received parts.entry)) }
    ensures wants { OnErr result (0 < length (received parts.entry)) }
{
    match gather(alloc, parts, MAX_SCRIPT_BYTES)? {
        Some(text) => {
            let runs = can_run(alloc, text.as_slice())?;
            Ok((runs, buffered_if(alloc, head_only, runs, text)))
        }
        None => Ok((false, Vec::new(alloc))),
    }
}
