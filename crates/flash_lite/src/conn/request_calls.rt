//! The calls for a request: to open and read its file, and to make the head of its response.
ghost use Rattle.std.specs.Prelude.{◌≡◌, IfOk};
ghost use Rattle.iol_core.specs.declared.descriptors.Mode.TheVariants as modes;
ghost use Rattle.iol_core.specs.declared.events.Call.TheVariants.{OpenFile, AggMake, AggCut, AggJoin};
ghost use Rattle.flash_http.specs.Prelude.{answer};
ghost use Rattle.flash_laws.specs.Conn as spec;
ghost use Rattle.flash_lite.specs.Small.{first_call, read_call};

use crate::conn::answers::text_of;
use flash_http::Asked;
use flash_laws::phase::Payload;
use iol_core::descriptors::Mode;
use iol_core::events::Call;
use iol_core::lists::Bytes;
use iol_core::numbers::{AggId, Fd};
use std::alloc::{AllocError, Global};

/// The maximum number of bytes of a read: those of the longest file.
pub(crate) const MAX_READ_BYTES: u32 = 16_777_216;

/// Opens the requested file.
pub(crate) fn open_call(alloc: Global, asked: &Asked) -> Result<Call, AllocError>
    ensures { IfOk result (λ call. call ≡ OpenFile (spec.name_of (answer asked.now)) modes.Read) }
{
    let name = match asked {
        Asked::Serve(request) => Vec::from_slice(alloc, request.name.as_bytes())?,
        Asked::Refuse {
            status: _,
            head_only: _,
            close: _,
        } => Vec::new(alloc),
    };
    Ok(Call::OpenFile {
        name: Bytes::from_vec(name),
        mode: Mode::Read,
    })
}

/// Returns whether only the head of the response is requested.
pub(crate) fn is_head_only(asked: &Asked) -> bool
    ensures { result ≡ spec.is_head_only (answer asked.now) }
{
    match asked {
        Asked::Serve(request) => request.head_only,
        Asked::Refuse {
            status: _,
            head_only,
            close: _,
        } => *head_only,
    }
}

/// Reads the file, or asks for its length if only the head is requested.
pub(crate) fn read_call(asked: &Asked, file: Fd) -> Call
    ensures { result ≡ read_call (answer asked.now) file }
{
    if is_head_only(asked) {
        Call::Length { fd: file }
    } else {
        Call::IolRead {
            fd: file,
            count: MAX_READ_BYTES,
        }
    }
}

/// Makes the head, with the body if it is not that of a file.
pub(crate) fn make_call(alloc: Global, asked: &Asked, content: &Payload) -> Result<Call, AllocError>
    ensures { IfOk result
        (λ call. call ≡ AggMake (spec.text_of (answer asked.now) content.now)) }
{
    let text = text_of(alloc, asked, content)?;
    Ok(Call::AggMake {
        bytes: Bytes::from_vec(text),
    })
}

/// Cuts the bytes of an aggregate from one position to another.
pub(crate) fn cut_call(agg: AggId, from: u32, to: u32) -> Call
    ensures { result ≡ AggCut agg from to }
{
    Call::AggCut { agg, from, to }
}

/// Joins two aggregates.
pub(crate) fn join_call(first: AggId, second: AggId) -> Call
    ensures { result ≡ AggJoin first second }
{
    Call::AggJoin { first, second }
}

/// The first call for a request.
pub(crate) fn first_call(alloc: Global, asked: &Asked) -> Result<Call, AllocError>
    ensures { IfOk result (λ call. call ≡ first_call (answer asked.now)) }
{
    match asked {
        Asked::Serve(_) => open_call(alloc, asked),
        Asked::Refuse {
            status,
            head_only: _,
            close: _,
        } => { make_call(alloc, asked, &Payload::Error { status: *status }) }
    }
}
