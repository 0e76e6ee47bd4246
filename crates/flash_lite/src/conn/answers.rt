//! The bytes of responses that the server makes itself.
ghost use Rattle.std.specs.Prelude.{◌≡◌, ◌++◌, IfOk, OnOk};
ghost use Rattle.flash_http.specs.Prelude.{wanted, answer, head_text};
ghost use Rattle.flash_lite.specs.Texts as texts;
ghost use Rattle.flash_laws.specs.Answers as spec;
ghost use Rattle.flash_laws.specs.Conn as conn;
ghost use Rattle.flash_laws.specs.declared.phase.Payload.TheVariants.{Bare};

use crate::run::texts::script_text;
use flash_http::{Asked, MediaType, Request, ResponseHead, error_body, select};
use flash_laws::phase::Payload;
use http::StatusCode;
use std::alloc::{AllocError, Global};

// The text of a head, as bytes.
fn bytes_of_head(alloc: Global, head: &ResponseHead) -> Result<Vec<u8>, AllocError>
    ensures { IfOk result (λ bytes. bytes.items ≡ head_text head.now) }
{
    let text = head.to_text(alloc)?;
    Ok(text.into_bytes())
}

// The head for a file of `len` bytes.
fn head_for(request: &Request, len: u64) -> ResponseHead
    ensures { result ≡ texts.head_for (wanted request.now) len }
{
    let media_type = MediaType::of_name(&request.name);
    let selection = select(request.range, len);
    ResponseHead::of_file(media_type, selection, len, !request.keep)
}

// The same, as bytes.
#[tactic(auto, using(crate::proofs::Responses::Texts::file_text_is))]
fn file_text(alloc: Global, request: &Request, len: u64) -> Result<Vec<u8>, AllocError>
    ensures { IfOk result (λ bytes. bytes.items ≡ spec.file_text (wanted request.now) len) }
{
    let head = head_for(request, len);
    Ok(bytes_of_head(alloc, &head)?)
}

// Appends the body of a refusal, unless the response has no body.
fn add_body(
    alloc: Global,
    bytes: &mut Vec<u8>,
    status: StatusCode,
    head_only: bool,
) -> Result<(), AllocError>
    ensures { OnOk result
        (bytes.new.items ≡ bytes.old.items ++ texts.refusal_body head_only status) }
{
    if !head_only {
        let body = error_body(alloc, status)?;
        bytes.extend_from_slice(body.as_bytes())?;
    }
    Ok(())
}

// The whole response with the status of a refusal.
#[tactic(auto, using(crate::proofs::Responses::Texts::error_text_is))]
fn error_text(
    alloc: Global,
    status: StatusCode,
    head_only: bool,
    close: bool,
) -> Result<Vec<u8>, AllocError>
    ensures { IfOk result (λ bytes. bytes.items ≡ spec.error_text status head_only close) }
{
    let head = ResponseHead::of_refusal(status, close);
    let mut bytes = bytes_of_head(alloc, &head)?;
    add_body(alloc, &mut bytes, status, head_only)?;
    Ok(bytes)
}

// The whole response for a file without body.
#[tactic(auto, unfolding(flash_laws::specs::Answers::unsatisfiable))]
fn bare_text(alloc: Global, request: &Request, len: u32) -> Result<Vec<u8>, AllocError>
    ensures { IfOk result (λ bytes. bytes.items ≡ texts.text_for (wanted request.now) (Bare len)) }
{
    let mut bytes = file_text(alloc, request, u64::from(len))?;
    let status = StatusCode::RANGE_NOT_SATISFIABLE;
    add_body(alloc, &mut bytes, status, request.head_only)?;
    Ok(bytes)
}

/// The new bytes of the response to a request for a file.
pub(crate) fn served_text(
    alloc: Global,
    request: &Request,
    content: &Payload,
) -> Result<Vec<u8>, AllocError>
    ensures { IfOk result
        (λ bytes. bytes.items ≡ texts.text_for (wanted request.now) content.now) }
{
    match *content {
        Payload::Body {
            agg: _,
            size: _,
            len,
        } => file_text(alloc, request, u64::from(len)),
        Payload::Bare { len } => bare_text(alloc, request, len),
        Payload::Error { status } => error_text(alloc, status, request.head_only, !request.keep),
        Payload::Script => script_text(alloc, request),
    }
}

/// The new bytes of a response: the head, and the body if no aggregate has it.
pub(crate) fn text_of(
    alloc: Global,
    asked: &Asked,
    content: &Payload,
) -> Result<Vec<u8>, AllocError>
    ensures { IfOk result (λ bytes. bytes.items ≡ conn.text_of (answer asked.now) content.now) }
{
    match asked {
        Asked::Serve(request) => served_text(alloc, request, content),
        Asked::Refuse {
            status,
            head_only,
            close,
        } => error_text(alloc, *status, *head_only, *close),
    }
}
