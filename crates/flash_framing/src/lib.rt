//! The ends of requests and responses of HTTP/1.1, for a service of the event loop.
//!
//! A [`Service`](iol_reactor::service::Service) whose processes serve HTTP/1.1 implements `frame`
//! by [`frame_of`] and `progress` by [`progress_of`].
#![tactic(auto)]

ghost use Rattle.std.specs.Prelude.{◌≡◌, IfOk, OnErr};
ghost use Rattle.flash_http.specs.Request as http;
ghost use Rattle.flash_http.specs.Prelude.{window_in};
ghost use Rattle.flash_laws.specs.Prelude.{keeps};
ghost use Rattle.flash_framing.specs.Framing.{Framed, LooksAtFirst};
ghost use Rattle.flash_framing.specs.Progress as spec;

use flash_http::{Asked, MAX_HEAD_BYTES, Window, read_head, window_of};
use flash_log::heads::{content_length, has_line, head_length, request_line};
use iol_reactor::service::{Exchange, Frame, Progress};
use std::alloc::{AllocError, Global};

/// The first request of these bytes: its head, with the empty lines before it. A request with
/// content is refused, so no request has content.
pub fn frame_of(alloc: Global, bytes: &[u8]) -> Result<Frame, AllocError>
    ensures frame { IfOk result (λ frame. Framed bytes.now frame) }
    ensures memory { OnErr result (LooksAtFirst (window_in bytes.now) bytes.now) }
{
    match window_of(bytes) {
        Window::Head { skip, len } => {
            let asked = read_head(alloc, &bytes[skip..skip + len])?;
            let size = skip + len;
            if stays_open(&asked) {
                Ok(Frame::Complete(size))
            } else {
                Ok(Frame::Last(size))
            }
        }
        Window::TooLarge => Ok(Frame::Last(MAX_HEAD_BYTES)),
        Window::Wait => Ok(Frame::Incomplete),
    }
}

// Whether the connection stays open after the response.
fn stays_open(asked: &Asked) -> bool
    ensures { result ≡ keeps (http.answer asked.now) }
{
    match asked {
        Asked::Serve(request) => request.keep,
        Asked::Refuse { close, .. } => !*close,
    }
}

/// The progress of a response, by its head and its last bytes.
pub fn progress_of(exchange: &Exchange<'_>) -> Progress
    ensures { result ≡ spec.progress_of exchange.now }
{
    let Some(length) = head_length(exchange.head) else {
        return Progress::Unknown;
    };
    let head = &exchange.head[..length];
    if has_line(head, b"Connection: close") {
        return Progress::Last;
    }
    if !asks_head(exchange.request) && !is_whole(head, exchange) {
        return Progress::Unknown;
    }
    Progress::Complete
}

// Whether the method is HEAD.
fn asks_head(request: &[u8]) -> bool
    ensures { result ≡ spec.asks_head request.now }
{
    request_line(request).starts_with(b"HEAD ".as_slice())
}

// Whether the body of a response with this head is whole.
fn is_whole(head: &[u8], exchange: &Exchange<'_>) -> bool
    ensures { result ≡ spec.is_whole head.now exchange.now }
{
    match content_length(head) {
        Some(count) => u128::from(count) + head.len() as u128 <= u128::from(exchange.produced),
        None => ends_chunks(head, exchange.tail),
    }
}

// Whether the body ends with its last chunk.
fn ends_chunks(head: &[u8], tail: &[u8]) -> bool
    ensures { result ≡ spec.ends_chunks head.now tail.now }
{
    tail.ends_with(b"\r\n0\r\n\r\n".as_slice()) && has_line(head, b"Transfer-Encoding: chunked")
}
