//! HTTP/1.1 heads: finding the next head of a stream, interpreting it, and writing the heads of
//! responses.
//!
//! `window` and `window_of` find the next head, however the stream is divided. A window that was
//! found does not change when more bytes arrive (`window_stays`), and is within the stream
//! (`window_fits`). `read_head` interprets a head by RFC 9110, RFC 9112 and the profile of
//! docs/HTTP.md. A head has exactly one answer (`one_answer`), and the name of a served file has
//! no dot segment (`served_requests`). `select` gives the part of a file that is sent, which is
//! always within the file (`selections_lie_within`). `ResponseHead` writes the head of a response,
//! `error_body` the body of a refusal, `chunk_head` the line before a chunk. All functions map
//! bytes to text: none blocks or does input or output. If memory is refused, the call can be
//! retried.
//!
//!     let Window::Head { skip, len } = window_of(stream) else { .. };
//!     let asked = read_head(alloc, &stream[skip..skip + len])?;
#![tactic(auto)]

mod chunks;
mod fields;
mod heads;
mod methods;
mod names;
mod ranges;
mod requests;
mod responses;
mod scan;
mod targets;
mod windows;

pub use chunks::{CHUNK_END, LAST_CHUNK, chunk_head};
pub use heads::{MAX_FIELDS, one_answer, read_head, served_requests};
pub use names::MediaType;
pub use ranges::{Selection, select, selections_lie_within};
pub use requests::{Asked, Part, Request};
pub use responses::{ContentRange, Framing, ResponseHead, error_body};
pub use scan::{window, window_fits, window_of, window_stays};
pub use windows::{MAX_HEAD_BYTES, Window};
