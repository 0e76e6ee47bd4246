//! Requests of HTTP/1.1, as far as the server reads them.
use iol_core::numbers::AggId;
use iol_proc::look::Look;

/// The beginning of a request, before the index of its file.
const START: &[u8] = b"GET /";

/// The field of the last request on a connection.
const LAST: &[u8] = b"Connection: close";

/// The end of the head of a message.
const END: &[u8] = b"\r\n\r\n";

/// A request for a file.
#[derive(Clone, Copy, Drop)]
pub struct Request {
    /// The index of the file. None: this is no request.
    pub file: Option<u32>,

    /// Whether the connection ends after the response.
    pub is_last: bool,
}

// The index of the first place at which bytes continue with others.
fn position(bytes: &[u8], other: &[u8]) -> Option<usize> {
    for at in 0..bytes.len() {
        if bytes[at..].starts_with(other) {
            return Some(at);
        }
    }
    None
}

/// The length of the head that bytes begin with, if they have all of it.
pub fn head_len(bytes: &[u8]) -> Option<usize> {
    let at = position(bytes, END)?;
    Some(at.saturating_add(END.len()))
}

// The number in decimal digits that bytes begin with.
fn number(bytes: &[u8]) -> Option<u32> {
    let mut number = None;
    for byte in bytes {
        let digit = byte.wrapping_sub(b'0');
        if digit > 9 {
            break;
        }
        let tens = number.unwrap_or(0u32).saturating_mul(10);
        number = Some(tens.saturating_add(u32::from(digit)));
    }
    number
}

// The index of the file that a request names.
fn file_in(bytes: &[u8]) -> Option<u32> {
    if bytes.starts_with(START) {
        number(&bytes[START.len()..])
    } else {
        None
    }
}

impl Request {
    pub fn of_bytes(bytes: &[u8]) -> Request {
        Request {
            file: file_in(bytes),
            is_last: position(bytes, LAST).is_some(),
        }
    }

    // The request continues with these bytes.
    fn add(&mut self, part: &[u8]) {
        let more = Request::of_bytes(part);
        self.file = self.file.or(more.file);
        self.is_last |= more.is_last;
    }

    /// The request in an aggregate.
    pub fn of_aggregate(look: &Look<'_>, agg: AggId) -> Request {
        let mut request = Request {
            file: None,
            is_last: false,
        };
        if let Some(parts) = look.bytes(agg) {
            for part in parts {
                request.add(part);
            }
        }
        request
    }
}
