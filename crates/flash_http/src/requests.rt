//! Interpreted requests.
use http::StatusCode;

/// The part of a file that a request asks for (RFC 9110, section 14.1.2). Positions count from 0.
#[derive(Clone, Copy, Debug, PartialEq, Eq)]
pub enum Part {
    /// The bytes from position `first` to position `last`, inclusive, or to the end.
    From { first: u64, last: Option<u64> },
    /// The last `n` bytes.
    Final { n: u64 },
}

/// A request for a file.
#[derive(Debug, Drop)]
pub struct Request {
    /// Whether the response has no body: the method is HEAD.
    pub head_only: bool,
    /// The file's name: the decoded path without its first slash, or `index.html`. It has no NUL,
    /// and none of its segments is `.` or `..` (`served_requests`). It begins with a slash if the
    /// path begins with two.
    pub name: String,
    /// The undecoded text after the question mark, or no text.
    pub query: String,
    /// Whether the connection stays open after the response.
    pub keep: bool,
    /// The requested part of the file. It is `None` if the head already determines that the whole
    /// file is sent.
    pub range: Option<Part>,
    /// Whether a response of unknown length is sent in chunks: the request is HTTP/1.1.
    pub chunked: bool,
}

/// The answer to a head.
#[derive(Debug, Drop)]
pub enum Asked {
    /// A request for a file.
    Serve(Request),
    /// The response is this status, independently of the files. `head_only` is whether it has no
    /// body, `close` whether the connection closes after it.
    Refuse {
        status: StatusCode,
        head_only: bool,
        close: bool,
    },
}
