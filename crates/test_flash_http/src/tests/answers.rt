//! Whole responses to requests of a file: their heads, and the bodies of refusals.
use flash_http::{Asked, MediaType, ResponseHead, error_body, read_head, select};
use http::StatusCode;
use std::alloc::{AllocError, Global};
use std::test::Fail;
use test_parts::checks::pass_each;

// The head of the response to a request of a file of `len` bytes, followed by the body if it is a
// refusal.
fn answer_to(alloc: Global, head: &str, len: u64) -> Result<String, AllocError> {
    match read_head(alloc, head.as_bytes())? {
        Asked::Serve(request) => {
            let media_type = MediaType::of_name(&request.name);
            let selection = select(request.range, len);
            ResponseHead::of_file(media_type, selection, len, !request.keep).to_text(alloc)
        }
        Asked::Refuse { status, close, .. } => refusal(alloc, status, close),
    }
}

fn refusal(alloc: Global, status: StatusCode, close: bool) -> Result<String, AllocError> {
    let head = ResponseHead::of_refusal(status, close).to_text(alloc)?;
    let body = error_body(alloc, status)?;
    format!(in alloc; "{head}{body}")
}

// A head, and the response for a file of three bytes: for requests that are served, and for
// refused ones.
const ANSWERS: [(&str, &str); 9] = [
    (
        "GET /index.html HTTP/1.1\r\nHost: 127.0.0.1:8080\r\nUser-Agent: curl/8.5.0\r\nAccept: */*\r\n\r\n",
        "HTTP/1.1 200 OK\r\nContent-Type: text/html\r\nContent-Length: 3\r\n\r\n",
    ),
    (
        "GET / HTTP/1.0\r\n\r\n",
        "HTTP/1.1 200 OK\r\nContent-Type: text/html\r\nContent-Length: 3\r\nConnection: close\r\n\r\n",
    ),
    (
        "GET HTTPS://a.example/style.css HTTP/1.1\r\nHost: a\r\nConnection: close\r\n\r\n",
        "HTTP/1.1 200 OK\r\nContent-Type: text/css\r\nContent-Length: 3\r\nConnection: close\r\n\r\n",
    ),
    (
        "GET http://a HTTP/1.1\r\nHost: a\r\n\r\n",
        "HTTP/1.1 200 OK\r\nContent-Type: text/html\r\nContent-Length: 3\r\n\r\n",
    ),
    (
        "GET /archive.tar HTTP/1.1\r\nHost:\r\n\r\n",
        "HTTP/1.1 200 OK\r\nContent-Type: application/octet-stream\r\nContent-Length: 3\r\n\r\n",
    ),
    (
        "GET / HTTP/1.1\r\n\r\n",
        "HTTP/1.1 400 Bad Request\r\nContent-Type: text/plain\r\nContent-Length: 16\r\n\
            Connection: close\r\n\r\n400 Bad Request\n",
    ),
    (
        "POST / HTTP/1.1\r\nHost: a\r\nContent-Length: 5\r\n\r\n",
        "HTTP/1.1 400 Bad Request\r\nContent-Type: text/plain\r\nContent-Length: 16\r\n\
            Connection: close\r\n\r\n400 Bad Request\n",
    ),
    (
        "POST / HTTP/1.1\r\nHost: a\r\n\r\n",
        "HTTP/1.1 405 Method Not Allowed\r\nContent-Type: text/plain\r\nContent-Length: 23\r\n\
            Allow: GET, HEAD\r\n\r\n405 Method Not Allowed\n",
    ),
    (
        "BREW / HTTP/1.1\r\nHost: a\r\n\r\n",
        "HTTP/1.1 501 Not Implemented\r\nContent-Type: text/plain\r\nContent-Length: 20\r\n\r\n501 Not Implemented\n",
    ),
];

// The statuses of responses that no request causes by itself, and these responses.
const REFUSALS: [(StatusCode, &str); 6] = [
    (
        StatusCode::FORBIDDEN,
        "HTTP/1.1 403 Forbidden\r\nContent-Type: text/plain\r\nContent-Length: 14\r\n\
            Connection: close\r\n\r\n403 Forbidden\n",
    ),
    (
        StatusCode::NOT_FOUND,
        "HTTP/1.1 404 Not Found\r\nContent-Type: text/plain\r\nContent-Length: 14\r\n\
            Connection: close\r\n\r\n404 Not Found\n",
    ),
    (
        StatusCode::RANGE_NOT_SATISFIABLE,
        "HTTP/1.1 416 Range Not Satisfiable\r\nContent-Type: text/plain\r\nContent-Length: 26\r\n\
            Connection: close\r\n\r\n416 Range Not Satisfiable\n",
    ),
    (
        StatusCode::REQUEST_HEADER_FIELDS_TOO_LARGE,
        "HTTP/1.1 431 Request Header Fields Too Large\r\nContent-Type: text/plain\r\nContent-Length: 36\r\n\
            Connection: close\r\n\r\n431 Request Header Fields Too Large\n",
    ),
    (
        StatusCode::INTERNAL_SERVER_ERROR,
        "HTTP/1.1 500 Internal Server Error\r\nContent-Type: text/plain\r\nContent-Length: 26\r\n\
            Connection: close\r\n\r\n500 Internal Server Error\n",
    ),
    (
        StatusCode::SERVICE_UNAVAILABLE,
        "HTTP/1.1 503 Service Unavailable\r\nContent-Type: text/plain\r\nContent-Length: 24\r\n\
            Connection: close\r\n\r\n503 Service Unavailable\n",
    ),
];

// Returns whether this is the response to a request of a file of `len` bytes.
fn is_answered(alloc: Global, head: &str, len: u64, expected: &str) -> Result<bool, AllocError> {
    let answer = answer_to(alloc, head, len)?;
    Ok(answer.as_str() == expected)
}

/// Passes if these heads have these responses, for a file of `len` bytes.
pub fn pass_answers(alloc: Global, rows: &[(&str, &str)], len: u64) -> Result<(), Fail> {
    pass_each(
        rows,
        |(head, expected)| is_answered(alloc, head, len, expected),
    )
}

#[test]
fn answers(rt: HostRuntime) -> Result<(), Fail> {
    pass_answers(rt.alloc(), &ANSWERS, 3)
}

// Returns whether this is the response if a request is refused, and the connection closes.
fn is_refusal(alloc: Global, row: &(StatusCode, &str)) -> Result<bool, AllocError> {
    let (status, expected) = *row;
    let answer = refusal(alloc, status, true)?;
    Ok(answer.as_str() == expected)
}

#[test]
fn refusals(rt: HostRuntime) -> Result<(), Fail> {
    let alloc = rt.alloc();
    pass_each(&REFUSALS, |row| is_refusal(alloc, row))
}
