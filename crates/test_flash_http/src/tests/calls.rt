//! Each call that needs memory succeeds if there is enough.
use flash_http::{Asked, ResponseHead, chunk_head, error_body, read_head};
use http::StatusCode;
use std::alloc::{AllocError, Global};
use std::test::Fail;
use test_parts::checks::{pass, pass_each};

// A target in each form, and the name and the query of the request.
const TARGETS: [(&str, &str, &str); 3] = [
    ("GET /b%20c?d HTTP/1.1\r\nHost: a\r\n\r\n", "b c", "d"),
    (
        "GET http://a.example/b%20c?d HTTP/1.1\r\nHost: a\r\n\r\n",
        "b c",
        "d",
    ),
    (
        "GET HTTPS://a.example:8080 HTTP/1.1\r\nHost: a\r\n\r\n",
        "index.html",
        "",
    ),
];

fn is_read(alloc: Global, row: &(&str, &str, &str)) -> Result<bool, AllocError> {
    let (head, name, query) = *row;
    match read_head(alloc, head.as_bytes())? {
        Asked::Serve(request) => {
            Ok(request.name.as_str() == name && request.query.as_str() == query)
        }
        Asked::Refuse { .. } => Ok(false),
    }
}

fn are_written(alloc: Global) -> Result<bool, AllocError> {
    let size = chunk_head(alloc, 4096)?;
    let head = ResponseHead::of_refusal(StatusCode::NOT_FOUND, false).to_text(alloc)?;
    let body = error_body(alloc, StatusCode::NOT_FOUND)?;
    let is_head = head.as_str()
        == "HTTP/1.1 404 Not Found\r\nContent-Type: text/plain\r\nContent-Length: 14\r\n\r\n";
    Ok(size.as_str() == "1000\r\n" && is_head && body.as_str() == "404 Not Found\n")
}

#[test]
fn ample(rt: HostRuntime) -> Result<(), Fail> {
    let alloc = rt.alloc();
    pass_each(&TARGETS, |row| is_read(alloc, row))?;
    pass(are_written(alloc))
}
