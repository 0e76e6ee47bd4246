//! Ranges of a file of six bytes.
use super::host::Plan;
use super::rows::{Row, pass_rows};
use std::test::Fail;
use test_worlds::files::Kept;

const FILES: [Kept<'static>; 2] = [("f", b"mnopqr", false), ("empty", b"", false)];

const WHOLE: &str =
    "HTTP/1.1 200 OK\r\nContent-Type: application/octet-stream\r\nContent-Length: 6\r\n\r\nmnopqr";

// The response if the file has none of the bytes of a range.
const NONE: &str =
    "HTTP/1.1 416 Range Not Satisfiable\r\nContent-Type: text/plain\r\nContent-Length: 26\r\n\
    Content-Range: bytes */6\r\n\r\n416 Range Not Satisfiable\n";

// A request of the file with this Range field.
macro_rules! get {
    ($range:literal) => {
        concat!("GET /f HTTP/1.1\r\nHost: a\r\nRange: ", $range, "\r\n\r\n")
    };
}

// The response with a range of its bytes: their positions, and the bytes.
macro_rules! part {
    ($len:literal, $place:literal, $bytes:literal) => {
        concat!(
            "HTTP/1.1 206 Partial Content\r\nContent-Type: application/octet-stream\r\nContent-Length: ",
            $len,
            "\r\nContent-Range: bytes ",
            $place,
            "/6\r\n\r\n",
            $bytes
        )
    };
}

// Requests with none of the bytes, with some, and with all if the range is ignored.
const ROWS: [Row<'static>; 13] = [
    (get!("bytes=9-"), NONE, false),
    (get!("bytes=-0"), NONE, false),
    (get!("bytes=-2"), part!(2, "4-5", "qr"), false),
    (get!("bytes=4-99"), part!(2, "4-5", "qr"), false),
    (get!("bytes=0-0"), part!(1, "0-0", "m"), false),
    (get!("bytes=-9"), part!(6, "0-5", "mnopqr"), false),
    (
        "HEAD /f HTTP/1.1\r\nHost: a\r\nRange: bytes=0-1\r\n\r\n",
        "HTTP/1.1 200 OK\r\nContent-Type: application/octet-stream\r\nContent-Length: 6\r\n\r\n",
        false,
    ),
    (
        "GET /empty HTTP/1.1\r\nHost: a\r\nRange: bytes=0-0\r\n\r\n",
        "HTTP/1.1 200 OK\r\nContent-Type: application/octet-stream\r\nContent-Length: 0\r\n\r\n",
        false,
    ),
    (get!("bytes=2-1"), WHOLE, false),
    (get!("bytes=0-1,3-4"), WHOLE, false),
    (get!("Bytes=0-1"), WHOLE, false),
    (get!("bytes=0-1\r\nRange: bytes=0-1"), WHOLE, false),
    (get!("bytes=0-1\r\nIf-Range: x"), WHOLE, false),
];

#[test]
fn ranges_of_six_bytes(rt: HostRuntime) -> Result<(), Fail> {
    pass_rows(rt.alloc(), &Plan::of(&FILES), &ROWS)
}
