//! Ranges of a file: the responses to a Range field.
use super::answers::pass_answers;
use std::test::Fail;

// The response with all six bytes of a file.
const ALL: &str =
    "HTTP/1.1 200 OK\r\nContent-Type: application/octet-stream\r\nContent-Length: 6\r\n\r\n";

// The response if the file has none of the bytes of a range.
const NONE: &str = "HTTP/1.1 416 Range Not Satisfiable\r\nContent-Type: text/plain\r\n\
    Content-Length: 26\r\nContent-Range: bytes */6\r\n\r\n";

// A request of a file with this Range field.
macro_rules! get {
    ($range:literal) => {
        concat!("GET /f HTTP/1.1\r\nHost: a\r\nRange: ", $range, "\r\n\r\n")
    };
}

// The response with these bytes, a range of six.
macro_rules! part {
    ($len:literal, $bytes:literal) => {
        concat!(
            "HTTP/1.1 206 Partial Content\r\nContent-Type: application/octet-stream\r\nContent-Length: ",
            $len,
            "\r\nContent-Range: bytes ",
            $bytes,
            "/6\r\n\r\n"
        )
    };
}

// Requests of a file of six bytes with these fields, and their responses: with none of the bytes,
// with some, and with all if the range is ignored.
const RANGES: [(&str, &str); 19] = [
    (get!("bytes=9-"), NONE),
    (get!("bytes=-0"), NONE),
    (get!("bytes=6-"), NONE),
    (get!("bytes=-2"), part!(2, "4-5")),
    (get!("bytes=4-99"), part!(2, "4-5")),
    (get!("bytes=0-0"), part!(1, "0-0")),
    (get!("bytes=-9"), part!(6, "0-5")),
    (get!("bytes=5-"), part!(1, "5-5")),
    (get!("bytes=000000000000001-1"), part!(1, "1-1")),
    (get!("bytes=2-1"), ALL),
    (get!("bytes=0-1,3-4"), ALL),
    (get!("Bytes=0-1"), ALL),
    (get!("bytes= 0-1"), ALL),
    (get!("bytes=-"), ALL),
    (get!("bytes=0--1"), ALL),
    (get!("bytes=+0-1"), ALL),
    (get!("bytes=0000000000000001-1"), ALL),
    (get!("bytes=0-1\r\nRange: bytes=0-1"), ALL),
    (get!("bytes=0-1\r\nIf-Range: \"a\""), ALL),
];

// For an empty file.
const OF_NONE: [(&str, &str); 1] = [(
    get!("bytes=0-0"),
    "HTTP/1.1 200 OK\r\nContent-Type: application/octet-stream\r\nContent-Length: 0\r\n\r\n",
)];

#[test]
fn table_of_ranges(rt: HostRuntime) -> Result<(), Fail> {
    pass_answers(rt.alloc(), &RANGES, 6)?;
    pass_answers(rt.alloc(), &OF_NONE, 0)
}

// The same for other versions and methods.
const WHOLE: [(&str, &str); 3] = [
    (get!("bytes=4-99"), part!(2, "4-5")),
    (
        "GET /f HTTP/1.0\r\nRange: bytes=9-\r\n\r\n",
        "HTTP/1.1 416 Range Not Satisfiable\r\nContent-Type: text/plain\r\nContent-Length: 26\r\n\
            Content-Range: bytes */6\r\nConnection: close\r\n\r\n",
    ),
    (
        "HEAD /f HTTP/1.1\r\nHost: a\r\nRange: bytes=0-1\r\n\r\n",
        "HTTP/1.1 200 OK\r\nContent-Type: application/octet-stream\r\nContent-Length: 6\r\n\r\n",
    ),
];

#[test]
fn whole_answers(rt: HostRuntime) -> Result<(), Fail> {
    pass_answers(rt.alloc(), &WHOLE, 6)
}
