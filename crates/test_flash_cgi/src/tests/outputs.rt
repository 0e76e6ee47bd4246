//! The output of scripts.
use super::rows::{OUTPUT, Row, give, held, is_output};
use super::worker_world::{in_worker_world, worker_world};
use flash_cgi::jobs::job_text;
use iol_core::numbers::Fd;
use iol_core::refusals::Refusal;
use std::alloc::Global;
use std::test::Fail;
use test_parts::checks::{lend, pass, pass_all, pass_each};
use test_parts::texts::repeated;
use test_worlds::files::Kept;

// A file for all, and a private file of the guest.
const FILES: [Kept<'static>; 2] = [("f", b"a\nb", false), ("p", b"secret", true)];

// One byte longer than a query that is buffered with texts.
const LONG_QUERY: &str = "xxxxxxxxxxxxxxxxxxxxxxxxxxxxxxxxxxxxxxxxxxxxxxxxxxxxxxxxxxxxxxxxx";

const ROWS: [Row<'static>; 15] = [
    ("emit a\nquery\ncat f", "q=1", b"a\nq=1\na\nb"),
    ("wc f\ncat none\nemit\n", "", b"1 3\n[NoFile]\n\n"),
    ("cat p", "", b"[Denied]\n"),
    ("wc p\ncat f\nwc none", "", b"[Denied]\na\nb[NoFile]\n"),
    ("pause\npause\npause\nemit a", "", b"a\n"),
    ("", "q", b""),
    ("\n\n", "", b""),
    (
        "emit a\nquery\nemit b",
        LONG_QUERY,
        b"a\nxxxxxxxxxxxxxxxxxxxxxxxxxxxxxxxxxxxxxxxxxxxxxxxxxxxxxxxxxxxxxxxxx\nb\n",
    ),
    ("emit  two  ", "", b" two  \n"),
    ("emit \nquery\nquery", "", b"\n\n\n"),
    ("emit a\r\ncat f\r\n", "", b"a\r\n[NoFile]\n"),
    ("emit a\nemit b\npause\nemit c\nemit", "", b"a\nb\nc\n\n"),
    (
        "emit a\nemit\ncat f\nemit b\nemit c\nquery",
        "q",
        b"a\n\na\nbb\nc\nq\n",
    ),
    (
        "cat f\ncat f\nemit\ncat f\nwc f\ncat f",
        "",
        b"a\nba\nb\na\nb1 3\na\nb",
    ),
    (
        "emit x\ncat f\ncat p\ncat none\ncat f\nemit y",
        "",
        b"x\na\nb[Denied]\n[NoFile]\na\nby\n",
    ),
];

#[test]
fn outcomes_of_a_script(rt: HostRuntime) -> Result<(), Fail> {
    pass_all(held(rt.alloc(), &FILES, &ROWS), ROWS.len())
}

// Files of no bytes, of the capacity of a pipe, and of more, which are written in pieces; and the
// last of these between texts.
fn sizes_held<'a>(
    alloc: Global,
    full: &'a [u8],
    more: &'a [u8],
    between: &'a [u8],
) -> Result<usize, Refusal> {
    let files: [Kept<'a>; 3] = [
        ("none", b"", false),
        ("full", full, false),
        ("more", more, false),
    ];
    let counts = b"0 0\n0 65536\n100000 100000\n".as_slice();
    let rows = [
        ("cat none", "", b"".as_slice()),
        ("cat full", "", full),
        ("cat more", "", more),
        ("wc none\nwc full\nwc more", "", counts),
        ("wc none\ncat none\ncat more\nemit b", "", between),
    ];
    held(alloc, &files, &rows)
}

#[test]
fn files_of_several_sizes(rt: HostRuntime) -> Result<(), Fail> {
    let full = vec![in rt.alloc(); b'z'; 65_536]?;
    let more = vec![in rt.alloc(); b'\n'; 100_000]?;
    let mut between = Vec::from_slice(rt.alloc(), b"0 0\n")?;
    between.extend_from_slice(&more)?;
    between.extend_from_slice(b"b\n")?;
    pass_all(sizes_held(rt.alloc(), &full, &more, &between), 5)
}

// Many more texts than the worker's pool has pages: nothing is read before all of them are
// written, and no call is refused for lack of pages.
fn many_texts(alloc: Global) -> Result<bool, Refusal> {
    let script = repeated(alloc, b"emit abc\n", 1500)?;
    let wanted = repeated(alloc, b"abc\n", 1500)?;
    let job = job_text(alloc, Fd::new(OUTPUT), b"", &script)?;
    in_worker_world(alloc, |world| {
        give(world, job) && is_output(world, &wanted) && !world.is_resource_failure()
    })
}

// Lines and their output: a hundred of each are many more pieces than the worker's pool has pages.
const PIECES: [(&[u8], &[u8]); 3] = [
    (b"wc f\n", b"1 3\n"),
    (
        b"cat f\nemit xxxxxxxxxxxxxxxxxxxxxxxxxxxxxxxxxxxxxxxxxxxxxxxxxxxxxxxxxxxx\n",
        b"a\nbxxxxxxxxxxxxxxxxxxxxxxxxxxxxxxxxxxxxxxxxxxxxxxxxxxxxxxxxxxxx\n",
    ),
    (b"cat none\nquery\n", b"[NoFile]\nq\n"),
];

fn small_pieces(alloc: Global, lines: &[u8], output: &[u8]) -> Result<bool, Refusal> {
    let script = repeated(alloc, lines, 100)?;
    let wanted = repeated(alloc, output, 100)?;
    let job = job_text(alloc, Fd::new(OUTPUT), b"q", &script)?;
    lend(worker_world(alloc, &FILES), |world| {
        give(world, job) && is_output(world, &wanted) && !world.is_resource_failure()
    })
}

#[test]
fn small_pieces_share_pages(rt: HostRuntime) -> Result<(), Fail> {
    let alloc = rt.alloc();
    pass_each(
        &PIECES,
        |(lines, output)| small_pieces(alloc, lines, output),
    )
}

#[test]
fn more_texts_than_pages(rt: HostRuntime) -> Result<(), Fail> {
    pass(many_texts(rt.alloc()))
}
