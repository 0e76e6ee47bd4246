//! With enough memory no call is refused for lack of it. Also, the texts that are scripts.
use flash_cgi::counts::{Counts, Said};
use flash_cgi::jobs::{Job, job_text};
use flash_cgi::script::Script;
use iol_core::numbers::Fd;
use iol_core::refusals::Refusal;
use std::alloc::{AllocError, Global};
use std::test::Fail;
use test_parts::checks::{pass, pass_each};

// Texts, and whether they are scripts.
const TEXTS: [(&[u8], bool); 12] = [
    (b"", true),
    (b"emit\nemit \nemit  a\nquery\npause\ncat f\nwc f", true),
    (b"cat  f\nwc /\xc3\xa4", true),
    (b"jump", false),
    (b"Emit a", false),
    (b" emit a", false),
    (b"emitter", false),
    (b"query ", false),
    (b"cat", false),
    (b"cat ", false),
    (b"wc ", false),
    (b"emit \xff", false),
];

// The number of empty lines, or the length of a file's name, and whether the text is a script.
const LINES: [(usize, bool); 2] = [(32_768, true), (32_769, false)];

const NAMES: [(usize, bool); 2] = [(255, true), (256, false)];

// Returns whether a text is a script or not, as expected.
fn is_read(alloc: Global, text: &[u8], wanted: bool) -> Result<bool, AllocError> {
    let script = Script::read(alloc, text)?;
    Ok(script.is_some() == wanted)
}

#[test]
fn which_texts_are_scripts(rt: HostRuntime) -> Result<(), Fail> {
    let alloc = rt.alloc();
    pass_each(&TEXTS, |(text, wanted)| is_read(alloc, text, *wanted))
}

fn are_read(alloc: Global, count: usize, wanted: bool) -> Result<bool, AllocError> {
    let lines = vec![in alloc; b'\n'; count]?;
    is_read(alloc, &lines, wanted)
}

#[test]
fn as_many_lines_as_may_be(rt: HostRuntime) -> Result<(), Fail> {
    let alloc = rt.alloc();
    pass_each(&LINES, |(count, wanted)| are_read(alloc, *count, *wanted))
}

fn is_named(alloc: Global, count: usize, wanted: bool) -> Result<bool, AllocError> {
    let mut line = Vec::from_slice(alloc, b"cat ")?;
    for _ in 0..count {
        line.push(b'x')?;
    }
    is_read(alloc, &line, wanted)
}

#[test]
fn names_as_long_as_may_be(rt: HostRuntime) -> Result<(), Fail> {
    let alloc = rt.alloc();
    pass_each(&NAMES, |(count, wanted)| is_named(alloc, *count, *wanted))
}

fn writes_job(alloc: Global) -> Result<bool, AllocError> {
    let text = job_text(alloc, Fd::new(7), b"q", b"emit a")?;
    Ok(text.as_slice() == b"7 1 6\nqemit a".as_slice())
}

fn is_job(alloc: Global, text: &[u8]) -> Result<bool, AllocError> {
    let job = Job::read(alloc, text)?;
    Ok(job.is_some())
}

fn says(alloc: Global, said: Said, text: &[u8]) -> Result<bool, AllocError> {
    let said = said.text(alloc)?;
    Ok(said.as_slice() == text)
}

fn all_hold(alloc: Global) -> Result<bool, Refusal> {
    let counts = Counts { lines: 1, bytes: 3 };
    Ok(
        writes_job(alloc)?
            && is_job(alloc, b"7 1 6\nqemit a")?
            && !is_job(alloc, b"7 1 7\nqemit a")?
            && says(alloc, Said::Refused(Refusal::NoFile), b"[NoFile]\n")?
            && says(alloc, Said::Counted(counts), b"1 3\n")?,
    )
}

#[test]
fn ample(rt: HostRuntime) -> Result<(), Fail> {
    pass(all_hold(rt.alloc()))
}
