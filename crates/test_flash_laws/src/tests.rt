//! A site with a script is hosted over an honest store, and a client requests the script. By the
//! contract of `host_request`, the run meets the premises of the law, and the law's statement on
//! answers applies to it. The test checks that a worker completed the request.
ghost use Rattle.std.specs.Prelude.{IfOk};
ghost use Rattle.test_flash_laws.specs.Witness.{IsRightRun};

use flash_lite::host::{Hosted, host};
use flash_lite::laws::harmless_is_right;
use flash_lite::site::{Site, SiteFile};
use iol_back::memory::MemoryBacking;
use iol_back::slots::Slots;
use iol_core::configuration::Config;
use iol_core::events::{Event, Reply};
use iol_core::lists::Bytes;
use iol_core::numbers::{ConnId, FileId, PoolId};
use iol_core::refusals::Refusal;
use iol_proc::choice::Choice;
use std::alloc::{AllocError, Global};
use std::test::Fail;
use test_parts::checks::pass;

const SCRIPT: &[u8] = b"emit hello\nquery\nwc index.html\n";

const PAGE: &[u8] = b"hi\n";

const REQUEST: &[u8] = b"GET /hello.cgi?q=1 HTTP/1.1\r\nHost: a\r\n\r\n";

const RESPONSE: &[u8] =
    b"HTTP/1.1 200 OK\r\nContent-Type: text/plain\r\nTransfer-Encoding: chunked\r\n\r\ne\r\nhello\nq=1\n1 3\n\r\n0\r\n\r\n";

// The bytes of the files, in slots 1 and 2.
fn slots_of(alloc: Global) -> Result<Slots, AllocError> {
    let mut slots = Slots::new(alloc);
    slots.append(FileId::new(1), SCRIPT)?;
    slots.append(FileId::new(2), PAGE)?;
    Ok(slots)
}

fn file_of(alloc: Global, name: &[u8]) -> Result<SiteFile, AllocError> {
    let private = false;
    let name = Vec::from_slice(alloc, name)?;
    Ok(SiteFile { name, private })
}

// A site of these files, with one worker.
fn site_of(alloc: Global) -> Result<Site, AllocError> {
    let mut files = Vec::new(alloc);
    files.push(file_of(alloc, b"hello.cgi")?)?;
    files.push(file_of(alloc, b"index.html")?)?;
    Ok(Site {
        workers: 1,
        guests: 1,
        site_chunks: 1,
        net_chunks: 1,
        work_chunks: 1,
        vault_chunks: 1,
        files,
    })
}

// Creates a connection of the pool `net`, on which these bytes arrive; then the processes take
// turns until all are idle.
fn host_request(
    alloc: Global,
    slots: Slots,
    site: &Site,
    request: &[u8],
) -> Result<Hosted<MemoryBacking>, Refusal>
    ensures { IfOk result (λ h. IsRightRun site.now slots h.replies.items 65536 h.idle h.world) }
{
    harmless_is_right();
    let pool = PoolId::new(2);
    let conn = ConnId::new(1);
    let bytes = Bytes::from_vec(Vec::from_slice(alloc, request)?);
    let choices = [
        Choice::Outside(Event::ConnNew { pool }),
        Choice::Outside(Event::Arrive { conn, bytes }),
    ];
    let store = MemoryBacking::new(slots);
    host(alloc, Config::DEFAULT, store, site, &choices, 65_536)
}

// Returns whether it is connection 1, and all bytes arrived.
fn have_come(replies: &[Reply]) -> bool {
    match (replies.first(), replies.get(1)) {
        (Some(Reply::Conn(conn)), Some(Reply::Count(count))) => {
            conn.number() == 1 && *count == REQUEST.len() as u32
        }
        _ => false,
    }
}

// Returns whether the whole response is queued at the end of the run, which was idle and without
// resource refusals.
fn is_answered(mut hosted: Hosted<MemoryBacking>) -> bool {
    let conn = ConnId::new(1);
    let came = hosted.idle && !hosted.world.rough() && have_come(hosted.replies.as_slice());
    let max = 4096;
    let sent = match hosted.world.step_outside(Event::Transmit { conn, max }) {
        Reply::Segment { bytes, .. } => bytes.as_slice() == RESPONSE,
        _ => false,
    };
    drop(hosted);
    came && sent
}

fn worker_answers(alloc: Global) -> Result<bool, Refusal> {
    let site = site_of(alloc)?;
    let hosted = host_request(alloc, slots_of(alloc)?, &site, REQUEST)?;
    Ok(is_answered(hosted))
}

#[test]
fn a_worker_answers_where_the_law_holds(rt: HostRuntime) -> Result<(), Fail> {
    pass(worker_answers(rt.alloc()))
}
