//! A site, as a service of the event loop.
ghost use Rattle.std.specs.Prelude.{◌≡◌, ◌⊎◌, ◌↔◌, ◌*◌, ◌/◌, [], ◌++◌, IfOk, IfSome, IsTrue, None};
ghost use Rattle.std.specs.Prelude.{OnErr, OnOk, min, refl};
ghost use Rattle.std.specs.Duration.{as_nanos};
ghost use Rattle.flash_framing.specs.Framing.{Framed, LooksAtFirst};
ghost use Rattle.flash_http.specs.Prelude.{window_in};
ghost use Rattle.flash_lite.specs.declared.layout.TheConstants.{NET_POOL};
ghost use Rattle.flash_framing.specs.Progress as framing;
ghost use Rattle.flash_log.specs.Line.{line_of};
ghost use Rattle.flash_site.specs.World.{BeginsSiteIn};
ghost use Rattle.flashd.specs.Records.{LogsTo, MayLogTo};
ghost use Rattle.flashd.specs.Looks.{IsDue};
ghost use Rattle.flashd.specs.declared.service.TheConstants.{PAUSE_LOOKS};

use crate::notices::{tell_outgrown, tell_site};
use crate::storage::{InMemory, Storage};
use flash_answers::HonestSites;
use flash_framing::{frame_of, progress_of};
use flash_lite::actor::Actor;
use flash_lite::layout::NET_POOL;
use flash_log::dates::log_date;
use flash_log::heads::{head_length, request_line, status_of};
use flash_log::lines::Entry;
use flash_log::log::AccessLog;
use flash_site::source::{Loaded, Source, Summary};
use iol_proc::world::World;
use iol_reactor::service::{Exchange, Frame, Progress, Service};
use iol_tree::backing::TreeBacking;
use std::alloc::{AllocError, Global};
use std::io::{Eprint, Write};
use std::marker::PhantomData;
use std::rt::{Clock, Files};
use std::time::{Duration, Instant, SystemTime, UNIX_EPOCH};
use std::{io, mem};

/// The pause between two checks of the folder is at least this number of times as long as the
/// first of them took, with the time to read a folder that changed.
const PAUSE_LOOKS: u64 = 20;

/// The files of a folder, and the log of responses. With the storage `InMemory` each world that it
/// gives is over an honest store.
#[derive(Drop)]
pub struct SiteService<R: Files, W, K> {
    rt: R,
    root: String,
    source: Source<R>,
    log: Option<AccessLog<W>>,

    // The contents of the site in the last notice.
    summary: Summary,

    // The earliest time of the next check of the folder.
    next_look: Option<Instant>,

    storage: PhantomData<K>,
}

impl<R, W, K> SiteService<R, W, K>
where
    R: Files + Clock + Eprint + AllocGlobal + Clone + Drop,
    W: Write + Drop,
    K: Storage,
{
    /// The service of a site that was read from a source, and has this summary.
    pub fn new(
        rt: &R,
        root: &str,
        source: Source<R>,
        summary: Summary,
        log: Option<AccessLog<W>>,
    ) -> Result<SiteService<R, W, K>, AllocError>
        ensures root { IfOk result (λ service. service.root.bytes.items ≡ root.now) }
        ensures source { IfOk result (λ service. service.source ≡ source) }
        ensures summary { IfOk result (λ service. service.summary ≡ summary) }
        ensures log { IfOk result (λ service. service.log ≡ log) }
        ensures next_look { IfOk result (λ service. service.next_look ≡ None) }
    {
        tell_site(rt, root, &summary);
        Ok(SiteService {
            rt: rt.clone()?,
            root: String::from_str(rt.alloc(), root)?,
            source,
            log,
            summary,
            next_look: None,
            storage: PhantomData,
        })
    }

    // Adds a line to the log.
    fn log(&mut self, exchange: &Exchange<'_>) -> io::Result<()>
        ensures line { OnOk result (LogsTo exchange.now self.old.log self.new.log) }
        ensures err { OnErr result (self.new.log ≡ self.old.log) }
        ensures others { self.new ≡ record self.old { log = self.new.log } }
    {
        let Some(log) = &mut self.log else {
            return Ok(());
        };
        let alloc = self.rt.alloc();
        let ip = exchange.peer.ip();
        let host = format!(in alloc; "{ip}")?;
        let date = log_date(alloc, seconds_now(&self.rt)?)?;
        let head = head_length(exchange.head).unwrap_or(exchange.head.len()) as u64;
        let entry = Entry {
            host: host.as_bytes(),
            date: &date,
            request_line: request_line(exchange.request),
            status: status_of(exchange.head),
            body: exchange.sent.saturating_sub(head),
        };
        add_line(log, &entry)?;
        Ok(())
    }

    // Whether the folder is to be checked now.
    fn is_time(&self, now: &Instant) -> bool
        ensures { IsTrue result ↔ IsDue self.now.next_look now.now }
    {
        match &self.next_look {
            Some(next) => now.checked_duration_since(*next).is_some(),
            None => true,
        }
    }

    // A new world, if the folder changed. A folder that takes long to check is checked less often.
    fn look(&mut self, is_worn: bool) -> io::Result<Option<World<TreeBacking<R>, Actor>>>
        ensures begins { IfOk result (λ renewed. IfSome renewed (BeginsSiteIn K.IN_MEMORY)) }
        ensures root { self.new.source.root ≡ self.old.source.root }
        ensures preload { self.new.source.preload ≡ self.old.source.preload }
        ensures log { self.new.log ≡ self.old.log }
    {
        let start = Instant::now(&self.rt)?;
        if !is_worn && !self.is_time(&start) {
            return Ok(None);
        }
        let renewed = self.source.renew(is_worn);
        self.next_look = start.checked_add(pause_after(start.elapsed(&self.rt)?));
        let Some(loaded) = renewed? else {
            return Ok(None);
        };
        self.tell(loaded.summary);
        Ok(world_in::<R, K>(loaded))
    }

    // Reports a site that was read, if its notices differ from the last ones.
    fn tell(&mut self, summary: Summary)
        ensures { self.new ≡ record self.old { summary = summary } }
    {
        let before = mem::replace(&mut self.summary, summary);
        if summary.is_in_memory == before.is_in_memory && summary.skipped == before.skipped {
            return;
        }
        if K::IN_MEMORY && !summary.is_in_memory {
            tell_outgrown(&self.rt, self.root.as_str());
        } else {
            tell_site(&self.rt, self.root.as_str(), &summary);
        }
    }
}

// The world of a site that was read. None: its files are to be in memory, and are not.
fn world_in<R: Files + Drop, K: Storage>(loaded: Loaded<R>) -> Option<World<TreeBacking<R>, Actor>>
    ensures { IfSome result (BeginsSiteIn K.IN_MEMORY) }
{
    if K::IN_MEMORY && !loaded.summary.is_in_memory {
        return None;
    }
    Some(loaded.world)
}

// Adds the line of an entry, and writes all lines if there are enough.
fn add_line<W: Write>(log: &mut AccessLog<W>, entry: &Entry<'_>) -> Result<(), AllocError>
    ensures added { OnOk result ((log.new ≡ log.old ++ line_of entry.now) ⊎ (log.new ≡ [])) }
    ensures refused { OnErr result (log.new ≡ log.old) }
{
    log.add(entry)?;
    if log.is_full() {
        log.flush();
    }
    Ok(())
}

// The seconds since 1970.
fn seconds_now<R: Clock>(clock: &R) -> io::Result<u64> {
    match SystemTime::now(clock)?.duration_since(UNIX_EPOCH) {
        Ok(since) => Ok(since.as_secs()),
        Err(_) => Ok(0),
    }
}

// The pause after a check that took some time.
fn pause_after(took: Duration) -> Duration
    ensures { as_nanos result
        ≡ min (as_nanos took / 1_000_000) 1_000_000_000 * PAUSE_LOOKS * 1_000_000 }
{
    let millis = took.as_millis().min(1_000_000_000) as u64;
    Duration::from_millis(millis.saturating_mul(PAUSE_LOOKS))
}

impl<R, W, K> Service<TreeBacking<R>, Actor> for SiteService<R, W, K>
where
    R: Files + Clock + Eprint + AllocGlobal + Clone + Drop,
    W: Write + Drop,
    K: Storage,
{
    const POOL: u32 = NET_POOL;

    ghost POOL = { NET_POOL };

    // The world of a site, in which nothing has happened yet: the server's laws begin with such a
    // world, over an honest store.
    ghost starts = { BeginsSiteIn K.IN_MEMORY };

    // The first request, by its window and its head.
    ghost frames = { Framed };

    fn frame(&self, alloc: Global, bytes: &[u8]) -> Result<Frame, AllocError>
        ensures frame { IfOk result (λ frame. Framed bytes.now frame) }
        ensures memory { OnErr result (LooksAtFirst (window_in bytes.now) bytes.now) }
    {
        frame_of(alloc, bytes)
    }

    fn progress(&self, exchange: &Exchange<'_>) -> Progress
        ensures { result ≡ framing.progress_of exchange.now }
    {
        progress_of(exchange)
    }

    fn record(&mut self, exchange: &Exchange<'_>)
        ensures line { MayLogTo exchange.now self.old.log self.new.log }
        ensures others { self.new ≡ record self.old { log = self.new.log } }
    {
        let _ = self.log(exchange);
    }

    // Writes the rest of the log.
    fn flush(&mut self)
        ensures written { IfSome self.new.log (λ log. log ≡ []) }
        ensures others { self.new ≡ record self.old { log = self.new.log } }
    {
        if let Some(log) = &mut self.log {
            log.flush();
        }
    }

    fn renew(&mut self, is_worn: bool) -> Option<World<TreeBacking<R>, Actor>>
        ensures begins { IfSome result (BeginsSiteIn K.IN_MEMORY) }
        ensures root { self.new.source.root ≡ self.old.source.root }
        ensures preload { self.new.source.preload ≡ self.old.source.preload }
        ensures log { self.new.log ≡ self.old.log }
    {
        match self.look(is_worn) {
            Ok(world) => world,
            Err(_) => None,
        }
    }
}

// From memory, the answers to each client are those of the law (`flash_answers::client`).
impl<R, W> HonestSites<TreeBacking<R>> for SiteService<R, W, InMemory>
where
    R: Files + Clock + Eprint + AllocGlobal + Clone + Drop,
    W: Write + Drop,
{
    ghost serves = { record {
      begins = λ world begun. begun.site;
      honest = λ world begun. begun.honest refl;
      framed = λ bytes frame framed. framed;
    } };

    ghost net = { refl };
}
