//! Reads a site from a folder, and again when it changes.
ghost use Rattle.std.specs.Prelude.{◌≡◌, ◌⊎◌, ◌-◌, ◌*◌, ◌/◌, ◌%◌, ◌^◌, ◌<◌, IfOk, IsTrue, None, Ok};
ghost use Rattle.std.specs.Prelude.{OnErr, OnOk, false, length, min, pos, sum, true};
ghost use Rattle.std.specs.Duration.{as_nanos};
ghost use Rattle.iol_tree.specs.Index.{IsPartOf, file_lengths};
ghost use Rattle.iol_tree.specs.Store.{disk_of};
ghost use Rattle.flash_site.specs.Reads.{IfRead, MayRemember, Remembers, StaysUnlessRead};
ghost use Rattle.flash_site.specs.Reads.{is_within};
ghost use Rattle.flash_site.specs.World.{BeginsSite, BeginsSiteOf, HasBytes, IsWorldOf};
ghost use Rattle.flash_site.specs.declared.source.TheConstants.{GRAIN_NANOS};

use crate::site::world_of;
use flash_lite::actor::Actor;
use iol_proc::world::World;
use iol_tree::backing::TreeBacking;
use iol_tree::contents::read_all;
use iol_tree::index::Index;
use std::io;
use std::io::ErrorKind;
use std::rt::{Clock, Files};
use std::time::{Duration, SystemTime, UNIX_EPOCH};

/// The default limit of the bytes of a site that are read into memory.
pub const PRELOAD_BYTES: u64 = 0x1000_0000;

/// The number of attempts to read a folder that changes while it is read.
const ATTEMPTS: u32 = 5;

/// The granularity of modification times: a file that changed less than this number of nanoseconds
/// ago may change again without a different time.
const GRAIN_NANOS: u64 = 50_000_000;

/// The contents of a site.
#[derive(Clone, Copy, Debug, PartialEq, Eq)]
pub struct Summary {
    /// The number of its files, and of their bytes.
    pub files: usize,
    pub bytes: u64,

    /// The number of entries of the folder that are not served. The program may not read some of
    /// them.
    pub skipped: u64,

    /// Whether its bytes were read into memory, so that its store is honest.
    pub is_in_memory: bool,
}

/// A site as it was read, in a world in which nothing has happened yet. Its store is honest exactly
/// if the bytes are in memory.
#[derive(Drop)]
pub struct Loaded<R: Files> {
    pub world: World<TreeBacking<R>, Actor>,
    pub summary: Summary,
    ghost begins: { BeginsSite world },
    ghost files: { BeginsSiteOf summary.files summary.bytes world },
    ghost honest: { world.machine.disk.honest ≡ summary.is_in_memory },
}

/// A folder whose files are a site.
#[derive(Drop)]
pub struct Source<R: Files> {
    rt: R,
    root: String,

    // The maximum number of bytes that are read into memory. None: all files are served from the
    // folder.
    preload: Option<u64>,

    // The files that the last read found, none if the folder changed during it, and whether a file
    // that it read changed so shortly before that it must be read again.
    index: Option<Index>,
    is_young: bool,
}

impl<R: Files + Clock + AllocGlobal + Clone + Drop> Source<R> {
    /// The site of a folder. If it has at most `preload` bytes, they are read into memory;
    /// otherwise, or without `preload`, the site is served from the folder.
    pub fn new(rt: &R, root: &str, preload: Option<u64>) -> io::Result<Source<R>>
        ensures preload { IfOk result (λ source. source.preload ≡ preload) }
        ensures root { IfOk result (λ source. source.root.bytes.items ≡ root.now) }
        ensures unread { IfOk result (λ source. source.index ≡ None) }
        ensures young { IfOk result (λ source. source.is_young ≡ false) }
    {
        Ok(Source {
            rt: rt.clone()?,
            root: String::from_str(rt.alloc(), root)?,
            preload,
            index: None,
            is_young: false,
        })
    }

    /// Reads the site. If it changes while it is read, it is served from the folder.
    pub fn load(&mut self) -> io::Result<Loaded<R>>
        ensures err { OnErr result (self.new ≡ self.old) }
        ensures root { self.new.root ≡ self.old.root }
        ensures preload { self.new.preload ≡ self.old.preload }
        ensures memory { IfOk result (λ loaded. IsTrue loaded.summary.is_in_memory
            → IsTrue (is_within self.old.preload loaded.summary.bytes)) }
        ensures remembers { IfOk result (λ loaded.
            MayRemember self.old.root.bytes.items loaded.summary loaded.world self.new.index) }
    {
        match self.load_steady()? {
            Some(loaded) => Ok(loaded),
            None => self.load_changing(),
        }
    }

    // Serves the readable files from the folder, which changes.
    fn load_changing(&mut self) -> io::Result<Loaded<R>>
        ensures err { OnErr result (self.new ≡ self.old) }
        ensures root { self.new.root ≡ self.old.root }
        ensures preload { self.new.preload ≡ self.old.preload }
        ensures folder { IfOk result (λ loaded. loaded.summary.is_in_memory ≡ false) }
        ensures unread { OnOk result (self.new.index ≡ None) }
    {
        let found = Index::of(&self.rt, self.root.as_str())?;
        let index = found.readable(&self.rt)?;
        let bytes = index.total();
        let store = self.on_disk(index)?;
        self.host(store, bytes, None)
    }

    /// Reads the site again, if the folder changed since the last read, or if `is_forced`. None:
    /// it did not change, or it changes while it is read, so that the caller should retry later.
    /// After None or an error the source is unchanged: the next call finds a change that was not
    /// read.
    pub fn renew(&mut self, is_forced: bool) -> io::Result<Option<Loaded<R>>>
        ensures stays { StaysUnlessRead result self.old self.new }
        ensures root { self.new.root ≡ self.old.root }
        ensures preload { self.new.preload ≡ self.old.preload }
        ensures memory { IfRead result (λ loaded. loaded.summary.is_in_memory
            ≡ is_within self.old.preload loaded.summary.bytes) }
        ensures remembers { IfRead result (λ loaded.
            Remembers self.old.root.bytes.items loaded.summary loaded.world self.new.index) }
    {
        if !self.is_due(is_forced)? {
            return Ok(None);
        }
        self.load_steady()
    }

    // Returns whether the site is to be read again.
    fn is_due(&self, is_forced: bool) -> io::Result<bool>
        ensures forced { (is_forced ≡ true) ⊎ (self.now.is_young ≡ true) → result ≡ Ok true }
        ensures unread { self.now.index ≡ None → IfOk result (λ due. due ≡ true) }
    {
        if is_forced || self.is_young {
            return Ok(true);
        }
        Ok(!self.is_same()?)
    }

    // Returns whether the folder has the files of the last read, unchanged.
    fn is_same(&self) -> io::Result<bool>
        ensures { self.now.index ≡ None → IfOk result (λ same. same ≡ false) }
    {
        let now = Index::of(&self.rt, self.root.as_str())?;
        Ok(match &self.index {
            Some(index) => index.is_same(&now),
            None => false,
        })
    }

    // Reads the site, unless it changes during each attempt.
    fn load_steady(&mut self) -> io::Result<Option<Loaded<R>>>
        ensures stays { StaysUnlessRead result self.old self.new }
        ensures root { self.new.root ≡ self.old.root }
        ensures preload { self.new.preload ≡ self.old.preload }
        ensures memory { IfRead result (λ loaded. loaded.summary.is_in_memory
            ≡ is_within self.old.preload loaded.summary.bytes) }
        ensures remembers { IfRead result (λ loaded.
            Remembers self.old.root.bytes.items loaded.summary loaded.world self.new.index) }
    {
        for _ in 0..ATTEMPTS {
            if let Some(loaded) = self.load_once()? {
                return Ok(Some(loaded));
            }
        }
        Ok(None)
    }

    // Reads the site. None: the folder changed while it was read.
    fn load_once(&mut self) -> io::Result<Option<Loaded<R>>>
        ensures stays { StaysUnlessRead result self.old self.new }
        ensures root { self.new.root ≡ self.old.root }
        ensures preload { self.new.preload ≡ self.old.preload }
        ensures memory { IfRead result (λ loaded. loaded.summary.is_in_memory
            ≡ is_within self.old.preload loaded.summary.bytes) }
        ensures remembers { IfRead result (λ loaded.
            Remembers self.old.root.bytes.items loaded.summary loaded.world self.new.index) }
    {
        let found = Index::of(&self.rt, self.root.as_str())?;
        let index = found.readable(&self.rt)?;
        let bytes = index.total();
        if self.fits(bytes) {
            self.load_memory(&found, index, bytes)
        } else {
            self.load_folder(&found, index, bytes)
        }
    }

    // Returns whether this number of bytes is read into memory.
    fn fits(&self, bytes: u64) -> bool
        ensures { result ≡ is_within self.now.preload bytes }
    {
        match self.preload {
            Some(most) => bytes <= most,
            None => false,
        }
    }

    // Reads the readable files of those that were found into memory. None: the folder changed while
    // it was read.
    #[tactic(auto, using(crate::proofs::Bytes::held_bytes))]
    fn load_memory(
        &mut self,
        found: &Index,
        index: Index,
        bytes: u64,
    ) -> io::Result<Option<Loaded<R>>>
        requires part { IsPartOf found.now index }
        requires total { bytes ≡ min (sum (file_lengths index)) (2 ^ 64 - 1) }
        ensures stays { StaysUnlessRead result self.old self.new }
        ensures root { self.new.root ≡ self.old.root }
        ensures preload { self.new.preload ≡ self.old.preload }
        ensures memory { IfRead result (λ loaded. loaded.summary.is_in_memory ≡ true) }
        ensures bytes { IfRead result (λ loaded. loaded.summary.bytes ≡ bytes) }
        ensures remembers { IfRead result (λ loaded.
            Remembers self.old.root.bytes.items loaded.summary loaded.world self.new.index) }
    {
        let contents = match read_all(&self.rt, &index) {
            Ok(contents) => contents,
            Err(e) if e.kind() == ErrorKind::OutOfMemory => return Err(e),
            Err(_) => return Ok(None),
        };
        let after = Index::of(&self.rt, self.root.as_str())?;
        if !found.is_same(&after) {
            return Ok(None);
        }
        let store = TreeBacking::in_memory(self.rt.clone()?, self.rt.alloc(), index, contents)?;
        Ok(Some(self.host(store, bytes, Some(after))?))
    }

    // Serves the readable files of those that were found from the folder. None: the folder changed
    // while it was read, or an entry could not be examined.
    fn load_folder(
        &mut self,
        found: &Index,
        index: Index,
        bytes: u64,
    ) -> io::Result<Option<Loaded<R>>>
        requires part { IsPartOf found.now index }
        requires total { bytes ≡ min (sum (file_lengths index)) (2 ^ 64 - 1) }
        ensures stays { StaysUnlessRead result self.old self.new }
        ensures root { self.new.root ≡ self.old.root }
        ensures preload { self.new.preload ≡ self.old.preload }
        ensures memory { IfRead result (λ loaded. loaded.summary.is_in_memory ≡ false) }
        ensures bytes { IfRead result (λ loaded. loaded.summary.bytes ≡ bytes) }
        ensures remembers { IfRead result (λ loaded.
            Remembers self.old.root.bytes.items loaded.summary loaded.world self.new.index) }
    {
        let after = Index::of(&self.rt, self.root.as_str())?;
        if !found.is_same(&after) {
            return Ok(None);
        }
        let store = self.on_disk(index)?;
        Ok(Some(self.host(store, bytes, Some(after))?))
    }

    // A store over the folder.
    #[tactic(auto, using(crate::proofs::Bytes::reported_bytes))]
    fn on_disk(&self, index: Index) -> io::Result<TreeBacking<R>>
        ensures honest { IfOk result (λ store. (disk_of store).honest ≡ false) }
        ensures names { IfOk result (λ store. store.names ≡ index.names) }
        ensures skipped { IfOk result (λ store. store.skipped ≡ index.skipped) }
        ensures bytes { IfOk result (λ store. HasBytes (disk_of store)
            (min (sum (file_lengths index)) (2 ^ 64 - 1))) }
    {
        Ok(TreeBacking::on_disk(self.rt.clone()?, self.rt.alloc(), index))
    }

    // Creates the world of a store of files with this number of bytes. The index has the files that
    // were found in the folder; none: the folder changes, so the next `renew` reads it again.
    fn host(
        &mut self,
        store: TreeBacking<R>,
        bytes: u64,
        index: Option<Index>,
    ) -> io::Result<Loaded<R>>
        requires { HasBytes (disk_of store) bytes }
        ensures err { OnErr result (self.new ≡ self.old) }
        ensures root { self.new.root ≡ self.old.root }
        ensures preload { self.new.preload ≡ self.old.preload }
        ensures index { OnOk result (self.new.index ≡ index) }
        ensures young { OnOk result (self.old.is_young ≡ true → self.new.is_young ≡ false) }
        ensures memory { IfOk result (λ loaded. loaded.summary.is_in_memory
            ≡ (disk_of store).honest) }
        ensures bytes { IfOk result (λ loaded. loaded.summary.bytes ≡ bytes) }
        ensures files { IfOk result (λ loaded. loaded.summary.files ≡ length store.names) }
        ensures world { IfOk result (λ loaded. IsWorldOf store.names (disk_of store) loaded.world) }
        ensures skipped { IfOk result (λ loaded. loaded.summary.skipped ≡ store.skipped) }
    {
        let files = store.index();
        let summary = Summary {
            files: files.count(),
            bytes,
            skipped: files.skipped(),
            is_in_memory: store.is_in_memory(),
        };
        let is_young = !files.is_older_than(self.grain_ago()?);
        match world_of(self.rt.alloc(), store) {
            Ok(world) => {
                self.is_young = is_young && !self.is_young;
                self.index = index;
                Ok(Loaded { world, summary })
            }
            Err(_) => Err(io::Error::from(ErrorKind::OutOfMemory)),
        }
    }

    // The time one granule ago, in seconds and nanoseconds since 1970.
    fn grain_ago(&self) -> io::Result<(i64, i64)> {
        let now = SystemTime::now(&self.rt)?;
        Ok(match now.duration_since(UNIX_EPOCH) {
            Ok(since) => grain_before(since),
            Err(_) => (0, 0),
        })
    }
}

// The time one granule before another, in seconds and nanoseconds since 1970.
fn grain_before(since: Duration) -> (i64, i64)
    ensures seconds { as_nanos since < 2 ^ 63 * 1_000_000_000
        → result.0 ≡ pos ((as_nanos since - GRAIN_NANOS) / 1_000_000_000) }
    ensures nanos { result.1 ≡ pos ((as_nanos since - GRAIN_NANOS) % 1_000_000_000) }
{
    let at = since.saturating_sub(Duration::from_nanos(GRAIN_NANOS));
    let seconds = at.as_secs().min(i64::MAX as u64) as i64;
    (seconds, i64::from(at.subsec_nanos()))
}
