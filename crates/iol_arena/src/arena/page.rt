//! Look-ups of one page for the layers above.
ghost use Rattle.std.specs.Prelude.{◌≡◌, ◌*◌, ◌<◌, not, nat_lt};
ghost use Rattle.iol_arena.specs.State.{chunk_count, page_count, entry_at, generation_at};
ghost use Rattle.iol_arena.specs.Firsts.{first_on};

use crate::arena::Arena;
use crate::pages::PageKind;
use iol_core::limits::CHUNK_PAGES;

impl Arena {
    /// The number of pages: sixteen in each chunk.
    pub fn page_count(&self) -> u32
        ensures count { result ≡ page_count self.now }
        ensures chunks { page_count self.now ≡ CHUNK_PAGES * chunk_count self.now }
    {
        // Shows the invariant: the number of pages, and the buffers on them.
        let _entries = &self.entries;
        self.entries.len() as u32
    }

    /// Whether a page has had its last generation.
    pub fn is_last(&self, page: u32) -> bool
        requires { page < page_count self.now }
        ensures { result ≡ not (nat_lt (generation_at self.now page) self.now.limit) }
    {
        self.entry(page).generation >= self.limit
    }

    /// The first page of the buffer on a page, if there is one.
    pub fn first_on(&self, page: u32) -> Option<u32>
        requires { page < page_count self.now }
        ensures { result ≡ first_on (entry_at self.now page).kind page }
    {
        match self.entry(page).kind {
            PageKind::Free => None,
            PageKind::Pending => None,
            PageKind::Head(_) => Some(page),
            PageKind::Tail(first) => Some(first),
        }
    }
}
