//! The table of pools.
ghost use Rattle.std.specs.Prelude.{◌≡◌, ◌<◌, ◌≤◌, length, true, not, find, nat_le, Some, None, is_some, IfSome, IfErr, OnOk, [], ◌∷◌, ◌↔◌, IsTrue};
ghost use Rattle.std.specs.Option.{option_copied};
ghost use Rattle.std.specs.List.{All, list_all};
ghost use Rattle.iol_core.specs.Prelude.{is_numbered, has_place};
ghost use Rattle.iol_arena.specs.Prelude.{chunk_count, free_pages, is_unused};
ghost use Rattle.iol_pool.specs.Pools.{counted_pages, goes_back, names_in, no_pool, pool_in, with_admitted, with_closed, with_emptied, with_returned};
ghost use Rattle.iol_pool.specs.Owners.{AreChunksOf, AreOwned};
ghost use Rattle.iol_pool.specs.Calls.{CreatesPool, ReportsPool, ReclaimsPool};

use crate::names::Names;
use crate::report::PoolReport;
use iol_arena::arena::Arena;
use iol_arena::chunks::ChunkSet;
use iol_arena::pages::Unfilled;
use iol_core::limits::{CHUNK_PAGES, MAX_CHUNKS, MAX_POOLS};
use iol_core::numbers::{ChunkNo, DomainId, PoolId};
use std::alloc::Global;
use std::marker::Model;

// A pool: the domains that may read its bytes, and the chunks that store them.
#[derive(Drop)]
struct Pool {
    names: Names,
    closed: bool,
    chunks: ChunkSet,
}

impl Model for Pool {
    ghost use Rattle.iol_pool.specs.Pools as pools;

    ghost Value = { pools.Pool };

    ghost view = { λ p. record { domains = p.names; closed = p.closed; chunks = p.chunks } };
}

/// All pools that were made, by number. The first has number 1.
#[derive(Drop)]
pub struct Pools {
    alloc: Global,
    list: Vec<Pool>,
}

impl Model for Pools {
    ghost use Rattle.std.specs.Prelude.{List};
    ghost use Rattle.iol_pool.specs.Pools as pools;

    ghost Value = { List pools.Pool };

    ghost view = { λ p. p.list.items };
}

// The pool of this number.
#[tactic(auto, unfolding(crate::specs::Pools::pool_in))]
fn pool_at(pools: &[Pool], p: PoolId) -> Option<&Pool>
    ensures found { IfSome (option_copied result) (λ x. x ≡ pool_in pools.now p) }
    ensures there { is_some (option_copied result) ≡ is_numbered pools.now p }
    ensures none { option_copied result ≡ None → pool_in pools.now p ≡ no_pool }
{
    let n = p.number();
    if n == 0 {
        None
    } else {
        pools.get(n as usize - 1)
    }
}

// The chunks of a pool.
#[tactic(auto, unfolding(crate::specs::Pools::pool_in))]
fn chunks_of(pools: &[Pool], p: PoolId) -> &ChunkSet
    requires { is_numbered pools.now p ≡ true }
    ensures { result.now ≡ (pool_in pools.now p).chunks }
{
    let pool = &pools[p.number() as usize - 1];
    &pool.chunks
}

// Adds a domain to a pool's list, unless it is listed.
#[tactic(auto, unfolding(crate::specs::Pools::pool_in, crate::specs::Pools::with_admitted))]
fn add_name(pools: &mut Vec<Pool>, p: PoolId, d: DomainId)
    requires there { is_numbered pools.old.items p ≡ true }
    requires place { has_place (pool_in pools.old.items p).domains d ≡ true }
    ensures { pools.new.items ≡ with_admitted pools.old.items p d }
{
    pools[p.number() as usize - 1].names.add(d);
}

// Marks the pool as closed.
#[tactic(auto, unfolding(crate::specs::Pools::pool_in, crate::specs::Pools::with_closed))]
fn set_closed(pools: &mut Vec<Pool>, p: PoolId)
    requires { is_numbered pools.old.items p ≡ true }
    ensures { pools.new.items ≡ with_closed pools.old.items p }
{
    pools[p.number() as usize - 1].closed = true;
}

// Empties the pool's list of chunks.
#[tactic(auto, unfolding(crate::specs::Pools::pool_in, crate::specs::Pools::with_emptied))]
fn set_emptied(alloc: Global, pools: &mut Vec<Pool>, p: PoolId)
    requires { is_numbered pools.old.items p ≡ true }
    ensures { pools.new.items ≡ with_emptied pools.old.items p }
{
    pools[p.number() as usize - 1].chunks = ChunkSet::new(alloc);
}

// Whether all pages of the chunks are empty.
fn are_unused(arena: &Arena, chunks: &[ChunkNo]) -> bool
    requires { All (λ c. c < chunk_count arena.now) chunks.now }
    ensures { result ≡ list_all (is_unused arena.now) chunks.now }
{
    for chunk in chunks {
        if !arena.is_unused(*chunk) {
            return false;
        }
    }
    true
}

// Returns the chunks to the arena.
fn return_all(arena: &mut Arena, chunks: &[ChunkNo])
    requires within { All (λ c. c < chunk_count arena.old) chunks.now }
    requires unused { list_all (is_unused arena.old) chunks.now ≡ true }
    ensures { arena.new ≡ with_returned arena.old chunks.now }
{
    for chunk in chunks {
        arena.give_chunk(*chunk);
    }
}

// The number of retired or of usable pages of a chunk.
fn count_in(arena: &Arena, chunk: ChunkNo, retired: bool) -> u32
    requires { chunk < chunk_count arena.now }
    ensures { result ≡ length (counted_pages arena.now retired (chunk ∷ [])) }
{
    if retired {
        return arena.retired_in(chunk);
    }
    arena.free_in(chunk)
}

// The number of retired or of usable pages of the chunks.
fn count_pages(arena: &Arena, chunks: &[ChunkNo], retired: bool) -> u32
    requires within { All (λ c. c < chunk_count arena.now) chunks.now }
    requires few { length chunks.now ≤ MAX_CHUNKS }
    ensures { result ≡ length (counted_pages arena.now retired chunks.now) }
{
    let mut count = 0;
    for chunk in chunks {
        count += count_in(arena, *chunk, retired);
    }
    count
}

// Whether at least `pages` pages of the chunks may be used.
fn has_usable(arena: &Arena, chunks: &[ChunkNo], pages: u32) -> bool
    requires { All (λ c. c < chunk_count arena.now) chunks.now }
    ensures { result ≡ nat_le pages (length (free_pages arena.now chunks.now)) }
{
    let mut left = pages;
    for chunk in chunks {
        let here = arena.free_in(*chunk);
        if left <= here {
            return true;
        }
        left -= here;
    }
    left == 0
}

impl Pools {
    /// A table without pools. It takes no memory.
    pub fn new(alloc: Global) -> Pools
        ensures { result ≡ [] }
    {
        Pools {
            alloc,
            list: Vec::new(alloc),
        }
    }

    /// The number of pools that were made.
    pub fn len(&self) -> usize
        ensures { result ≡ length self.now }
    {
        self.list.len()
    }

    /// Whether no pool was made.
    pub fn is_empty(&self) -> bool
        ensures { IsTrue result ↔ (self.now ≡ []) }
    {
        self.list.is_empty()
    }

    /// Whether there is a pool of this number.
    pub fn is_pool(&self, p: PoolId) -> bool
        ensures { result ≡ is_numbered self.now p }
    {
        pool_at(&self.list, p).is_some()
    }

    /// Whether the pool is closed. A number without a pool counts as closed.
    pub fn is_closed(&self, p: PoolId) -> bool
        ensures { result ≡ (pool_in self.now p).closed }
    {
        match pool_at(&self.list, p) {
            Some(pool) => pool.closed,
            None => true,
        }
    }

    /// Whether the pool's list names the domain.
    pub fn names(&self, p: PoolId, d: DomainId) -> bool
        ensures { result ≡ names_in self.now p d }
    {
        match pool_at(&self.list, p) {
            Some(pool) => pool.names.has(d),
            None => false,
        }
    }

    /// Whether each of these pools names the domain; else the first that does not.
    pub fn admits(&self, pools: &[PoolId], d: DomainId) -> Result<(), PoolId>
        ensures ok { OnOk result (find (λ p. not (names_in self.now p d)) pools.now ≡ None) }
        ensures first { IfErr result
            (λ p. find (λ p. not (names_in self.now p d)) pools.now ≡ Some p) }
    {
        for p in pools {
            if !self.names(*p, d) {
                return Err(*p);
            }
        }
        Ok(())
    }

    /// The chunks of a pool.
    pub fn chunks(&self, p: PoolId) -> &ChunkSet
        requires { is_numbered self.now p ≡ true }
        ensures { result.now ≡ (pool_in self.now p).chunks }
    {
        chunks_of(&self.list, p)
    }

    // The chunks of a pool, with the facts that they are at most `MAX_CHUNKS` and all in the arena.
    fn chunks_in(&self, arena: &Arena, p: PoolId) -> &[ChunkNo]
        requires there { is_numbered self.now p ≡ true }
        requires owned { AreOwned arena.now self.now }
        ensures { AreChunksOf arena.now self.now p result.now }
    {
        // Shows that a pool has at most `MAX_CHUNKS` chunks.
        let _few = arena.chunk_count();
        self.chunks(p).as_slice()
    }

    /// Makes a pool of `chunks` chunks, the lowest free ones, for these domains, and returns its
    /// number, the next. Returns `NoRoom` only if fewer chunks are free, and `Memory`. An error
    /// changes nothing.
    pub fn create(
        &mut self,
        alloc: Global,
        arena: &mut Arena,
        chunks: u32,
        names: Names,
    ) -> Result<PoolId, Unfilled>
        requires owned { AreOwned arena.old self.old }
        requires few { length self.old < MAX_POOLS }
        ensures { CreatesPool arena.old arena.new self.old self.new chunks names result }
    {
        if self.list.reserve(1).is_err() {
            return Err(Unfilled::Memory);
        }
        let chunks = arena.take_chunks(alloc, chunks)?;
        self.list.push_reserved(Pool {
            names,
            closed: false,
            chunks,
        });
        Ok(PoolId::new(self.len() as u32))
    }

    // Whether the pool is closed and all pages of its chunks are empty.
    fn goes_back(&self, arena: &Arena, p: PoolId) -> bool
        requires there { is_numbered self.now p ≡ true }
        requires owned { AreOwned arena.now self.now }
        ensures { result ≡ goes_back arena.now self.now p }
    {
        self.is_closed(p) && are_unused(arena, self.chunks_in(arena, p))
    }

    /// Whether the pool's list names the domain, or has a place for it.
    pub fn has_place(&self, p: PoolId, d: DomainId) -> bool
        ensures { result ≡ has_place (pool_in self.now p).domains d }
    {
        let Some(pool) = pool_at(&self.list, p) else {
            return true;
        };
        pool.names.has_place(d)
    }

    /// Adds the domain to the pool's list, unless it is listed. It takes no memory.
    pub fn admit(&mut self, p: PoolId, d: DomainId)
        requires there { is_numbered self.old p ≡ true }
        requires place { has_place (pool_in self.old p).domains d ≡ true }
        ensures { self.new ≡ with_admitted self.old p d }
    {
        add_name(&mut self.list, p, d);
    }

    /// Returns the chunks of a pool if it is closed and all their pages are empty.
    pub fn reclaim(&mut self, arena: &mut Arena, p: PoolId)
        requires { AreOwned arena.old self.old }
        ensures { ReclaimsPool arena.old arena.new self.old self.new p }
    {
        if !self.is_pool(p) {
            return;
        }
        if !self.goes_back(arena, p) {
            return;
        }
        return_all(arena, self.chunks_in(arena, p));
        set_emptied(self.alloc, &mut self.list, p);
    }

    /// Closes a pool: nothing more is placed in it, and its chunks are returned at once if all
    /// their pages are empty.
    pub fn close(&mut self, arena: &mut Arena, p: PoolId)
        requires there { is_numbered self.old p ≡ true }
        requires owned { AreOwned arena.old self.old }
        ensures { ReclaimsPool arena.old arena.new (with_closed self.old p) self.new p }
    {
        set_closed(&mut self.list, p);
        self.reclaim(arena, p);
    }

    /// The number of pages of a pool that may be used. It reads one count for each of the pool's
    /// chunks.
    pub fn free_count(&self, arena: &Arena, p: PoolId) -> u32
        requires there { is_numbered self.now p ≡ true }
        requires owned { AreOwned arena.now self.now }
        ensures { result ≡ length (free_pages arena.now (pool_in self.now p).chunks) }
    {
        count_pages(arena, self.chunks_in(arena, p), false)
    }

    /// Whether at least `pages` pages of a pool may be used. It looks at the chunks in order, and
    /// stops at the first that completes the number.
    pub fn has_free(&self, arena: &Arena, p: PoolId, pages: u32) -> bool
        requires there { is_numbered self.now p ≡ true }
        requires owned { AreOwned arena.now self.now }
        ensures { result ≡ nat_le pages (length (free_pages arena.now (pool_in self.now p).chunks)) }
    {
        has_usable(arena, self.chunks_in(arena, p), pages)
    }

    /// The pages of a pool, counted. The count of retired pages reads each page.
    pub fn report(&self, arena: &Arena, p: PoolId) -> PoolReport
        requires there { is_numbered self.now p ≡ true }
        requires owned { AreOwned arena.now self.now }
        ensures { ReportsPool arena.now self.now p result }
    {
        let chunks = self.chunks_in(arena, p);
        PoolReport {
            pool: p,
            pages: chunks.len() as u32 * CHUNK_PAGES as u32,
            free: count_pages(arena, chunks, false),
            retired: count_pages(arena, chunks, true),
        }
    }
}
