//! Eviction of clean extents.
ghost use Rattle.std.specs.Prelude.{◌≡◌, ◌↔◌, false, IsTrue};
ghost use Rattle.iol_pool.specs.Prelude.{pool_in};
ghost use Rattle.iol_cache.specs.Cache.{EvictsFrom, cached_of, holding};
ghost use Rattle.iol_cache.specs.Evictions.{ArePassed, DropsAll, DropsClean, FindsVictim, FreesOrKeeps, HasPages, IsCleanAt, MakesFree};
ghost use Rattle.iol_cache.specs.Sound.{IsSound};

use crate::cache::Cache;
use crate::users::Users;
use iol_core::numbers::{FileId, PoolId};
use iol_evict::entry::Rank;
use iol_hold::Store;

impl Cache {
    // The clean extent of the pool's files to evict next: the first in the order that is not in use, or else the first. Those
    // below `passed` in the order are in use.
    fn victim(&self, store: &Store, pool: PoolId, passed: &mut Rank) -> Option<(FileId, u32)>
        requires sound { IsSound store.now (cached_of self.now) }
        requires below { ArePassed passed.old pool (holding store.now self.now) }
        ensures { FindsVictim passed.new pool (holding store.now self.now) result }
    {
        let number = pool.number() as usize;
        if number == 0 {
            return None;
        }
        if number > self.orders.len() {
            return None;
        }
        let users = Users {
            store,
            files: self.files.as_slice(),
            marks: &self.marks,
        };
        self.orders[number - 1].least(&users, passed)
    }

    // Evicts the clean extent of a file that begins at byte `at`. The extents below `passed` in the order stay in use.
    fn evict(&mut self, store: &mut Store, file: FileId, at: u32, passed: &mut Rank)
        requires sound { IsSound store.old (cached_of self.old) }
        requires clean { IsCleanAt self.old.files.items file at }
        ensures { EvictsFrom file at passed.old passed.new store.old self.old store.new self.new }
    {
        let place = file.number() as usize - 1;
        let pool = self.files[place].pool;
        let agg = self.files[place].extents.remove(at);
        self.marks.set_clean(agg.slices(), false);
        self.orders[pool.number() as usize - 1].evict(file, at, passed);
        agg.release(store);
    }

    // Evicts clean extents of the pool's files, in the order of eviction, until `pages` pages of the pool are free. Returns
    // false if there is no room for that many.
    fn evict_for(&mut self, store: &mut Store, pool: PoolId, pages: u32) -> bool
        requires sound { IsSound store.old (cached_of self.old) }
        requires open { (pool_in store.old.pools pool).closed ≡ false }
        ensures { MakesFree pool pages (holding store.old self.old) (holding store.new self.new)
            result }
    {
        let mut passed = Rank::least();
        while !store.has_free(pool, pages) {
            let Some(place) = self.victim(store, pool, &mut passed) else {
                return false;
            };
            self.evict(store, place.0, place.1, &mut passed);
        }
        true
    }

    // Whether that many pages of the pool are free, or would be if clean extents were evicted.
    fn has_room(&self, store: &Store, pool: PoolId, pages: u32) -> bool
        requires sound { IsSound store.now (cached_of self.now) }
        requires open { (pool_in store.now.pools pool).closed ≡ false }
        ensures { IsTrue result ↔ HasPages pool pages (holding store.now self.now) }
    {
        if store.has_free(pool, pages) {
            return true;
        }
        store.can_free(pool, pages, self.marks.as_slice())
    }

    /// Evicts clean extents of the pool's files, in the order of eviction, until `pages` pages of the pool are free. Returns
    /// false, and changes nothing, if there is no room for that many.
    pub fn make_room(&mut self, store: &mut Store, pool: PoolId, pages: u32) -> bool
        requires sound { IsSound store.old (cached_of self.old) }
        requires open { (pool_in store.old.pools pool).closed ≡ false }
        ensures { FreesOrKeeps pool pages (holding store.old self.old) (holding store.new self.new)
            result }
    {
        if pages == 0 {
            return true;
        }
        if !self.has_room(store, pool, pages) {
            return false;
        }
        self.evict_for(store, pool, pages)
    }

    // Evicts all clean extents of the pool's files, in the order of eviction.
    fn drop_clean_of(&mut self, store: &mut Store, pool: PoolId)
        requires { IsSound store.old (cached_of self.old) }
        ensures { DropsClean pool (holding store.old self.old) (holding store.new self.new) }
    {
        let mut passed = Rank::least();
        while let Some(place) = self.victim(store, pool, &mut passed) {
            self.evict(store, place.0, place.1, &mut passed);
        }
    }

    /// Evicts all clean extents, pool by pool, in the order of eviction.
    pub fn drop_clean(&mut self, store: &mut Store)
        requires { IsSound store.old (cached_of self.old) }
        ensures { DropsAll (holding store.old self.old) (holding store.new self.new) }
    {
        for i in 0..self.orders.len() {
            self.drop_clean_of(store, PoolId::new(i as u32 + 1));
        }
    }
}
