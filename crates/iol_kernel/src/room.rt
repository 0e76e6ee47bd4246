//! Clean extents of files are evicted to make room for new bytes.
ghost use Rattle.std.specs.Prelude.{◌≡◌};
ghost use Rattle.iol_arena.specs.Prelude.{pages_for};
ghost use Rattle.iol_kernel.specs.Room.{AsksRoom, AsksToFit, MayPlaceIn};

use crate::kernel::Kernel;
use iol_arena::pages::count_pages;
use iol_core::numbers::PoolId;

// The number of pages that this many bytes need.
fn pages_to_hold(bytes: u32) -> u32
    ensures { result ≡ pages_for bytes }
{
    if bytes == 0 {
        return 0;
    }
    count_pages(bytes)
}

impl Kernel {
    ghost use Rattle.iol_kernel.specs.Kernel.{state_of};

    /// Evicts clean extents of a pool's files until `pages` pages of the pool are free. Returns
    /// false if there is no room for them; then nothing changes.
    pub(crate) fn make_room(&mut self, pool: PoolId, pages: u32) -> bool
        requires { MayPlaceIn pool (state_of self.old) }
        ensures { AsksRoom pool pages (state_of self.old) result (state_of self.new) }
    {
        self.files.cache.make_room(&mut self.store, pool, pages)
    }

    /// Evicts clean extents of a pool's files until `bytes` more bytes fit in the pool. Returns
    /// false if they do not fit; then nothing changes.
    pub(crate) fn make_room_for(&mut self, pool: PoolId, bytes: u32) -> bool
        requires { MayPlaceIn pool (state_of self.old) }
        ensures { AsksToFit pool bytes (state_of self.old) result (state_of self.new) }
    {
        let pages = pages_to_hold(bytes);
        self.make_room(pool, pages)
    }
}
