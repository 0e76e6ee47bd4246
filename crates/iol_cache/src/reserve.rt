//! Room for extents, and for the entries that they have in their pool's order once they are clean.
ghost use Rattle.std.specs.Prelude.{◌≡◌, true};
ghost use Rattle.iol_core.specs.Prelude.{is_numbered};
ghost use Rattle.iol_cache.specs.Cache.{cached_of};
ghost use Rattle.iol_cache.specs.Reservations.{HasOrder, ReservesPlaces};

use crate::cache::Cache;
use iol_core::numbers::FileId;
use std::alloc::AllocError;

impl Cache {
    /// Reserves room for `count` more extents of a file, and for their entries.
    pub(crate) fn reserve_places(&mut self, file: FileId, count: usize) -> Result<(), AllocError>
        requires file { is_numbered self.old.files.items file ≡ true }
        requires order { HasOrder file (cached_of self.old) }
        ensures { ReservesPlaces file count (cached_of self.old) (cached_of self.new) result }
    {
        let place = file.number() as usize - 1;
        let pool = self.files[place].pool;
        self.files[place].extents.reserve(count)?;
        self.orders[pool.number() as usize - 1].reserve(count)?;
        Ok(())
    }
}
