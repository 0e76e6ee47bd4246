//! Which extents are in use.

use crate::files::CachedFile;
use crate::marks::CleanHolds;
use iol_core::numbers::FileId;
use iol_evict::users::InUse;
use iol_hold::Store;

/// Decides whether anything except clean extents holds a buffer of an extent.
#[derive(Drop)]
pub(crate) struct Users<'a> {
    pub(crate) store: &'a Store,
    pub(crate) files: &'a [CachedFile],
    pub(crate) marks: &'a CleanHolds,
}

impl<'a> InUse for Users<'a> {
    ghost use Rattle.iol_cache.specs.Users.{is_used, CanAsk};

    ghost in_use = { is_used };

    ghost can_ask = { CanAsk };

    fn is_in_use(&self, file: FileId, at: u32) -> bool {
        let found = self.files[file.number() as usize - 1].extents.over(at);
        match found {
            Some((_, agg, _)) => self.marks.is_in_use(self.store, agg.slices()),
            None => false,
        }
    }
}
