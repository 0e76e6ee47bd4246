//! Comparing ranks.
ghost use Rattle.std.specs.Prelude.{◌≡◌, true, false};
ghost use Rattle.iol_evict.specs.Ranks.{rank_by, least_rank, RankLt, RankLe};

use crate::entry::{By, Entry, Rank};
use iol_core::numbers::FileId;

impl Rank {
    /// The least rank. No entry is below it.
    pub fn least() -> Rank
        ensures { result ≡ least_rank }
    {
        Rank {
            height: 0,
            file: FileId::new(0),
            at: 0,
        }
    }
}

pub(crate) fn rank_of(by: By, entry: &Entry) -> Rank
    ensures { result ≡ rank_by by entry.now }
{
    let height = match by {
        By::Place => 0,
        By::Height => entry.height,
    };
    Rank {
        height,
        file: entry.file,
        at: entry.at,
    }
}

pub(crate) fn comes_before(a: &Rank, b: &Rank) -> bool
    ensures yes { result ≡ true → RankLt a.now b.now }
    ensures no { result ≡ false → RankLe b.now a.now }
{
    if a.height != b.height {
        return a.height < b.height;
    }
    let first = a.file.number();
    let second = b.file.number();
    if first != second {
        return first < second;
    }
    a.at < b.at
}
