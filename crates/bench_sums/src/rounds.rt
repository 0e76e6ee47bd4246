//! The measured rounds.
ghost use Rattle.iol_hold.specs.Prelude.{AllReadable};
ghost use Rattle.iol_sum.specs.Prelude.{IsRight};

use iol_agg::Agg;
use iol_hold::Store;
use iol_sum::{SumCache, sum_of};

// The sum of the bytes, computed each time.
pub fn sum_often(text: &[u8], rounds: u64) -> u16 {
    let mut sum = 0;
    for _ in 0..rounds {
        sum = sum_of(text);
    }
    sum
}

// The sum of the aggregate, which is remembered from the second time on.
pub fn sum_remembered_often(sums: &mut SumCache, store: &Store, agg: &Agg, rounds: u64) -> u16
    requires readable { AllReadable store.now agg.now }
    requires right { IsRight store.now.arena sums.old }
{
    let mut sum = 0;
    for _ in 0..rounds {
        sum = sums.sum_all(store, agg.slices());
    }
    sum
}
