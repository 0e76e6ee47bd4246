//! Indices in ascending order: one is found among them in a few steps.
ghost use Rattle.std.specs.Prelude.{◌≡◌, ◌<◌, ◌≤◌, drop, filter, find, insert, length, nat_le, nat_lt, take};
ghost use Rattle.std.specs.List.Sorted.{IsStrictlyIncreasing};
ghost use Rattle.std.specs.Vec.{vec_capacity};
ghost use Rattle.flash_lite.specs.Order.{CanMark, marked};

// The number of these indices below that one.
fn count_below(places: &[u32], place: usize) -> usize
    requires { IsStrictlyIncreasing places.now }
    ensures below { take result places.now ≡ filter (λ k. nat_lt k place) places.now }
    ensures rest { drop result places.now ≡ filter (λ k. nat_le place k) places.now }
    ensures within { result ≤ length places.now }
{
    places.partition_point(|k| (*k as usize) < place)
}

/// The first of these indices from here on.
pub(crate) fn first_from(places: &[u32], from: usize) -> Option<u32>
    requires { IsStrictlyIncreasing places.now }
    ensures { result ≡ find (λ k. nat_le from k) places.now }
{
    let at = count_below(places, from);
    if at < places.len() {
        Some(places[at])
    } else {
        None
    }
}

// Inserts an index. There is room for it.
fn put(places: &mut Vec<u32>, at: usize, place: u32)
    requires within { at ≤ length places.old.items }
    requires room { length places.old.items < vec_capacity places.old }
    ensures items { places.new.items ≡ insert places.old.items at place }
    ensures capacity { vec_capacity places.old ≤ vec_capacity places.new }
{
    let _put = places.insert(at, place).is_ok();
}

/// Inserts an index, or removes it. `was` is whether it is in the list.
pub(crate) fn mark(places: &mut Vec<u32>, place: u32, was: bool, there: bool)
    requires { CanMark places.old.items place was there (vec_capacity places.old) }
    ensures marked { places.new.items ≡ marked places.old.items place there }
    ensures capacity { vec_capacity places.old ≤ vec_capacity places.new }
{
    if was == there {
        return;
    }
    let at = count_below(places.as_slice(), place as usize);
    if there {
        put(places, at, place);
    } else {
        places.remove(at);
    }
}
