//! The order in which parts of files are evicted.
ghost use Rattle.std.specs.Prelude.{◌≡◌, ◌<◌, ◌≤◌, ◌==◌, []};

use iol_core::numbers::FileId;
use iol_evict::entry::Rank;
use iol_evict::order::Order;
use iol_evict::users::InUse;
use std::alloc::Global;
use std::process::Abort;
use std::test::Fail;
use test_parts::checks::pass_if;

// One file is in use.
#[derive(Drop)]
struct UsesFile(u32);

impl InUse for UsesFile {
    ghost in_use = { λ users file at. users.0 == file };

    ghost can_ask = { λ users file at. Unit {0} };

    fn is_in_use(&self, file: FileId, _at: u32) -> bool {
        self.0 == file.number()
    }
}

// An order without entries, and room for some.
fn make_order<R: Abort>(rt: &R, alloc: Global, count: usize) -> Order
    ensures entries { result.entries ≡ [] }
    ensures room { count ≤ result.room }
{
    let mut order = Order::new(alloc);
    if order.reserve(count).is_err() {
        panic!(rt; "memory");
    }
    order
}

// The part that is evicted first if a file is in use.
fn first(order: &Order, used: u32) -> Option<(FileId, u32)> {
    order.least(&UsesFile(used), &mut Rank::least())
}

// Two parts of a file and one of another are added, one is evicted, and one is used: their
// heights, and the part that is evicted first.
fn three_in_order(order: &mut Order) -> bool
    requires entries { order.old.entries ≡ [] }
    requires room { 3 ≤ order.old.room }
{
    let (one, two) = (FileId::new(1), FileId::new(2));
    let none = first(order, 0).is_none();
    order.enter(one, 0, 4096, 1);
    order.enter(one, 8192, 8192, 1);
    order.enter(two, 0, 4096, 3);
    let heights = [
        order.height(one, 0),
        order.height(one, 8192),
        order.height(two, 0),
    ];
    let firsts = [first(order, 0), first(order, 1)];
    order.evict(one, 8192, &mut Rank::least());
    let low = order.low();
    order.hit(one, 0);
    let is_high = heights == [4096, 2048, 12288] && order.height(one, 0) == 6144;
    let goes_first = firsts == [Some((one, 8192)), Some((two, 0))]
        && first(order, 0) == Some((one, 0));
    none && is_high && low == 2048 && goes_first
}

fn three_hold<R: Abort>(rt: &R, alloc: Global) -> bool {
    let mut order = make_order(rt, alloc, 3);
    let all = three_in_order(&mut order);
    drop(order);
    all
}

#[test]
fn order_of_three(rt: HostRuntime) -> Result<(), Fail> {
    pass_if(three_hold(&rt, rt.alloc()))
}

// Room for more entries than there are pages, and again for fewer, which exists already.
fn rooms_hold<R: Abort>(rt: &R, alloc: Global) -> bool {
    let mut order = make_order(rt, alloc, 3);
    let rooms = order.reserve(4096).is_ok() && order.reserve(16).is_ok();
    let three = three_in_order(&mut order);
    drop(order);
    rooms && three
}

#[test]
fn ample(rt: HostRuntime) -> Result<(), Fail> {
    pass_if(rooms_hold(&rt, rt.alloc()))
}

// Rounds of a small and costly part: it is added, and evicted.
fn evict_rounds(order: &mut Order, rounds: u32)
    requires entries { order.old.entries ≡ [] }
    requires room { 0 < order.old.room }
    ensures entries { order.new.entries ≡ [] }
    ensures room { 0 < order.new.room }
{
    for _ in 0..rounds {
        order.enter(FileId::new(1), 0, 1, u32::MAX);
        order.evict(FileId::new(1), 0, &mut Rank::least());
    }
}

fn limit_holds<R: Abort>(rt: &R, alloc: Global) -> bool {
    let mut order = make_order(rt, alloc, 1);
    evict_rounds(&mut order, 64);
    let high = order.low();
    evict_rounds(&mut order, 1);
    let low = order.low();
    drop(order);
    high == (1 << 62) - (1 << 30) && low == 0
}

#[test]
fn heights_past_the_limit(rt: HostRuntime) -> Result<(), Fail> {
    pass_if(limit_holds(&rt, rt.alloc()))
}
