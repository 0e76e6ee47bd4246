//! Each call that needs memory succeeds if there is enough.
ghost use Rattle.std.specs.Prelude.{◌≡◌, ◌<◌};
ghost use Rattle.std.specs.List.{All};
ghost use Rattle.iol_arena.specs.Prelude.{chunk_count, IsLive};

use iol_arena::arena::Arena;
use iol_arena::chunks::ChunkSet;
use iol_core::configuration::Config;
use iol_core::numbers::BufId;
use std::alloc::Global;
use std::process::Abort;
use std::test::Fail;
use test_parts::checks::pass_if;

/// A buffer of five bytes, 7 and zeros.
pub fn make_one<R: Abort>(rt: &R, alloc: Global, arena: &mut Arena, set: &ChunkSet) -> BufId
    requires { All (λ c. c < chunk_count arena.old) set.now }
    ensures live { IsLive arena.new result }
    ensures taken { arena.new.taken ≡ arena.old.taken }
{
    let mut filling = arena.begin(alloc, set, 5).expect(rt, "room");
    filling.part_mut(0)[0] = 7;
    let bufs = filling.publish(5);
    let list = bufs.as_slice();
    assert!(rt; list.len() > 0);
    list[0]
}

// The contents of such a buffer.
fn has_seven(arena: &Arena, buf: BufId) -> bool
    requires { IsLive arena.now buf }
{
    arena.buffer_count() == 1
        && arena.len(buf) == 5
        && arena.bytes(buf, 0, 5) == [7, 0, 0, 0, 0].as_slice()
}

// Fills a buffer and frees it.
fn round<R: Abort>(rt: &R, alloc: Global, arena: &mut Arena, set: &ChunkSet) -> bool
    requires { All (λ c. c < chunk_count arena.old) set.now }
    ensures { chunk_count arena.new ≡ chunk_count arena.old }
{
    let buf = make_one(rt, alloc, arena, set);
    let has_seven = has_seven(arena, buf);
    arena.free(buf);
    has_seven
}

// Begins a filling, writes to it and publishes it.
fn begin<R: Abort>(rt: &R, alloc: Global, arena: &mut Arena, set: &ChunkSet) -> bool
    requires { All (λ c. c < chunk_count arena.old) set.now }
{
    let mut filling = arena.begin(alloc, set, 70_000).expect(rt, "room");
    let parts = filling.part_count();
    filling.part_mut(0)[0] = 7;
    let bufs = filling.publish(70_000);
    parts == 2 && bufs.len() == 2
}

// Takes an empty chunk.
fn take_one<R: Abort>(rt: &R, arena: &mut Arena) -> bool {
    let chunk = arena.take_chunk().expect(rt, "a chunk");
    arena.free_in(chunk) == 16 && arena.retired_in(chunk) == 0 && arena.is_unused(chunk)
}

// Takes two more chunks, on which buffers are made and freed.
fn use_two<R: Abort>(rt: &R, alloc: Global, arena: &mut Arena) -> bool {
    let set = arena.take_chunks(alloc, 2).expect(rt, "chunks");
    let mut all = true;
    for _ in 0..100_000 {
        all &= round(rt, alloc, arena, &set);
    }
    begin(rt, alloc, arena, &set) && all
}

fn all_hold<R: Abort>(rt: &R, alloc: Global) -> bool {
    let config = Config {
        chunks: 3,
        gen_limit: u32::MAX,
        sums: 1,
    };
    let mut arena = Arena::new(alloc, config).expect(rt, "memory");
    let all = take_one(rt, &mut arena) && use_two(rt, alloc, &mut arena);
    drop(arena);
    all
}

#[test]
fn ample(rt: HostRuntime) -> Result<(), Fail> {
    pass_if(all_hold(&rt, rt.alloc()))
}
