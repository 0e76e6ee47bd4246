//! Stores: their contents after some calls, and the call that fails.

use iol_back::backing::Backing;
use iol_back::faulty::FaultyBacking;
use iol_back::memory::MemoryBacking;
use iol_back::slots::Slots;
use iol_core::numbers::FileId;
use std::alloc::Global;
use std::process::Abort;
use std::test::Fail;
use test_parts::checks::pass_if;

// Appends bytes to the first file.
fn append<R: Abort>(rt: &R, slots: &mut Slots, text: &[u8]) {
    slots.append(FileId::new(1), text).expect(rt, "memory");
}

// A store whose first file is "abcdef".
fn make_store<R: Abort>(rt: &R, alloc: Global) -> MemoryBacking {
    let mut slots = Slots::new(alloc);
    append(rt, &mut slots, b"abc");
    append(rt, &mut slots, b"def");
    MemoryBacking::new(slots)
}

// The same store, whose k-th call fails; none for 0.
fn make_faulty<R: Abort>(rt: &R, alloc: Global, k: u64) -> FaultyBacking<MemoryBacking> {
    FaultyBacking::new(make_store(rt, alloc), k)
}

// Returns whether bytes can be read from a position.
fn reads<B: Backing>(store: &mut B, file: u32, at: u32, into: &mut [u8]) -> bool {
    store.read_at(FileId::new(file), at, into).is_ok()
}

// Returns whether bytes can be written to a position.
fn writes<B: Backing>(store: &mut B, file: u32, at: u32, bytes: &[u8]) -> bool {
    store.write_at(FileId::new(file), at, bytes).is_ok()
}

// Returns whether a file begins with these bytes.
fn begins_with<B: Backing>(store: &mut B, file: u32, want: &[u8; 6]) -> bool {
    let mut bytes = [0; 6];
    reads(store, file, 0, &mut bytes) && bytes == *want
}

// Writes that extend a file, and a write to a new one.
fn writes_and_reads<B: Backing>(store: &mut B) -> bool {
    writes(store, 1, 5, b"XYZ")
        && store.length(FileId::new(1)) == 8
        && begins_with(store, 1, b"abcdeX")
        && writes(store, 2, 0, b"uvwxyz")
        && begins_with(store, 2, b"uvwxyz")
        && store.failures() == 0
}

fn both_hold<R: Abort>(rt: &R, alloc: Global) -> bool {
    writes_and_reads(&mut make_store(rt, alloc)) && writes_and_reads(&mut make_faulty(rt, alloc, 0))
}

#[test]
fn ample(rt: HostRuntime) -> Result<(), Fail> {
    pass_if(both_hold(&rt, rt.alloc()))
}

// Returns whether there is no file of that number.
fn is_no_file<B: Backing>(store: &mut B, number: u32) -> bool {
    !reads(store, number, 0, &mut [])
        && !writes(store, number, 0, b"")
        && store.length(FileId::new(number)) == 0
}

// A read past the end, a write that begins past it, and a number without file fail each time;
// nothing else does.
fn fails_outside<B: Backing>(store: &mut B) -> bool {
    let mut two = [0; 2];
    !reads(store, 1, 5, &mut two)
        && !writes(store, 1, 7, b"x")
        && is_no_file(store, 0)
        && is_no_file(store, 1025)
        && store.failures() == 6
        && reads(store, 1, 4, &mut two)
        && writes(store, 1024, 0, b"z")
}

#[test]
fn outside_of_files(rt: HostRuntime) -> Result<(), Fail> {
    pass_if(fails_outside(&mut make_store(&rt, rt.alloc())))
}

// Returns whether the k-th of three calls fails, once, and the first file has these contents
// afterwards.
fn fails_at<B: Backing>(store: &mut B, k: u64, want: &[u8; 6]) -> bool {
    let first = writes(store, 1, 0, b"VW");
    let second = writes(store, 1, 2, b"XYZ");
    let third = reads(store, 1, 5, &mut [0; 1]);
    let failures = store.failures();
    [first, second, third] == [k != 1, k != 2, k != 3]
        && failures == u64::from(k != 0)
        && begins_with(store, 1, want)
}

// The call that fails, and the contents of the first file afterwards: a failing write leaves half
// of its bytes.
const FAULTS: [(u64, &[u8; 6]); 4] = [
    (0, b"VWXYZf"),
    (1, b"VbXYZf"),
    (2, b"VWXdef"),
    (3, b"VWXYZf"),
];

fn all_fail<R: Abort>(rt: &R, alloc: Global) -> bool {
    let mut all = true;
    for (k, want) in FAULTS {
        all &= fails_at(&mut make_faulty(rt, alloc, k), k, want);
    }
    all
}

#[test]
fn fault_at_each_call(rt: HostRuntime) -> Result<(), Fail> {
    pass_if(all_fail(&rt, rt.alloc()))
}
