//! Printed text.
use iol_core::numbers::{FileId, PoolId};
use iol_core::refusals::Refusal;
use std::alloc::Global;
use std::test::Fail;
use test_parts::checks::pass_each;

// All refusals in the order of their declaration, and their printed texts.
fn printed() -> [(Refusal, &'static str); 17] {
    let (pool, file) = (PoolId::new(7), FileId::new(3));
    [
        (Refusal::NoDomain, "NoDomain"),
        (Refusal::BadFd, "BadFd"),
        (Refusal::BadAgg, "BadAgg"),
        (Refusal::NoPool, "NoPool"),
        (Refusal::NoFile, "NoFile"),
        (Refusal::WrongMode, "WrongMode"),
        (Refusal::BadRange, "BadRange"),
        (Refusal::TooLong, "TooLong"),
        (Refusal::TooMany, "TooMany"),
        (Refusal::Denied { pool }, "Denied pool 7"),
        (Refusal::PoolClosed { pool }, "PoolClosed pool 7"),
        (Refusal::PoolBusy { pool }, "PoolBusy pool 7"),
        (Refusal::BrokenPipe, "BrokenPipe"),
        (Refusal::WouldBlock, "WouldBlock"),
        (Refusal::NoRoom { pool }, "NoRoom pool 7"),
        (Refusal::Fault { file }, "Fault file 3"),
        (Refusal::Memory, "Memory"),
    ]
}

// Returns whether a refusal has this printed text, which begins with its name.
fn prints(alloc: Global, refusal: Refusal, text: &str) -> Result<bool, Refusal> {
    let printed = format!(in alloc; "{refusal}")?;
    Ok(printed.as_str() == text && text.starts_with(refusal.name()))
}

#[test]
fn refusals_print_their_names(rt: HostRuntime) -> Result<(), Fail> {
    let alloc = rt.alloc();
    pass_each(&printed(), |(refusal, text)| prints(alloc, *refusal, text))
}
