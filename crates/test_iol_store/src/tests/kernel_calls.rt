//! Each call of a kernel that needs memory succeeds if there is enough.
use super::kernels::{TestKernel, bytes};
use iol_core::lists::{Bytes, Domains};
use iol_core::numbers::DomainId;
use iol_core::refusals::Refusal;
use std::alloc::{AllocError, Global};
use std::test::Fail;
use test_parts::checks::{lend, pass};

/// Lists and texts of calls.
#[derive(Drop)]
pub struct Inputs {
    pub readers: Domains,
    pub text: Bytes,
    pub name: Bytes,
}

/// A list of domain 1, four bytes, and a name.
pub fn make_inputs(alloc: Global) -> Result<Inputs, AllocError> {
    let readers = Domains::from_vec([DomainId::new(1)].to_vec(alloc)?);
    let (text, name) = (bytes(alloc, b"abcd")?, bytes(alloc, b"f")?);
    Ok(Inputs {
        readers,
        text,
        name,
    })
}

/// Two domains, and a pool that both may read, the default of the first.
pub fn pools_answer(kernel: &mut TestKernel, with: &Inputs) -> bool {
    kernel.makes_domain()
        && kernel.makes_pool(&with.readers)
        && kernel.admits()
        && kernel.sets_pool()
}

fn aggregates_answer(kernel: &mut TestKernel, with: &Inputs) -> bool {
    kernel.makes_agg(&with.text, 1)
        && kernel.makes_copy(1, 2)
        && kernel.cuts(1, 1, 3, 3)
        && kernel.splits(2, 1, 4, 5)
        && kernel.joins(5, 4, 6)
        && kernel.replaces(6, 2, 1, 7)
        && kernel.gives(3)
        && kernel.shows(7, b"abcdda")
        && kernel.shows_into(1, *b"abcd")
}

fn files_answer(kernel: &mut TestKernel, with: &Inputs) -> bool {
    kernel.makes_file(&with.name)
        && kernel.opens(&with.name, 0)
        && kernel.writes_agg(0, 1, 4)
        && kernel.writes_bytes(0, b"xy", 2)
        && kernel.seeks(0, 2)
        && kernel.reads_bytes(0, 9, b"cdxy")
        && kernel.seeks(0, 0)
        && kernel.reads_agg(0, 9, 8)
        && kernel.seeks(0, 1)
        && kernel.copies_file(0, 2, b"bc")
        && kernel.copies_file_into(0, *b"dxy")
}

fn queues_answer(kernel: &mut TestKernel, with: &Inputs, reader: &mut &[u8]) -> bool {
    kernel.makes_pipe(1, 2)
        && kernel.gives_fd(1)
        && kernel.connects()
        && kernel.arrives(&with.text, 4)
        && kernel.arrives_from(reader, 3)
        && kernel.accepts(1)
        && kernel.writes_agg(1, 7, 6)
        && kernel.transmits(4, b"abcd")
        && kernel.reports(2)
}

fn all_answer(alloc: Global) -> Result<bool, Refusal> {
    let with = make_inputs(alloc)?;
    let mut reader = b"abc".as_slice();
    lend(TestKernel::new(alloc), |kernel| {
        pools_answer(kernel, &with)
            && aggregates_answer(kernel, &with)
            && files_answer(kernel, &with)
            && queues_answer(kernel, &with, &mut reader)
    })
}

#[test]
fn ample(rt: HostRuntime) -> Result<(), Fail> {
    pass(all_answer(rt.alloc()))
}
