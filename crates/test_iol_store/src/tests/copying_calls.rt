//! Each copying call that needs memory succeeds if there is enough, on a file and on a pipe.
use super::kernel_calls::{Inputs, make_inputs, pools_answer};
use super::kernels::TestKernel;
use iol_core::refusals::Refusal;
use std::alloc::Global;
use std::test::Fail;
use test_parts::checks::{lend, pass};

fn copies_answer(kernel: &mut TestKernel, with: &Inputs) -> bool {
    kernel.makes_file(&with.name)
        && kernel.opens(&with.name, 0)
        && kernel.copies_in(0, b"abcd", 4)
        && kernel.seeks(0, 0)
        && kernel.copies_out(0, *b"abcd")
        && kernel.makes_pipe(1, 2)
        && kernel.copies_in(2, b"efghij", 6)
        && kernel.copies_out(1, *b"efgh")
        && kernel.copies_list(1, b"ij")
}

fn all_copy(alloc: Global) -> Result<bool, Refusal> {
    let with = make_inputs(alloc)?;
    lend(
        TestKernel::new(alloc),
        |kernel| pools_answer(kernel, &with) && copies_answer(kernel, &with),
    )
}

#[test]
fn ample(rt: HostRuntime) -> Result<(), Fail> {
    pass(all_copy(rt.alloc()))
}
