//! Reading by copying.
ghost use Rattle.std.specs.Prelude.{◌<◌, ◌^◌, ◌-◌, length, min};
ghost use Rattle.iol_kernel.specs.Prelude.{state_of, IsOnNoFile, IsSound, ReadsList};
ghost use Rattle.iol_posix.specs.Reads.{ReadsInto, TakesOut};

use iol_back::backing::Backing;
use iol_core::lists::Bytes;
use iol_core::numbers::{DomainId, Fd};
use iol_core::refusals::Refusal;
use iol_kernel::kernel::Kernel;

/// Reads into the caller's memory, at most `into.len()` bytes and fewer than 2^32, and returns their
/// number. No aggregate and no list is made of them. From a queue no memory is requested, from a file
/// only what the cache of files needs.
pub fn read<B: Backing>(
    kernel: &mut Kernel,
    backing: &mut B,
    by: DomainId,
    fd: Fd,
    into: &mut [u8],
) -> Result<u32, Refusal>
    requires { IsSound (state_of kernel.old) }
    ensures { ReadsInto by fd (min (length into.old) (2 ^ 32 - 1)) into.old into.new B.disk backing.old
        backing.new kernel.old result kernel.new }
{
    let most = into.len().min(u32::MAX as usize);
    read_front(kernel, backing, by, fd, &mut into[..most])
}

// Reads into a memory of fewer than 2^32 bytes.
fn read_front<B: Backing>(
    kernel: &mut Kernel,
    backing: &mut B,
    by: DomainId,
    fd: Fd,
    into: &mut [u8],
) -> Result<u32, Refusal>
    requires sound { IsSound (state_of kernel.old) }
    requires short { length into.old < 2 ^ 32 }
    ensures { ReadsInto by fd (length into.old) into.old into.new B.disk backing.old backing.new
        kernel.old result kernel.new }
{
    match kernel.file_open(by, fd) {
        Some(found) => kernel.copy_file_into(backing, by, fd, found, into),
        None => read_queue(kernel, by, fd, into),
    }
}

// Reads from a pipe or a connection.
fn read_queue(kernel: &mut Kernel, by: DomainId, fd: Fd, into: &mut [u8]) -> Result<u32, Refusal>
    requires { IsOnNoFile (state_of kernel.old) by fd }
    ensures { TakesOut by fd into.old into.new kernel.old result kernel.new }
{
    kernel.waiting(by, fd, into.len())?;
    Ok(kernel.take_into(by, fd, into))
}

/// Reads up to `count` bytes, as a separate list: from a queue, or from a file, whose store is asked for
/// the bytes that are not in memory. Memory is requested for the bytes read.
pub fn read_bytes<B: Backing>(
    kernel: &mut Kernel,
    backing: &mut B,
    by: DomainId,
    fd: Fd,
    count: u32,
) -> Result<Bytes, Refusal>
    requires { IsSound (state_of kernel.old) }
    ensures { ReadsList by fd count (B.disk backing.old) kernel.old result (B.disk backing.new)
        kernel.new }
{
    kernel.read_bytes(backing, by, fd, count)
}
