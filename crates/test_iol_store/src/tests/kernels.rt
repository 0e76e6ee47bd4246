//! A kernel over a store in memory, with a method for each call of the kernel and each copying
//! call that compares the reply.
use iol_back::memory::MemoryBacking;
use iol_back::slots::Slots;
use iol_core::configuration::Config;
use iol_core::descriptors::Mode;
use iol_core::lists::{Bytes, Domains};
use iol_core::numbers::{AggId, ConnId, DomainId, Fd, FileId, PoolId};
use iol_core::refusals::Refusal;
use iol_kernel::kernel::Kernel;
use iol_posix::{read, read_bytes, write};
use std::alloc::{AllocError, Global};
use std::marker::Model;

/// A copy of these bytes.
pub fn bytes(alloc: Global, text: &[u8]) -> Result<Bytes, AllocError> {
    Ok(Bytes::from_vec(Vec::from_slice(alloc, text)?))
}

fn one() -> DomainId {
    DomainId::new(1)
}

fn two() -> DomainId {
    DomainId::new(2)
}

fn pool() -> PoolId {
    PoolId::new(1)
}

fn agg(number: u64) -> AggId {
    AggId::new(number)
}

/// A kernel and its store, as a type without contracts.
#[derive(Drop)]
pub struct TestKernel {
    kernel: Kernel,
    backing: MemoryBacking,
}

impl Model for TestKernel {
    ghost use Rattle.iol_kernel.specs.Prelude.{state_of, IsSound};

    ghost Value = { Unit {0} };

    ghost view = { λ _. tt };

    ghost invariant = { λ k. IsSound (state_of k.kernel) };
}

impl TestKernel {
    /// A kernel with domain 1, over an empty store.
    pub fn new(alloc: Global) -> Result<TestKernel, Refusal> {
        let kernel = Kernel::new(alloc, Config::DEFAULT)?;
        let backing = MemoryBacking::new(Slots::new(alloc));
        Ok(TestKernel { kernel, backing })
    }

    /// Domain 2.
    pub fn makes_domain(&mut self) -> bool {
        self.kernel.domain_new(one()) == Ok(two())
    }

    /// Pool 1, of two chunks.
    pub fn makes_pool(&mut self, list: &Domains) -> bool {
        self.kernel.pool_create(one(), 2, list) == Ok(pool())
    }

    /// Domain 2 may read pool 1.
    pub fn admits(&mut self) -> bool {
        self.kernel.pool_admit(one(), pool(), two()) == Ok(())
    }

    /// Pool 1 is the default of domain 1.
    pub fn sets_pool(&mut self) -> bool {
        self.kernel.set_pool(one(), pool()) == Ok(())
    }

    pub fn makes_agg(&mut self, bytes: &Bytes, number: u64) -> bool {
        self.kernel.agg_make(one(), bytes.as_slice()) == Ok(agg(number))
    }

    pub fn makes_copy(&mut self, of: u64, number: u64) -> bool {
        self.kernel.agg_dup(one(), agg(of)) == Ok(agg(number))
    }

    pub fn cuts(&mut self, of: u64, from: u32, to: u32, number: u64) -> bool {
        self.kernel.agg_cut(one(), agg(of), from, to) == Ok(agg(number))
    }

    pub fn splits(&mut self, of: u64, at: u32, front: u64, back: u64) -> bool {
        self.kernel.agg_split(one(), agg(of), at) == Ok((agg(front), agg(back)))
    }

    pub fn joins(&mut self, first: u64, second: u64, number: u64) -> bool {
        self.kernel.agg_join(one(), agg(first), agg(second)) == Ok(agg(number))
    }

    pub fn replaces(&mut self, of: u64, to: u32, with: u64, number: u64) -> bool {
        self.kernel.agg_replace(one(), agg(of), 0, to, agg(with)) == Ok(agg(number))
    }

    /// Domain 2 gets its first aggregate.
    pub fn gives(&mut self, of: u64) -> bool {
        self.kernel.agg_give(one(), agg(of), two()) == Ok(agg(1))
    }

    pub fn shows(&self, of: u64, text: &[u8]) -> bool {
        matches!(self.kernel.show(one(), agg(of)), Ok(bytes) if bytes.as_slice() == text)
    }

    /// File 1, in pool 1.
    pub fn makes_file(&mut self, name: &Bytes) -> bool {
        self.kernel.file_new(&self.backing, one(), name, pool()) == Ok(FileId::new(1))
    }

    pub fn opens(&mut self, name: &Bytes, fd: u32) -> bool {
        self.kernel.open_file(one(), name, Mode::Both) == Ok(Fd::new(fd))
    }

    pub fn seeks(&mut self, fd: u32, at: u32) -> bool {
        self.kernel
            .seek(&self.backing, one(), Fd::new(fd), at)
            .is_ok()
    }

    pub fn writes_agg(&mut self, fd: u32, of: u64, count: u32) -> bool {
        self.kernel.iol_write(one(), Fd::new(fd), agg(of)) == Ok(count)
    }

    pub fn reads_agg(&mut self, fd: u32, count: u32, number: u64) -> bool {
        self.kernel
            .iol_read(&mut self.backing, one(), Fd::new(fd), count)
            == Ok(agg(number))
    }

    pub fn writes_bytes(&mut self, fd: u32, text: &[u8], count: u32) -> bool {
        self.kernel.write_bytes(one(), Fd::new(fd), text) == Ok(count)
    }

    pub fn reads_bytes(&mut self, fd: u32, count: u32, text: &[u8]) -> bool {
        let read = self
            .kernel
            .read_bytes(&mut self.backing, one(), Fd::new(fd), count);
        matches!(read, Ok(bytes) if bytes.as_slice() == text)
    }

    pub fn copies_file(&mut self, fd: u32, count: u32, text: &[u8]) -> bool {
        let (by, fd) = (one(), Fd::new(fd));
        let Some(found) = self.kernel.file_open(by, fd) else {
            return false;
        };
        let copied = self
            .kernel
            .copy_file(&mut self.backing, by, fd, found, count);
        matches!(copied, Ok(bytes) if bytes.as_slice() == text)
    }

    /// Reads a file into a buffer of three bytes.
    pub fn copies_file_into(&mut self, fd: u32, text: [u8; 3]) -> bool {
        let (by, fd) = (one(), Fd::new(fd));
        let Some(found) = self.kernel.file_open(by, fd) else {
            return false;
        };
        let mut memory = [0; 3];
        let count = self
            .kernel
            .copy_file_into(&mut self.backing, by, fd, found, &mut memory);
        count == Ok(3) && memory == text
    }

    /// Shows an aggregate in a buffer of four bytes.
    pub fn shows_into(&self, of: u64, text: [u8; 4]) -> bool {
        let mut memory = [0; 4];
        self.kernel.show_into(one(), agg(of), &mut memory) == Ok(4) && memory == text
    }

    pub fn makes_pipe(&mut self, read_end: u32, write_end: u32) -> bool {
        self.kernel.pipe(one()) == Ok((Fd::new(read_end), Fd::new(write_end)))
    }

    /// Domain 2 gets its first descriptor.
    pub fn gives_fd(&mut self, fd: u32) -> bool {
        self.kernel.give_fd(one(), Fd::new(fd), two()) == Ok(Fd::new(0))
    }

    /// Connection 1.
    pub fn connects(&mut self) -> bool {
        self.kernel.conn_new(pool()) == Ok(ConnId::new(1))
    }

    pub fn arrives(&mut self, bytes: &Bytes, count: u32) -> bool {
        self.kernel.arrive(ConnId::new(1), bytes) == Ok(count)
    }

    pub fn arrives_from(&mut self, reader: &mut &[u8], count: u32) -> bool {
        match self.kernel.arrive_from(ConnId::new(1), reader, 4096) {
            Ok(arrived) => arrived.taken == count,
            Err(_) => false,
        }
    }

    pub fn accepts(&mut self, fd: u32) -> bool {
        self.kernel.accept(one()) == Ok(Fd::new(fd))
    }

    pub fn transmits(&mut self, max: u32, text: &[u8]) -> bool {
        match self.kernel.transmit(ConnId::new(1), max) {
            Ok(segment) => segment.bytes.as_slice() == text,
            Err(_) => false,
        }
    }

    pub fn reports(&self, extents: usize) -> bool {
        match self.kernel.report() {
            Ok(report) => report.pools.len() == 1 && report.extents == extents,
            Err(_) => false,
        }
    }

    /// Writes by copying.
    pub fn copies_in(&mut self, fd: u32, text: &[u8], count: u32) -> bool {
        write(&mut self.kernel, one(), Fd::new(fd), text) == Ok(count)
    }

    /// Reads into a buffer of four bytes.
    pub fn copies_out(&mut self, fd: u32, text: [u8; 4]) -> bool {
        let mut memory = [0; 4];
        let count = read(
            &mut self.kernel,
            &mut self.backing,
            one(),
            Fd::new(fd),
            &mut memory,
        );
        count == Ok(4) && memory == text
    }

    /// Reads a list by copying.
    pub fn copies_list(&mut self, fd: u32, text: &[u8]) -> bool {
        let list = read_bytes(&mut self.kernel, &mut self.backing, one(), Fd::new(fd), 9);
        matches!(list, Ok(bytes) if bytes.as_slice() == text)
    }
}
