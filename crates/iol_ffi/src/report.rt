//! Reports for C.
ghost use Rattle.iol_ffi.specs.Reports.{HasCounts, IsReported};

use crate::replies::MEMORY;
use crate::store::HostStore;
use iol_kernel::report::Report;
use iol_pool::report::PoolReport;
use iol_system::system::System;

/// The pages of a pool.
#[repr(C)]
#[derive(Drop)]
pub struct IolPool {
    pub pool: u32,
    pub pages: u32,
    pub free: u32,
    pub retired: u32,
}

/// The resource counts of a system. `refusal` is 0, or reports that there was no memory for the
/// count.
#[repr(C)]
#[derive(Drop)]
pub struct IolReport {
    pub refusal: u32,
    pub buffers: u32,
    pub extents: u64,
    pub dirty: u64,
    pub pools: u64,
}

// Writes the pages of pools into `room`, as many as fit.
fn place_all(pools: &[PoolReport], room: &mut [IolPool]) {
    for (at, pool) in pools.iter().enumerate() {
        if let Some(place) = room.get_mut(at) {
            *place = IolPool {
                pool: pool.pool.number(),
                pages: pool.pages,
                free: pool.free,
                retired: pool.retired,
            };
        }
    }
}

// The counts of a report.
fn counts_of(report: &Report) -> IolReport
    ensures { HasCounts report.now result }
{
    IolReport {
        refusal: 0,
        buffers: report.buffers,
        extents: report.extents as u64,
        dirty: report.dirty as u64,
        pools: report.pools.len() as u64,
    }
}

/// Counts the resources of a system. The pools are written to `room`, in ascending order and as
/// many as fit.
pub(crate) fn report_of(system: &System<HostStore>, room: &mut [IolPool]) -> IolReport
    ensures { IsReported system.now.kernel result }
{
    match system.report() {
        Ok(report) => {
            place_all(report.pools.as_slice(), room);
            counts_of(&report)
        }
        Err(_) => IolReport {
            refusal: MEMORY,
            buffers: 0,
            extents: 0,
            dirty: 0,
            pools: 0,
        },
    }
}
