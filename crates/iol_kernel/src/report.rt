//! The counts of a system.
ghost use Rattle.std.specs.Prelude.{◌≡◌, ◌≤◌, length, IfOk};
ghost use Rattle.iol_core.specs.declared.limits.TheConstants.{MAX_POOLS};
ghost use Rattle.iol_kernel.specs.Report.{reports_of};

use iol_core::numbers::PoolId;
use iol_hold::Store;
use iol_pool::report::PoolReport;
use std::alloc::{AllocError, Global};

/// The counts of a system's pools, extents and buffers.
#[derive(Debug, Drop)]
pub struct Report {
    /// The pools by rising number, except those whose chunks were returned.
    pub pools: Vec<PoolReport>,
    /// The number of extents of files.
    pub extents: usize,
    /// The number of extents that are not written back.
    pub dirty: usize,
    /// The number of live buffers.
    pub buffers: u32,
}

/// The pools that still have their chunks, by rising number.
pub(crate) fn report_pools(alloc: Global, store: &Store) -> Result<Vec<PoolReport>, AllocError>
    requires { length store.now.pools ≤ MAX_POOLS }
    ensures { IfOk result (λ v. v.items ≡ reports_of store.now (length store.now.pools)) }
{
    let count = store.pools().len();
    let mut reports = Vec::with_capacity(alloc, count)?;
    for n in 0..count {
        let report = store.report_pool(PoolId::new(n as u32 + 1));
        if report.pages == 0 {
            continue;
        }
        reports.push_reserved(report);
    }
    Ok(reports)
}
