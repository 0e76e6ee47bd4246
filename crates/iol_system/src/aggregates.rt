//! References to the aggregates of all domains.
ghost use Rattle.std.specs.Prelude.{◌≡◌};
ghost use Rattle.iol_kernel.specs.Prelude.{state_of, IsSound};
ghost use Rattle.iol_system.specs.LentBytes.{LendsParts, ReportsLength};
ghost use Rattle.iol_system.specs.Machine.{tables_of};

use iol_agg::Parts;
use iol_core::numbers::{AggId, DomainId};
use iol_core::refusals::Refusal;
use iol_kernel::kernel::Kernel;
use std::marker::Model;

/// References to the aggregates of all domains, valid until the system's next step. Independent of
/// the type of the system's store.
#[derive(Drop)]
pub struct Aggregates<'a> {
    kernel: &'a Kernel,
}

impl<'a> Model for Aggregates<'a> {
    ghost use Rattle.iol_kernel.specs.KernelState as held;
    ghost use Rattle.iol_kernel.specs.Prelude.{state_of};

    ghost Value = { held.KernelState };

    ghost view = { λ a. state_of a.kernel.now };

    ghost invariant = { λ a. held.IsSound (state_of a.kernel.now) };
}

impl<'a> Aggregates<'a> {
    pub(crate) fn new(kernel: &'a Kernel) -> Aggregates<'a>
        requires { IsSound (state_of kernel.now) }
        ensures { result ≡ state_of kernel.now }
    {
        Aggregates { kernel }
    }

    /// The bytes of a domain's aggregate, at their places in memory. Nothing is copied, and no
    /// memory is requested.
    pub fn parts(&self, by: DomainId, agg: AggId) -> Result<Parts<'a>, Refusal>
        ensures { LendsParts (tables_of self.now) by agg result }
    {
        self.kernel.parts(by, agg)
    }

    /// The number of bytes of a domain's aggregate. Its slices are not walked, and no memory is
    /// requested.
    pub fn len(&self, by: DomainId, agg: AggId) -> Result<u32, Refusal>
        ensures { ReportsLength (tables_of self.now) by agg result }
    {
        self.kernel.agg_len(by, agg)
    }
}
