//! The system on which a script runs.
ghost use Rattle.std.specs.Option.{ForSome};
ghost use Rattle.std.specs.Prelude.{◌≡◌, [], None};
ghost use Rattle.iol_core.specs.Prelude.{IsInRange};

use iol_back::slots::Slots;
use iol_core::configuration::Config;
use std::alloc::Global;

/// The system on which a script runs.
#[derive(Drop)]
pub struct Setup {
    /// Its parameters, if the script gives any.
    pub config: Option<Config>,

    /// The number of the store's read or write that fails, counted from 1, if any.
    pub fault: Option<u64>,

    /// The bytes of the store's files.
    pub slots: Slots,
    ghost sizes_in_range: { ForSome config IsInRange },
}

impl Setup {
    /// A system with the default parameters, over an empty store without faults.
    pub fn new(alloc: Global) -> Setup
        ensures config { result.config ≡ None }
        ensures fault { result.fault ≡ None }
        ensures slots { result.slots ≡ [] }
    {
        Setup {
            config: None,
            fault: None,
            slots: Slots::new(alloc),
        }
    }
}
