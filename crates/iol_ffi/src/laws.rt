//! The law of runs of calls from C. The function has no effect; its contract is the law.
ghost use Rattle.iol_ffi.specs.Runs.{CallsAreARun};

/// Successive calls of `iol_step` on one handle are a run. The events that C passed and the
/// replies that it got are a chain of steps, each with all its guarantees; over an honest store
/// they are a run of the copying machine.
pub fn calls_are_a_run()
    ensures { CallsAreARun }
{}
