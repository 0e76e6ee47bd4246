//! Laws of worlds, for proofs about programs that run in them. The functions have no effect; their
//! contracts are the laws.
ghost use Rattle.iol_proc.specs.Histories.{HistoriesOfChoices};
ghost use Rattle.iol_proc.specs.Quiescence.{IdleIsQuiescent};
ghost use Rattle.iol_proc.specs.FailureFree.{FailureFreeRuns};

use crate::idle::Quiescence;
use crate::process::Process;

/// The bytes received and sent on each connection, over choices and their replies. The choices of
/// a run are events of the machine with the same histories: a turn is one call of its own domain,
/// or none. The unread bytes are the last of the bytes received, and queued bytes are sent first.
pub fn histories_of_choices<P: Process>()
    ensures { HistoriesOfChoices P.turns }
{}

/// If [`World::until_idle`](crate::world::World::until_idle) returns true and the store is honest,
/// each process meets its own condition for two yields.
pub fn idle_is_quiescent<P: Quiescence>()
    ensures { IdleIsQuiescent P.quiescent P.turns }
{
    P::quiesces();
}

/// A world has its `resource_failure` flag set after a run if and only if it was set before, or a
/// turn of the run had the reply TooMany, NoRoom, Fault or Memory. So if the flag is clear after a
/// run, no turn had such a reply.
pub fn failure_free_runs<P: Process>()
    ensures { FailureFreeRuns P.turns }
{}
