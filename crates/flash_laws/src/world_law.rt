//! The law over a world in which scripts run: connections do not interfere, for files and for the
//! output of scripts. The function has no effect; its contract is the law.
ghost use Rattle.std.specs.Prelude.{ℕ, Bool, List};
ghost use Rattle.iol_core.specs.Prelude.{State};
ghost use Rattle.iol_core.specs.declared.events.Reply.{Reply};
ghost use Rattle.iol_proc.specs.Prelude.{Quiesces, TransitionRelation};
ghost use Rattle.iol_proc.specs.declared.process_slot.ProcessSlot.{ProcessSlot};
ghost use Rattle.flash_cgi.specs.Prelude.{Made};
ghost use Rattle.flash_laws.specs.Workers.WorkerSets.{OfEach, OfSome};
ghost use Rattle.flash_laws.specs.World.Quiesces.{ActorsQuiesce};
ghost use Rattle.flash_laws.specs.Serves.Rounds.{in_rounds};
ghost use Rattle.flash_laws.specs.Serves.{any};
ghost use Rattle.flash_laws.specs.Workers.{WorkersRun};
ghost use Rattle.flash_laws.specs.World.{ARunIsUndisturbed, RunKeepsConsistency, StepKeepsConsistency, ConsistentAtFirst, ConsistentIsAnswered, ConsistentIsWhole};
ghost use Rattle.flash_laws.specs.World.Done.{IdleIsDone};
ghost use Rattle.flash_laws.specs.World.Host.{HostIsRight};

use crate::run_laws::{run_keeping_law, runs_law};
use crate::worker_laws::expected_may_come;
use flash_cgi::laws::others_receive;
use flash_http::{served_requests, window_fits, window_stays};
use iol_laws::laws;

/// The requirements of the law on workers that run scripts.
pub trait RunsScripts: Drop {
    /// Its account: the turns that it may take, and when it may run out of memory.
    ghost turns: { TransitionRelation Self };

    /// Its condition when idle, as in `iol_proc::idle::Quiescence`.
    ghost quiescent: { ℕ → ℕ → Self → Reply → State → Type 0 };

    /// A free worker, with its output in these pools, and with this job pipe.
    ghost free: { (ℕ → Bool) → State → ℕ → ProcessSlot Self → Type 0 };

    /// A worker with an expected text: its pools, the machine, the pipes of its jobs and of the
    /// text, the output of its script, and the text.
    ghost expected: { (ℕ → Bool) → State → ℕ → ℕ → ProcessSlot Self → Made → List ℕ → Type 0 };

    /// Shows that a script outputs one text. The function has no effect.
    fn runs()
        ensures { (pools : ℕ → Bool)
            → WorkersRun turns quiescent pools (free pools) (expected pools) };

    /// Shows that it preserves its condition. The function has no effect.
    fn quiesces()
        ensures { Quiesces quiescent turns };
}

/// Connections do not interfere, with any number of workers with distinct job pipes. A new world
/// has the invariant. Each step and each run preserve it, in rounds or with any policy of the
/// server, if external calls are site-preserving and turns are fair (`AreFair`): they get TooMany,
/// NoRoom, Fault and Memory only as the site contents permit. In a world with the invariant, the
/// bytes sent on each connection of the net begin an answer to its input, with files and output of
/// scripts, and are all of it once the connection is closed, unless its peer left; and the server
/// has only the aggregates that its clients use, or that external calls gave it (`IsServing`).
/// When all are idle, nothing is left to do, except for clients with a full output queue, clients
/// that wait for a worker while each worker runs the script of such a client, and connections that
/// wait while the server has the maximum number; and each aggregate of the server is used by a
/// client with a full output queue, or came from outside.
pub fn world_law<W: RunsScripts>()
    ensures first { OfEach W.turns W.quiescent W.free W.expected ConsistentAtFirst }
    ensures step { OfEach W.turns W.quiescent W.free W.expected (StepKeepsConsistency in_rounds) }
    ensures run { OfEach W.turns W.quiescent W.free W.expected (RunKeepsConsistency in_rounds) }
    ensures free_step { OfEach W.turns W.quiescent W.free W.expected (StepKeepsConsistency any) }
    ensures free_run { OfEach W.turns W.quiescent W.free W.expected (RunKeepsConsistency any) }
    ensures answered { OfEach W.turns W.quiescent W.free W.expected ConsistentIsAnswered }
    ensures whole { OfEach W.turns W.quiescent W.free W.expected ConsistentIsWhole }
    ensures quiesces { ActorsQuiesce W.turns W.quiescent }
    ensures idle { OfEach W.turns W.quiescent W.free W.expected IdleIsDone }
    ensures host { OfEach W.turns W.quiescent W.free W.expected HostIsRight }
{
    W::runs();
    W::quiesces();
    runs_law();
    run_keeping_law();
    expected_may_come();
    others_receive();
    served_requests();
    laws::each_step_leaves_the_rest();
    laws::each_step_keeps_order();
    laws::calls_serve_their_domain();
    laws::file_calls_serve_their_domain();
    laws::refusals_tell_why();
    laws::refusals_that_are_left();
    laws::numbers_are_new();
    laws::others_leave_connections();
    laws::others_leave_pipes();
    laws::connection_numbers_rise();
    laws::aggregates_come_and_go();
    laws::labels_follow();
    laws::descriptors_come_by_replies();
    window_stays();
    window_fits();
}

/// The premises of the law can be met, for all workers: there is a new world, with only the
/// server, and an undisturbed run of it in which a connection of the net is created and accepted.
pub fn premises_can_be_met<W: RunsScripts>()
    ensures { OfSome W.turns W.quiescent W.free W.expected ARunIsUndisturbed }
{
    laws::each_step_keeps_order();
    laws::descriptors_come_by_replies();
}
