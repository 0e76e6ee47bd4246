//! The law for the processes of this crate. The functions have no effect; their contracts are the
//! law.
ghost use Rattle.flash_laws.specs.Prelude.{ActorsQuiesce, in_rounds, RunKeepsConsistency, StepKeepsConsistency, ConsistentAtFirst, ConsistentIsAnswered, ConsistentIsWhole, IdleIsDone, HostIsRight};
ghost use Rattle.flash_lite.specs.WorkerSet.{worker_set_of};
ghost use Rattle.flash_lite.specs.Harmless.{HarmlessIsSitePreserving, HarmlessIsRight};
ghost use Rattle.flash_lite.specs.HostedFiles.{HostedFilesBecomeIdle};
ghost use Rattle.flash_lite.specs.HostedSite.{HostedIsRight};
ghost use Rattle.flash_lite.specs.SiteWorld.{SetUpIsANewWorld};
ghost use Rattle.flash_lite.specs.Workers.{worker_turns, worker_quiescent};
ghost use Rattle.flash_lite.specs.declared.site.Site.{Site};

use crate::actor::{Actor, Worker};
use flash_cgi::laws::workers_stay_free;
use flash_laws::answer_laws::runs_are_fair;
use flash_laws::laws::site_law;
use flash_laws::world_law::world_law;
use flash_progress::laws::file_server_becomes_idle;
use iol_laws::laws;
use iol_proc::laws::{failure_free_runs, idle_is_quiescent};

/// Connections do not interfere, for every site, with or without scripts, for the account of
/// `Actor` as a process. A new world has the invariant. Each step and each run preserve it, if
/// external calls are site-preserving and turns are fair: they get TooMany, NoRoom, Fault and
/// Memory only as the site contents permit. In a world with the invariant, the bytes sent on each
/// connection of the net begin an answer to its input, with files and output of scripts, and are
/// all of it once the connection is closed, unless its peer left. When all are idle, nothing is
/// left to do except for connections with a full queue, clients that wait for workers of such
/// connections, and connections that wait while the server has the maximum number; and the server
/// has only the aggregates that connections with a full queue use, or that external calls gave it
/// (`IsDone`).
pub fn connections_do_not_meet()
    ensures first { (s : Site) → ConsistentAtFirst (worker_set_of s) }
    ensures step { (s : Site) → StepKeepsConsistency in_rounds (worker_set_of s) }
    ensures run { (s : Site) → RunKeepsConsistency in_rounds (worker_set_of s) }
    ensures answered { (s : Site) → ConsistentIsAnswered (worker_set_of s) }
    ensures whole { (s : Site) → ConsistentIsWhole (worker_set_of s) }
    ensures quiesces { ActorsQuiesce worker_turns worker_quiescent }
    ensures idle { (s : Site) → IdleIsDone (worker_set_of s) }
    ensures host { (s : Site) → HostIsRight (worker_set_of s) }
{
    world_law::<Worker>();
}

/// After the calls of a site within its limits, none of them refused, the world of its processes
/// is new, with or without scripts, if the machine was: the server and scripts find files by name,
/// with the bytes of their slots, except private ones; each worker waits for a job, and may read
/// its jobs; the server may read the output of workers.
pub fn set_up_is_a_new_world()
    ensures { SetUpIsANewWorld }
{
    laws::each_step_keeps_order();
    laws::descriptors_come_by_replies();
    workers_stay_free();
}

/// The result of [`host`](crate::host::host) over an honest store is right, for every site, if
/// external calls were site-preserving: the bytes sent on each connection of the net begin an
/// answer to its input, for files and scripts, and are all of it once it is closed, unless its peer
/// left; when all are idle, nothing is left to do except what waits for others (`IsDone`). An
/// answer may have a refusal TooMany, NoRoom, Fault or Memory instead of a file: one that turns of
/// the server got, instead of a file of the site, and one that turns of workers got, instead of a
/// file that a script names (`own`, `fair`); none, if the world's failure flag is clear
/// (`failure_free`). No premise is about refusals.
pub fn hosted_is_right()
    ensures { HostedIsRight }
{
    connections_do_not_meet();
    idle_is_quiescent::<Actor>();
    failure_free_runs::<Actor>();
    runs_are_fair();
}

/// External calls were site-preserving if each is by a domain after those of the processes, that of
/// a guest, and is none of `file_new`, `iol_write`, `write` and `pool_admit`; this can be decided
/// by the choices. So a site hosted with such choices is right, whatever was refused: with the
/// refusals that its turns got, and with none if the world's failure flag is clear.
pub fn harmless_is_right()
    ensures site_preserving { HarmlessIsSitePreserving }
    ensures right { HarmlessIsRight }
{
    connections_do_not_meet();
    hosted_is_right();
    site_law();
    failure_free_runs::<Actor>();
    runs_are_fair();
}

/// A site without scripts that [`host`](crate::host::host) hosts over an honest store becomes idle,
/// whatever was refused before, if external calls are site-preserving, the pool `work` is still
/// open when `until_idle` begins, its number of turns suffices for that state
/// (`turns_that_suffice`), and none of them is refused for lack of table entries, pages or memory.
/// Then each connection of the net is served, with responses that the refusals of its turns permit:
/// all requests that arrived on it have their responses, or its peer left, or its queue is full, or
/// it is not accepted and the server has the maximum number of connections.
pub fn hosted_files_become_idle()
    ensures { HostedFilesBecomeIdle }
{
    file_server_becomes_idle::<Worker>();
    runs_are_fair();
}
