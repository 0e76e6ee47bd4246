//! Properties of workers, and of the response expected to a request, that the law over a world with
//! workers needs. The functions have no effect; their contracts are the laws.
ghost use Rattle.std.specs.Prelude.{ℕ, Bool};
ghost use Rattle.flash_cgi.specs.Prelude.{HasWaited, worker_turns};
ghost use Rattle.flash_laws.specs.SiteContents.Expected.{ExpectedMayCome};
ghost use Rattle.flash_laws.specs.Workers.DeliversText.{TextsAreDelivered};
ghost use Rattle.flash_laws.specs.Workers.{IsExpectedOf, IsFreeFor, WorkersRun};

use flash_cgi::laws as scripts;
use iol_laws::laws;

/// The worker that runs scripts meets the requirements of the law, for all pools of the files: a
/// script outputs one text, which is in these pools, and only a full pipe can block its worker. A
/// worker changes nothing else, and is free again after the script.
pub fn workers_run()
    ensures { (pools : ℕ → Bool)
        → WorkersRun worker_turns HasWaited pools (IsFreeFor pools) (IsExpectedOf pools) }
{
    scripts::workers_stay_free();
    scripts::scripts_have_one_output();
    scripts::others_receive();
    scripts::workers_are_confined();
    scripts::outputs_are_shown();
    scripts::running_is_full();
    laws::each_step_leaves_the_rest();
}

/// If the files do not change, one response is expected to a request, of a file or of a script, and
/// at each time it is a possible response, given the results of the calls for the request so far.
pub fn expected_may_come()
    ensures { ExpectedMayCome }
{}

/// A reader of the pipe gets the output of a script in order and to its end. Each read gives the
/// front of the remaining text; a read of no bytes means that all was read and that the worker is
/// free; and no read is denied. Turns of the worker and events of others preserve the rest.
pub fn texts_are_delivered()
    ensures { (pools : ℕ → Bool)
        → TextsAreDelivered worker_turns pools (IsFreeFor pools) (IsExpectedOf pools) }
{
    workers_run();
    scripts::others_receive();
    laws::calls_serve_their_domain();
    laws::labels_follow();
}
