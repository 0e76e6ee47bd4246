//! Laws of progress. The functions have no effect; their contracts are the laws.
ghost use Rattle.flash_laws.specs.Workers.WorkerSets.{OfEach};
ghost use Rattle.flash_progress.specs.Hosted.{HostedBecomesIdle};
ghost use Rattle.flash_progress.specs.Served.{ArrivalsCanBeRead, BecomesIdle, ServesAll};

use flash_cgi::laws::others_receive;
use flash_http::{served_requests, window_fits, window_stays};
use flash_laws::run_laws::{run_keeping_law, runs_law};
use flash_laws::worker_laws::expected_may_come;
use flash_laws::world_law::RunsScripts;
use iol_laws::laws;

/// A server without workers makes progress in each world with the invariant, whichever calls were
/// refused before. If the number of turns in rounds suffices for the state (`turns_that_suffice`)
/// and none of them is refused for lack of table entries, pages or memory, all become idle
/// (`idle`). Then each connection of the net is served (`served`): all requests that arrived on it
/// have their responses, or its peer left, or its queue is full, or it is not accepted and the
/// server has the maximum number of connections. Two premises are about the state in which the
/// turns begin: the server's default pool is open (`CanPlace`), and arrivals can be read
/// (`CanRead`), which [`arrivals_can_be_read`] gives for each reachable state. `hosted` states the
/// same for a new world that first executed choices with site-preserving external calls.
pub fn file_server_becomes_idle<W: RunsScripts>()
    ensures idle { OfEach W.turns W.quiescent W.free W.expected BecomesIdle }
    ensures served { OfEach W.turns W.quiescent W.free W.expected ServesAll }
    ensures hosted { OfEach W.turns W.quiescent W.free W.expected HostedBecomesIdle }
{
    W::runs();
    W::quiesces();
    runs_law();
    run_keeping_law();
    expected_may_come();
    others_receive();
    served_requests();
    laws::each_step_leaves_the_rest();
    laws::each_step_keeps_order();
    laws::calls_serve_their_domain();
    laws::file_calls_serve_their_domain();
    laws::refusals_tell_why();
    laws::refusals_that_are_left();
    laws::numbers_are_new();
    laws::others_leave_connections();
    laws::others_leave_pipes();
    laws::connection_numbers_rise();
    laws::aggregates_come_and_go();
    laws::labels_follow();
    laws::descriptors_come_by_replies();
    laws::arrivals_lie_in_their_pool();
    laws::histories_add_up();
    window_stays();
    window_fits();
}

/// The unread bytes of each connection are in its pool, and a domain that has it open may read this
/// pool: in a new state, after each event, and so in each reachable state.
pub fn arrivals_can_be_read()
    ensures { ArrivalsCanBeRead }
{
    laws::each_step_leaves_the_rest();
    laws::each_step_keeps_order();
    laws::arrivals_lie_in_their_pool();
}
