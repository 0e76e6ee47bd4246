//! The answers to a client whose requests reach the server on several connections.
//!
//! A client of the event loop has one stream. Its requests are handed in on connections of worlds,
//! one connection after another, and a connection that the client leaves has received only whole
//! requests that keep it. So the bytes that the client's socket accepted begin an answer to the
//! bytes that it supplied, and are an answer if it ended well. The functions here have no effect,
//! and their contracts are these laws.
#![tactic(auto)]

ghost use Rattle.flash_clients.specs.Clients.{ClientsGetAnswers};
ghost use Rattle.flash_clients.specs.Requests.{RequestsAreKept};
ghost use Rattle.flash_clients.specs.Visits.{VisitsAreAnswered};
ghost use Rattle.flash_laws.specs.Workers.WorkerSets.{OfEach};

use flash_http::{one_answer, window_fits, window_stays};
use flash_laws::world_law::{RunsScripts, world_law};
use flash_streams::streams_follow;
use iol_laws::laws::connection_numbers_rise;

/// After whole requests that keep the connection, the next request is found by the window of the
/// bytes that wait, and only its own bytes are handed in. Then all are whole requests, as the
/// connection received them: they keep the connection, or the last one closes it.
pub fn requests_are_kept()
    ensures { RequestsAreKept }
{
    window_stays();
    window_fits();
}

/// In a world that satisfies the server's invariant, a connection of the net is created. Whatever
/// turns and site-preserving events follow, on this connection and on others, the bytes sent on it
/// begin an answer to the bytes received on it, and are an answer once it is removed, unless its
/// peer was reported as gone. The world satisfies the invariant afterwards.
pub fn visits_are_answered<W: RunsScripts>()
    ensures { OfEach W.turns W.quiescent W.free W.expected VisitsAreAnswered }
{
    world_law::<W>();
    connection_numbers_rise();
}

/// A client has connections, one after another. It left each except the last, after whole requests
/// that keep it and with their whole answer, and the bytes sent on the last begin its answer. Then
/// the bytes that its socket accepted are a prefix of an answer to those that it supplied. They are
/// an answer if its socket accepted all, and either it left the last connection and no whole
/// request waits, or a request closed that connection. This holds for one site, and for several
/// sites that serve it in turn.
pub fn clients_get_answers()
    ensures { ClientsGetAnswers }
{
    one_answer();
    window_stays();
    window_fits();
    streams_follow();
}
