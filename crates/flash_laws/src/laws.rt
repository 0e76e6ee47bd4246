//! Laws of the server's calls and turns. The functions have no effect; their contracts are the
//! laws.
ghost use Rattle.flash_laws.specs.Serves.FairTurns.{TurnsAreFair};
ghost use Rattle.flash_laws.specs.Serves.RoundRobin.{TurnsAreRoundRobin};
ghost use Rattle.flash_laws.specs.Conn.Holdings.{KeepsNothing};
ghost use Rattle.flash_laws.specs.Conn.OfferedBytes.{OffersTheResponse};
ghost use Rattle.flash_laws.specs.Workers.OwnWorkers.{WorkersAreShared};
ghost use Rattle.flash_laws.specs.Site.{SiteStays};

use iol_laws::laws;

/// The bytes that the server offers for a request are the next bytes of the response to it, for the
/// outcome of the calls made for it. The first of these calls opens the file of its name. Each
/// reply reduces the rank of the request, unless its call is retried later; so only finitely many
/// of its calls are not retried. The law is about single steps, undisturbed or not, during which no
/// call consumes or moves what the connection uses. That this is so over a whole run is not stated
/// here.
pub fn offers_law()
    ensures { OffersTheResponse }
{
    laws::each_step_leaves_the_rest();
    laws::calls_serve_their_domain();
    laws::file_calls_serve_their_domain();
    laws::refusals_tell_why();
    laws::refusals_that_are_left();
}

/// The server keeps nothing of a finished response: the result of a call belongs to the connection
/// for which it was made, and aggregates and file descriptors that the connection no longer uses
/// are dropped or closed. Its calls touch only its own objects. The law is about each call of the
/// server, undisturbed or not, and not about objects that other domains give to the server.
pub fn keeping_law()
    ensures { KeepsNothing }
{
    laws::aggregates_come_and_go();
    laws::calls_serve_their_domain();
    laws::file_calls_serve_their_domain();
}

/// A step that may change no file, and that admits no domain to a pool, leaves the site unchanged.
/// So an external call is site-preserving unless it is `file_new`, `pool_admit` or a write to a
/// file.
pub fn site_law()
    ensures { SiteStays }
{
    laws::each_step_leaves_the_rest();
}

/// Turns are given in rounds. A client is passed over if its call is to be retried later, if it
/// waits for a worker, if its response is taken whole and more input is buffered, or if it only
/// reads more input; the next turn is that of the first client after it that may take one. After
/// the last client, the server accepts until an accept returns no connection or it has the maximum
/// number of connections, and only then yields: it accepts in each round, unless it is full. So a
/// client waits for another only while the server advances one response of that client.
pub fn rounds_law()
    ensures { TurnsAreRoundRobin }
{}

/// Turns are fair. Between the reply with which a response to a client is taken whole, and the
/// first call for the next request of that client, each other client that may take a turn during
/// all of that time takes one. So a client that pipelines, with any number of requests, does not
/// keep others from their turns. This holds for all consecutive turns by the server's transition
/// relation.
pub fn turns_are_fair()
    ensures { TurnsAreFair }
{}

/// Each running script has a worker of its own, whichever call the server picks: this holds for a
/// new server, with any number of workers, and each turn preserves it. For a server without
/// workers no script runs.
pub fn sharing_law()
    ensures { WorkersAreShared }
{}
