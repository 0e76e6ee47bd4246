//! The answers to clients of the event loop, by the sites of its worlds.
//!
//! The event loop states the history of each connection of its worlds (`HasVisited`). Here it is
//! put together with the law of the server: over an honest store, the bytes sent on each connection
//! begin an answer to those received. The function has no effect; its contract is the law.
#![tactic(auto)]

ghost use Rattle.std.specs.Prelude.{◌≡◌, get_or, None, Some, IfNone, IfSome};
ghost use Rattle.flash_laws.specs.Site.{net_pool};
ghost use Rattle.flash_site.specs.World.{BeginsSite};
ghost use Rattle.flash_answers.specs.Answered.{IsAnsweredClient, ServesSites};
ghost use Rattle.flash_answers.specs.Clients.{ClientsAreAnswered};
ghost use Rattle.flash_answers.specs.Sites.{SitesAnswer};

use flash_clients::{clients_get_answers, requests_are_kept, visits_are_answered};
use flash_laws::answer_laws::runs_are_fair;
use flash_lite::actor::{Actor, Worker};
use flash_lite::laws::{connections_do_not_meet, hosted_is_right};
use iol_back::backing::Backing;
use iol_reactor::client::Client;
use iol_reactor::engine::Engine;
use iol_reactor::service::Service;
use iol_reactor::socket::Socket;

/// In a world that began as that of a site over an honest store, and in which only turns and events
/// of connections happened, the bytes sent on each connection of the net begin an answer to the
/// bytes received, by that site, and are an answer once the connection is removed, unless its peer
/// was reported as gone.
pub fn sites_answer()
    ensures { SitesAnswer }
{
    visits_are_answered::<Worker>();
    runs_are_fair();
    connections_do_not_meet();
    hosted_is_right();
}

/// A client of the event loop left each of its connections except the last after whole requests
/// that keep it, in worlds of sites over honest stores. Then the bytes that its socket accepted are
/// a prefix of an answer to those that it supplied, by sites in turn. They are an answer if it
/// accepted all, and either a request closed the last connection, or it was left and no complete
/// request waits. The function has no effect; its contract is the law.
pub fn clients_are_answered()
    ensures { ClientsAreAnswered BeginsSite }
{
    sites_answer();
    requests_are_kept();
    clients_get_answers();
}

/// A service over worlds of sites with honest stores, whose requests are those of HTTP.
pub trait HonestSites<B: Backing>: Service<B, Actor> {
    ghost serves: { ServesSites Self.starts Self.frames };

    // The bytes that arrive are placed in the pool of the net.
    ghost net: { Self.POOL ≡ net_pool };
}

/// The client in this place of an event loop that serves sites over honest stores. If the bytes of
/// its sockets are known, then the bytes that the client's socket accepted are a prefix of an
/// answer to those that it supplied, by the sites of worlds that the service allows, in turn. They
/// are an answer if its output was ended after its requests were answered to the end. A service
/// that allows only the worlds of one site (`Service::starts`) so gets the answers of this site.
pub fn client<'a, S: Socket + Drop, B: Backing + Drop, V: HonestSites<B>>(
    engine: &'a Engine<S, B, Actor, V>,
    slot: usize,
) -> Option<&'a Client<S>>
    ensures place { IfSome result
        (λ c. get_or engine.entry.now.places.clients.items slot None ≡ Some c.now) }
    ensures none { IfNone result
        (get_or engine.entry.now.places.clients.items slot None ≡ None) }
    ensures answers { IfSome result (λ c. IsAnsweredClient V.starts S.supplied S.accepted c.now) }
{
    sites_answer();
    requests_are_kept();
    clients_get_answers();
    engine.client(slot)
}
