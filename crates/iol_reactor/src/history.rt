//! The history of each connection of a world that serves clients, and of each client.
ghost use Rattle.std.specs.Prelude.{ℕ};
ghost use Rattle.iol_reactor.specs.Clients.{BytesMove, ConnectionsFollow};
ghost use Rattle.iol_reactor.specs.Visits.{VisitsContinue};

use crate::service::Service;
use iol_back::backing::Backing;
use iol_proc::process::Process;

/// From its creation on, each step of a world that serves continues the history of each
/// connection: turns, and events of other connections, leave it unchanged, and an event of the
/// connection appends the bytes that it receives and sends. The function has no effect; its
/// contract is the law.
pub fn visits_continue<P: Process>()
    ensures { VisitsContinue P.turns }
{}

/// The effect of a client's steps on the bytes that its socket supplied and accepted. The function
/// has no effect; its contract is the law.
pub fn bytes_move()
    ensures { BytesMove }
{}

/// The effect of the steps of a client, of its world, and of other clients on its connections,
/// which follow one another. The function has no effect; its contract is the law.
pub fn connections_follow<B: Backing, P: Process, V: Service<B, P>>()
    ensures { (pool : ℕ) → ConnectionsFollow P.turns V.starts V.frames pool }
{}
