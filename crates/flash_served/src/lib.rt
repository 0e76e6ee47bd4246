//! The server's law for connections that [`serve_connection`](iol_serve::serve::serve_connection)
//! serves.
//!
//! In a world that satisfies the server's invariant (`Consistent`), the bytes that the writer
//! accepts begin an answer to the bytes that the reader supplies, and are all of it if the
//! connection ends with `Over`. The invariant holds afterwards, so the same holds for connections
//! served one after another. [`serve_client`](serve::serve_client) serves one. The functions here
//! have no effect; their contracts are the laws.
#![tactic(auto)]

ghost use Rattle.flash_served.specs.Served.{ServedIsRight, SessionsAreRight};

use flash_laws::answer_laws::runs_are_fair;
use flash_lite::actor::Actor;
use flash_lite::laws::connections_do_not_meet;
use iol_laws::laws::connection_numbers_rise;
use iol_proc::laws::failure_free_runs;

pub mod serve;

/// A connection without history is served in a world that satisfies the server's invariant, over
/// the copying machine, as the clause `serves` of
/// [`serve_connection`](iol_serve::serve::serve_connection) states for an honest store. Then the
/// bytes sent begin an answer to the bytes received, and are all of it if the ending is `Over`;
/// and the invariant holds afterwards. The answer may have a refusal TooMany, NoRoom, Fault or
/// Memory instead of a file: one that the turns got (`fair`); none, if the world's failure flag is
/// clear (`failure_free`); any, whatever was refused (`any`).
pub fn served_is_right()
    ensures { ServedIsRight }
{
    connections_do_not_meet();
    runs_are_fair();
    failure_free_runs::<Actor>();
}

/// The same for connections that are created in the pool `net` and served, one after another: with
/// the refusals that the turns got, and with any, whatever was refused.
pub fn sessions_are_right()
    ensures { SessionsAreRight }
{
    connections_do_not_meet();
    connection_numbers_rise();
    runs_are_fair();
}
