//! Serves one client of the server, from the creation of its connection to its end.
ghost use Rattle.std.specs.Prelude.{◌≡◌, IfNone, IfSome};
ghost use Rattle.iol_back.specs.Prelude.{IfHonest};
ghost use Rattle.iol_proc.specs.Prelude.{KeepsHonesty, copied};
ghost use Rattle.flash_served.specs.Served.{ServesNone, ServesRight};

use crate::sessions_are_right;
use flash_lite::actor::Actor;
use flash_lite::laws::connections_do_not_meet;
use flash_lite::layout::NET_POOL;
use iol_back::backing::Backing;
use iol_core::events::{Event, Reply};
use iol_core::numbers::PoolId;
use iol_proc::world::World;
use iol_serve::ending::Ending;
use iol_serve::serve::serve_connection;
use std::io::{Read, Write};

/// Creates a connection of the net and serves it, from a reader and to a writer. Returns its
/// ending, or none if there is no room or no memory for it. Over an honest store, the bytes that
/// the writer accepts begin an answer to the bytes that the reader supplies, and are all of it if
/// the ending is `Over`, if the world satisfies the server's invariant. The world satisfies it
/// afterwards, also if no connection was created.
pub fn serve_client<B: Backing + Drop, R: Read, W: Write>(
    world: &mut World<B, Actor>,
    reader: &mut R,
    writer: &mut W,
) -> Option<Ending>
    ensures honest { KeepsHonesty world.old.machine world.new.machine }
    ensures right { IfHonest world.old.machine.disk (IfSome result (λ ending. ServesRight ending
        (R.remaining reader.old) (R.remaining reader.new)
        (W.contents writer.old) (W.contents writer.new) (copied world.old) (copied world.new))) }
    ensures none { IfNone result ((reader.new ≡ reader.old) × (writer.new ≡ writer.old)) }
    ensures kept { IfHonest world.old.machine.disk (IfNone result (ServesNone (copied world.old) (copied world.new))) }
{
    sessions_are_right();
    connections_do_not_meet();
    let pool = PoolId::new(NET_POOL);
    let reply = world.step_outside(Event::ConnNew { pool });
    match &reply {
        Reply::Conn(conn) => Some(serve_connection(world, *conn, reader, writer)),
        _ => None,
    }
}
