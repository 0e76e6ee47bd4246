//! Connections of a world, each served from a reader and to a writer.
//!
//! [`serve_connection`](serve::serve_connection) gives the processes of the world their turns,
//! sends their output on the connection and passes in the input from its peer, until the
//! connection or its peer is gone. If the store is honest, the whole call is a run of the world
//! over the copying machine. In this run nothing happens to any other connection, the bytes
//! received are those that the reader gave, and the bytes sent are those that the writer took
//! (`Serves`).
//!
//!     let Reply::Conn(conn) = world.step_outside(Event::ConnNew { pool }) else { .. };
//!     serve_connection(&mut world, conn, &mut reader, &mut writer);
#![tactic(auto)]

pub mod ending;
pub mod laws;
pub mod serve;
