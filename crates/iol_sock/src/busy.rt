//! Pools that connections belong to.
ghost use Rattle.std.specs.Prelude.{◌≡◌, ◌==◌};
ghost use Rattle.std.specs.List.{list_any};
ghost use Rattle.iol_sock.specs.Table.{is_of};

use crate::connections::Connection;
use crate::table::Connections;
use iol_core::numbers::PoolId;

// Whether there is a connection, and it belongs to the pool.
fn is_of(conn: &Option<Connection>, pool: PoolId) -> bool
    ensures { result ≡ is_of pool conn.now }
{
    match conn {
        Some(conn) => conn.pool().number() == pool.number(),
        None => false,
    }
}

// Whether one of these connections belongs to the pool.
fn any_of(list: &[(u64, Option<Connection>)], pool: PoolId) -> bool
    ensures { result ≡ list_any (λ e. is_of pool e.1) list.now }
{
    list.iter().any(|entry| is_of(&entry.1, pool))
}

impl Connections {
    /// Whether a live connection belongs to the pool. It may visit every connection.
    #[tactic(auto, using(crate::proofs::OfPools::pool_rules))]
    pub fn is_busy(&self, pool: PoolId) -> bool
        ensures { result ≡ list_any (λ e. e.1.pool == pool) self.now.conns }
    {
        any_of(self.live.list(), pool)
    }
}
