//! The server: all clients, with one call per turn.
ghost use Rattle.std.specs.Prelude.{◌≡◌, IfOk, OnErr, OnOk, min};
ghost use Rattle.iol_proc.specs.Prelude.{readable, IsCopyFree};
ghost use Rattle.flash_laws.specs.Prelude.{NoneRuns, in_rounds, new_server, received_of, IsShared, server_transitions, server_wants};
ghost use Rattle.flash_lite.specs.Accounts.{serves};
ghost use Rattle.flash_lite.specs.Few.{IsFew};
ghost use Rattle.flash_lite.specs.ReceivedBytes.{received};
ghost use Rattle.flash_lite.specs.Offers.{OffersNext};
ghost use Rattle.flash_lite.specs.declared.site.TheConstants.{MAX_WORKERS};

use crate::received::Received;
use crate::site::MAX_WORKERS;
use crate::table::Table;
use flash_laws::run_laws::clients_law;
use iol_agg::Parts;
use iol_core::events::Reply;
use iol_proc::look::Look;
use iol_proc::process::{Process, Turn};
use std::alloc::{AllocError, Global};
use std::marker::Model;

/// The maximum number of connections of the server.
pub const MAX_CONNS: usize = 256;

// The contents of the aggregate in a reply.
fn readable_by<'a>(last: &Reply, look: &Look<'a>) -> Option<Parts<'a>>
    ensures { received result ≡ received_of last.now (readable look.now) }
{
    match last {
        Reply::Agg(agg) => look.bytes(*agg),
        _ => None,
    }
}

/// The server: its clients, the pending call, and the number of workers that run its scripts.
/// Without workers, a script is a file like any other.
#[derive(Drop)]
pub struct Server {
    table: Table,
}

impl Model for Server {
    ghost use Rattle.flash_laws.specs.Prelude.{Server as Serving};
    ghost use Rattle.flash_lite.specs.Table.{IsBetweenTurns, serving};

    ghost Value = { Serving };

    ghost view = { λ s. serving s.table };

    ghost invariant = { λ s. IsBetweenTurns s.table };
}

impl Server {
    /// A server without connections. It has no workers, and runs no scripts.
    pub fn new(alloc: Global) -> Server
        ensures { result ≡ new_server }
    {
        Server::with_workers(alloc, 0)
    }

    /// A server without connections that has `workers` workers, at most eight: worker k, counted
    /// from 0, is domain k + 2, and the write end of its job pipe is the server's descriptor k +
    /// 1.
    pub fn with_workers(alloc: Global, workers: u32) -> Server
        ensures { result ≡ record new_server { workers = min workers MAX_WORKERS } }
    {
        Server {
            table: Table::new(alloc, workers.min(MAX_WORKERS)),
        }
    }
}

impl Process for Server {
    ghost turns = { server_transitions in_rounds };

    fn next(&mut self, last: &Reply, look: &Look<'_>) -> Result<Turn, AllocError>
        ensures turn { IfOk result
            (λ turn. serves self.old last.now (readable look.now) turn self.new) }
        ensures copy_free { IfOk result IsCopyFree }
        ensures err { OnErr result (self.new ≡ self.old) }

        // It needs memory only to buffer bytes that it reads, for a new index, to begin a request,
        // and for the bytes of a call.
        ensures wants { OnErr result (server_wants self.old last.now (readable look.now)) }

        // The offered bytes are the next bytes of the response to the request.
        ensures offers { IfOk result (λ turn. OffersNext self.new turn) }

        // It holds at most 256 connections, and one fewer while another is being accepted.
        ensures few { OnOk result (IsFew self.new.clients self.new.pending_call) }

        // Each script that runs has a worker of its own.
        ensures shared { OnOk result (IsShared self.new) }

        // Without workers no script runs.
        ensures none { OnOk result (self.old.workers ≡ 0 → NoneRuns self.new.clients) }
    {
        clients_law();
        let parts = readable_by(last, look);
        let turn = self.table.advance(Received { last, parts })?;
        Ok(turn)
    }
}
