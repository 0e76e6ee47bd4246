//! The choice of the next client: the first from an index on that may take a turn; after the last
//! index a connection is accepted.
ghost use Rattle.std.specs.Prelude.{◌≡◌, ◌<◌, ◌+◌, IfOk, None, OnErr};
ghost use Rattle.flash_laws.specs.Prelude.{WantsFrom};
ghost use Rattle.flash_lite.specs.ServerTurn.{AtAcceptStep, PicksFrom, accept_step_to, ends, most_with};

use crate::client::Left;
use crate::server::MAX_CONNS;
use crate::table::held::Clients;
use flash_laws::phase::{PendingCall, Phase};
use iol_core::events::Call;
use iol_proc::process::Turn;
use std::alloc::AllocError;

/// After the last index: accepts the next connection, if fewer than `most` are held.
pub(crate) fn accept_step(clients: &Clients, most: usize) -> (PendingCall, Turn)
    ensures pending_call { result.0 ≡ accept_step_to clients.now most }
    ensures makes { AtAcceptStep result.0 result.1 }
{
    if clients.count() < most {
        (PendingCall::Accepting, Turn::Make(Call::Accept))
    } else {
        (PendingCall::Nothing, Turn::Yield)
    }
}

/// The next call: that of the first client from this index on, or an accept after the last index.
/// `free` is whether a worker is free.
#[tactic(auto, using(crate::proofs::Places::never_none, crate::proofs::Places::accept_step_makes))]
pub(crate) fn pick(
    scripts: bool,
    free: bool,
    clients: &Clients,
    from: usize,
    most: usize,
) -> Result<(PendingCall, Turn), AllocError>
    ensures picks { IfOk result (λ p. PicksFrom scripts free clients.now from most p.0 p.1) }
    ensures wants { OnErr result (WantsFrom free clients.now from) }
{
    match clients.next(free, from) {
        Some(place) => match clients.call_at(scripts, place)? {
            Some(call) => Ok((PendingCall::At { fd: place }, Turn::Make(call))),
            None => Ok((PendingCall::Nothing, Turn::Yield)),
        },
        None => Ok(accept_step(clients, most)),
    }
}

/// Returns whether a client's connection is over in this state.
pub(crate) fn ends(left: &Left) -> bool
    ensures { result ≡ ends left.now }
{
    match *left {
        Left::Goes { phase } => matches!(phase, Phase::Closed),
        Left::Ends { phase } => matches!(phase, Phase::Closed),
        Left::Begins | Left::Continues { .. } | Left::Stays => false,
    }
}

/// The maximum number of connections to be held before another is accepted: a connection that is
/// over makes room for one more.
pub(crate) fn most_with(left: &Left) -> usize
    ensures { result ≡ most_with left.now }
{
    if ends(left) { MAX_CONNS + 1 } else { MAX_CONNS }
}
