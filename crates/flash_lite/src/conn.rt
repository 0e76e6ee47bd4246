//! One connection.
ghost use Rattle.std.specs.Prelude.{◌≡◌, ◌≢◌, ◌<◌, ◌-◌, IfOk, OnErr, drop, length, true, false};
ghost use Rattle.iol_core.specs.declared.events.Call.TheVariants.{IolRead};
ghost use Rattle.flash_http.specs.Prelude.{answer, refuse, window_in};
ghost use Rattle.flash_laws.specs.Conn as spec;
ghost use Rattle.flash_laws.specs.Prelude.{is_later, can_begin, has_bytes};
ghost use Rattle.flash_laws.specs.Conn.Policy.{has_answered};
ghost use Rattle.flash_laws.specs.Conn.Wants.{WantsOn};
ghost use Rattle.flash_laws.specs.declared.phase.Phase.TheVariants.{Receiving};
ghost use Rattle.flash_lite.specs.ReceivedBytes.{received};
ghost use Rattle.flash_lite.specs.Onward.{IsOnward, Frees, GoesWith, CanRest, WantsToStart, begun_with, in_phase, is_over, with_received};
ghost use Rattle.flash_lite.specs.Small.{IsSmall};

use crate::conn::find::{
    after_close_file, after_discard, after_drop_whole, after_open, after_read, after_slice, begins,
};
use crate::conn::request_calls::{
    cut_call, first_call, join_call, make_call, open_call, read_call,
};
use crate::conn::send::{
    after_disconnect, after_drop, after_head, after_join, after_part, after_taken,
};
use crate::received::{Received, append};
use flash_http::{Asked, MAX_HEAD_BYTES, Window, read_head, window_of};
use flash_laws::phase::Phase;
use http::StatusCode;
use iol_agg::Parts;
use iol_core::events::{Call, Reply};
use iol_core::numbers::{AggId, Fd};
use iol_core::refusals::Refusal;
use std::alloc::{AllocError, Global};
use std::marker::Model;

pub(crate) mod answers;
mod find;
pub(crate) mod request_calls;
pub(crate) mod send;

/// The action of a connection after a reply.
#[derive(Drop)]
pub enum Onward {
    /// It makes its next call at once.
    Asks(Call),

    /// Its turn passes to others, and it continues in this phase afterwards.
    Leaves(Phase),
}

/// One connection of the server: its buffered input, the last request, and its phase.
#[derive(Drop)]
pub struct Conn {
    alloc: Global,
    buffered: Vec<u8>,
    request: Asked,
    phase: Phase,
}

impl Model for Conn {
    ghost use Rattle.flash_http.specs.Prelude.{answer};
    ghost use Rattle.flash_laws.specs.Prelude.{Conn as ConnState, IsAwaiting};
    ghost use Rattle.flash_lite.specs.Small.{IsSmall};

    ghost Value = { ConnState };

    ghost view = { λ x. record { buffered = x.buffered.items; request = answer x.request; phase = x.phase } };

    ghost invariant = { λ x. IsSmall x.phase
        × IsAwaiting (record { buffered = x.buffered.items; request = answer x.request; phase = x.phase }) };
}

/// Returns whether the call is retried in a later turn.
pub(crate) fn is_later(last: &Reply) -> bool
    ensures { result ≡ is_later last.now }
{
    match last {
        Reply::Refused(refusal) => matches!(
            refusal,
            Refusal::WouldBlock
                | Refusal::TooMany
                | Refusal::PoolClosed { pool: _ }
                | Refusal::NoRoom { pool: _ }
                | Refusal::Memory
        ),
        _ => false,
    }
}

// Removes the first bytes of a list.
fn drop_first(list: &mut Vec<u8>, count: usize)
    ensures { list.new.items ≡ drop count list.old.items }
{
    list.drain(..count.min(list.len()));
}

// The placeholder before the first request.
fn no_request() -> Asked
    ensures { answer result ≡ refuse 431 false true }
{
    Asked::Refuse {
        status: StatusCode::REQUEST_HEADER_FIELDS_TOO_LARGE,
        head_only: false,
        close: true,
    }
}

impl Conn {
    /// A newly accepted connection.
    pub fn new(alloc: Global) -> Conn
        ensures { result ≡ spec.new_connection }
    {
        Conn {
            alloc,
            buffered: Vec::new(alloc),
            request: no_request(),
            phase: Phase::Receiving,
        }
    }

    /// The last request.
    pub(crate) fn request(&self) -> &Asked
        ensures { answer result.now ≡ self.now.request }
    {
        &self.request
    }

    /// The phase.
    pub(crate) fn phase(&self) -> Phase
        ensures { result ≡ self.now.phase }
    {
        self.phase
    }

    // After reading more of the stream. No bytes are its end.
    #[tactic(auto, using(crate::proofs::Responses::FirstCall::rests_received))]
    fn receive(&mut self, fd: Fd, agg: AggId, parts: Option<Parts<'_>>) -> Result<Call, AllocError>
        ensures after_reply { IfOk result
            (λ _. self.new ≡ with_received self.old agg (received parts.entry)) }
        ensures call { IfOk result (λ call. call ≡ spec.next_call fd self.new) }
        ensures stays { IfOk result (λ _. is_over self.new.phase ≡ false) }
        ensures err { OnErr result (self.new ≡ self.old) }
        ensures wants { OnErr result (0 < length (received parts.entry)) }
    {
        let len = self.buffered.len();
        append(&mut self.buffered, parts)?;
        self.phase = if self.buffered.len() == len {
            Phase::Aborting { agg, more: None }
        } else {
            Phase::DroppingInput { agg }
        };
        Ok(Call::AggDrop { agg })
    }

    // The phase after the reply to the call of a phase that is not idle.
    fn next_phase(&self, reply: Received<'_>) -> Phase
        requires { self.now.phase ≢ Receiving }
        ensures after_reply { spec.after_reply self.now reply.entry.last.now
            (received reply.entry.parts) ≡ in_phase self.now result }
        ensures small { IsSmall result }
    {
        let Received { last, parts } = reply;
        match self.phase {
            Phase::Receiving => Phase::Receiving,
            Phase::DroppingInput { agg } => after_discard(agg, last),
            Phase::Opening => after_open(last),
            Phase::Reading { file } => after_read(file, last, parts),
            Phase::ClosingFile { file, file_result } => after_close_file(
                &self.request,
                file,
                file_result,
                last,
            ),
            Phase::Slicing {
                agg,
                first,
                last: to,
                len,
            } => after_slice(agg, first, to, len, last),
            Phase::DroppingWhole { agg, content } => after_drop_whole(agg, content, last),
            Phase::MakingHead { content } => after_head(content, last, parts),
            Phase::Joining {
                head,
                size,
                body,
                len,
            } => after_join(head, size, body, len, last),
            Phase::SendingWhole { .. }
            | Phase::CuttingPiece { .. }
            | Phase::SendingPiece { .. }
            | Phase::DroppingPiece { .. }
            | Phase::AbortingPiece { .. } => after_part(self.phase, last),
            Phase::DroppingSent { agg, taken, more } => after_taken(
                &self.request,
                agg,
                taken,
                more,
                last,
            ),
            Phase::Aborting { agg, more } => after_drop(agg, more, last),
            Phase::Disconnecting => after_disconnect(last),
            Phase::Closed => Phase::Closed,
        }
    }

    // Begins a request whose head ends after `len` bytes, and returns its first call.
    #[tactic(auto, using(crate::proofs::Responses::FirstCall::first_next_call))]
    fn begin(&mut self, fd: Fd, asked: Asked, len: usize) -> Result<Call, AllocError>
        ensures begun { IfOk result (λ _. self.new ≡ begun_with len (answer asked) self.old) }
        ensures call { IfOk result (λ call. call ≡ spec.next_call fd self.new) }
        ensures err { OnErr result (self.new ≡ self.old) }
    {
        let call = first_call(self.alloc, &asked)?;
        drop_first(&mut self.buffered, len);
        self.phase = begins(&asked);
        self.request = asked;
        Ok(call)
    }

    // The call that reads more of the stream.
    fn read(&self, fd: Fd) -> Call
        ensures { result ≡ IolRead fd (spec.most_buffered - length self.now.buffered) }
    {
        let count = MAX_HEAD_BYTES.saturating_sub(self.buffered.len()) as u32;
        Call::IolRead { fd, count }
    }

    // From an idle phase, begins the first buffered request, or reads more of the stream.
    fn start(&mut self, fd: Fd) -> Result<Call, AllocError>
        ensures starts { IfOk result
            (λ _. spec.Starts (record self.old { phase = Receiving }) self.new) }
        ensures call { IfOk result (λ call. call ≡ spec.next_call fd self.new) }
        ensures err { OnErr result (self.new ≡ self.old) }
        ensures wants { OnErr result (can_begin (window_in self.old.buffered) ≡ true) }
    {
        match window_of(self.buffered.as_slice()) {
            Window::Wait => {
                self.phase = Phase::Receiving;
                Ok(self.read(fd))
            }
            Window::TooLarge => self.begin(fd, no_request(), 0),
            Window::Head { skip, len } => {
                let asked = read_head(self.alloc, &self.buffered[skip..skip + len])?;
                self.begin(fd, asked, skip + len)
            }
        }
    }

    // The call of a phase.
    fn call_of(&self, fd: Fd, phase: &Phase) -> Result<Call, AllocError>
        ensures call { IfOk result
            (λ call. call ≡ spec.next_call fd (record self.now { phase = phase.now })) }
        ensures wants { OnErr result (has_bytes phase.now ≡ true) }
    {
        Ok(match *phase {
            Phase::Receiving => self.read(fd),
            Phase::Opening => open_call(self.alloc, &self.request)?,
            Phase::Reading { file } => read_call(&self.request, file),
            Phase::ClosingFile { file, .. } => Call::Close { fd: file },
            Phase::Slicing {
                agg,
                first,
                last,
                ..
            } => cut_call(agg, first, last),
            Phase::MakingHead { content } => make_call(self.alloc, &self.request, &content)?,
            Phase::Joining { head, body, .. } => join_call(head, body),
            Phase::SendingWhole { sending } => Call::IolWrite {
                fd,
                agg: sending.agg,
            },
            Phase::CuttingPiece { sending } => cut_call(
                sending.agg,
                sending.from,
                sending.piece_end(),
            ),
            Phase::SendingPiece { piece, .. } => Call::IolWrite { fd, agg: piece },
            Phase::DroppingInput { agg } => Call::AggDrop { agg },
            Phase::DroppingWhole { agg, .. } => Call::AggDrop { agg },
            Phase::DroppingPiece { piece, .. } => Call::AggDrop { agg: piece },
            Phase::DroppingSent { agg, .. } => Call::AggDrop { agg },
            Phase::AbortingPiece { piece, .. } => Call::AggDrop { agg: piece },
            Phase::Aborting { agg, .. } => Call::AggDrop { agg },
            Phase::Disconnecting | Phase::Closed => Call::Close { fd },
        })
    }

    /// Continues with a phase that is not idle.
    #[tactic(auto, using(crate::proofs::Responses::Waits::busy_awaits))]
    pub(crate) fn proceed(&mut self, fd: Fd, phase: Phase) -> Result<Call, AllocError>
        requires { (phase ≢ Receiving) × IsSmall phase }
        ensures phase { IfOk result (λ _. self.new ≡ record self.old { phase = phase }) }
        ensures call { IfOk result (λ call. call ≡ spec.next_call fd self.new) }
        ensures err { OnErr result (self.new ≡ self.old) }
        ensures wants { OnErr result (has_bytes phase ≡ true) }
    {
        let call = self.call_of(fd, &phase)?;
        self.phase = phase;
        Ok(call)
    }

    /// Whether the response is taken whole in this phase, and more input is buffered.
    pub(crate) fn has_answered(&self, phase: &Phase) -> bool
        ensures { result ≡ has_answered (in_phase self.now phase.now) }
    {
        matches!(*phase, Phase::DroppingSent { more: None, .. }) && !self.buffered.is_empty()
    }

    // Continues with a phase that is not idle, unless its call is retried later, or the response is
    // taken whole and more input is buffered.
    fn advance_with(&mut self, fd: Fd, phase: Phase, last: &Reply) -> Result<Onward, AllocError>
        requires { (phase ≢ Receiving) × IsSmall phase }
        ensures goes { IfOk result (λ o. GoesWith fd self.old last.now phase o self.new) }
        ensures err { OnErr result (self.new ≡ self.old) }
        ensures wants { OnErr result ((is_later last.now ≡ false) × (has_bytes phase ≡ true)) }
    {
        if is_later(last) || self.has_answered(&phase) {
            return Ok(Onward::Leaves(phase));
        }
        let call = self.proceed(fd, phase)?;
        Ok(Onward::Asks(call))
    }

    /// A phase that was not idle becomes idle after a reply: continues with the buffered stream.
    pub(crate) fn advance_free(&mut self, fd: Fd) -> Result<Onward, AllocError>
        ensures asks { IfOk result (λ o. Frees fd self.old o self.new) }
        ensures err { OnErr result (self.new ≡ self.old) }
        ensures wants { OnErr result (WantsToStart self.old) }
    {
        if self.buffered.is_empty() {
            return Ok(Onward::Leaves(Phase::Receiving));
        }
        let call = self.start(fd)?;
        Ok(Onward::Asks(call))
    }

    // After the reply to a call of a phase that was not idle.
    fn advance_busy(&mut self, fd: Fd, reply: Received<'_>) -> Result<Onward, AllocError>
        requires { self.old.phase ≢ Receiving }
        ensures onward { IfOk result (λ o. IsOnward fd self.old reply.entry.last.now
            (received reply.entry.parts) o self.new) }
        ensures err { OnErr result (self.new ≡ self.old) }
        ensures wants { OnErr result (WantsOn self.old reply.entry.last.now
            (received reply.entry.parts)) }
    {
        let last = reply.last;
        let phase = self.next_phase(reply);
        match phase {
            Phase::Receiving => self.advance_free(fd),
            Phase::Closed => Ok(Onward::Leaves(phase)),
            _ => self.advance_with(fd, phase, last),
        }
    }

    // After reading the stream, or its refusal.
    fn advance_resting(&mut self, fd: Fd, reply: Received<'_>) -> Result<Onward, AllocError>
        requires { self.old.phase ≡ Receiving }
        ensures onward { IfOk result (λ o. IsOnward fd self.old reply.entry.last.now
            (received reply.entry.parts) o self.new) }
        ensures err { OnErr result (self.new ≡ self.old) }
        ensures wants { OnErr result (WantsOn self.old reply.entry.last.now
            (received reply.entry.parts)) }
    {
        let _buffered = &self.buffered;
        match reply.last {
            Reply::Agg(agg) => {
                let call = self.receive(fd, *agg, reply.parts)?;
                Ok(Onward::Asks(call))
            }
            _ => {
                if is_later(reply.last) {
                    return Ok(Onward::Leaves(Phase::Receiving));
                }
                self.advance_free(fd)
            }
        }
    }

    /// The action after the reply to its call. It continues at once, unless the call is retried
    /// later, the response is taken whole and more input is buffered, it is idle without buffered
    /// input, or it is over. If memory runs out it is unchanged. It needs memory only to buffer
    /// bytes that it reads, to begin a request, or for a call with bytes of its own.
    pub fn advance(&mut self, fd: Fd, reply: Received<'_>) -> Result<Onward, AllocError>
        ensures onward { IfOk result (λ o. IsOnward fd self.old reply.entry.last.now
            (received reply.entry.parts) o self.new) }
        ensures err { OnErr result (self.new ≡ self.old) }
        ensures wants { OnErr result (WantsOn self.old reply.entry.last.now
            (received reply.entry.parts)) }
    {
        match self.phase {
            Phase::Receiving => self.advance_resting(fd, reply),
            _ => self.advance_busy(fd, reply),
        }
    }

    /// Its turn passes to others, and it continues in this phase afterwards.
    pub fn leave(&mut self, phase: Phase)
        requires { CanRest self.old phase }
        ensures { self.new ≡ record self.old { phase = phase } }
    {
        self.phase = phase;
    }

    /// Its next call.
    #[tactic(auto, using(crate::proofs::Responses::Waits::awaits_ready))]
    pub fn next_call(&self, fd: Fd) -> Result<Call, AllocError>
        ensures call { IfOk result (λ call. call ≡ spec.next_call fd self.now) }
        ensures ready { spec.Readies self.now self.now }
        ensures wants { OnErr result (has_bytes self.now.phase ≡ true) }
    {
        self.call_of(fd, &self.phase)
    }
}
