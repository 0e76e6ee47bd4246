//! The clients, by the index of their descriptors. The next client that may take a turn is found
//! in a few steps, whatever the number of indices.
ghost use Rattle.std.specs.Prelude.{◌≡◌, ◌<◌, ◌≤◌, ◌+◌, ◌^◌, [], IfOk, IfSome};
ghost use Rattle.std.specs.Prelude.{OnErr, Some, length, true, false};
ghost use Rattle.std.specs.Vec.{vec_capacity};
ghost use Rattle.iol_core.specs.Prelude.{in_place, taken};
ghost use Rattle.flash_laws.specs.Prelude.{new_client, goes_in, next_in, grown, with_at};
ghost use Rattle.flash_lite.specs.ReceivedBytes.{received};
ghost use Rattle.flash_lite.specs.Order.{CanNote, goers};
ghost use Rattle.flash_lite.specs.ServerTurn.{MakesCallAt, ProceedsAt, MayRest, left_as, left_at, worker_at};
ghost use Rattle.flash_lite.specs.declared.site.TheConstants.{MAX_WORKERS};

use crate::client::{Client, Context, Course, Left};
use crate::received::Received;
use crate::table::pick::ends;
use crate::table::place_list::{first_from, mark};
use iol_core::events::Call;
use iol_core::numbers::Fd;
use std::alloc::{AllocError, Global};
use std::marker::Model;

/// The clients, by the index of their descriptors; also, in ascending order, the indices of all
/// clients, and of those that may take a turn while no worker is free.
#[derive(Drop)]
pub(crate) struct Clients {
    alloc: Global,
    places: Vec<Option<Client>>,
    held: Vec<u32>,
    going: Vec<u32>,
}

impl Model for Clients {
    ghost use Rattle.std.specs.Prelude.{◌≤◌, ◌^◌, List, Option, length};
    ghost use Rattle.std.specs.Vec.{vec_capacity};
    ghost use Rattle.flash_laws.specs.Prelude.{Client as ClientState};
    ghost use Rattle.flash_lite.specs.Order.{ReportsWhoGoes};

    ghost Value = { List (Option ClientState) };

    ghost view = { λ s. s.places.items };

    ghost invariant = { λ s. (length s.places.items ≤ 2 ^ 32) × ReportsWhoGoes s.places.items
        s.held.items s.going.items (vec_capacity s.held) (vec_capacity s.going) };
}

// Returns whether there is a client that may take a turn. A client that waits for a worker may do
// so only if one is free.
fn goes_in(free: bool, place: &Option<Client>) -> bool
    ensures { result ≡ goes_in free place.now }
{
    match place {
        Some(client) => free || !client.awaits(),
        None => false,
    }
}

// Returns whether there is a client at an index that may take a turn.
fn goes_at(free: bool, clients: &[Option<Client>], place: usize) -> bool
    ensures { result ≡ goes_in free (in_place clients.now place) }
{
    place < clients.len() && goes_in(free, &clients[place])
}

// Extends the list up to this index. If the index exists, it allocates nothing.
fn reach(clients: &mut Vec<Option<Client>>, place: u32) -> Result<(), AllocError>
    ensures ok { IfOk result (λ _. clients.new.items ≡ grown clients.old.items place) }
    ensures err { OnErr result (clients.new.items ≡ clients.old.items) }
    ensures wants { OnErr result (vec_capacity clients.old ≤ place) }
{
    let more = (place as usize + 1).saturating_sub(clients.len());
    clients.reserve(more)?;
    for _ in 0..more {
        clients.push_reserved(None);
    }
    Ok(())
}

// The turn of a client, if there is one, passes to others. A client whose connection is over is
// removed.
fn leave(place: &mut Option<Client>, left: Left)
    requires { MayRest place.old left }
    ensures { place.new ≡ left_as place.old left }
{
    if ends(&left) {
        *place = None;
    } else if let Some(client) = place {
        client.leave(left);
    }
}

// Reserves room for all indices up to this one.
fn make_room(places: &mut Vec<u32>, place: u32) -> Result<(), AllocError>
    ensures items { places.new.items ≡ places.old.items }
    ensures room { vec_capacity places.old ≤ vec_capacity places.new }
    ensures ok { IfOk result (λ _. place + 1 ≤ vec_capacity places.new) }
    ensures wants { OnErr result (vec_capacity places.old ≤ place) }
{
    let more = (place as usize + 1).saturating_sub(places.len());
    places.reserve(more)
}

// Returns whether there is a client at an index, and whether it may take a turn while no worker is
// free.
fn noted(clients: &[Option<Client>], place: u32) -> (bool, bool)
    ensures held { result.0 ≡ goes_in true (in_place clients.now place) }
    ensures going { result.1 ≡ goes_in false (in_place clients.now place) }
{
    let at = place as usize;
    (goes_at(true, clients, at), goes_at(false, clients, at))
}

// Updates both lists for an index, if they change; otherwise no list is searched.
fn note(
    clients: &[Option<Client>],
    was: (bool, bool),
    held: &mut Vec<u32>,
    going: &mut Vec<u32>,
    place: u32,
)
    requires held { CanNote true clients.now held.old.items place was.0 (vec_capacity held.old) }
    requires going { CanNote false clients.now going.old.items place was.1
        (vec_capacity going.old) }
    ensures held { held.new.items ≡ goers true clients.now }
    ensures going { going.new.items ≡ goers false clients.now }
    ensures holds { vec_capacity held.old ≤ vec_capacity held.new }
    ensures fits { vec_capacity going.old ≤ vec_capacity going.new }
{
    let (holds, goes) = noted(clients, place);
    mark(held, place, was.0, holds);
    mark(going, place, was.1, goes);
}

impl Clients {
    /// No clients.
    pub(crate) fn new(alloc: Global) -> Clients
        ensures { result ≡ [] }
    {
        Clients {
            alloc,
            places: Vec::new(alloc),
            held: Vec::new(alloc),
            going: Vec::new(alloc),
        }
    }

    /// The number of clients.
    pub(crate) fn count(&self) -> usize
        ensures { result ≡ taken self.now }
    {
        self.held.len()
    }

    /// The first index from here on with a client that may take a turn; `free` is whether a worker
    /// is free. In most cases it is this index.
    pub(crate) fn next(&self, free: bool, from: usize) -> Option<u32>
        ensures place { result ≡ next_in free self.now from }
        ensures within { IfSome result (λ place. place < length self.now) }
    {
        if goes_at(free, self.places.as_slice(), from) {
            Some(from as u32)
        } else {
            self.seek(free, from)
        }
    }

    // The same, by the list of indices.
    fn seek(&self, free: bool, from: usize) -> Option<u32>
        ensures place { result ≡ next_in free self.now from }
        ensures within { IfSome result (λ place. place < length self.now) }
    {
        if free {
            first_from(self.held.as_slice(), from)
        } else {
            first_from(self.going.as_slice(), from)
        }
    }

    /// The next call of the client at an index.
    pub(crate) fn call_at(&self, scripts: bool, place: u32) -> Result<Option<Call>, AllocError>
        requires { place < length self.now }
        ensures { MakesCallAt scripts self.now place result }
    {
        match &self.places[place as usize] {
            Some(client) => {
                let call = client.next_call(scripts, Fd::new(place))?;
                Ok(Some(call))
            }
            None => Ok(None),
        }
    }

    /// The worker that runs the script of the client at an index, if any.
    pub(crate) fn worker_at(&self, place: u32) -> Option<u32>
        ensures worker { result ≡ worker_at self.now place }
        ensures within { IfSome result (λ worker. worker < MAX_WORKERS) }
    {
        let at = place as usize;
        if at >= self.places.len() {
            return None;
        }
        match &self.places[at] {
            Some(client) => client.worker(),
            None => None,
        }
    }

    /// Adds a new client at an index. If the index exists, it allocates nothing.
    pub(crate) fn admit(&mut self, place: u32) -> Result<(), AllocError>
        ensures ok { IfOk result (λ _. self.new ≡ with_at self.old place (Some new_client)) }
        ensures err { OnErr result (self.new ≡ self.old) }
        ensures wants { OnErr result (length self.old ≤ place) }
    {
        make_room(&mut self.held, place)?;
        make_room(&mut self.going, place)?;
        let was = noted(self.places.as_slice(), place);
        reach(&mut self.places, place)?;
        self.places[place as usize] = Some(Client::new(self.alloc));
        note(
            self.places.as_slice(),
            was,
            &mut self.held,
            &mut self.going,
            place,
        );
        Ok(())
    }

    /// The action of the client at an index after the reply to its call, if there is a client.
    pub(crate) fn advance_at(
        &mut self,
        context: Context,
        reply: Received<'_>,
    ) -> Result<Option<Course>, AllocError>
        requires { context.worker < MAX_WORKERS }
        ensures { ProceedsAt context.scripts context.worker self.old context.fd reply.entry.last.now
            (received reply.entry.parts) result self.new }
    {
        let place = context.fd.number();
        let at = place as usize;
        if at >= self.places.len() {
            return Ok(None);
        }
        let was = noted(self.places.as_slice(), place);
        match &mut self.places[at] {
            Some(client) => {
                let course = client.advance(context, reply)?;
                note(
                    self.places.as_slice(),
                    was,
                    &mut self.held,
                    &mut self.going,
                    place,
                );
                Ok(Some(course))
            }
            None => Ok(None),
        }
    }

    /// The turn of the client at an index passes to others. A client whose connection is over is
    /// removed.
    pub(crate) fn leave_at(&mut self, fd: u32, left: Left)
        requires within { fd < length self.old }
        requires rests { MayRest (in_place self.old fd) left }
        ensures { self.new ≡ left_at self.old fd left }
    {
        let was = noted(self.places.as_slice(), fd);
        leave(&mut self.places[fd as usize], left);
        note(
            self.places.as_slice(),
            was,
            &mut self.held,
            &mut self.going,
            fd,
        );
    }
}
