//! The input of a client, and its requests.
ghost use Rattle.std.specs.Prelude.{◌≡◌, true};
ghost use Rattle.iol_reactor.specs.Served.{IsFrameAt};

use crate::client::Phase;
use crate::engine::Engine;
use crate::input::Reading;
use crate::service::{Frame, Service};
use crate::socket::Socket;
use crate::timers::Key;
use iol_back::backing::Backing;
use iol_proc::process::Process;
use std::alloc::AllocError;

// The number of bytes to hand in, or 0 if there is no complete request.
fn length_of(frame: &Frame) -> usize {
    match frame {
        Frame::Incomplete => 0,
        Frame::Complete(length) | Frame::Last(length) => *length,
    }
}

impl<S: Socket + Drop, B: Backing + Drop, P: Process, V: Service<B, P>> Engine<S, B, P, V> {
    /// Reads the input of a client's socket, and hands in its next request if it has a complete
    /// one.
    pub(crate) fn receive(&mut self, slot: usize, service: &mut V) -> Result<(), AllocError> {
        if !self.read(slot, service) {
            return Ok(());
        }
        match self.places.phase(slot) {
            Phase::Parked | Phase::Idle => self.ask(slot, service),
            Phase::Answering => {
                self.give(slot);
                Ok(())
            }
            _ => Ok(()),
        }
    }

    // Reads once from a client's socket, if it may have bytes. False: nothing is left to do now.
    fn read(&mut self, slot: usize, service: &mut V) -> bool {
        let now = self.now();
        match self.places.read(slot, self.piece.as_mut_slice(), now) {
            Reading::Failed => {
                self.places.abandon(slot, service);
                false
            }
            Reading::Starved => {
                self.starve();
                false
            }
            Reading::Bytes(_) | Reading::Empty | Reading::End => true,
        }
    }

    // Begins a client's next request, if it is complete.
    fn ask(&mut self, slot: usize, service: &mut V) -> Result<(), AllocError> {
        let Ok(frame) = self.places.frame(slot, self.alloc, service) else {
            self.starve();
            return Ok(());
        };
        if length_of(&frame) == 0 {
            self.lacks_request(slot, &frame);
            return Ok(());
        }
        if self.worlds().is_outdated(slot) {
            self.places.leave(slot);
            return Ok(());
        }
        if self.links(slot) {
            self.begin(slot, &frame);
        }
        Ok(())
    }

    // Whether a client with a complete request has a connection, or gets one.
    fn links(&mut self, slot: usize) -> bool
        ensures { result ≡ true → self.new.places.clients ≡ self.old.places.clients }
    {
        self.worlds().has_link(slot) || self.connect(slot)
    }

    // Begins a request, and hands it in.
    fn begin(&mut self, slot: usize, frame: &Frame)
        requires { IsFrameAt V.frames slot self.old.places.clients.items frame.now }
    {
        if let Some(Some(marks)) = self.marks.get_mut(slot) {
            marks.head_since = None;
        }
        self.places.begin(slot, frame);
        self.give(slot);
    }

    // A client has no complete request. If it sends no more, it ends; otherwise the rest of its
    // request is awaited for a limited time.
    fn lacks_request(&mut self, slot: usize, frame: &Frame)
        requires { IsFrameAt V.frames slot self.old.places.clients.items frame.now }
    {
        let Some(client) = self.places.get(slot) else {
            return;
        };
        if client.is_ended() {
            if self.worlds().has_link(slot) {
                self.places.leave(slot);
            } else {
                self.places.end_input(slot, frame);
            }
            return;
        }
        if !client.next().is_empty() {
            self.await_rest(slot);
        }
    }

    // The rest of a client's request is awaited from now on, if it was not before.
    fn await_rest(&mut self, slot: usize) {
        let now = self.now();
        let Some(Some(marks)) = self.marks.get_mut(slot) else {
            return;
        };
        if marks.head_since.is_some() {
            return;
        }
        if !marks.armed.head {
            let serial = marks.serial;
            if self.timers.heads.set(now, Key { slot, serial }).is_err() {
                self.starve();
                return;
            }
            marks.armed.head = true;
        }
        marks.head_since = Some(now);
    }

    // A client with a complete request gets a connection, or waits for one. False: it has none now.
    fn connect(&mut self, slot: usize) -> bool
        ensures { result ≡ true → self.new.places.clients ≡ self.old.places.clients }
    {
        let now = self.now();
        let is_full = self.worlds().links() >= self.limits.live;
        let Some(Some(marks)) = self.marks.get_mut(slot) else {
            return false;
        };
        let serial = marks.serial;
        let key = Key { slot, serial };
        marks.head_since = None;
        if is_full {
            if self.waiting.push_back(key).is_err() {
                self.starve();
            } else {
                self.places.wait(slot);
            }
            return false;
        }
        if self.timers.parks.reserve().is_err() || !self.places.connect(slot) {
            self.starve();
            return false;
        }
        if !marks.armed.park {
            marks.armed.park = self.timers.parks.set(now, key).is_ok();
        }
        true
    }

    // Hands in the rest of a client's request.
    fn give(&mut self, slot: usize) {
        if !self.places.hand_in(slot) && !self.places.is_over(slot) {
            self.starve();
        }
    }
}
