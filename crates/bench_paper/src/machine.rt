//! A system, in a value whose model is the unit: contracts say nothing about it.
use crate::counting::Counting;
use iol_agg::Parts;
use iol_core::configuration::Config;
use iol_core::events::{Call, Event, Reply};
use iol_core::numbers::{AggId, ConnId, DomainId};
use iol_core::refusals::Refusal;
use iol_system::system::System;
use std::alloc::{AllocError, Global};
use std::io;
use std::marker::Model;

/// A call of a domain.
pub fn call_of(by: u32, call: Call) -> Event {
    let by = DomainId::new(by);
    Event::Call { by, call }
}

/// The system that is measured.
#[derive(Drop)]
pub struct Machine<'a> {
    system: System<Counting<'a>>,
}

impl<'a> Model for Machine<'a> {
    ghost Value = { Unit {0} };

    ghost view = { λ _. tt };
}

impl<'a> Machine<'a> {
    /// A system with domain 1 and nothing else.
    pub fn new(alloc: Global, config: Config, store: Counting<'a>) -> Result<Machine<'a>, Refusal> {
        let system = System::new(alloc, config, store)?;
        Ok(Machine { system })
    }

    /// A system in which these events were carried out, none of which was refused.
    pub fn begun(
        alloc: Global,
        config: Config,
        store: Counting<'a>,
        lists: &[&[Event]],
    ) -> Result<Machine<'a>, Refusal> {
        let mut machine = Machine::new(alloc, config, store)?;
        match machine.carry_out_lists(lists) {
            Ok(()) => Ok(machine),
            Err(refusal) => {
                drop(machine);
                Err(refusal)
            }
        }
    }

    fn carry_out_lists(&mut self, lists: &[&[Event]]) -> Result<(), Refusal> {
        for list in lists {
            self.carry_out_all(list)?;
        }
        Ok(())
    }

    /// Carries out an event.
    pub fn step(&mut self, event: &Event) -> Reply {
        self.system.step_ref(event)
    }

    /// A call of a domain.
    pub fn call(&mut self, by: u32, call: Call) -> Reply {
        self.step(&call_of(by, call))
    }

    /// Carries out an event that is not to be refused.
    pub fn carry_out(&mut self, event: &Event) -> Result<(), Refusal> {
        if let Reply::Refused(refusal) = self.step(event) {
            return Err(refusal);
        }
        Ok(())
    }

    /// Carries out events, up to the first that is refused.
    pub fn carry_out_all(&mut self, events: &[Event]) -> Result<(), Refusal> {
        for event in events {
            self.carry_out(event)?;
        }
        Ok(())
    }

    /// The bytes of an aggregate, at their places.
    pub fn parts(&self, by: u32, agg: AggId) -> Result<Parts<'_>, Refusal> {
        self.system.parts(DomainId::new(by), agg)
    }

    /// The peer of a connection takes all queued bytes: their number.
    pub fn drain(&mut self, conn: u32) -> Result<u32, Refusal> {
        let drained = self
            .system
            .drain_to(ConnId::new(conn), &mut io::sink(), u32::MAX)?;
        Ok(drained.taken)
    }

    /// The pages of the first pool that are not free.
    pub fn used_pages(&self) -> Result<u32, AllocError> {
        let report = self.system.report()?;
        let mut used = 0u32;
        if let Some(pool) = report.pools.first() {
            used = pool.pages.saturating_sub(pool.free);
        }
        Ok(used)
    }
}
