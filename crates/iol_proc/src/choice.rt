//! The possible next steps of a world.
use iol_core::events::Event;
use iol_core::numbers::DomainId;

/// The next step of a world.
#[derive(Debug, Drop)]
pub enum Choice {
    /// The process of a domain takes a turn.
    Turn(DomainId),

    /// An external event: one that no process causes.
    Outside(Event),
}
