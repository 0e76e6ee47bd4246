//! Requests to a system.
use iol_core::events::Event;

/// An event, or a report.
#[derive(Drop)]
pub enum Request {
    Event(Event),
    Report,
}

/// A request, and whether it is retried after a fault.
#[derive(Drop)]
pub struct Asked {
    pub request: Request,
    pub is_retried_at_a_fault: bool,
}
