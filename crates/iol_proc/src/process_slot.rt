//! A process in its domain.
use iol_core::events::Reply;
use iol_core::numbers::DomainId;

/// A process, its domain, and the last reply that it got.
#[derive(Drop)]
pub struct ProcessSlot<P> {
    pub by: DomainId,
    pub process: P,
    pub last: Reply,
}
