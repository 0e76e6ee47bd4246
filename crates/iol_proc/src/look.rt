//! A process's view of its aggregates.
ghost use Rattle.std.specs.Prelude.{◌≡◌, Some, None, MatchOption, length, option_map};
ghost use Rattle.std.specs.List.{concat};
ghost use Rattle.iol_proc.specs.Looks.{readable};

use iol_agg::Parts;
use iol_core::numbers::{AggId, DomainId};
use iol_system::aggregates::Aggregates;

/// The aggregates of one domain, borrowed until its next call.
#[derive(Drop)]
pub struct Look<'a> {
    aggregates: Aggregates<'a>,
    by: DomainId,
}

impl<'a> Look<'a> {
    pub(crate) fn new(aggregates: Aggregates<'a>, by: DomainId) -> Look<'a>
        ensures aggregates { result.aggregates ≡ aggregates.entry }
        ensures by { result.by ≡ by }
    {
        Look { aggregates, by }
    }

    /// The bytes of one of the domain's aggregates, in place; none if it has no such aggregate.
    /// Copies and allocates nothing.
    pub fn bytes(&self, agg: AggId) -> Option<Parts<'a>>
        ensures { MatchOption result (readable self.now agg ≡ None)
            (λ parts. readable self.now agg ≡ Some (concat parts)) }
    {
        match self.aggregates.parts(self.by, agg) {
            Ok(parts) => Some(parts),
            Err(_) => None,
        }
    }

    /// The length of one of the domain's aggregates in bytes; none if it has no such aggregate. It
    /// does not walk the slices and allocates nothing.
    pub fn len(&self, agg: AggId) -> Option<u32>
        ensures { result ≡ option_map length (readable self.now agg) }
    {
        self.aggregates.len(self.by, agg).ok()
    }
}
