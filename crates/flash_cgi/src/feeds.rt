//! A worker's view of its aggregates, in place.
ghost use Rattle.std.specs.Prelude.{◌≡◌, ◌<◌, count_by, length, IfOk, OnErr};
ghost use Rattle.std.specs.List.{concat};
ghost use Rattle.iol_proc.specs.Prelude.{readable};
ghost use Rattle.flash_cgi.specs.WorkerSteps as spec;

use crate::counts::Counts;
use iol_agg::Parts;
use iol_core::numbers::AggId;
use iol_proc::look::Look;
use std::alloc::{AllocError, Global};

fn line_feeds(text: &[u8]) -> usize
    ensures { result ≡ count_by spec.is_line_feed text.now }
{
    text.iter().filter(|b| **b == b'\n').count()
}

// The number of line feeds in these pieces, which have `len` bytes.
fn line_feeds_in(parts: Parts<'_>, len: u32) -> u32
    requires { length (concat parts) ≡ len }
    ensures { result ≡ count_by spec.is_line_feed (concat parts.entry) }
{
    let mut count = 0u32;
    for part in parts {
        count += line_feeds(part) as u32;
    }
    count
}

/// The length of an aggregate in bytes; 0 if there is no such aggregate.
pub(crate) fn len_of(look: &Look<'_>, agg: AggId) -> u32
    ensures { result ≡ length (spec.bytes_at (readable look.now) agg) }
{
    look.len(agg).unwrap_or(0)
}

/// The number of line feeds and bytes of an aggregate.
pub(crate) fn counts(look: &Look<'_>, agg: AggId) -> Counts
    ensures { result ≡ spec.counts_of (spec.bytes_at (readable look.now) agg) }
{
    let bytes = len_of(look, agg);
    match look.bytes(agg) {
        Some(parts) => Counts {
            lines: line_feeds_in(parts, bytes),
            bytes,
        },
        None => Counts { lines: 0, bytes },
    }
}

// The text of these pieces, contiguous.
fn joined(alloc: Global, parts: Parts<'_>) -> Result<Vec<u8>, AllocError>
    ensures text { IfOk result (λ text. text.items ≡ concat parts.entry) }
    ensures wants { OnErr result (0 < length (concat parts.entry)) }
{
    let mut text = Vec::new(alloc);
    for part in parts {
        text.extend_from_slice(part)?;
    }
    Ok(text)
}

/// A copy of the bytes of an aggregate. An empty copy allocates nothing.
pub(crate) fn text_of(alloc: Global, look: &Look<'_>, agg: AggId) -> Result<Vec<u8>, AllocError>
    ensures text { IfOk result (λ text. text.items ≡ spec.bytes_at (readable look.now) agg) }
    ensures wants { OnErr result (0 < length (spec.bytes_at (readable look.now) agg)) }
{
    match look.bytes(agg) {
        Some(parts) => joined(alloc, parts),
        None => Ok(Vec::new(alloc)),
    }
}
