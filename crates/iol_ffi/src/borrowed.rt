//! The bytes of an aggregate, borrowed in place by C.
ghost use Rattle.iol_ffi.specs.Parts.{AreCounted, Borrows, PlacesPart, WritesPart, WritesParts};
ghost use Rattle.iol_hold.specs.Prelude.{located};

use crate::address::start_of;
use crate::replies::{IolReply, done, refused};
use crate::store::HostStore;
use iol_agg::LocatedParts;
use iol_core::numbers::{AggId, DomainId};
use iol_system::system::System;

/// Borrowed bytes of a page.
#[repr(C)]
#[derive(Drop)]
pub struct IolPart {
    pub at: *const u8,
    pub len: usize,
}

// Writes the address and the length of a part into place `at` of `room`, if it has that place.
fn place(part: &[u8], at: usize, room: &mut [IolPart])
    ensures { PlacesPart (located part.entry) at room.old room.new }
{
    if at < room.len() {
        room[at] = IolPart {
            at: start_of(part),
            len: part.len(),
        };
    }
}

// Writes the part of this number into `room`, whose first place is for number `skip`. The last
// number, 2^64 - 1, is not written: it may be that of several parts.
fn place_numbered(part: &[u8], number: u64, skip: usize, room: &mut [IolPart])
    ensures { WritesPart (located part.entry) number skip room.old room.new }
{
    let first = skip as u64;
    if number >= first && number < u64::MAX {
        place(part, (number - first) as usize, room);
    }
}

// Writes the address and the length of each part from number `skip` on into `room`, as many as
// fit. The reply counts all parts.
fn place_all(parts: LocatedParts<'_>, skip: usize, room: &mut [IolPart]) -> IolReply
    ensures counted { AreCounted parts.entry result }
    ensures written { WritesParts parts.entry skip room.old room.new }
{
    let mut count = 0u64;
    let mut len = 0u64;
    for part in parts {
        place_numbered(part, count, skip, room);
        count = count.saturating_add(1);
        len = len.saturating_add(part.len() as u64);
    }
    done(count, len)
}

/// Borrows the parts of an aggregate, from number `skip` on.
pub(crate) fn parts_of(
    system: &System<HostStore>,
    by: u32,
    agg: u64,
    skip: usize,
    room: &mut [IolPart],
) -> IolReply
    ensures { Borrows by agg skip system.now.kernel result room.old room.new }
{
    match system.located_parts(DomainId::new(by), AggId::new(agg)) {
        Ok(parts) => place_all(parts, skip, room),
        Err(refusal) => refused(&refusal),
    }
}
