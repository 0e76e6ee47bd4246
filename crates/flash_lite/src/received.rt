//! The reply to a call, and the bytes of the aggregate in it.
ghost use Rattle.std.specs.Prelude.{◌≡◌, ◌<◌, ◌++◌, IfOk, OnErr, length};
ghost use Rattle.std.specs.List.{concat};
ghost use Rattle.flash_lite.specs.ReceivedBytes.{received};
ghost use Rattle.flash_laws.specs.Prelude.{count_of};

use iol_agg::Parts;
use iol_core::events::Reply;
use std::alloc::AllocError;

/// The reply to a call, with the bytes of the aggregate in it, if it has one.
#[derive(Drop)]
pub struct Received<'a> {
    pub last: &'a Reply,
    pub parts: Option<Parts<'a>>,
}

// The number of bytes in these parts.
fn count_in(parts: Parts<'_>) -> u32
    ensures { result ≡ count_of (concat parts.entry) }
{
    let mut count: u32 = 0;
    for part in parts {
        let len = part.len().min(u32::MAX as usize) as u32;
        count = count.saturating_add(len);
    }
    count
}

/// The number of bytes, or 0.
pub(crate) fn count(parts: Option<Parts<'_>>) -> u32
    ensures { result ≡ count_of (received parts.entry) }
{
    match parts {
        Some(parts) => count_in(parts),
        None => 0,
    }
}

// Appends the bytes of these parts to a list. If memory runs out, it changes nothing. Zero bytes
// need no memory.
fn append_all(list: &mut Vec<u8>, parts: Parts<'_>) -> Result<(), AllocError>
    ensures ok { IfOk result (λ _. list.new.items ≡ list.old.items ++ concat parts.entry) }
    ensures err { OnErr result (list.new.items ≡ list.old.items) }
    ensures wants { OnErr result (0 < length (concat parts.entry)) }
{
    let len = list.len();
    for part in parts {
        if list.extend_from_slice(part).is_err() {
            list.truncate(len);
            return Err(AllocError);
        }
    }
    Ok(())
}

/// Appends these bytes to a list. If memory runs out, it changes nothing. Zero bytes need no
/// memory.
pub(crate) fn append(list: &mut Vec<u8>, parts: Option<Parts<'_>>) -> Result<(), AllocError>
    ensures ok { IfOk result (λ _. list.new.items ≡ list.old.items ++ received parts.entry) }
    ensures err { OnErr result (list.new.items ≡ list.old.items) }
    ensures wants { OnErr result (0 < length (received parts.entry)) }
{
    match parts {
        Some(parts) => append_all(list, parts),
        None => Ok(()),
    }
}
