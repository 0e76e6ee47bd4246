//! The steps after each call that makes a chunk: its frame is made once, and the buffered output
//! is inserted into it.
ghost use Rattle.std.specs.Prelude.{◌≡◌};
ghost use Rattle.flash_laws.specs.Run as spec;
ghost use Rattle.flash_lite.specs.ReceivedBytes.{received};
ghost use Rattle.flash_lite.specs.Runs.{IsSmallStep};

use crate::received::count;
use flash_laws::phase::{Phase, Sending};
use flash_laws::script_run::Step;
use iol_agg::Parts;
use iol_core::events::Reply;
use iol_core::numbers::AggId;

/// After making the frame.
pub(crate) fn after_frame(held: AggId, last: &Reply) -> Step
    ensures after_reply { result ≡ spec.after_frame held last.now }
    ensures small { IsSmallStep result }
{
    match last {
        Reply::Agg(frame) => Step::FillingFrame {
            held,
            frame: *frame,
        },
        _ => Step::MakingFrame { held },
    }
}

/// After inserting the buffered output into the frame.
pub(crate) fn after_wrap(held: AggId, frame: AggId, last: &Reply, parts: Option<Parts<'_>>) -> Step
    ensures after_reply { result ≡ spec.after_wrap held frame last.now (received parts.entry) }
    ensures small { IsSmallStep result }
{
    match last {
        Reply::Agg(chunk) => Step::DroppingHeld {
            held,
            chunk: *chunk,
            len: count(parts),
            frame,
        },
        _ => Step::FillingFrame { held, frame },
    }
}

/// After dropping the buffered output.
pub(crate) fn after_trim(held: AggId, chunk: AggId, len: u32, frame: AggId, last: &Reply) -> Step
    ensures after_reply { result ≡ spec.after_trim held chunk len frame last.now }
    ensures small { IsSmallStep result }
{
    match last {
        Reply::Done => Step::SendingPart {
            phase: Phase::SendingWhole {
                sending: Sending::whole(chunk, len, 0, None),
            },
            frame: Some(frame),
        },
        _ => Step::DroppingHeld {
            held,
            chunk,
            len,
            frame,
        },
    }
}
