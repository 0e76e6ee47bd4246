//! Successive streams of requests.
//!
//! A client of the event loop has one stream, and its requests reach the server on several
//! connections, one after another. If all except the last of these carried whole requests with
//! whole responses that do not close the connection, then the concatenated answers are the answer
//! to the client's stream. The function here has no effect, and its contract is that law.
#![tactic(auto)]

ghost use Rattle.flash_streams.specs.Follow.{StreamsFollow};

use flash_http::{window_fits, window_stays};

/// If a stream consists of whole requests with responses that do not close the connection, then
/// the answer to it and a following stream is its answer followed by the answer to the following
/// stream.
pub fn streams_follow()
    ensures { StreamsFollow }
{
    window_stays();
    window_fits();
}
