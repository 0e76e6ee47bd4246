//! Dates of an access log.
ghost use Rattle.std.specs.Prelude.{◌≡◌, IfOk};
ghost use Rattle.flash_log.specs.Date.{IsDateOf, rearranged as layout};

use httpdate::HttpDate;
use std::alloc::{AllocError, Global};

/// The date and time of a second since 1970, in UTC: `10/Oct/2000:13:55:36 +0000`. Past the year 9999 it is `-`.
pub fn log_date(alloc: Global, seconds: u64) -> Result<Vec<u8>, AllocError>
    ensures { IfOk result (λ text. IsDateOf seconds text.items) }
{
    match HttpDate::from_unix_secs(seconds) {
        Ok(date) => {
            let text = rearranged(alloc, &date.to_bytes())?;
            Ok(text)
        }
        Err(_) => Vec::from_slice(alloc, b"-"),
    }
}

// `Sun, 06 Nov 1994 08:49:37 GMT` as `06/Nov/1994:08:49:37 +0000`.
fn rearranged(alloc: Global, date: &[u8; 29]) -> Result<Vec<u8>, AllocError>
    ensures { IfOk result (λ text. text.items ≡ layout date.now) }
{
    let mut text = Vec::new(alloc);
    text.extend_from_slice(&date[5..7])?;
    text.extend_from_slice(b"/")?;
    text.extend_from_slice(&date[8..11])?;
    text.extend_from_slice(b"/")?;
    text.extend_from_slice(&date[12..16])?;
    text.extend_from_slice(b":")?;
    text.extend_from_slice(&date[17..25])?;
    text.extend_from_slice(b" +0000")?;
    Ok(text)
}
