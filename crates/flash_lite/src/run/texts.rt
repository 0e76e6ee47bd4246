//! The texts that the server makes for a script.
ghost use Rattle.std.specs.Prelude.{◌≡◌, ◌<◌, IfOk};
ghost use Rattle.flash_http.specs.Prelude.{wanted};
ghost use Rattle.flash_laws.specs.Answers.Scripts as spec;
ghost use Rattle.flash_lite.specs.Runs.{IsPiece};

use crate::conn::send::Following;
use flash_http::{CHUNK_END, LAST_CHUNK, Request, ResponseHead, chunk_head};
use std::alloc::{AllocError, Global};

/// The head of the response.
#[tactic(auto, using(crate::proofs::Responses::Texts::script_text_is))]
pub(crate) fn script_text(alloc: Global, request: &Request) -> Result<Vec<u8>, AllocError>
    ensures { IfOk result (λ bytes. bytes.items ≡ spec.script_text (wanted request.now)) }
{
    let head = ResponseHead::of_script(request.chunked, !request.keep);
    let text = head.to_text(alloc)?;
    Ok(text.into_bytes())
}

/// The text around `size` bytes of a chunk, with a place for them.
pub(crate) fn frame_text(alloc: Global, size: u32) -> Result<Vec<u8>, AllocError>
    requires { 0 < size }
    ensures { IfOk result (λ bytes. bytes.items ≡ spec.frame_of size) }
{
    let text = chunk_head(alloc, u64::from(size))?;
    let mut bytes = text.into_bytes();
    bytes.extend_from_slice(CHUNK_END.as_bytes())?;
    Ok(bytes)
}

/// Their place in it: after their number, and two bytes that end its line.
#[tactic(auto, using(crate::proofs::Responses::Frames::place_by_digits))]
pub(crate) fn place_in_frame(size: u32) -> u32
    requires { 0 < size }
    ensures { result ≡ spec.place_in_frame size }
{
    size.ilog(16) + 3
}

/// The end of a body in chunks: around the remaining bytes, or by itself.
pub(crate) fn end_text(alloc: Global, held: Following) -> Result<Vec<u8>, AllocError>
    requires { IsPiece held }
    ensures { IfOk result (λ bytes. bytes.items ≡ spec.end_around held) }
{
    match held {
        Some((_, size)) => {
            let mut bytes = frame_text(alloc, size)?;
            bytes.extend_from_slice(LAST_CHUNK.as_bytes())?;
            Ok(bytes)
        }
        None => Ok(Vec::from_slice(alloc, LAST_CHUNK.as_bytes())?),
    }
}
