//! A folder, as a service of the event loop.
ghost use Rattle.std.specs.Prelude.{◌≡◌, IfOk, OnErr};
ghost use Rattle.flash_framing.specs.Framing.{Framed, LooksAtFirst};
ghost use Rattle.flash_framing.specs.Progress as framing;
ghost use Rattle.flash_http.specs.Prelude.{window_in};
ghost use Rattle.flash_lite.specs.declared.layout.TheConstants.{NET_POOL};

use flash_framing::{frame_of, progress_of};
use flash_lite::actor::Actor;
use flash_lite::layout::NET_POOL;
use iol_back::folder::FolderBacking;
use iol_proc::world::World;
use iol_reactor::service::{Exchange, Frame, Progress, Service};
use std::alloc::{AllocError, Global};
use std::rt::Files;

/// The files of a folder at the time when it was read. It records nothing, and its world is not
/// replaced.
#[derive(Clone, Copy, Debug)]
pub struct FolderService;

impl<R: Files> Service<FolderBacking<R>, Actor> for FolderService {
    const POOL: u32 = NET_POOL;

    ghost POOL = { NET_POOL };

    // The first request, by its window and its head.
    ghost frames = { Framed };

    fn frame(&self, alloc: Global, bytes: &[u8]) -> Result<Frame, AllocError>
        ensures frame { IfOk result (λ frame. Framed bytes.now frame) }
        ensures memory { OnErr result (LooksAtFirst (window_in bytes.now) bytes.now) }
    {
        frame_of(alloc, bytes)
    }

    fn progress(&self, exchange: &Exchange<'_>) -> Progress
        ensures { result ≡ framing.progress_of exchange.now }
    {
        progress_of(exchange)
    }

    fn record(&mut self, exchange: &Exchange<'_>) {
        let _ = exchange;
    }

    fn flush(&mut self) {}

    fn renew(&mut self, is_worn: bool) -> Option<World<FolderBacking<R>, Actor>> {
        let _ = is_worn;
        None
    }
}
