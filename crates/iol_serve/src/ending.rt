//! The ways in which serving a connection ends.
ghost use Rattle.std.specs.Prelude.{◌≡◌};
ghost use Rattle.iol_serve.specs.Service.{hung_up};

/// The way in which serving a connection ended. In all cases except the first, its peer was
/// reported as gone: output that was not sent by then is dropped.
#[derive(Clone, Copy, Debug, PartialEq, Eq)]
pub enum Ending {
    /// The connection was removed, and its peer was never reported as gone: all bytes written on
    /// it were sent.
    Over,

    /// A read, a write or a flush failed.
    Failed,

    /// The peer sends nothing more and all output was sent, but no process closes the connection
    /// and all are idle.
    Silent,

    /// The connection reached the limit of rounds, or the limit of successive rounds with nothing
    /// sent and processes that are not idle.
    Long,
}

impl Ending {
    /// Returns whether the peer was reported as gone.
    pub fn is_hung_up(self) -> bool
        ensures { result ≡ hung_up self }
    {
        !matches!(self, Ending::Over)
    }
}
