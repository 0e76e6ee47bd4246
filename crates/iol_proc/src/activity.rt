//! The activity of a process in a turn.

/// The activity of a process in a turn.
#[derive(Clone, Copy, Debug, PartialEq, Eq)]
pub enum Activity {
    /// It yielded.
    Yields,

    /// The reply to its call was WouldBlock.
    Waits,

    /// Its call had another reply, or it ran out of memory.
    Acts,
}
