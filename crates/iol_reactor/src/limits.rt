//! Limits of the number of clients, and of the time of each step of a client.

/// Limits of a reactor. Times are in milliseconds.
#[derive(Clone, Copy, Debug, PartialEq, Eq)]
pub struct Limits {
    /// The number of clients at once. Others wait in the system's queue of the listener.
    pub max_clients: usize,

    /// The number of clients that have a connection of a world at once. The others wait for one of
    /// them to be idle.
    pub live: usize,

    /// A client's request is complete within this time after its first byte, or after the response
    /// before it.
    pub head_millis: u64,

    /// A client is silent between requests for at most this time.
    pub idle_millis: u64,

    /// A client with pending output must accept at least this number of bytes per second, on
    /// average over `rate_millis`.
    pub min_rate: u64,
    pub rate_millis: u64,

    /// After the last byte was sent, the peer's end is awaited for this time.
    pub drain_millis: u64,

    /// A client that is idle for this time gives back its connection of the world.
    pub park_millis: u64,

    /// After a new world has begun, requests in progress in the one before have this time to finish.
    pub retire_millis: u64,

    /// The service ends when this number of clients has come and gone. None: it never ends.
    pub stop_after: Option<u32>,

    /// Whether the service ends with an error if accepting fails while it has no client whose end
    /// could make room. If not, it tries again every `ACCEPT_MILLIS`.
    pub ends_unaccepted: bool,
}

impl Limits {
    pub const DEFAULT: Limits = Limits {
        max_clients: 4_096,
        live: 256,
        head_millis: 10_000,
        idle_millis: 60_000,
        min_rate: 1_024,
        rate_millis: 20_000,
        drain_millis: 1_000,
        park_millis: 2,
        retire_millis: 300_000,
        stop_after: None,
        ends_unaccepted: false,
    };
}

/// The events that one poll reports at most.
pub const EVENTS: usize = 256;

/// Between two polls of the sockets the processes have turns until all are idle, or until this time
/// has passed at the end of a time slice that is not of the first process.
pub const RUN_MICROS: u64 = 1_000;

/// The time slice of a process: it has turns until it is idle, or for this time.
pub const SLICE_MICROS: u64 = 500;

/// The clock is read after each turn in which a process acted; for the first one, which serves the
/// clients, after this number of such turns.
pub const UNTIMED_TURNS: usize = 8;

/// The turns between two polls at most.
pub const MAX_TURNS: usize = 65_536;

/// The bytes of one read at most.
pub const READ_BYTES: usize = 16_384;

/// Before a read there is memory for this number of bytes at least.
pub const MIN_READ_BYTES: usize = 1_024;

/// Before a response is collected there is memory for this number of bytes at least, should the
/// socket accept none of them.
pub const MIN_KEPT_BYTES: usize = 16_384;

/// A client with this number of buffered bytes is not read until one of its requests has its
/// response.
pub const MAX_BUFFERED: usize = 16_384;

/// The first bytes of a response that an [`Exchange`](crate::service::Exchange) shows.
pub const HEAD_BYTES: usize = 2_048;

/// The last bytes of a response that it shows.
pub const TAIL_BYTES: usize = 8;

/// The time after which a step that lacked room or memory is retried.
pub const ROOM_MILLIS: u64 = 5;

/// After this time a listener that failed, as for lack of descriptors, accepts again.
pub const ACCEPT_MILLIS: u64 = 100;

/// The time between two requests to the service for a new world.
pub const RENEW_MILLIS: u64 = 1_000;

/// A world whose connections have reached this number is replaced: numbers have 32 bits and are
/// never used again.
pub const WORN_CONNECTION: u32 = 0xf000_0000;
