//! The lists and the queues of deadlines that a client is in.
ghost use Rattle.std.specs.Prelude.{◌≡◌, false, None};

/// The queues of deadlines in which a client has an entry.
#[derive(Clone, Copy, Debug, PartialEq, Eq)]
pub struct Armed {
    pub head: bool,
    pub rate: bool,
    pub drain: bool,
    pub park: bool,
}

/// The lists of an engine that a client is in, and the times of its limits.
#[derive(Clone, Copy, Debug, PartialEq, Eq)]
pub struct Marks {
    /// Its number, which no other client gets.
    pub serial: u64,

    /// Whether it is in the list of clients that are visited in the next round, and in the list of
    /// those with a pending response.
    pub is_ready: bool,
    pub is_pending: bool,

    pub armed: Armed,

    /// Since when a request is incomplete, if one is.
    pub head_since: Option<u64>,

    /// The number of bytes that the socket had accepted when its rate was measured last.
    pub rate_mark: u64,
}

impl Marks {
    /// A new client is in no list.
    pub fn new(serial: u64) -> Marks
        ensures serial { result.serial ≡ serial }
        ensures ready { result.is_ready ≡ false }
        ensures pending { result.is_pending ≡ false }
        ensures armed { result.armed ≡
            record { head = false; rate = false; drain = false; park = false } }
        ensures since { result.head_since ≡ None }
        ensures accepted { result.rate_mark ≡ 0 }
    {
        Marks {
            serial,
            is_ready: false,
            is_pending: false,
            armed: Armed {
                head: false,
                rate: false,
                drain: false,
                park: false,
            },
            head_since: None,
            rate_mark: 0,
        }
    }
}
