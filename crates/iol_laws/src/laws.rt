//! Laws of the copying machine. The functions have no effect; their contracts are the laws.
ghost use Rattle.iol_laws.specs.Aggregates.{AggregatesComeAndGo};
ghost use Rattle.iol_laws.specs.Caller.{CallsServeTheirDomain, NumbersAreNew};
ghost use Rattle.iol_laws.specs.CallerCopies.{CopyingCallsServeTheirDomain};
ghost use Rattle.iol_laws.specs.CallerDomains.{DomainsAndPoolsComeAndGo};
ghost use Rattle.iol_laws.specs.CallerFiles.{FileCallsServeTheirDomain};
ghost use Rattle.iol_laws.specs.Frame.{EachStepLeavesTheRest};
ghost use Rattle.iol_laws.specs.History.{HistoriesAddUp};
ghost use Rattle.iol_laws.specs.Labels.{ArrivalsLieInTheirPool};
ghost use Rattle.iol_laws.specs.Lengths.{LengthsStayBounded};
ghost use Rattle.iol_laws.specs.DescriptorNumbers.{DescriptorsComeByReplies};
ghost use Rattle.iol_laws.specs.Order.{EachStepKeepsOrder};
ghost use Rattle.iol_laws.specs.Others.{OthersLeaveConnections, OthersLeavePipes};
ghost use Rattle.iol_laws.specs.Reasons.{RefusalsTellWhy};
ghost use Rattle.iol_laws.specs.RefusalsLeft.{RefusalsThatAreLeft};
ghost use Rattle.iol_laws.specs.ConnNumbers.{ConnectionNumbersRise};
ghost use Rattle.iol_laws.specs.Sources.{LabelsFollow};

/// A step changes only what its event touches. All other connections, pipes, descriptors, files
/// and pools are unchanged, and so are the domains that live, their default pools, and the
/// aggregates that no call consumes. The list of a pool gains at most one domain per step and
/// loses none.
pub fn each_step_leaves_the_rest()
    ensures { EachStepLeavesTheRest }
{}

/// A new state is orderly, and each step preserves this. Each pipe end and each connection is open
/// in at most one descriptor. The object of each open descriptor exists, and each existing end or
/// accepted connection is open in a live domain. Each pipe has an open end. An ended domain has
/// nothing. No object has a number at or above the next one. A pool's list has at most 16 domains.
/// From a new state on, domains may read what they have, and positions are within files.
pub fn each_step_keeps_order()
    ensures { EachStepKeepsOrder }
{}

/// The effect of a call for its caller, in terms that the caller observes: replies, and bytes by
/// number.
pub fn calls_serve_their_domain()
    ensures { CallsServeTheirDomain }
{}

/// The effect of a file call for its caller: the file that is opened, the bytes read and written,
/// their position, and the possible refusals.
pub fn file_calls_serve_their_domain()
    ensures { FileCallsServeTheirDomain }
{}

/// The copying calls read and write what the calls on aggregates do, and keep all aggregates of
/// the caller.
pub fn copying_calls_serve_their_domain()
    ensures { CopyingCallsServeTheirDomain }
{}

/// A new domain has nothing. A domain that ends leaves nothing open: its descriptors are closed as
/// by `close`. Exactly the listed domains may read a new pool, and each `pool_admit` adds one.
/// `set_pool` sets the default pool of its caller.
pub fn domains_and_pools_come_and_go()
    ensures { DomainsAndPoolsComeAndGo }
{}

/// The condition that each refusal reports. WouldBlock: a read finds an empty queue; a write finds
/// a full queue; an `accept` finds no waiting connection that the domain may have; arriving bytes
/// find a full queue; a segment finds an empty queue. Denied: the domain may not read the first
/// byte. BrokenPipe: a write finds no reader; for arriving bytes, the connection was closed by its
/// domain or its peer. An open descriptor is closed, and an existing aggregate is dropped, without
/// refusal.
pub fn refusals_tell_why()
    ensures { RefusalsTellWhy }
{}

/// The numbers that a domain gets from its calls are new, and the number of an aggregate names an
/// existing one.
pub fn numbers_are_new()
    ensures { NumbersAreNew }
{}

/// A domain's calls do not change a connection that it neither has nor may accept; a waiting
/// connection is unchanged or accepted. External events create or change the connection that they
/// name. As many bytes arrive as fit, and a segment has as many bytes as it may. Only a connection
/// that is then over is removed.
pub fn others_leave_connections()
    ensures { OthersLeaveConnections }
{}

/// A domain's calls do not change a pipe of which it has no end. A domain without the read end
/// takes nothing from the pipe; one without the write end adds nothing.
pub fn others_leave_pipes()
    ensures { OthersLeavePipes }
{}

/// The bytes received and sent on each connection, over the events and replies of a run. The
/// unread bytes are the last of the bytes received, and queued bytes are sent first.
pub fn histories_add_up()
    ensures { HistoriesAddUp }
{}

/// Numbers of connections ascend. A new connection gets the next number, and no number is used
/// again.
pub fn connection_numbers_rise()
    ensures { ConnectionNumbersRise }
{}

/// The refusals that each call may still get if the domain lives and the objects and arguments of
/// the call are valid. Only reads and `fsync` of a file may get Fault. `set_pool`, `seek`,
/// `length`, `close`, `agg_drop` and `exit` are then never refused. Only `accept`, reads, writes,
/// arriving bytes and segments may get WouldBlock, which changes nothing. The same for external
/// events on existing objects: a peer's close and `drop_clean` are never refused.
pub fn refusals_that_are_left()
    ensures { RefusalsThatAreLeft }
{}

/// A domain gets an aggregate only under a number in a reply, to its own call or to a call that
/// gives it away. An aggregate that it consumes is removed.
pub fn aggregates_come_and_go()
    ensures { AggregatesComeAndGo }
{}

/// No file, aggregate or queue exceeds its limit: in a new state, after each step from a state
/// with positions within files, and so in each reachable state.
pub fn lengths_stay_bounded()
    ensures { LengthsStayBounded }
{}

/// The unread bytes of a connection are labelled with the connection's pool. So a domain that may
/// read this pool is never denied a read of the connection.
pub fn arrivals_lie_in_their_pool()
    ensures { ArrivalsLieInTheirPool }
{}

/// Bytes keep the pool in which they were created when they are cut, joined, passed on or read. The
/// result of a call, and the bytes written to a pipe, are in the pools of their source. So a domain
/// that may read these pools is never denied a read of the pipe, and gets all bytes that it
/// requests.
pub fn labels_follow()
    ensures { LabelsFollow }
{}

/// A domain gets a descriptor only under a number in a reply, to its own call or to a call that
/// gives it away. Each such number is below the limit.
pub fn descriptors_come_by_replies()
    ensures { DescriptorsComeByReplies }
{}
