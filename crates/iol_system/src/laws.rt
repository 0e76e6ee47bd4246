//! Laws of runs: consequences of a run's clause `chain`, for all events, and properties of a system
//! between any two events. The functions do nothing; their contracts are the laws.
ghost use Rattle.iol_system.specs.Laws.{RunsAsTheMachine, RunsInParts, EachEventIsAStep};
ghost use Rattle.iol_system.specs.Laws.{AllPagesComeFree, ClosedPoolsGiveBack, EachPageHasOneUse, EachChunkHasOnePool};
ghost use Rattle.iol_system.specs.Laws.{EachStepKeepsChunks, NoRoomEvictsNothing, NoRoomKeepsPools, RefusedWithoutRoomEvictsNothing};
ghost use Rattle.iol_system.specs.Laws.{RunsStaySafe, RunsStayOrderly, RunsKeepAddresses, RunsKeepBuffers, RunsKeepHonesty, RunsKeepPlaces, RunsKeepValues, RunsShare};

/// The replies of a run, and the state after it, are those of the machine that copies at every call.
pub fn runs_as_the_machine()
    ensures { RunsAsTheMachine }
{}

/// A run of some events and then others is a run of the first, and from there a run of the others.
pub fn runs_in_parts()
    ensures { RunsInParts }
{}

/// Each event of a run keeps all promises of a step: NoRoom only if there is no room, sharing, and the others.
pub fn each_event_is_a_step()
    ensures { EachEventIsAStep }
{}

/// An event that is refused for lack of room evicts nothing: each extent keeps its place, dirty or
/// clean, and L and the order of eviction of each pool are unchanged, except that a read of a file
/// has counted its hits by then, only for extents that its range meets.
pub fn no_room_evicts_nothing()
    ensures { NoRoomEvictsNothing }
{}

/// If there is no room, an event that is refused evicts nothing, whatever the refusal, including
/// Memory.
pub fn refused_without_room_evicts_nothing()
    ensures { RefusedWithoutRoomEvictsNothing }
{}

/// An event that is refused for lack of room leaves each pool its list and its chunks, including
/// closed pools, each page its state, and each buffer its count.
pub fn no_room_keeps_pools()
    ensures { NoRoomKeepsPools }
{}

/// Each event leaves an open pool its chunks, and a closed one all of them or none, whatever the
/// reply.
pub fn each_step_keeps_chunks()
    ensures { EachStepKeepsChunks }
{}

/// A run from a safe system ends in a safe one. With [`runs_in_parts`], counts and access are right at each moment.
pub fn runs_stay_safe()
    ensures { RunsStaySafe }
{}

/// A run from a system whose machine is orderly ends in one: each end of a pipe and each connection
/// is open in one descriptor at most, each open object exists, each existing object is open in a
/// live domain, and later numbers are not used yet. So the laws of the machine hold.
pub fn runs_stay_orderly()
    ensures { RunsStayOrderly }
{}

/// A run does not change whether a store is honest.
pub fn runs_keep_honesty()
    ensures { RunsKeepHonesty }
{}

/// A buffer that is live before and after a run has the same bytes and pool, and no identity is
/// used twice.
pub fn runs_keep_buffers()
    ensures { RunsKeepBuffers }
{}

/// Each byte of an aggregate that no event of a run gives up keeps its place: the buffer, and the
/// offset in it.
pub fn runs_keep_places()
    ensures { RunsKeepPlaces }
{}

/// Each byte of an aggregate that no event of a run gives up is at the same address after the run
/// as before.
pub fn runs_keep_addresses()
    ensures { RunsKeepAddresses }
{}

/// An aggregate that no event of a run gives up keeps its value.
pub fn runs_keep_values()
    ensures { RunsKeepValues }
{}

/// A run of sharing calls copies nothing: the bytes that they pass on keep their places, and no
/// page is published or freed.
pub fn runs_share()
    ensures { RunsShare }
{}

/// Between any two events each page is unused, or is part of exactly one live buffer.
pub fn each_page_has_one_use()
    ensures { EachPageHasOneUse }
{}

/// Between any two events each chunk that is taken is of exactly one pool.
pub fn each_chunk_has_one_pool()
    ensures { EachChunkHasOnePool }
{}

/// Between any two events a closed pool has returned its chunks, as soon as no buffer in them is
/// held.
pub fn closed_pools_give_back()
    ensures { ClosedPoolsGiveBack }
{}

/// If no domain and no connection is live and no extent of a file is left, every page that is not
/// retired is free, whether its chunk is a pool's or not. With [`runs_stay_safe`] and
/// [`runs_stay_orderly`] this holds at each moment of a run.
pub fn all_pages_come_free()
    ensures { AllPagesComeFree }
{}
