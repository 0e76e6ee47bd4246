//! Laws of scripts and workers. The functions have no effect; their contracts are the laws.
ghost use Rattle.flash_cgi.specs.Laws.{OthersReceive, ScriptsHaveOneOutput, WorkersStop, FeedsOn, WorkersStayFree, RunningIsFull, WorkersKeepNothing, JobsAreRead, WorkersAreConfined, OutcomesAreTrue, OutputsAreShown, JobsAreTaken, PiecesAreLong, TurnsFeed, WaitingIsEmpty};

use iol_laws::laws;

/// Parsing the text of a job gives that job.
pub fn jobs_are_read()
    ensures { JobsAreRead }
{}

/// If a worker writes its buffered output before a line, it has at least
/// [`MIN_PIECE_BYTES`](crate::piece::MIN_PIECE_BYTES) bytes, or is followed by a file of its own.
pub fn pieces_are_long()
    ensures { PiecesAreLong }
{}

/// A worker that reads a waiting job runs that job, and all of its output is pending.
pub fn jobs_are_taken()
    ensures { JobsAreTaken }
{
    laws::each_step_leaves_the_rest();
}

/// A worker's call preserves its pending output, until all of it is written or the pipe has no
/// reader.
pub fn workers_feed_pipes()
    ensures { FeedsOn }
{
    laws::each_step_leaves_the_rest();
    laws::calls_serve_their_domain();
    laws::file_calls_serve_their_domain();
    laws::refusals_tell_why();
}

/// The same for each turn of a worker, from the time when its job waits until it is free for the
/// next one. The outcomes that it settles are those of the files; if the call for a file is
/// refused with TooMany, NoRoom, Fault or Memory, the outcome is this refusal.
pub fn turns_feed()
    ensures { TurnsFeed }
{
    workers_feed_pipes();
    jobs_are_taken();
    outcomes_are_true();
    laws::calls_serve_their_domain();
    laws::each_step_leaves_the_rest();
}

/// Events of others preserve a worker's job and its pending output, except for bytes taken from
/// the front of its output pipe: these were the front of the pending output, and are the result of
/// a read of the pipe.
pub fn others_receive()
    ensures { OthersReceive }
{
    laws::each_step_leaves_the_rest();
    laws::others_leave_pipes();
}

/// The outcomes that a worker's calls settle are those of the files that its lines name. If the
/// call for a file is refused with TooMany, NoRoom, Fault or Memory, the outcome is this refusal.
pub fn outcomes_are_true()
    ensures { OutcomesAreTrue }
{
    laws::each_step_leaves_the_rest();
    laws::file_calls_serve_their_domain();
}

/// If the files do not change, a script outputs one text: the output of its lines, in order, from
/// its job to its end. Each turn of its worker keeps the rest of the text expected, and the bytes
/// that others take are its front. A turn whose call for a file is refused with TooMany, NoRoom,
/// Fault or Memory replaces the text by another: that of the same lines with the refusal instead of
/// the file, which begins with the bytes already taken. After the job is read, its job pipe is
/// empty.
pub fn scripts_have_one_output()
    ensures { ScriptsHaveOneOutput }
{
    turns_feed();
    others_receive();
    workers_are_confined();
    laws::calls_serve_their_domain();
}

/// If a worker waits for a job when all are idle, its job pipe is empty and has a writer.
pub fn waiting_is_empty()
    ensures { WaitingIsEmpty }
{
    laws::refusals_tell_why();
}

/// If a worker has a job when all are idle, it is writing to its output pipe, which is full.
pub fn running_is_full()
    ensures { RunningIsFull }
{
    laws::refusals_tell_why();
    laws::refusals_that_are_left();
    laws::file_calls_serve_their_domain();
}

/// A new worker is free. A worker without a job stays free, whatever others do, until a job
/// arrives or its job pipe ends. After a text that is no job it is free again.
pub fn workers_stay_free()
    ensures { WorkersStayFree }
{
    laws::calls_serve_their_domain();
}

/// A worker whose job pipe has ended makes no more calls; any other continues.
pub fn workers_stop()
    ensures { WorkersStop }
{
    laws::calls_serve_their_domain();
}

/// After each call and each turn, a worker has only the descriptors and aggregates that its
/// current call uses. So a worker that has ended its script and waits for a job has nothing except
/// its job pipe.
pub fn workers_keep_nothing()
    ensures { WorkersKeepNothing }
{
    laws::calls_serve_their_domain();
    laws::refusals_tell_why();
    laws::aggregates_come_and_go();
}

/// A worker's turn changes only its own domain and one pipe: its job pipe while it is free, then
/// its output pipe.
pub fn workers_are_confined()
    ensures { WorkersAreConfined }
{
    laws::each_step_leaves_the_rest();
    laws::aggregates_come_and_go();
    laws::descriptors_come_by_replies();
}

/// A worker's output is in the pools of the files and in its default pool. So a domain that may
/// read these is never denied its output.
pub fn outputs_are_shown()
    ensures { OutputsAreShown }
{
    laws::labels_follow();
    laws::each_step_leaves_the_rest();
    laws::file_calls_serve_their_domain();
    laws::domains_and_pools_come_and_go();
}
