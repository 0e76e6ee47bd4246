//! Serves a connection of a world from a reader and to a writer.
ghost use Rattle.std.specs.Prelude.{◌≡◌, ◌≢◌, ◌||◌, [], true, false};
ghost use Rattle.std.specs.Io.KnownBytes.{Appends};
ghost use Rattle.iol_core.specs.Prelude.{lacks_conn};
ghost use Rattle.iol_proc.specs.Prelude.{KeepsHonesty, copied};
ghost use Rattle.iol_serve.specs.Service.{HasEnded, ProceedsIn, SendsIn, ServesIn, ServesUntil, hung_up};
ghost use Rattle.iol_serve.specs.Rounds as spec;
ghost use Rattle.iol_system.specs.Prelude.{tables_of, IsSafe};

use crate::ending::Ending;
use iol_back::backing::Backing;
use iol_core::descriptors::How;
use iol_core::events::Event;
use iol_core::limits::{MAX_QUEUE_BYTES, PAGE_BYTES};
use iol_core::numbers::ConnId;
use iol_core::refusals::Refusal;
use iol_proc::process::Process;
use iol_proc::world::World;
use std::io;
use std::io::{Read, Write};

/// The maximum number of rounds of a connection.
const MAX_ROUNDS: u32 = 0x10_0000;

/// The maximum number of process turns in one round.
const TURNS: usize = 65_536;

/// After this many successive rounds with nothing sent and processes not idle, the connection is
/// stalled.
const MAX_STALLS: u32 = 32;

/// The maximum number of bytes of one read and of one send.
const PIECE: u32 = PAGE_BYTES as u32;

/// The result of a part of a round.
#[derive(Clone, Copy)]
enum Step {
    /// Bytes were received or sent, or may be in a later round.
    Moved,

    /// Nothing is queued for sending. As the result of a round: and the processes are not idle.
    Idle,

    /// A read, a write or a flush failed.
    Failed,

    /// No more input will arrive, and all processes wait for it.
    Silent,

    /// In too many successive rounds nothing was sent and the processes were not idle.
    Stalled,

    /// The connection was removed.
    Over,
}

/// Serves a connection of the world until the connection or its peer is gone. Bytes from the
/// reader arrive on the connection; its output goes to the writer, which is flushed before each
/// read. At the end of the reader, the peer is reported as done. The peer is reported as gone
/// after a fault of the reader or the writer, if no more input will arrive and all processes are
/// idle, after 32 successive rounds in which nothing is sent and the processes are not idle, and
/// after 1,048,576 rounds. The result distinguishes these cases.
///
/// A round has three parts: process turns until all are idle, at most 65,536; sending all queued
/// output, at most 4,096 bytes at a time; and, if all are idle and nothing was sent, one read of
/// at most 4,096 bytes.
pub fn serve_connection<B: Backing + Drop, P: Process, R: Read, W: Write>(
    world: &mut World<B, P>,
    conn: ConnId,
    reader: &mut R,
    writer: &mut W,
) -> Ending
    ensures ended { HasEnded (tables_of world.new.machine.kernel) conn }
    ensures over { result ≡ Ending.Over →
        lacks_conn (tables_of world.new.machine.kernel) conn ≡ true }
    ensures honest { KeepsHonesty world.old.machine world.new.machine }
    ensures serves { ServesUntil P.turns conn result R.remaining reader.old reader.new
        W.contents writer.old writer.new world.old world.new }
{
    let mut ending = Ending::Over;
    let mut stalls = 0;
    for _ in 0..MAX_ROUNDS {
        let before = ending;
        let step = round(world, conn, reader, writer, &mut stalls);
        ending = after(before, step);
        if is_last(before, step) {
            finish(writer, ending);
            return ending;
        }
    }
    long(ending, hang_up(world, conn))
}

// The ending, if this round is the last. The first failure determines it.
fn after(before: Ending, step: Step) -> Ending
    ensures { result ≡ spec.after before step }
{
    if before.is_hung_up() {
        return before;
    }
    match step {
        Step::Failed => Ending::Failed,
        Step::Silent => Ending::Silent,
        Step::Stalled => Ending::Long,
        Step::Moved | Step::Idle | Step::Over => Ending::Over,
    }
}

// Returns whether a round is the last: the connection is over, or its peer is gone now and was
// before.
fn is_last(before: Ending, step: Step) -> bool
    ensures { result ≡ spec.is_last (hung_up before) step }
{
    match step {
        Step::Moved | Step::Idle => false,
        Step::Failed | Step::Silent | Step::Stalled => before.is_hung_up(),
        Step::Over => true,
    }
}

// The ending when the limit of rounds is reached; `was_there` is whether the connection still
// existed.
fn long(before: Ending, was_there: bool) -> Ending
    ensures reported { hung_up result ≡ (hung_up before || was_there) }
    ensures over { result ≡ Ending.Over → was_there ≡ false }
{
    if before.is_hung_up() {
        return before;
    }
    if was_there {
        Ending::Long
    } else {
        Ending::Over
    }
}

// Flushes the last bytes. If the peer is gone, the writer is not tried again: it could block as
// long as before.
fn finish<W: Write>(writer: &mut W, ending: Ending)
    ensures { Appends (W.contents writer.old) (W.contents writer.new) [] }
{
    if !ending.is_hung_up() {
        let _ = writer.flush();
    }
}

// Runs one round, after which the world knows if the peer is gone.
fn round<B: Backing + Drop, P: Process, R: Read, W: Write>(
    world: &mut World<B, P>,
    conn: ConnId,
    reader: &mut R,
    writer: &mut W,
    stalls: &mut u32,
) -> Step
    ensures gone { spec.is_gone result ≡ true →
        HasEnded (tables_of world.new.machine.kernel) conn }
    ensures over { result ≡ Step.Over →
        lacks_conn (tables_of world.new.machine.kernel) conn ≡ true }
    ensures honest { KeepsHonesty world.old.machine world.new.machine }
    ensures serves { spec.ServesBy P.turns conn result R.remaining reader.old reader.new
        W.contents writer.old writer.new world.old world.new }
{
    let reached = exchange(world, conn, reader, writer);
    let step = bounded(reached, stalls);
    if is_gone(step) {
        return tell(world, conn, step);
    }
    step
}

// Returns the step, or `Stalled` at the limit of successive idle steps.
fn bounded(step: Step, stalls: &mut u32) -> Step
    ensures over { result ≡ Step.Over → step ≡ Step.Over }
{
    *stalls = match step {
        Step::Idle => stalls.saturating_add(1),
        _ => 0,
    };
    if *stalls < MAX_STALLS {
        return step;
    }
    *stalls = 0;
    Step::Stalled
}

// Returns whether the step must be reported as a peer that is gone.
fn is_gone(step: Step) -> bool
    ensures { result ≡ spec.is_gone step }
{
    matches!(step, Step::Failed | Step::Silent | Step::Stalled)
}

// Reports that the peer is gone, if the connection exists.
fn tell<B: Backing + Drop, P: Process>(world: &mut World<B, P>, conn: ConnId, step: Step) -> Step
    requires { spec.is_gone step ≡ true }
    ensures ended { HasEnded (tables_of world.new.machine.kernel) conn }
    ensures over { result ≡ Step.Over →
        lacks_conn (tables_of world.new.machine.kernel) conn ≡ true }
    ensures honest { KeepsHonesty world.old.machine world.new.machine }
    ensures proceeds { ProceedsIn P.turns conn [] [] (spec.is_gone result) world.old world.new }
{
    if hang_up(world, conn) {
        step
    } else {
        Step::Over
    }
}

// Runs process turns, then sends, then reads.
fn exchange<B: Backing + Drop, P: Process, R: Read, W: Write>(
    world: &mut World<B, P>,
    conn: ConnId,
    reader: &mut R,
    writer: &mut W,
) -> Step
    ensures over { result ≡ Step.Over →
        lacks_conn (tables_of world.new.machine.kernel) conn ≡ true }
    ensures honest { KeepsHonesty world.old.machine world.new.machine }
    ensures serves { ServesIn P.turns conn false R.remaining reader.old reader.new
        W.contents writer.old writer.new world.old world.new }
{
    let is_idle = quiesce(world, conn);
    let step = send(world, conn, writer);
    if !is_idle {
        return step;
    }
    match step {
        Step::Idle => receive(world, conn, reader, writer),
        other => other,
    }
}

// Runs process turns until all are idle, up to the limit.
fn quiesce<B: Backing + Drop, P: Process>(world: &mut World<B, P>, conn: ConnId) -> bool
    ensures honest { KeepsHonesty world.old.machine world.new.machine }
    ensures proceeds { ProceedsIn P.turns conn [] [] false world.old world.new }
{
    let _conn = conn;
    world.until_idle(TURNS)
}

// Sends all queued output.
fn send<B: Backing + Drop, P: Process, W: Write>(
    world: &mut World<B, P>,
    conn: ConnId,
    writer: &mut W,
) -> Step
    ensures over { result ≡ Step.Over →
        lacks_conn (tables_of world.new.machine.kernel) conn ≡ true }
    ensures honest { KeepsHonesty world.old.machine world.new.machine }
    ensures sends { SendsIn P.turns conn W.contents writer.old writer.new world.old world.new }
{
    let mut has_moved = false;
    for _ in 0..=MAX_QUEUE_BYTES {
        match send_piece(world, conn, writer) {
            Step::Moved => has_moved = true,
            Step::Idle => return progress(has_moved),
            other => return other,
        }
    }
    progress(has_moved)
}

// The step after a send, by whether it sent bytes.
fn progress(has_moved: bool) -> Step
    ensures { result ≢ Step.Over }
{
    if has_moved { Step::Moved } else { Step::Idle }
}

// Sends the first bytes of the queued output.
fn send_piece<B: Backing + Drop, P: Process, W: Write>(
    world: &mut World<B, P>,
    conn: ConnId,
    writer: &mut W,
) -> Step
    ensures over { result ≡ Step.Over →
        lacks_conn (tables_of world.new.machine.kernel) conn ≡ true }
    ensures honest { KeepsHonesty world.old.machine world.new.machine }
    ensures sends { SendsIn P.turns conn W.contents writer.old writer.new world.old world.new }
{
    match world.drain_to(conn, writer, PIECE) {
        Ok(drained) => {
            if drained.failed {
                Step::Failed
            } else if drained.taken == 0 {
                Step::Idle
            } else {
                Step::Moved
            }
        }
        Err(_) => Step::Over,
    }
}

// Flushes the writer, then makes one read.
fn receive<B: Backing + Drop, P: Process, R: Read, W: Write>(
    world: &mut World<B, P>,
    conn: ConnId,
    reader: &mut R,
    writer: &mut W,
) -> Step
    ensures goes { result ≢ Step.Over }
    ensures honest { KeepsHonesty world.old.machine world.new.machine }
    ensures serves { ServesIn P.turns conn false R.remaining reader.old reader.new
        W.contents writer.old writer.new world.old world.new }
{
    if writer.flush().is_err() {
        return Step::Failed;
    }
    match world.arrive_from(conn, reader, PIECE) {
        Ok(arrived) => {
            if arrived.failed {
                return Step::Failed;
            }
            if arrived.end {
                close(world, conn);
            }
            Step::Moved
        }
        // The peer sends no more, and all processes wait for it.
        Err(Refusal::BrokenPipe) => Step::Silent,
        // The next round retries, and detects whether the connection was removed.
        Err(_) => Step::Moved,
    }
}

// Reports that the peer of a connection sends no more.
fn close<B: Backing + Drop, P: Process>(world: &mut World<B, P>, conn: ConnId)
    ensures honest { KeepsHonesty world.old.machine world.new.machine }
    ensures proceeds { ProceedsIn P.turns conn [] [] false world.old world.new }
{
    let how = How::Done;
    let _ = world.step_outside(Event::PeerClosed { conn, how });
}

// Reports that the peer of a connection is gone, and returns whether the connection existed.
fn hang_up<B: Backing + Drop, P: Process>(world: &mut World<B, P>, conn: ConnId) -> bool
    ensures ended { HasEnded (tables_of world.new.machine.kernel) conn }
    ensures lacks { result ≡ false →
        lacks_conn (tables_of world.new.machine.kernel) conn ≡ true }
    ensures honest { KeepsHonesty world.old.machine world.new.machine }
    ensures proceeds { ProceedsIn P.turns conn [] [] result world.old world.new }
{
    if is_there(world, conn) {
        let how = How::Gone;
        let _ = world.step_outside(Event::PeerClosed { conn, how });
        true
    } else {
        false
    }
}

// Returns whether the connection exists, by sending zero bytes, which changes nothing.
fn is_there<B: Backing + Drop, P: Process>(world: &mut World<B, P>, conn: ConnId) -> bool
    ensures found { result ≡ true →
        lacks_conn (tables_of world.new.machine.kernel) conn ≡ false }
    ensures lacks { result ≡ false →
        lacks_conn (tables_of world.new.machine.kernel) conn ≡ true }
    ensures safe { result ≡ true → IsSafe world.new.machine }
    ensures honest { KeepsHonesty world.old.machine world.new.machine }
    ensures same { copied world.new ≡ copied world.old }
{
    let mut nowhere = io::sink();
    match world.drain_to(conn, &mut nowhere, 0) {
        Ok(_) => true,
        Err(_) => false,
    }
}
