//! Segments of a file, with their sums.
use crate::machine::Machine;
use crate::piece::{Passing, pass};
use crate::programs::rewind;
use crate::setup::{FILE, FIRST_SOCKET};
use iol_core::events::{Event, Reply};
use iol_core::numbers::ConnId;
use iol_core::refusals::Refusal;

/// The bytes of a segment at most: those of an Ethernet frame without its heads.
const SEGMENT: u32 = 1_460;

/// More segments than a queue has.
const SEGMENTS: u32 = 65_536;

// All queued bytes of connection 1 are sent in segments: their number, and their sums together.
fn send_all(machine: &mut Machine<'_>) -> (u64, u16) {
    let (mut count, mut sums) = (0u64, 0u16);
    let (conn, max) = (ConnId::new(1), SEGMENT);
    for _ in 0..SEGMENTS {
        match machine.step(&Event::Transmit { conn, max }) {
            Reply::Segment { bytes, checksum } => {
                count = count.wrapping_add(bytes.as_slice().len() as u64);
                sums ^= checksum;
            }
            _ => break,
        }
    }
    (count, sums)
}

/// Sends the first bytes of the file this number of times, as many as a queue holds: the bytes of the
/// last time, and their sums together.
pub fn segments(
    machine: &mut Machine<'_>,
    passing: Passing,
    rounds: u32,
) -> Result<(u64, u16), Refusal> {
    let mut sent = (0u64, 0u16);
    for _ in 0..rounds {
        rewind(machine, FILE.fd)?;
        let _passed = pass(machine, FILE, FIRST_SOCKET, passing)?;
        sent = send_all(machine);
    }
    Ok(sent)
}
