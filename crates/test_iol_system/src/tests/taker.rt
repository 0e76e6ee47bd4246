//! A taker of several slices in memory, which counts its calls.
ghost use Rattle.std.specs.Prelude.{◌≤◌, length};

use iol_sock::Gather;
use std::alloc::Global;

/// Takes at most `most` bytes in each call, and counts its calls.
#[derive(Drop)]
pub struct Taker {
    bytes: Vec<u8>,
    most: u32,
    pub calls: u32,
}

impl Taker {
    pub fn new(alloc: Global, most: u32) -> Taker {
        Taker {
            bytes: Vec::new(alloc),
            most,
            calls: 0,
        }
    }

    pub fn bytes(&self) -> &[u8] {
        &self.bytes
    }

    // Takes the first bytes of one slice. None, if there is no memory for them.
    fn take(&mut self, slice: &[u8], most: usize) -> usize
        ensures { result ≤ length slice.now }
    {
        let most = slice.len().min(most);
        match self.bytes.extend_from_slice(&slice[..most]) {
            Ok(()) => most,
            Err(_) => 0,
        }
    }
}

impl Gather for Taker {
    fn gather(&mut self, first: &[u8], second: &[u8], third: &[u8], fourth: &[u8]) -> usize {
        self.calls = self.calls.saturating_add(1);
        let most = self.most as usize;
        let one = self.take(first, most);
        let two = one.saturating_add(self.take(second, most.saturating_sub(one)));
        let three = two.saturating_add(self.take(third, most.saturating_sub(two)));
        three.saturating_add(self.take(fourth, most.saturating_sub(three)))
    }
}
