//! A queue of deadlines that are all equally far ahead when they are set.
ghost use Rattle.std.specs.Prelude.{◌≡◌, ◌≤◌, ◌<◌, ◌+◌, ◌-◌, ◌^◌, ◌++◌, ◌∷◌, [], ℕ, None, max, min};
ghost use Rattle.std.specs.Prelude.{IfOk, IfSome, OnErr, OnOk, length};
ghost use Rattle.std.specs.List.{All};
ghost use Rattle.std.proofs.Props.{props};
ghost use Rattle.iol_reactor.specs.Deadlines.{IsOrdered, first_of, last_of};

use std::alloc::{AllocError, Global};
use std::collections::VecDeque;

/// A time, in milliseconds, and the key that is expected then.
#[derive(Clone, Copy)]
struct Deadline<K> {
    at: u64,
    key: K,
}

/// Keys that become expected after the same delay, in the order of their deadlines.
#[derive(Drop)]
pub struct Deadlines<K> {
    delay: u64,
    entries: VecDeque<Deadline<K>>,
    ghost ordered: { IsOrdered entries.items } by { Prim.hlevel props },
}

impl<K: Copy> Deadlines<K> {
    /// No deadline yet, and memory for this number of them. Each will be expected this number of
    /// milliseconds after it was set.
    pub fn new(alloc: Global, delay: u64, count: usize) -> Result<Deadlines<K>, AllocError>
        ensures empty { IfOk result (λ queue. queue.entries.items ≡ []) }
        ensures delay { IfOk result (λ queue. queue.delay ≡ delay) }
    {
        Ok(Deadlines {
            delay,
            entries: VecDeque::with_capacity(alloc, count)?,
        })
    }

    /// Reserves memory for one more deadline.
    pub fn reserve(&mut self) -> Result<(), AllocError>
        ensures entries { self.new.entries.items ≡ self.old.entries.items }
        ensures delay { self.new.delay ≡ self.old.delay }
    {
        self.entries.reserve(1)
    }

    /// Sets a deadline for a key, counted from now, and not before those that were set earlier.
    pub fn set(&mut self, now: u64, key: K) -> Result<(), AllocError>
        ensures set { OnOk result (self.new.entries.items ≡ self.old.entries.items ++ record {
          at = max (min (now + self.old.delay) (2 ^ 64 - 1)) (last_of self.old.entries.items);
          key = key;
        } ∷ []) }
        ensures err { OnErr result (self.new.entries.items ≡ self.old.entries.items) }
        ensures delay { self.new.delay ≡ self.old.delay }
    {
        let at = now.saturating_add(self.delay).max(self.last());
        self.entries.push_back(Deadline { at, key })?;
        Ok(())
    }

    /// Removes the first key that is expected, if one is.
    pub fn take_due(&mut self, now: u64) -> Option<K>
        ensures due { IfSome result (λ key. (at : ℕ) × (at ≤ now) × (self.old.entries.items ≡
            record { at = at; key = key } ∷ self.new.entries.items)) }
        ensures none { result ≡ None → self.new.entries.items ≡ self.old.entries.items }
        ensures later { result ≡ None → All (λ d. now < d.at) self.old.entries.items }
        ensures delay { self.new.delay ≡ self.old.delay }
    {
        let first = self.entries.front()?;
        if now < first.at {
            return None;
        }
        let due = self.entries.pop_front()?;
        Some(due.key)
    }

    /// Removes the first key, expected or not.
    pub fn take_first(&mut self) -> Option<K>
        ensures first { IfSome result (λ key. (at : ℕ) × (self.old.entries.items ≡
            record { at = at; key = key } ∷ self.new.entries.items)) }
        ensures none { result ≡ None →
            (self.old.entries.items ≡ []) × (self.new.entries.items ≡ []) }
        ensures delay { self.new.delay ≡ self.old.delay }
    {
        let first = self.entries.pop_front()?;
        Some(first.key)
    }

    /// The number of deadlines.
    pub fn len(&self) -> usize
        ensures { result ≡ length self.now.entries.items }
    {
        self.entries.len()
    }

    /// The first deadline.
    pub fn first(&self) -> Option<u64>
        ensures { result ≡ first_of self.now.entries.items }
    {
        let first = self.entries.front()?;
        Some(first.at)
    }

    // The last deadline, or 0.
    fn last(&self) -> u64
        ensures { result ≡ last_of self.now.entries.items }
    {
        match self.entries.back() {
            Some(last) => last.at,
            None => 0,
        }
    }
}
