//! A block of keys.
ghost use Rattle.std.specs.Prelude.{◌≡◌, ◌+◌, ◌-◌, ◌<◌, ◌≤◌, [], ◌∷◌, ◌++◌, length, slice_index_or, OnOk};
ghost use Rattle.iol_tier.specs.Blocks.{HasPlace, PutsKey, TakesKey};

use std::alloc::{AllocError, Global};
use std::collections::VecDeque;
use std::marker::Model;

/// Keys in order, in a ring.
#[derive(Drop)]
pub(crate) struct Block {
    keys: VecDeque<usize>,
}

impl Model for Block {
    ghost use Rattle.std.specs.VecDeque.{deque_capacity};
    ghost use Rattle.iol_tier.specs.Blocks as blocks;

    ghost Value = { blocks.Block };

    ghost view = { λ b. record { keys = b.keys.items; capacity = deque_capacity b.keys } };
}

impl Block {
    pub(crate) fn new(alloc: Global) -> Block
        ensures { result.keys ≡ [] }
    {
        Block {
            keys: VecDeque::new(alloc),
        }
    }

    /// Enlarges the block to at least `width` places.
    pub(crate) fn widen(&mut self, width: usize) -> Result<(), AllocError>
        ensures keys { self.new.keys ≡ self.old.keys }
        ensures width { OnOk result (width ≤ self.new.capacity) }
        ensures kept { self.old.capacity ≤ self.new.capacity }
    {
        self.keys.reserve(width.saturating_sub(self.keys.len()))
    }

    pub(crate) fn at(&self, place: usize) -> usize
        requires { place < length self.now.keys }
        ensures { result ≡ slice_index_or self.now.keys place result }
    {
        self.keys[place]
    }

    pub(crate) fn insert(&mut self, place: usize, key: usize)
        requires place { place ≤ length self.old.keys }
        requires room { length self.old.keys < self.old.capacity }
        ensures { PutsKey place key self.old self.new }
    {
        let _inserted = self.keys.insert(place, key);
    }

    pub(crate) fn remove(&mut self, place: usize) -> usize
        requires { place < length self.old.keys }
        ensures { TakesKey place result self.old self.new }
    {
        match self.keys.remove(place) {
            Some(key) => key,
            None => unreachable!(),
        }
    }

    pub(crate) fn push_front(&mut self, key: usize)
        requires { length self.old.keys < self.old.capacity }
        ensures { self.new ≡ record self.old { keys = key ∷ self.old.keys } }
    {
        self.keys.push_front_reserved(key);
    }

    pub(crate) fn push_back(&mut self, key: usize)
        requires { length self.old.keys < self.old.capacity }
        ensures { self.new ≡ record self.old { keys = self.old.keys ++ key ∷ [] } }
    {
        self.keys.push_back_reserved(key);
    }

    pub(crate) fn pop_front(&mut self) -> usize
        requires { 0 < length self.old.keys }
        ensures keys { self.old.keys ≡ result ∷ self.new.keys }
        ensures place { HasPlace self.old self.new }
    {
        match self.keys.pop_front() {
            Some(key) => key,
            None => unreachable!(),
        }
    }

    pub(crate) fn pop_back(&mut self) -> usize
        requires { 0 < length self.old.keys }
        ensures keys { self.old.keys ≡ self.new.keys ++ result ∷ [] }
        ensures place { HasPlace self.old self.new }
    {
        match self.keys.pop_back() {
            Some(key) => key,
            None => unreachable!(),
        }
    }
}
