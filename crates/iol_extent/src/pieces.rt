//! Extents, one after another.
ghost use Rattle.std.specs.Prelude.{◌≡◌, ◌+◌, ◌-◌, ◌/◌, ◌<◌, ◌≤◌, [], length};
ghost use Rattle.slab.specs.Slab.{ContainsKey};
ghost use Rattle.iol_extent.specs.Extents.{CleansPlace, IsApart, Reserves};
ghost use Rattle.iol_extent.specs.Keys.{Cleans, EndBefore, Inserts, Removes};

use crate::piece::Piece;
use iol_tier::tiers::TieredVec;
use slab::Slab;
use std::alloc::{AllocError, Global};
use std::marker::Model;
use std::ops::Index;

/// Pieces in a slab, and their keys in order. Inserting or removing a piece moves few keys, wherever it is.
#[derive(Drop)]
pub(crate) struct Pieces {
    slab: Slab<Piece>,
    keys: TieredVec,
    room: usize,
}

impl Model for Pieces {
    ghost use Rattle.std.specs.Prelude.{◌≤◌, map};
    ghost use Rattle.slab.specs.Slab.{HasRoomFor};
    ghost use Rattle.iol_extent.specs.Extents.{ExtentMap};
    ghost use Rattle.iol_extent.specs.Keys.{AreKeys, extent_at};

    ghost Value = { ExtentMap };

    ghost view = { λ p. record { extents = map (extent_at p.slab) p.keys.keys; room = p.room } };

    ghost invariant = { λ p. record {
      keys : AreKeys p.slab p.keys.keys;
      slab_room : HasRoomFor p.slab p.room;
      key_room : p.room ≤ p.keys.room;
    } };
}

impl Index<usize> for Pieces {
    ghost use Rattle.std.specs.Prelude.{◌≡◌, ◌<◌, length, slice_index_or};

    type Output = Piece;

    ghost can_index = { λ p i. i < length p.extents };

    ghost index_gives = { λ p i piece. piece ≡ slice_index_or p.extents i piece };

    fn index(&self, place: usize) -> &Piece {
        &self.slab[self.keys.at(place)]
    }
}

impl Pieces {
    /// A list without pieces.
    pub(crate) fn new(alloc: Global) -> Pieces
        ensures { result ≡ record { extents = []; room = 0 } }
    {
        Pieces {
            slab: Slab::new(alloc),
            keys: TieredVec::new(alloc),
            room: 0,
        }
    }

    /// Reserves room for `count` more pieces. Never fails if there is as much room already. An error leaves the room
    /// unchanged.
    pub(crate) fn reserve(&mut self, count: usize) -> Result<(), AllocError>
        ensures { Reserves count self.old self.new result }
    {
        if count <= self.room {
            return Ok(());
        }
        self.slab.reserve(count)?;
        self.keys.reserve(count)?;
        self.room = count;
        Ok(())
    }

    pub(crate) fn len(&self) -> usize
        ensures { result ≡ length self.now.extents }
    {
        self.keys.len()
    }

    /// Inserts a piece, in reserved room.
    pub(crate) fn insert(&mut self, place: usize, piece: Piece)
        requires place { place ≤ length self.old.extents }
        requires room { 0 < self.old.room }
        ensures { Inserts place piece self.old self.new }
    {
        let key = self.slab.insert_reserved(piece);
        self.keys.insert(place, key);
        self.room -= 1;
    }

    /// Removes a piece.
    pub(crate) fn remove(&mut self, place: usize) -> Piece
        requires { place < length self.old.extents }
        ensures { Removes place result self.old self.new }
    {
        let key = self.keys.remove(place);
        self.room += 1;
        self.slab.remove(key)
    }

    /// Makes a piece clean.
    pub(crate) fn clean(&mut self, place: usize)
        requires { place < length self.old.extents }
        ensures extents { CleansPlace place self.old.extents self.new.extents }
        ensures room { self.new.room ≡ self.old.room }
    {
        let key = self.keys.at(place);
        clean_at(&mut self.slab, key);
    }
}

// Makes the piece at a key clean.
fn clean_at(slab: &mut Slab<Piece>, key: usize)
    requires { ContainsKey slab.old key }
    ensures { Cleans slab.old slab.new key }
{
    slab[key].dirty = false;
}

/// The number of pieces that end at a place or before it.
pub(crate) fn count_before(pieces: &Pieces, at: u32) -> usize
    requires { IsApart 0 pieces.now.extents }
    ensures { EndBefore at pieces.now.extents result }
{
    let mut low = 0;
    let mut high = pieces.len();
    while low < high {
        let middle = low + (high - low) / 2;
        let piece = &pieces[middle];
        if piece.end() <= at {
            low = middle + 1;
        } else {
            high = middle;
        }
    }
    low
}
