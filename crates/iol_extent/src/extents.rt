//! The extents of a file.
ghost use Rattle.std.specs.Prelude.{◌≡◌, ◌+◌, ◌-◌, ◌<◌, ◌≤◌, ◌^◌, [], length, All, IfOk, IfSome, OnOk, insert, remove, max, IsSome, true, false, if◌then◌else◌};
ghost use Rattle.iol_hold.specs.Prelude.{byte_len};
ghost use Rattle.iol_extent.specs.Extents.{Extent, extent_of, dirty_count, Adds, EndsAtLater, FindsDirty, FindsMet, HasCellOver, IsApart, IsExtentOver, IsFirstDirty, IsGap, KeepsRoom, LacksAt, begins_at, cleaned_at, last_end, put_in, without_at};
ghost use Rattle.iol_extent.specs.Spans.{BeginsAt, Finds};

use crate::piece::Piece;
use crate::pieces::{Pieces, count_before};
use crate::spans::{Found, Span};
use iol_agg::Agg;
use std::alloc::{AllocError, Global};
use std::marker::Model;

/// The extents of a file, in the order of offsets.
///
/// A contract sees them as a list, and the room: the number of extents that can be inserted without allocating. Only
/// `reserve` and `find` need memory.
#[derive(Drop)]
pub struct Extents {
    pieces: Pieces,

    // The number of dirty extents, and a place before which no dirty extent begins.
    dirty: usize,
    clean_to: u32,
}

impl Model for Extents {
    ghost use Rattle.std.specs.Prelude.{◌≡◌};
    ghost use Rattle.iol_extent.specs.Extents.{AreCleanBefore, ExtentMap, IsApart, dirty_count};

    ghost Value = { ExtentMap };

    ghost view = { λ e. e.pieces };

    ghost invariant = { λ e. record {
      apart : IsApart 0 e.pieces.extents;
      dirty : e.dirty ≡ dirty_count e.pieces.extents;
      clean : AreCleanBefore e.clean_to e.pieces.extents;
    } };
}

// 1 if an extent is dirty, else 0.
fn count_dirty(dirty: bool) -> usize
    ensures { result ≡ (if dirty then 1 else 0) }
{
    if dirty { 1 } else { 0 }
}

// A place before which no dirty extent begins, after an extent is added at `at`.
fn clean_with(clean_to: u32, at: u32, dirty: bool) -> u32
    ensures lower { result ≤ clean_to }
    ensures clean { at < result → dirty ≡ false }
{
    if dirty {
        return clean_to.min(at);
    }
    clean_to
}

impl Extents {
    /// A file without extents.
    pub fn new(alloc: Global) -> Extents
        ensures { result ≡ record { extents = []; room = 0 } }
    {
        Extents {
            pieces: Pieces::new(alloc),
            dirty: 0,
            clean_to: 0,
        }
    }

    /// Reserves room for `count` more extents. Never fails if there is as much room already. An error leaves the room
    /// unchanged.
    pub fn reserve(&mut self, count: usize) -> Result<(), AllocError>
        ensures room { OnOk result (count ≤ self.new.room) }
        ensures same { self.new ≡ record self.old { room = self.new.room } }
        ensures keeps { KeepsRoom count self.old.room self.new.room result }
    {
        self.pieces.reserve(count)
    }

    /// The extent over a byte: where it begins, its bytes, and whether it is dirty.
    pub fn over(&self, at: u32) -> Option<(u32, &Agg, bool)>
        ensures extent { IsExtentOver self.now.extents at result }
        ensures cell { HasCellOver self.now.extents at result }
    {
        let found = count_before(&self.pieces, at);
        if found == self.pieces.len() {
            return None;
        }
        let piece = &self.pieces[found];
        if piece.at > at {
            return None;
        }
        Some((piece.at, &piece.agg, piece.dirty))
    }

    /// The number of extents. Each has at least one byte.
    pub fn count(&self) -> usize
        ensures count { result ≡ length self.now.extents }
        ensures few { result ≤ last_end self.now.extents }
    {
        self.pieces.len()
    }

    /// The number of dirty extents.
    pub fn count_dirty(&self) -> usize
        ensures count { result ≡ dirty_count self.now.extents }
        ensures few { result ≤ length self.now.extents }
    {
        // Shows the bound of the count.
        let _count = self.pieces.len();
        self.dirty
    }

    /// The end of the last extent, or 0.
    pub fn end(&self) -> u32
        ensures { result ≡ last_end self.now.extents }
    {
        let count = self.pieces.len();
        if count == 0 {
            return 0;
        }
        let piece = &self.pieces[count - 1];
        piece.end()
    }

    /// Where the first dirty extent begins, and its bytes. The search begins where the last extent became clean.
    pub fn first_dirty(&self) -> Option<(u32, &Agg)>
        ensures { FindsDirty self.now.extents result }
    {
        if self.dirty == 0 {
            return None;
        }
        let from = count_before(&self.pieces, self.clean_to);
        for i in from..self.pieces.len() {
            let piece = &self.pieces[i];
            if piece.dirty {
                return Some((piece.at, &piece.agg));
            }
        }
        None
    }

    /// The place where the first extent begins that has a byte of the range `from..to`. For an empty range, the extent with
    /// bytes on both sides of it.
    pub fn first_met(&self, from: u32, to: u32) -> Option<u32>
        ensures { FindsMet self.now.extents from to result }
    {
        let found = count_before(&self.pieces, from);
        if found == self.pieces.len() {
            return None;
        }
        let piece = &self.pieces[found];
        if piece.at >= to {
            return None;
        }
        Some(piece.at)
    }

    // The hit or the gap that begins at `at`, and whether it is a hit.
    fn span_at(&self, at: u32, to: u32) -> (Span, bool)
        requires { at < to }
        ensures { BeginsAt self.now.extents at to result.0 result.1 }
    {
        let found = count_before(&self.pieces, at);
        if found == self.pieces.len() {
            return (Span { from: at, to }, false);
        }
        let piece = &self.pieces[found];
        if piece.at > at {
            let span = Span {
                from: at,
                to: piece.at.min(to),
            };
            return (span, false);
        }
        let span = Span {
            from: at,
            to: piece.end().min(to),
        };
        (span, true)
    }

    /// The hits and the gaps of a range: one hit for each extent that it meets, and each gap as long as it can be. An
    /// empty or reversed range has none.
    pub fn find(&self, alloc: Global, from: u32, to: u32) -> Result<Found, AllocError>
        ensures { IfOk result (λ found.
            Finds self.now.extents from to found.hits.items found.gaps.items) }
    {
        let mut hits = Vec::new(alloc);
        let mut gaps = Vec::new(alloc);
        let mut at = from;
        while at < to {
            let (span, hit) = self.span_at(at, to);
            at = span.to;
            if hit {
                hits.push(span)?;
                continue;
            }
            gaps.push(span)?;
        }
        Ok(Found { hits, gaps })
    }

    /// Inserts an extent into a gap, in reserved room.
    pub fn put(&mut self, at: u32, agg: Agg, dirty: bool)
        requires room { 0 < self.old.room }
        requires some { 0 < byte_len agg }
        requires fits { at + byte_len agg < 2 ^ 32 }
        requires gap { IsGap self.old.extents at (at + byte_len agg) }
        ensures extents { self.new.extents ≡ put_in self.old.extents (extent_of at agg dirty) }
        ensures room { self.new.room ≡ self.old.room - 1 }
        ensures apart { IsApart 0 self.new.extents }

        // The cover of each byte, and the end of the last extent.
        ensures adds { Adds self.old.extents (extent_of at agg dirty) self.new.extents }
        ensures ends { last_end self.new.extents ≡
            max (at + byte_len agg) (last_end self.old.extents) }
    {
        let place = count_before(&self.pieces, at);
        self.pieces.insert(place, Piece { at, agg, dirty });
        self.dirty += count_dirty(dirty);
        self.clean_to = clean_with(self.clean_to, at, dirty);
    }

    /// Makes the first dirty extent clean, which begins at `at`.
    pub fn clean(&mut self, at: u32)
        requires { IsFirstDirty self.old.extents at }
        ensures extents { self.new.extents ≡ cleaned_at self.old.extents at }
        ensures room { self.new.room ≡ self.old.room }
        ensures apart { IsApart 0 self.new.extents }
    {
        let found = count_before(&self.pieces, at);
        self.pieces.clean(found);
        self.dirty -= 1;
        self.clean_to = at;
    }

    /// Removes the extent that begins at `at`.
    pub fn remove(&mut self, at: u32) -> Agg
        requires { IsSome (begins_at self.old.extents at) }
        ensures given { IfSome (begins_at self.old.extents at) (λ e. result ≡ e.parts) }
        ensures extents { self.new.extents ≡ without_at self.old.extents at }
        ensures room { self.new.room ≡ self.old.room + 1 }
        ensures apart { IsApart 0 self.new.extents }

        // The cover of each byte, and the end of the last extent.
        ensures lacks { LacksAt self.old.extents at self.new.extents }
        ensures ends { EndsAtLater self.old.extents at self.new.extents }
    {
        let found = count_before(&self.pieces, at);
        let Piece { at: _, agg, dirty } = self.pieces.remove(found);
        self.dirty -= count_dirty(dirty);
        agg
    }
}
