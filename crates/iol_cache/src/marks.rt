//! How often clean extents hold each buffer.
ghost use Rattle.std.specs.Prelude.{◌≡◌, ◌<◌, length, replicate, IfOk};
ghost use Rattle.iol_hold.specs.Prelude.{count_of, Covers, bufs_of};
ghost use Rattle.iol_cache.specs.Marks.{AreWithin, CanTurn, CanTurnAt, Turns, is_held_more, is_in_use, with_turned};

use iol_hold::{Slice, Store};
use std::alloc::{AllocError, Global};
use std::marker::Model;

/// For each page, how many slices in clean extents are of the buffer that begins there.
#[derive(Drop)]
pub(crate) struct CleanHolds {
    marks: Vec<u64>,
}

impl Model for CleanHolds {
    ghost use Rattle.std.specs.Prelude.{List, ℕ};

    ghost Value = { List ℕ };

    ghost view = { λ c. c.marks.items };
}

// Counts one slice more, or one fewer, of the buffer that begins at the page.
fn turn_one(marks: &mut Vec<u64>, page: usize, is_clean: bool)
    requires { CanTurnAt is_clean marks.old.items page }
    ensures { marks.new.items ≡ with_turned is_clean marks.old.items page }
{
    if is_clean {
        marks[page] += 1;
    } else {
        marks[page] -= 1;
    }
}

// Whether anything except clean extents holds the buffer of a slice.
fn is_held_more(marks: &Vec<u64>, store: &Store, slice: &Slice) -> bool
    requires within { slice.now.hold.buf.page < length marks.now.items }
    requires live { 0 < count_of store.now slice.now.hold.buf }
    ensures { result ≡ is_held_more store.now marks.now.items slice.now.hold.buf }
{
    let buf = slice.hold.buf();
    marks[buf.page as usize] < store.count(buf)
}

impl CleanHolds {
    /// Counts of 0 for `pages` pages.
    pub(crate) fn new(alloc: Global, pages: usize) -> Result<CleanHolds, AllocError>
        ensures { IfOk result (λ c. c ≡ replicate pages 0) }
    {
        let marks = vec![in alloc; 0u64; pages]?;
        Ok(CleanHolds { marks })
    }

    /// The counts by page.
    pub(crate) fn as_slice(&self) -> &[u64]
        ensures { result.now ≡ self.now }
    {
        self.marks.as_slice()
    }

    /// Adds the slices of an extent that becomes clean, or subtracts those of one that is no longer clean.
    pub(crate) fn set_clean(&mut self, slices: &[Slice], is_clean: bool)
        requires within { AreWithin (length self.old) slices.now }
        requires can { CanTurn is_clean self.old slices.now }
        ensures { Turns is_clean self.old self.new slices.now }
    {
        for slice in slices {
            turn_one(&mut self.marks, slice.hold.buf().page as usize, is_clean);
        }
    }

    /// Whether anything except clean extents holds the buffer of one of the slices.
    pub(crate) fn is_in_use(&self, store: &Store, slices: &[Slice]) -> bool
        requires within { AreWithin (length self.now) slices.now }
        requires covered { Covers store.now (bufs_of slices.now) }
        ensures { result ≡ is_in_use store.now self.now slices.now }
    {
        for slice in slices {
            if is_held_more(&self.marks, store, slice) {
                return true;
            }
        }
        false
    }
}
