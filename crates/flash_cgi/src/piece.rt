//! The buffered output of a worker: a text, with bytes of files by reference.
ghost use Rattle.std.specs.Prelude.{◌≡◌, IfOk};
ghost use Rattle.flash_cgi.specs.Collecting as spec;

use iol_core::limits::PAGE_BYTES;
use iol_core::numbers::AggId;
use std::alloc::{AllocError, Global};
use std::marker::Model;

/// From this many bytes on, buffered output is written before the next line. It is 32 bytes less
/// than a page, so that the text of one more `wc` line, or of a refusal, is in the same page.
pub const MIN_PIECE_BYTES: usize = 4064;

/// The maximum length of a file that is buffered: one page. A longer file is written by itself.
pub const MAX_COLLECTED_BYTES: usize = PAGE_BYTES;

/// The place of a file's bytes: the number of bytes of text before them, and the number of bytes
/// of all buffered files before them.
#[derive(Clone, Copy, Debug)]
pub struct Place {
    pub at: u32,
    pub from: u32,
}

/// Buffered output. `held` is an aggregate of the bytes of all buffered files, in order, and
/// `files` is their number of bytes. `places` has the place of each file, the last file first.
/// `next` is a file that is too long, and follows all other bytes.
#[derive(Debug, Drop)]
pub struct Piece {
    pub(crate) text: Vec<u8>,
    pub(crate) held: Option<AggId>,
    pub(crate) files: usize,
    pub(crate) places: Vec<Place>,
    pub(crate) next: Option<AggId>,
}

impl Model for Piece {
    ghost use Rattle.flash_cgi.specs.Collecting.{Collected};

    ghost Value = { Collected };

    ghost view = { λ p. record {
      text = p.text.items;
      held = p.held;
      files = p.files;
      places = p.places.items;
      next = p.next;
    } };
}

// The place after a text of `len` bytes, if there is room for a file.
fn place_behind(len: usize) -> u32
    ensures { result ≡ spec.place_behind len }
{
    if len < MAX_COLLECTED_BYTES {
        len as u32
    } else {
        MAX_COLLECTED_BYTES as u32
    }
}

// All places except the last, which is the first of the list.
fn but_last(alloc: Global, places: &[Place]) -> Result<Vec<Place>, AllocError>
    ensures { IfOk result (λ left. left.items ≡ spec.but_last places.now) }
{
    match places.split_first() {
        Some((_, left)) => Vec::from_slice(alloc, left),
        None => Ok(Vec::new(alloc)),
    }
}

impl Piece {
    /// No buffered output.
    pub(crate) fn nothing(alloc: Global) -> Piece
        ensures { result ≡ spec.nothing }
    {
        Piece {
            text: Vec::new(alloc),
            held: None,
            files: 0,
            places: Vec::new(alloc),
            next: None,
        }
    }

    /// Returns whether nothing is buffered.
    pub(crate) fn is_nothing(&self) -> bool
        ensures { result ≡ spec.is_nothing self.now }
    {
        self.text.is_empty() && self.places.is_empty() && self.held.is_none() && self.next.is_none()
    }

    /// Returns whether there are enough bytes to write before the next line.
    pub(crate) fn is_full(&self) -> bool
        ensures { result ≡ spec.is_full self.now }
    {
        let len = self.text.len();
        if len < MIN_PIECE_BYTES {
            self.files >= MIN_PIECE_BYTES - len
        } else {
            true
        }
    }

    /// The place of the last file.
    pub(crate) fn last(&self) -> Option<Place>
        ensures { result ≡ spec.last_place self.now.places }
    {
        match self.places.first() {
            Some(place) => Some(*place),
            None => None,
        }
    }

    /// Copies the piece. A turn that runs out of memory must not change the worker, so additions
    /// are made to a copy.
    pub(crate) fn copy(&self, alloc: Global) -> Result<Piece, AllocError>
        ensures { IfOk result (λ piece. piece ≡ self.now) }
    {
        let text = Vec::from_slice(alloc, self.text.as_slice())?;
        let places = Vec::from_slice(alloc, self.places.as_slice())?;
        Ok(Piece {
            text,
            held: self.held,
            files: self.files,
            places,
            next: self.next,
        })
    }

    /// A copy with more text.
    pub(crate) fn with_text(&self, alloc: Global, more: &[u8]) -> Result<Piece, AllocError>
        ensures { IfOk result (λ piece. piece ≡ spec.with_text self.now more.now) }
    {
        let mut piece = self.copy(alloc)?;
        piece.text.extend_from_slice(more)?;
        Ok(piece)
    }

    /// A copy with one more line.
    pub(crate) fn with_line(&self, alloc: Global, line: &[u8]) -> Result<Piece, AllocError>
        ensures { IfOk result (λ piece. piece ≡ spec.with_line self.now line.now) }
    {
        let mut piece = self.copy(alloc)?;
        piece.text.extend_from_slice(line)?;
        piece.text.push(b'\n')?;
        Ok(piece)
    }

    /// A copy with one more file, of `len` bytes. `held` is an aggregate of the `from` bytes of
    /// the earlier files, followed by those of this one.
    pub(crate) fn with_file(
        &self,
        alloc: Global,
        held: AggId,
        from: u32,
        len: u32,
    ) -> Result<Piece, AllocError>
        ensures { IfOk result (λ piece. piece ≡ spec.with_file self.now held from len) }
    {
        let at = place_behind(self.text.len());
        let mut places = Vec::new(alloc);
        places.push(Place { at, from })?;
        places.extend_from_slice(self.places.as_slice())?;
        let text = Vec::from_slice(alloc, self.text.as_slice())?;
        Ok(Piece {
            text,
            held: Some(held),
            files: from as usize + len as usize,
            places,
            next: self.next,
        })
    }

    /// A copy with a file that is too long.
    pub(crate) fn with_next(&self, alloc: Global, next: AggId) -> Result<Piece, AllocError>
        ensures { IfOk result (λ piece. piece ≡ spec.with_next self.now next) }
    {
        let mut piece = self.copy(alloc)?;
        piece.next = Some(next);
        Ok(piece)
    }

    /// A copy without that file.
    pub(crate) fn without_next(&self, alloc: Global) -> Result<Piece, AllocError>
        ensures { IfOk result (λ piece. piece ≡ spec.without_next self.now) }
    {
        let mut piece = self.copy(alloc)?;
        piece.next = None;
        Ok(piece)
    }

    /// A copy without its text, of which an aggregate was made.
    pub(crate) fn without_text(&self, alloc: Global) -> Result<Piece, AllocError>
        ensures { IfOk result (λ piece. piece ≡ spec.without_text self.now) }
    {
        let places = Vec::from_slice(alloc, self.places.as_slice())?;
        Ok(Piece {
            text: Vec::new(alloc),
            held: self.held,
            files: self.files,
            places,
            next: self.next,
        })
    }

    /// A copy with this aggregate of the bytes of the remaining files, after the last file's bytes
    /// were cut off.
    pub(crate) fn with_held(&self, alloc: Global, held: AggId) -> Result<Piece, AllocError>
        ensures { IfOk result (λ piece. piece ≡ spec.with_held self.now held) }
    {
        let mut piece = self.copy(alloc)?;
        piece.held = Some(held);
        Ok(piece)
    }

    /// A copy without the last place, whose bytes were inserted into the text.
    pub(crate) fn without_last(&self, alloc: Global) -> Result<Piece, AllocError>
        ensures { IfOk result (λ piece. piece ≡ spec.without_last self.now) }
    {
        let text = Vec::from_slice(alloc, self.text.as_slice())?;
        let places = but_last(alloc, self.places.as_slice())?;
        Ok(Piece {
            text,
            held: self.held,
            files: self.files,
            places,
            next: self.next,
        })
    }

    /// A copy without files, whose bytes were all inserted into the text.
    pub(crate) fn without_files(&self, alloc: Global) -> Result<Piece, AllocError>
        ensures { IfOk result (λ piece. piece ≡ spec.without_files self.now) }
    {
        let text = Vec::from_slice(alloc, self.text.as_slice())?;
        Ok(Piece {
            text,
            held: None,
            files: 0,
            places: Vec::new(alloc),
            next: self.next,
        })
    }
}
