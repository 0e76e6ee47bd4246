//! The orders of the letters of a word, a line each.
use std::alloc::{AllocError, Global};

const LETTERS: usize = 8;

const FIRST: [u8; LETTERS] = *b"abcdefgh";

/// The lines still to come, in the order of a dictionary.
#[derive(Drop)]
pub struct Orders {
    word: [u8; LETTERS],
    is_over: bool,
}

impl Orders {
    pub fn new() -> Orders {
        Orders {
            word: FIRST,
            is_over: false,
        }
    }

    // The last place whose letter is less than the next one.
    fn rise(&self) -> Option<usize> {
        let mut found = None;
        for at in 0..LETTERS - 1 {
            if self.word[at] < self.word[at + 1] {
                found = Some(at);
            }
        }
        found
    }

    // The last place whose letter is greater than this one.
    fn last_above(&self, letter: u8) -> usize {
        let mut found = 0usize;
        for at in 0..LETTERS {
            if self.word[at] > letter {
                found = at;
            }
        }
        found
    }

    // The next word. There is none after the falling one.
    fn advance(&mut self) {
        let Some(at) = self.rise() else {
            self.is_over = true;
            return;
        };
        let at = at.min(LETTERS - 1);
        let letter = self.word[at];
        let other = self.last_above(letter).min(LETTERS - 1);
        self.word[at] = self.word[other];
        self.word[other] = letter;
        self.word[at + 1..].reverse();
    }

    /// The next lines, at most this number of bytes together.
    pub fn lines(&mut self, alloc: Global, most: usize) -> Result<Vec<u8>, AllocError> {
        let mut text = Vec::with_capacity(alloc, most)?;
        for _ in 0..most / (LETTERS + 1) {
            if self.is_over {
                break;
            }
            text.extend_from_slice(&self.word)?;
            text.push(b'\n')?;
            self.advance();
        }
        Ok(text)
    }
}
