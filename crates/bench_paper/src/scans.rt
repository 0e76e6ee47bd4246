//! The work of the programs on the bytes that they read.
use crate::piece::Scan;

/// The word that lines are searched for.
pub const WORD: &[u8] = b"needle";

/// The lines, words and bytes of a text.
#[derive(Clone, Copy, Drop)]
pub struct Counts {
    pub lines: u64,
    pub words: u64,
    pub bytes: u64,
    is_in_word: bool,
}

impl Counts {
    pub fn new() -> Counts {
        Counts {
            lines: 0,
            words: 0,
            bytes: 0,
            is_in_word: false,
        }
    }
}

impl Scan for Counts {
    fn add(&mut self, part: &[u8]) {
        let mut lines = 0u64;
        let mut words = 0u64;
        let mut is_in_word = self.is_in_word;
        for byte in part {
            let is_end = *byte == b'\n';
            let is_letter = !is_end && *byte != b' ';
            lines = lines.wrapping_add(u64::from(is_end));
            words = words.wrapping_add(u64::from(is_letter && !is_in_word));
            is_in_word = is_letter;
        }
        self.lines = self.lines.wrapping_add(lines);
        self.words = self.words.wrapping_add(words);
        self.bytes = self.bytes.wrapping_add(part.len() as u64);
        self.is_in_word = is_in_word;
    }
}

/// The lines that have the word, as `grep -c` counts them.
#[derive(Clone, Copy, Drop)]
pub struct Search {
    pub lines: u64,

    // The bytes of the word that came last.
    matched: usize,
}

impl Search {
    pub fn new() -> Search {
        Search {
            lines: 0,
            matched: 0,
        }
    }
}

impl Scan for Search {
    // No byte of the word except its first begins it, so a mismatch goes back to the first. After a match
    // the rest of the line is passed over.
    fn add(&mut self, part: &[u8]) {
        let mut matched = self.matched;
        let mut lines = 0u64;
        for byte in part {
            if *byte == b'\n' {
                lines = lines.wrapping_add(u64::from(matched >= WORD.len()));
                matched = 0;
            } else if let Some(next) = WORD.get(matched) {
                let first = WORD.first() == Some(byte);
                matched = if next == byte {
                    matched.saturating_add(1)
                } else {
                    usize::from(first)
                };
            }
        }
        self.matched = matched;
        self.lines = self.lines.wrapping_add(lines);
    }
}
