//! Finds the next head of a stream.
ghost use Rattle.std.specs.Prelude.{◌≡◌, ◌<◌, ◌≤◌, ◌+◌, ◌∷◌, [], IfSome, IfNone, length};
ghost use Rattle.std.specs.List.{concat};
ghost use Rattle.flash_http.specs.Window.{window_in, FitsIn, WindowsStay, WindowsFit};
ghost use Rattle.flash_http.specs.Scan.{next_line, searched, Finds, Passes, Proceeds};

use crate::windows::{MAX_HEAD_BYTES, Window};
use iol_agg::Parts;

// The state of the current line: empty, one carriage return, or any other text.
#[derive(Clone, Copy)]
enum Line {
    Fresh,
    Return,
    Text,
}

// The state of a search in a stream: the number of bytes in leading empty lines, the number of
// bytes after them, whether these include a whole line of a head, and the current line.
#[derive(Clone, Copy)]
struct Scan {
    skip: usize,
    len: usize,
    begun: bool,
    line: Line,
}

const START: Scan = Scan {
    skip: 0,
    len: 0,
    begun: false,
    line: Line::Fresh,
};

fn line_with(line: Line, byte: u8) -> Line
    ensures { result ≡ next_line line byte }
{
    match line {
        Line::Fresh if byte == b'\r' => Line::Return,
        _ => Line::Text,
    }
}

impl Scan {
    // Processes one byte, without the limit.
    fn step(&mut self, byte: u8) -> Option<Window>
        requires { searched self.old < MAX_HEAD_BYTES }
        ensures count { IfNone result (searched self.new ≡ searched self.old + 1) }
        ensures found { IfSome result (Finds self.old (byte ∷ [])) }
        ensures proceeds { IfNone result (Proceeds self.old (byte ∷ []) self.new) }
    {
        self.len += 1;
        if byte != b'\n' {
            self.line = line_with(self.line, byte);
            return None;
        }
        match self.line {
            Line::Text => self.begun = true,
            _ if self.begun => {
                return Some(Window::Head {
                    skip: self.skip,
                    len: self.len,
                });
            }
            _ => {
                self.skip += self.len;
                self.len = 0;
            }
        }
        self.line = Line::Fresh;
        None
    }

    // Processes one byte, and stops at the limit.
    #[tactic(auto, using(crate::proofs::ScanLemmas::window_full))]
    fn feed(&mut self, byte: u8) -> Option<Window>
        requires { searched self.old < MAX_HEAD_BYTES }
        ensures room { IfNone result (searched self.new < MAX_HEAD_BYTES) }
        ensures found { IfSome result (Finds self.old (byte ∷ [])) }
        ensures proceeds { IfNone result (Proceeds self.old (byte ∷ []) self.new) }
    {
        let found = self.step(byte);
        if found.is_none() && self.skip + self.len == MAX_HEAD_BYTES {
            Some(Window::TooLarge)
        } else {
            found
        }
    }

    // Passes the rest of a line of text, up to its line feed or the limit. Returns the bytes after
    // it. Most bytes of a head are passed so, and take less time than in `feed`.
    fn pass_text<'a>(&mut self, bytes: &'a [u8]) -> &'a [u8]
        requires { searched self.old < MAX_HEAD_BYTES }
        ensures room { searched self.new < MAX_HEAD_BYTES }
        ensures fewer { length result.now ≤ length bytes.now }
        ensures passes { Passes self.old bytes.now self.new result.now }
    {
        let mut rest = bytes;
        if !matches!(self.line, Line::Text) {
            return rest;
        }
        while let [byte, others @ ..] = rest
            && *byte != b'\n'
            && self.skip + self.len + 1 < MAX_HEAD_BYTES
        {
            self.len += 1;
            rest = others;
        }
        rest
    }

    // Processes bytes, up to the first that determines the window.
    fn feed_all(&mut self, bytes: &[u8]) -> Option<Window>
        requires { searched self.old < MAX_HEAD_BYTES }
        ensures room { IfNone result (searched self.new < MAX_HEAD_BYTES) }
        ensures found { IfSome result (Finds self.old bytes.now) }
        ensures proceeds { IfNone result (Proceeds self.old bytes.now self.new) }
    {
        let mut rest = bytes;
        while let [byte, others @ ..] = rest {
            let found = self.feed(*byte);
            if found.is_some() {
                return found;
            }
            rest = self.pass_text(others);
        }
        None
    }
}

/// The window of a stream of which these bytes have been received.
pub fn window_of(stream: &[u8]) -> Window
    ensures window { result ≡ window_in stream.now }
    ensures fits { FitsIn (length stream.now) result }
{
    let mut scan = START;
    match scan.feed_all(stream) {
        Some(window) => window,
        None => Window::Wait,
    }
}

/// The window of a stream of which these pieces have been received, however it was divided.
#[tactic(auto, using(crate::proofs::WindowLaws::window_fits))]
pub fn window(parts: Parts<'_>) -> Window
    ensures window { result ≡ window_in (concat parts.entry) }
    ensures fits { FitsIn (length (concat parts.entry)) result }
{
    let mut scan = START;
    for part in parts {
        if let Some(window) = scan.feed_all(part) {
            return window;
        }
    }
    Window::Wait
}

/// Unless it is `Wait`, the window of a stream does not change when more bytes arrive. A law: the
/// function has no effect.
pub fn window_stays()
    ensures { WindowsStay }
{}

/// A head is within the stream and the limit. A law: the function has no effect.
pub fn window_fits()
    ensures { WindowsFit }
{}
