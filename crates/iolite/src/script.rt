//! Scripts: lines of text that represent events. A whole script is checked, and then parsed one
//! line at a time.
ghost use Rattle.std.specs.Prelude.{◌≡◌, ◌↔◌, Err, IfErr, IfOk, OnOk, true};
ghost use Rattle.iolite.specs.Failure.{IsBadLine, IsOfLines};
ghost use Rattle.iolite.specs.Reads.{ReadsAs};
ghost use Rattle.iolite.specs.Script.{Asks, AsksAlone, AsksEvent, AsksSomething, CanAsk, HasBadLine, IsBadAfter, IsJudged, Judges, commands, is_asking, is_blank, line_of};
ghost use Rattle.iolite.specs.declared.headers.HeaderError.TheVariants.{NotACommand};

use crate::failure::Failure;
use crate::headers::{HeaderError, is_header};
use crate::outside::{EventLine, read_event};
use crate::setup::Setup;
use crate::words::split_word;
use iol_core::events::Event;
use std::alloc::{AllocError, Global};

/// The action of a line.
#[derive(Debug, Drop)]
pub enum Line {
    /// An event of the system.
    Event(Event),

    /// A report of its resource use.
    Report,
}

/// The action of a line, with its texts still encoded.
#[derive(Drop)]
pub enum Asked<'a> {
    Event(EventLine<'a>),
    Report,
}

/// Checks a whole script, and returns the setup that its headers define. Decodes only the texts
/// that the headers store. It fails at the first line that is not a command, or if memory runs
/// out.
pub fn judge(alloc: Global, text: &str) -> Result<Setup, Failure>
    ensures judged { IfOk result (IsJudged (commands text.now)) }
    ensures bad { IfErr result (λ failure. IsBadLine failure → HasBadLine (commands text.now)) }
    ensures error { IfErr result IsOfLines }
{
    let mut judged = Judged {
        setup: Setup::new(alloc),
        has_asked: false,
    };
    for (place, line) in text.split('\n').enumerate() {
        if is_blank(line) {
            continue;
        }
        match judged.add_line(alloc, line) {
            Ok(()) => {}
            Err(HeaderError::NotACommand) => {
                return Err(Failure::BadLine { number: place + 1 });
            }
            Err(HeaderError::Memory) => return Err(Failure::Memory),
        }
    }
    Ok(judged.setup)
}

/// The setup defined by the lines so far, and whether any of them has an action.
#[derive(Drop)]
struct Judged {
    setup: Setup,
    has_asked: bool,
}

impl Judged {
    /// Checks one more line. Headers come before all actions.
    fn add_line(&mut self, alloc: Global, line: &str) -> Result<(), HeaderError>
        ensures judges { OnOk result (Judges self.old.setup self.old.has_asked line.now
            self.new.setup self.new.has_asked) }
        ensures bad { result ≡ Err NotACommand →
            IsBadAfter self.old.setup (self.old.has_asked ≡ true) line.now }
    {
        let (first, rest) = split_word(line);
        if is_header(first) {
            if self.has_asked {
                return Err(HeaderError::NotACommand);
            }
            return self.setup.add(alloc, first, rest);
        }
        if !asks_something(line) {
            return Err(HeaderError::NotACommand);
        }
        self.has_asked = true;
        Ok(())
    }
}

/// Returns whether a line has an action.
fn asks_something(line: &str) -> bool
    ensures { result ≡ true ↔ AsksSomething line.now }
{
    let asked = read_line(line);
    asked.is_some()
}

/// Returns whether a line has an action, for a valid command: it is neither blank nor a header.
pub fn is_asking(line: &str) -> bool
    ensures { result ≡ is_asking line.now }
{
    if is_blank(line) {
        return false;
    }
    let (first, _rest) = split_word(line);
    !is_header(first)
}

/// Returns whether a line has no meaning: it is empty or a comment.
fn is_blank(line: &str) -> bool
    ensures { result ≡ is_blank line.now }
{
    matches!(line.as_bytes().first(), None | Some(b'#'))
}

/// Parses the action of a line. Allocates nothing.
pub fn read_line(line: &str) -> Option<Asked<'_>>
    ensures { ReadsAs (Asks line.now) line_of CanAsk result }
{
    match read_alone(line) {
        Some(asked) => Some(asked),
        None => read_event_line(line),
    }
}

/// Parses a line of one word.
fn read_alone(line: &str) -> Option<Asked<'_>>
    ensures { ReadsAs (AsksAlone line.now) line_of CanAsk result }
{
    match line {
        "report" => Some(Asked::Report),
        "flush" => Some(Asked::Event(EventLine::Whole(Event::Flush))),
        "drop_clean" => Some(Asked::Event(EventLine::Whole(Event::DropClean))),
        _ => None,
    }
}

/// Parses a line with a call or an external event.
fn read_event_line(line: &str) -> Option<Asked<'_>>
    ensures { ReadsAs (AsksEvent line.now) line_of CanAsk result }
{
    let (first, rest) = split_word(line);
    match read_event(first, rest) {
        Some(event) => Some(Asked::Event(event)),
        None => None,
    }
}

impl Asked<'_> {
    /// Makes the action, with its texts decoded.
    pub fn make(self, alloc: Global) -> Result<Line, AllocError>
        requires { CanAsk self }
        ensures { IfOk result (λ line. line ≡ line_of self.entry) }
    {
        match self {
            Asked::Event(event) => {
                let event = event.make(alloc)?;
                Ok(Line::Event(event))
            }
            Asked::Report => Ok(Line::Report),
        }
    }
}
