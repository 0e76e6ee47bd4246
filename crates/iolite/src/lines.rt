//! The printed lines of replies and reports. `specs/PrintedText` defines their texts.
ghost use Rattle.std.specs.Prelude.{Some};
ghost use Rattle.iolite.specs.PrintedText.{bytes_text, four_digits, refusal_text, reply_text, report_text};

use iol_core::events::Reply;
use iol_core::refusals::Refusal;
use iol_system::Report;
use percent_encoding::{AsciiSet, CONTROLS, ascii_set, percent_encode};
use std::fmt;

/// The bytes below 128 that are printed as `%` and two digits. All bytes from 128 on are printed
/// so, too.
const ESCAPED: AsciiSet = ascii_set!(CONTROLS.add(b' ').add(b'%'));

/// A reply, printed as one line without its line feed.
#[derive(Clone, Copy)]
pub struct Printed<'a>(pub &'a Reply);

impl fmt::Display for Printed<'_> {
    ghost output = { λ printed. Some (reply_text printed.0.now) };

    fn fmt<W: fmt::Write>(&self, f: &mut fmt::Formatter<W>) -> fmt::Result {
        match self.0 {
            Reply::Done => write!(f, "done"),
            Reply::Domain(domain) => write!(f, "domain {domain}"),
            Reply::Pool(pool) => write!(f, "pool {pool}"),
            Reply::File(file) => write!(f, "file {file}"),
            Reply::Conn(conn) => write!(f, "conn {conn}"),
            Reply::Fd(fd) => write!(f, "fd {fd}"),
            Reply::Fds(read_end, write_end) => write!(f, "fds {read_end} {write_end}"),
            Reply::Agg(agg) => write!(f, "agg {agg}"),
            Reply::Aggs(front, back) => write!(f, "aggs {front} {back}"),
            Reply::Count(count) => write!(f, "count {count}"),
            Reply::Bytes(bytes) => {
                let text = Text(bytes.as_slice());
                write!(f, "bytes{text}")
            }
            Reply::Segment { bytes, checksum } => {
                let (sum, text) = (FourDigits(*checksum), Text(bytes.as_slice()));
                write!(f, "segment {sum}{text}")
            }
            Reply::Refused(refusal) => {
                let text = RefusalText(*refusal);
                write!(f, "refused {text}")
            }
        }
    }
}

/// A report, printed as one line for each pool and a last line, without its line feed.
#[derive(Clone, Copy)]
pub struct PrintedReport<'a>(pub &'a Report);

impl fmt::Display for PrintedReport<'_> {
    ghost output = { λ printed. Some (report_text printed.0.now) };

    fn fmt<W: fmt::Write>(&self, f: &mut fmt::Formatter<W>) -> fmt::Result {
        for of in self.0.pools.as_slice() {
            let (pool, pages, free, retired) = (of.pool, of.pages, of.free, of.retired);
            writeln!(f, "pool {pool} pages {pages} free {free} retired {retired}")?;
        }
        let (extents, dirty, buffers) = (self.0.extents, self.0.dirty, self.0.buffers);
        write!(f, "extents {extents} dirty {dirty} buffers {buffers}")
    }
}

/// A text at the end of a line, with the space before it. An empty text prints nothing.
#[derive(Clone, Copy)]
struct Text<'a>(&'a [u8]);

impl fmt::Display for Text<'_> {
    ghost output = { λ text. Some (bytes_text text.0.now) };

    fn fmt<W: fmt::Write>(&self, f: &mut fmt::Formatter<W>) -> fmt::Result {
        if self.0.is_empty() {
            return Ok(());
        }
        let encoded = percent_encode(self.0, ESCAPED);
        write!(f, " {encoded}")
    }
}

/// A number, printed as four hexadecimal digits.
#[derive(Clone, Copy)]
struct FourDigits(u16);

impl fmt::Display for FourDigits {
    ghost output = { λ number. Some (four_digits number.0) };

    fn fmt<W: fmt::Write>(&self, f: &mut fmt::Formatter<W>) -> fmt::Result {
        let number = self.0;
        let (first, second) = (number / 4096, number / 256 % 16);
        let (third, fourth) = (number / 16 % 16, number % 16);
        write!(f, "{first:x}{second:x}{third:x}{fourth:x}")
    }
}

/// A refusal: its name, and the number of the pool or file. The text of its own `Display` has no
/// contract.
#[derive(Clone, Copy)]
struct RefusalText(Refusal);

impl fmt::Display for RefusalText {
    ghost output = { λ text. Some (refusal_text text.0) };

    fn fmt<W: fmt::Write>(&self, f: &mut fmt::Formatter<W>) -> fmt::Result {
        match self.0 {
            Refusal::Denied { pool } => write!(f, "Denied pool {pool}"),
            Refusal::PoolClosed { pool } => write!(f, "PoolClosed pool {pool}"),
            Refusal::PoolBusy { pool } => write!(f, "PoolBusy pool {pool}"),
            Refusal::NoRoom { pool } => write!(f, "NoRoom pool {pool}"),
            Refusal::Fault { file } => write!(f, "Fault file {file}"),
            refusal => f.write_str(refusal.name()),
        }
    }
}
