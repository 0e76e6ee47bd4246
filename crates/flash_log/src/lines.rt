//! Lines of the Common Log Format.
ghost use Rattle.std.specs.Prelude.{◌≡◌, ◌++◌, ◌<◌, ◌%◌, ◌/◌, IfOk, OnOk, string_bytes};
ghost use Rattle.flash_log.specs.Line as spec;
ghost use Rattle.flash_log.specs.Line.{IsOneLine};

use std::alloc::{AllocError, Global};

/// The logged data of a request and its response.
#[derive(Clone, Copy, Debug)]
pub struct Entry<'a> {
    /// The client's address.
    pub host: &'a [u8],

    /// The time at which the response ended.
    pub date: &'a [u8],

    /// The first line of the request, without its end.
    pub request_line: &'a [u8],

    /// The three digits of the response's status, or `-`.
    pub status: &'a [u8],

    /// The number of bytes of the response's body that were sent.
    pub body: u64,
}

/// The line of an entry: `HOST - - [DATE] "REQUEST" STATUS BYTES`. For every request it is one
/// line of printable ASCII, in which a backslash precedes each quotation mark of the request.
pub fn line_of(alloc: Global, entry: &Entry<'_>) -> Result<Vec<u8>, AllocError>
    ensures text { IfOk result (λ line. line.items ≡ spec.line_of entry.now) }
    ensures one { IfOk result (λ line. IsOneLine line.items) }
{
    let mut line = Vec::new(alloc);
    push_first(&mut line, entry)?;
    push_last(&mut line, entry, count_of(alloc, entry.body)?.as_bytes())?;
    line.extend_from_slice(b"\n")?;
    Ok(line)
}

// The line up to the request.
fn push_first(line: &mut Vec<u8>, entry: &Entry<'_>) -> Result<(), AllocError>
    ensures { OnOk result (line.new.items ≡ line.old.items ++ spec.first_of entry.now) }
{
    push_escaped(line, entry.host)?;
    line.extend_from_slice(b" - - [")?;
    push_escaped(line, entry.date)?;
    line.extend_from_slice(b"] \"")?;
    push_escaped(line, entry.request_line)
}

// The line from the request on.
fn push_last(line: &mut Vec<u8>, entry: &Entry<'_>, count: &[u8]) -> Result<(), AllocError>
    ensures { OnOk result (line.new.items ≡ line.old.items ++ spec.last_of entry.now count.now) }
{
    line.extend_from_slice(b"\" ")?;
    push_escaped(line, entry.status)?;
    line.extend_from_slice(b" ")?;
    push_escaped(line, count)
}

// A number of bytes in decimal digits, or `-` for 0.
fn count_of(alloc: Global, bytes: u64) -> Result<String, AllocError>
    ensures { IfOk result (λ text. string_bytes text ≡ spec.count_of bytes) }
{
    if bytes == 0 {
        return String::from_str(alloc, "-");
    }
    format!(in alloc; "{bytes}")
}

// Adds bytes, each escaped as by `escaped_byte`.
fn push_escaped(line: &mut Vec<u8>, bytes: &[u8]) -> Result<(), AllocError>
    ensures { OnOk result (line.new.items ≡ line.old.items ++ spec.escaped bytes.now) }
{
    for byte in bytes {
        push_byte(line, *byte)?;
    }
    Ok(())
}

// Escapes a quotation mark and a backslash by a backslash. A byte that is not printable ASCII
// becomes `\x` and two hexadecimal digits.
fn push_byte(line: &mut Vec<u8>, byte: u8) -> Result<(), AllocError>
    ensures { OnOk result (line.new.items ≡ line.old.items ++ spec.escaped_byte byte) }
{
    if byte == b'"' || byte == b'\\' {
        return line.extend_from_slice(&[b'\\', byte]);
    }
    if 32 <= byte && byte < 127 {
        return line.extend_from_slice(&[byte]);
    }
    let (high, low) = (hex_digit(byte / 16 % 16), hex_digit(byte % 16));
    line.extend_from_slice(&[b'\\', b'x', high, low])
}

// The digit of a number below 16.
fn hex_digit(number: u8) -> u8
    requires { number < 16 }
    ensures { result ≡ spec.hex_digit number }
{
    if number < 10 {
        b'0' + number
    } else {
        87 + number
    }
}
