//! The parts of requests and responses that an access log needs.
ghost use Rattle.std.specs.Prelude.{◌≡◌, ◌≤◌, ◌++◌, IfSome, codes, length};
ghost use Rattle.std.specs.Str.{bytes_eq};
ghost use Rattle.std.specs.Str.Lines.{strip_carriage_return};
ghost use Rattle.flash_log.specs.Head as spec;

/// The first line of a request that is not empty, without its end. Empty lines before it are
/// ignored.
pub fn request_line(request: &[u8]) -> &[u8]
    ensures { result.now ≡ spec.request_line request.now }
{
    match request
        .split(|byte| *byte == b'\n')
        .find(|line| has_text(line))
    {
        Some(line) => without_return(line),
        None => &[],
    }
}

// Whether a line is not empty.
fn has_text(line: &[u8]) -> bool
    ensures { result ≡ spec.has_text line.now }
{
    !without_return(line).is_empty()
}

// A line without the carriage return at its end, if it has one.
fn without_return(line: &[u8]) -> &[u8]
    ensures { result.now ≡ strip_carriage_return line.now }
{
    match line {
        [text @ .., b'\r'] => text,
        _ => line,
    }
}

/// The three digits of a response's status, or `-` if the response has no status line.
pub fn status_of(head: &[u8]) -> &[u8]
    ensures { result.now ≡ spec.status_of head.now }
{
    match head.get(9..12) {
        Some(status) => status,
        None => b"-",
    }
}

/// The length of a head, including the empty line at its end, if these bytes begin with a whole
/// one.
pub fn head_length(bytes: &[u8]) -> Option<usize>
    ensures length { result ≡ spec.head_length bytes.now }
    ensures within { IfSome result (λ n. n ≤ length bytes.now) }
{
    for place in 0..bytes.len() + 1 {
        if bytes[..place].ends_with(b"\r\n\r\n".as_slice()) {
            return Some(place);
        }
    }
    None
}

/// Returns whether a head contains this line.
pub fn has_line(head: &[u8], wanted: &[u8]) -> bool
    ensures { result ≡ spec.has_line head.now wanted.now }
{
    head.split(|byte| *byte == b'\n')
        .any(|line| is_line(line, wanted))
}

// Whether a line, without its line feed, is this one.
fn is_line(line: &[u8], wanted: &[u8]) -> bool
    ensures { result ≡ bytes_eq line.now (wanted.now ++ codes "\r") }
{
    match line.strip_suffix(b"\r".as_slice()) {
        Some(text) => text == wanted,
        None => false,
    }
}

/// The number in a head's Content-Length field, if it has one.
pub fn content_length(head: &[u8]) -> Option<u64>
    ensures { result ≡ spec.content_length head.now }
{
    match head
        .split(|byte| *byte == b'\n')
        .find(|line| has_length(line))
    {
        Some(line) => length_in(line),
        None => None,
    }
}

// Whether a line is one of Content-Length.
fn has_length(line: &[u8]) -> bool
    ensures { result ≡ spec.has_length line.now }
{
    line.starts_with(b"Content-Length: ".as_slice())
}

// The number in a line of Content-Length.
fn length_in(line: &[u8]) -> Option<u64>
    ensures { result ≡ spec.length_in line.now }
{
    number_of(without_return(line.get(16..).unwrap_or(&[])))
}

// The number that decimal digits represent.
fn number_of(digits: &[u8]) -> Option<u64>
    ensures { result ≡ spec.number_in digits.now }
{
    let mut number = 0u64;
    for digit in digits {
        if !digit.is_ascii_digit() {
            return None;
        }
        let value = u64::from(digit.saturating_sub(b'0'));
        number = number.checked_mul(10)?.checked_add(value)?;
    }
    Some(number)
}
