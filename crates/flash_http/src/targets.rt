//! The file that a request target names.
ghost use Rattle.std.specs.Prelude.{◌≡◌, ◌==◌, false, IfOk, OnErr, option_map, string_bytes};
ghost use Rattle.std.specs.List.{list_any};
ghost use Rattle.http_uri.specs.Uri.{uri_scheme, uri_authority};
ghost use Rattle.flash_http.specs.Target as spec;
ghost use Rattle.flash_http.specs.Views.{texts};

use http_uri::{Uri, UriError};
use percent_encoding::{DecodeError, percent_decode};
use std::alloc::{AllocError, Global};

// The file that a target names, and the query.
#[derive(Drop)]
pub(crate) struct File {
    pub(crate) name: String,
    pub(crate) query: String,
}

fn has_byte(bytes: &[u8], byte: u8) -> bool
    ensures { result ≡ list_any (λ b. b == byte) bytes.now }
{
    bytes.iter().any(|b| *b == byte)
}

// Returns whether the target is a path, or a URL of http or https.
fn is_served_form(target: &[u8], uri: &Uri) -> bool
    ensures { result
        ≡ spec.is_served_form target.now (uri_scheme uri.now) (uri_authority uri.now) }
{
    match uri.scheme_str() {
        Some(scheme) => scheme == "http" || scheme == "https",
        None => uri.authority().is_none() && target != b"*".as_slice(),
    }
}

fn uri_of(alloc: Global, target: &[u8]) -> Result<Option<Uri>, AllocError>
    ensures uri { IfOk result (spec.UriIs target.now) }
    ensures memory { OnErr result (spec.has_fragment target.now ≡ false) }
{
    if has_byte(target, b'#') {
        return Ok(None);
    }
    match Uri::from_bytes(alloc, target) {
        Ok(uri) if is_served_form(target, &uri) => Ok(Some(uri)),
        Ok(_) => Ok(None),
        Err(UriError::Invalid(_)) => Ok(None),
        Err(UriError::OutOfMemory) => Err(AllocError),
    }
}

fn begins_with_hex_digits(bytes: &[u8]) -> bool
    ensures { result ≡ spec.begins_with_hex_digits bytes.now }
{
    match bytes {
        [high, low, ..] => high.is_ascii_hexdigit() && low.is_ascii_hexdigit(),
        _ => false,
    }
}

// Returns whether each `%` precedes two hexadecimal digits.
fn is_escaped(mut bytes: &[u8]) -> bool
    ensures { result ≡ spec.is_escaped bytes.now }
{
    while let [first, rest @ ..] = bytes {
        if *first == b'%' && !begins_with_hex_digits(rest) {
            return false;
        }
        bytes = rest;
    }
    true
}

fn is_dot_segment(segment: &[u8]) -> bool
    ensures { result ≡ spec.is_dot_segment segment.now }
{
    segment == b".".as_slice() || segment == b"..".as_slice()
}

fn has_dot_segment(path: &[u8]) -> bool
    ensures { result ≡ list_any spec.is_dot_segment (spec.segments path.now) }
{
    path.split(|b| *b == b'/')
        .any(|segment| is_dot_segment(segment))
}

fn without_slash(path: &str) -> &str
    ensures { result.now ≡ spec.without_slash path.now }
{
    match path.strip_prefix('/') {
        Some(name) => name,
        None => path,
    }
}

// The file name for a decoded path: the path without its first slash, or the index.
fn or_index(path: &str) -> &str
    ensures { result.now ≡ spec.or_index (spec.without_slash path.now) }
{
    let name = without_slash(path);
    if name.is_empty() { "index.html" } else { name }
}

// The file name for a path, if the path is valid.
fn name_of(alloc: Global, path: &str) -> Result<Option<String>, AllocError>
    ensures { IfOk result (λ name. spec.NameIs path.now (option_map string_bytes name)) }
{
    if !is_escaped(path.as_bytes()) {
        return Ok(None);
    }
    let decoded = match percent_decode(path.as_bytes()).decode_utf8(alloc) {
        Ok(decoded) => decoded,
        Err(DecodeError::Utf8(_)) => return Ok(None),
        Err(DecodeError::OutOfMemory) => return Err(AllocError),
    };
    let text: &str = &decoded;
    if has_byte(text.as_bytes(), 0) || has_dot_segment(text.as_bytes()) {
        return Ok(None);
    }
    Ok(Some(String::from_str(alloc, or_index(text))?))
}

fn query_of(uri: &Uri) -> &str
    ensures { result.now ≡ spec.query_text uri.now }
{
    match uri.query() {
        Some(query) => query,
        None => "",
    }
}

// The file that a target names, if it names one.
pub(crate) fn file_of(alloc: Global, target: &[u8]) -> Result<Option<File>, AllocError>
    ensures file { IfOk result (λ file. spec.TargetIs target.now (option_map texts file)) }
    ensures memory { OnErr result (spec.has_fragment target.now ≡ false) }
{
    let Some(uri) = uri_of(alloc, target)? else {
        return Ok(None);
    };
    let Some(name) = name_of(alloc, uri.path())? else {
        return Ok(None);
    };
    let query = String::from_str(alloc, query_of(&uri))?;
    Ok(Some(File { name, query }))
}
