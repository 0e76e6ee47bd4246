//! The header fields of a head, and their meaning.
ghost use Rattle.std.specs.Prelude.{◌≡◌, [], List, ℕ, All, IfNone, IfSome, codes, length, map, not, option_map, reverse};
ghost use Rattle.std.specs.Iterator.{YieldsFirstRef, item_count};
ghost use Rattle.std.specs.List.{list_all, list_any};
ghost use Rattle.std.specs.Str.{str_eq_ignore_ascii_case};
ghost use Rattle.httparse.specs.Grammar.{skip_ows, trim_ows};
ghost use Rattle.httparse.specs.Spans.{IsHeaderWithin, header_bytes};
ghost use Rattle.flash_http.specs.Fields as spec;

use http_header::{
    CONNECTION, CONTENT_LENGTH, HOST, HeaderName, IF_RANGE, RANGE, TRANSFER_ENCODING,
};
use httparse::is_space_or_tab;
use httparse::spans::HeaderSpan;
use std::marker::Model;

// The header fields of a head, as ranges in it.
#[derive(Drop)]
pub(crate) struct Fields<'a> {
    head: &'a [u8],
    spans: &'a [HeaderSpan],
}

impl<'a> Model for Fields<'a> {
    ghost use Rattle.std.specs.Prelude.{List, ℕ, All, length, map};
    ghost use Rattle.httparse.specs.Spans.{IsHeaderWithin, header_bytes};

    ghost Value = { List (List ℕ × List ℕ) };

    ghost view = { λ f. map (header_bytes f.head.now) f.spans.now };

    ghost invariant = { λ f. All (IsHeaderWithin (length f.head.now)) f.spans.now };
}

// The values of the fields of one name, in order.
#[derive(Drop)]
struct Values<'a> {
    head: &'a [u8],
    spans: &'a [HeaderSpan],
    name: HeaderName,
}

impl<'a> Model for Values<'a> {
    ghost use Rattle.std.specs.Prelude.{List, ℕ, All, length};
    ghost use Rattle.httparse.specs.Spans.{IsHeaderWithin};
    ghost use Rattle.flash_http.specs.Fields.{values_at};

    ghost Value = { List (List ℕ) };

    ghost view = { λ v. values_at v.name v.head.now v.spans.now };

    ghost invariant = { λ v. All (IsHeaderWithin (length v.head.now)) v.spans.now };
}

#[tactic(auto, using(crate::proofs::FieldLemmas::same_in_any_case))]
fn eq_ignore_case(a: &[u8], b: &[u8]) -> bool
    ensures { result ≡ str_eq_ignore_ascii_case a.now b.now }
{
    a.eq_ignore_ascii_case(b)
}

// The value of the first field of a name, and the remaining fields.
fn next_value<'a>(
    head: &'a [u8],
    mut spans: &'a [HeaderSpan],
    name: &HeaderName,
) -> Option<(&'a [u8], &'a [HeaderSpan])>
    requires { All (IsHeaderWithin (length head.now)) spans.now }
    ensures none { IfNone result (spec.values_at name.now head.now spans.now ≡ []) }
    ensures first { IfSome result
        (λ r. spec.ComesFirst name.now head.now spans.now r.0.now r.1.now) }
    ensures within { IfSome result (λ r. All (IsHeaderWithin (length head.now)) r.1.now) }
{
    while let [span, rest @ ..] = spans {
        spans = rest;
        if eq_ignore_case(span.name.of(head), name.as_str().as_bytes()) {
            return Some((span.value.of(head), rest));
        }
    }
    None
}

impl<'a> Iterator for Values<'a> {
    type Item = &'a [u8];

    ghost next_gives = { YieldsFirstRef (λ v. v) };

    ghost remaining = { item_count (λ v. v) };

    fn next(&mut self) -> Option<&'a [u8]> {
        let (value, rest) = next_value(self.head, self.spans, &self.name)?;
        self.spans = rest;
        Some(value)
    }
}

impl<'a> Fields<'a> {
    pub(crate) fn new(head: &'a [u8], spans: &'a [HeaderSpan]) -> Fields<'a>
        requires { All (IsHeaderWithin (length head.now)) spans.now }
        ensures { result ≡ map (header_bytes head.now) spans.now }
    {
        Fields { head, spans }
    }

    // The values of the fields of this name.
    fn values(&self, name: HeaderName) -> Values<'a>
        ensures { result ≡ spec.values_of name self.now }
    {
        Values {
            head: self.head,
            spans: self.spans,
            name,
        }
    }

    pub(crate) fn has_one_host(&self) -> bool
        ensures { result ≡ spec.has_one_host self.now }
    {
        let mut hosts = self.values(HOST);
        match (hosts.next(), hosts.next()) {
            (Some(host), None) => is_host(host),
            _ => false,
        }
    }

    fn is_coded(&self) -> bool
        ensures { result ≡ not (spec.lacks (codes "transfer-encoding") self.now) }
    {
        self.values(TRANSFER_ENCODING).next().is_some()
    }

    fn has_length(&self) -> bool
        ensures { result
            ≡ list_any spec.is_not_zero (spec.values_of (codes "content-length") self.now) }
    {
        self.values(CONTENT_LENGTH).any(|len| is_not_zero(len))
    }

    pub(crate) fn has_content(&self) -> bool
        ensures { result ≡ spec.has_content self.now }
    {
        self.is_coded() || self.has_length()
    }

    pub(crate) fn asks_to_close(&self) -> bool
        ensures { result ≡ spec.asks_to_close self.now }
    {
        self.values(CONNECTION).any(|value| names_close(value))
    }

    // The value of the only Range field, if there is no If-Range.
    pub(crate) fn range(&self) -> Option<&'a [u8]>
        ensures { option_map (λ range. range.now) result ≡ spec.one_range self.now }
    {
        let mut ranges = self.values(RANGE);
        match (ranges.next(), ranges.next(), self.values(IF_RANGE).next()) {
            (Some(range), None, None) => Some(range),
            _ => None,
        }
    }
}

fn is_not_zero(len: &[u8]) -> bool
    ensures { result ≡ spec.is_not_zero len.now }
{
    len != b"0".as_slice()
}

fn is_host_byte(b: u8) -> bool
    ensures { result ≡ spec.is_host_byte b }
{
    (0x21..=0x7e).contains(&b) && !(b == b'/' || b == b'?' || b == b'#' || b == b'@')
}

fn is_host(value: &[u8]) -> bool
    ensures { result ≡ list_all spec.is_host_byte value.now }
{
    value.iter().all(|b| is_host_byte(*b))
}

fn trim_start(mut text: &[u8]) -> &[u8]
    ensures { result.now ≡ skip_ows text.now }
{
    while let [first, rest @ ..] = text
        && is_space_or_tab(*first)
    {
        text = rest;
    }
    text
}

fn trim_end(mut text: &[u8]) -> &[u8]
    ensures { result.now ≡ reverse (skip_ows (reverse text.now)) }
{
    while let [rest @ .., last] = text
        && is_space_or_tab(*last)
    {
        text = rest;
    }
    text
}

// Trims white space at both ends.
#[tactic(auto, unfolding(httparse::specs::Grammar::trim_ows))]
fn trim_ows(text: &[u8]) -> &[u8]
    ensures { result.now ≡ trim_ows text.now }
{
    trim_end(trim_start(text))
}

// Returns whether `close` is one of the comma-separated options.
fn names_close(value: &[u8]) -> bool
    ensures { result ≡ spec.names_close value.now }
{
    value
        .split(|b| *b == b',')
        .any(|option| eq_ignore_case(trim_ows(option), b"close"))
}
