//! Values of sums, by the public functions.

use iol_sum::{checksum, combine, sum_of};
use std::test::Fail;
use test_parts::checks::pass_if;

// Bytes, and their checksums.
const CHECKSUMS: [(&[u8], u16); 4] = [
    (b"abc", 0x3b9d),
    (&[0, 0], 0xffff),
    (&[0xff, 0xff], 0),
    (&[], 0xffff),
];

fn checksums_hold() -> bool {
    let mut all = true;
    for (bytes, want) in CHECKSUMS {
        all &= checksum(sum_of(bytes)) == want;
    }
    all
}

#[test]
fn checksums(_rt: HostRuntime) -> Result<(), Fail> {
    pass_if(checksums_hold())
}

// The example of RFC 1071, whole and cut at an odd position.
fn odd_places_hold() -> bool {
    let whole = sum_of(&[0x00, 0x01, 0xf2, 0x03, 0xf4, 0xf5, 0xf6, 0xf7]);
    let first = sum_of(&[0x00, 0x01, 0xf2]);
    let rest = sum_of(&[0x03, 0xf4, 0xf5, 0xf6, 0xf7]);
    let sums = [whole, first, rest, checksum(whole)];
    sums == [0xddf2, 0xf201, 0xf0eb, 0x220d] && combine(first, true, rest) == whole
}

#[test]
fn sums_at_odd_places(_rt: HostRuntime) -> Result<(), Fail> {
    pass_if(odd_places_hold())
}
