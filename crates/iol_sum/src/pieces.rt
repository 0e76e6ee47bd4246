//! Sums of concatenated pieces, and the checksum of a sum.
ghost use Rattle.std.specs.Prelude.{◌≡◌, ◌+◌, ◌-◌, List, ℕ};
ghost use Rattle.iol_core.specs.Prelude.{folded, checksum as checksum_of};
ghost use Rattle.iol_sum.specs.Pieces.{joined, IsSumOf, JoinsPieces};

// The sum of two sums, with the carry added at the low end.
fn add(a: u16, b: u16) -> u16
    ensures { result ≡ folded (a + b) }
{
    let total = u32::from(a) + u32::from(b);
    if total > 65535 {
        (total - 65535) as u16
    } else {
        total as u16
    }
}

/// The folded sum of bytes, from the sum of a first piece and the sum of the rest.
///
/// `at_odd` says that the rest begins at an odd offset. Its sum is then added with its two bytes
/// swapped (RFC 1071, section 2 (B)).
pub fn combine(sum: u16, at_odd: bool, rest: u16) -> u16
    ensures value { result ≡ joined sum at_odd rest }
    ensures law { JoinsPieces sum at_odd rest result }
{
    add(sum, if at_odd { rest.swap_bytes() } else { rest })
}

/// The Internet checksum of the bytes whose folded sum this is.
pub fn checksum(sum: u16) -> u16
    ensures value { result ≡ 65535 - sum }
    ensures law { (bytes : List ℕ) → IsSumOf bytes sum → result ≡ checksum_of bytes }
{
    65535 - sum
}
