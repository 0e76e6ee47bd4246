//! The sum of contiguous bytes.
ghost use Rattle.std.specs.Prelude.{◌≡◌};
ghost use Rattle.iol_core.specs.Prelude.{folded};
ghost use Rattle.iol_sum.specs.Pieces.{IsSumOf};

// Folds a total into 16 bits: carries are added at the low end (RFC 1071, section 1), which is the
// remainder by 65535, but 65535 if that is 0 and the total is not. 2^64 is one more than a multiple
// of 65535, so the halves add.
fn fold(total: u128) -> u16
    ensures { result ≡ folded total }
{
    let high = (total / 0x1_0000_0000_0000_0000) as u64;
    let low = (total % 0x1_0000_0000_0000_0000) as u64;
    let rest = (high % 65535 + low % 65535) % 65535;
    if rest == 0 && total > 0 {
        return 65535;
    }
    rest as u16
}

/// The folded sum of the bytes, as big-endian words of 16 bits. An odd last byte is the high byte
/// of a word whose low byte is 0. The number of bytes is not limited.
///
/// It reads eight bytes at a time, in little-endian order. The two bytes of each word and those of
/// the sum are then swapped; the sum is swapped back at the end (RFC 1071, section 2 (B)).
pub fn sum_of(bytes: &[u8]) -> u16
    ensures { IsSumOf bytes.now result }
{
    let (chunks, rest) = bytes.as_chunks::<8>();
    let mut total = 0u128;
    for chunk in chunks {
        total += u128::from(u64::from_le_bytes(*chunk));
    }
    let mut is_first = true;
    for byte in rest {
        total += if is_first {
            u128::from(*byte)
        } else {
            u128::from(*byte) * 256
        };
        is_first = !is_first;
    }
    fold(total).swap_bytes()
}
