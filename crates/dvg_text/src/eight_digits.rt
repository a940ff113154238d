//! Decimal digits, many at once.

ghost use Rattle.std.specs.Prelude.{◌≡◌, ◌<◌, ◌≤◌, ◌==◌, ◌+◌, if◌then◌else◌, length, take, drop};
ghost use Rattle.std.specs.Int.{w64, trailing_zeros};
ghost use Rattle.std.specs.Str.Parse.{AllDigits, digits_value};
ghost use Rattle.dvg_text.specs.Private.Fields.{NoDigitFirst};

use std::simd::prelude::*;

/// The position of the lowest bit that is set, or 16 if none is.
#[inline(always)]
fn first_lane(mask: u64) -> usize
    ensures { result ≡ if mask == 0 then 16 else trailing_zeros w64 mask }
{
    if mask == 0 {
        16
    } else {
        mask.trailing_zeros() as usize
    }
}

/// The number of digits at the beginning of sixteen bytes.
#[inline(always)]
pub fn leading_digits(bytes: &[u8; 16]) -> usize
    ensures few { result ≤ 16 }
    ensures digits { AllDigits 10 (take result bytes.now) }
    ensures end { result < 16 → NoDigitFirst (drop result bytes.now) }
{
    let values = u8x16::from_array(*bytes) - u8x16::splat(b'0');
    first_lane(values.simd_ge(u8x16::splat(10)).to_bitmask())
}

/// The number that the first `count` of eight bytes spell, which are digits.
#[tactic(auto, using(crate::proofs::DigitSums::value_of))]
#[inline(always)]
fn number_of_eight(bytes: &[u8; 8], count: usize) -> u64
    requires some { 1 ≤ count }
    requires few { count ≤ 8 }
    requires digits { AllDigits 10 (take count bytes.now) }
    ensures { result ≡ digits_value 10 (take count bytes.now) }
{
    // The values of the digits, in the highest bytes of a word. The bytes below are 0.
    let values = u64::from_le_bytes(*bytes).wrapping_sub(0x3030_3030_3030_3030) << (64 - 8 * count);
    // First every second byte has the number of two digits, then every second pair of bytes the number of four digits.
    let pairs = (values.wrapping_mul(10 * 256 + 1) >> 8) & 0x00FF_00FF_00FF_00FF;
    let fours = pairs.wrapping_mul(100 * 65_536 + 1) >> 16;
    fours % 65_536 * 10_000 + (fours >> 32)
}

/// Eight of sixteen bytes, from this position on.
#[inline(always)]
fn eight_at(bytes: &[u8; 16], from: usize) -> &[u8; 8]
    requires { from ≤ 8 }
    ensures { result.now ≡ take 8 (drop from bytes.now) }
{
    bytes[from..].first_chunk::<8>().unwrap()
}

/// The number that the first `count` of sixteen bytes spell, which are digits.
#[tactic(auto, using(crate::proofs::DigitSums::first_digits))]
#[inline(always)]
pub fn number_of_digits(bytes: &[u8; 16], count: usize) -> u64
    requires some { 1 ≤ count }
    requires few { count ≤ 16 }
    requires digits { AllDigits 10 (take count bytes.now) }
    ensures { result ≡ digits_value 10 (take count bytes.now) }
{
    if count <= 8 {
        return number_of_eight(eight_at(bytes, 0), count);
    }
    number_of_many(bytes, count)
}

/// The same for more than eight digits.
#[tactic(auto, using(crate::proofs::DigitSums::halves))]
#[inline(always)]
fn number_of_many(bytes: &[u8; 16], count: usize) -> u64
    requires many { 8 < count }
    requires few { count ≤ 16 }
    requires digits { AllDigits 10 (take count bytes.now) }
    ensures { result ≡ digits_value 10 (take count bytes.now) }
{
    let before = count - 8;
    let first = number_of_eight(eight_at(bytes, 0), before);
    first * 100_000_000 + number_of_eight(eight_at(bytes, before), 8)
}
