//! The number, or the address, of which a word spells the most.

ghost use Rattle.std.specs.Prelude.{◌≡◌, ◌≤◌, ◌<◌, ◌≤ℤ◌, ◌⊎◌, length, take};
ghost use Rattle.dvg_words.specs.declared.map.TheConstants.{ADDRESS_END};

use crate::numerals::address_digits;
use itoa::Buffer;

/// The most digits of a number of a certificate.
const MOST_DIGITS: usize = 13;

/// How many bytes two texts have in common from their first on.
pub fn common(a: &[u8], b: &[u8]) -> usize
    ensures first { result ≤ length a.now }
    ensures second { result ≤ length b.now }
    ensures same { take result a.now ≡ take result b.now }
{
    let most = a.len().min(b.len());
    for at in 0..most {
        if a[at] != b[at] {
            return at;
        }
    }
    most
}

/// An address from `first` to `last` of which a word spells as many digits as of any.
pub fn nearest_address(word: &[u8], first: u16, last: u16) -> u16
    requires range { first ≤ last }
    requires last { last < ADDRESS_END }
    ensures first { first ≤ result }
    ensures last { result ≤ last }
{
    let mut nearest = first;
    for address in first..=last {
        if common(word, &address_digits(nearest)) < common(word, &address_digits(address)) {
            nearest = address;
        }
    }
    nearest
}

/// A number from `least` to `most` of which a word spells as many bytes as of any.
///
/// If a front of the word is the front of such a number, it is the front of the least, of the most, or of its own first multiple by a
/// power of ten that is between them. The last of these is the number that the whole word spells, if it spells one.
pub fn nearest_number(word: &[u8], least: i64, most: i64) -> i64
    requires { least ≤ℤ most }
    ensures least { least ≤ℤ result }
    ensures most { result ≤ℤ most }
{
    let (sign, digits) = match word.strip_prefix(b"-") {
        Some(digits) => (-1, digits),
        None => (1, word),
    };
    let mut nearest = nearer(word, least, most);
    let mut front = 0i64;
    for &digit in digits {
        if !digit.is_ascii_digit() {
            return nearest;
        }
        front = front
            .saturating_mul(10)
            .saturating_add(sign * i64::from(digit - b'0'));
        nearest = nearer(word, nearest, multiple_within(front, least, most));
    }
    nearest
}

/// The one of two numbers of which a word spells more bytes; the second if it spells as many of both.
fn nearer(word: &[u8], a: i64, b: i64) -> i64
    ensures { (result ≡ a) ⊎ (result ≡ b) }
{
    if spelled(word, b) < spelled(word, a) {
        a
    } else {
        b
    }
}

/// How many bytes of a number a word spells.
fn spelled(word: &[u8], number: i64) -> usize {
    common(word, Buffer::new().format(number).as_bytes())
}

/// The first of the multiples of a number by powers of ten, from itself on, that is between these; the least of these if none is.
fn multiple_within(number: i64, least: i64, most: i64) -> i64
    requires { least ≤ℤ most }
    ensures least { least ≤ℤ result }
    ensures most { result ≤ℤ most }
{
    let mut multiple = number;
    for _ in 0..MOST_DIGITS {
        if least <= multiple && multiple <= most {
            return multiple;
        }
        multiple = multiple.saturating_mul(10);
    }
    least
}
