//! The values of single tokens.

ghost use Rattle.std.specs.Prelude.{◌≡◌, ℕ, ◌<◌, ◌≤◌, [], ◌∷◌, length, take, drop, decimal, true, Some, IfSome, IfNone};
ghost use Rattle.std.specs.Fmt.{digit_glyph};
ghost use Rattle.std.specs.Str.Parse.{AllDigits, digits_value};
ghost use Rattle.dvg_cert.specs.Entry.{IsKey};
ghost use Rattle.dvg_cert.specs.declared.entry.Key.{Key as KeyValue};
ghost use Rattle.dvg_text.specs.Grammar.{address_token, key_token};
ghost use Rattle.dvg_text.specs.Private.Fields.{hex_value, natural_in, natural_at, address_in, NoDigitFirst, LeadsWith};

use crate::eight_digits::{leading_digits, number_of_digits};
use crate::limits::MOST_MAGNITUDE;
use dvg_cert::Key;
use dvg_words::ADDRESS_END;

/// The address from `first` to `last` that a token spells.
#[tactic(auto, unfolding(crate::specs::Private::Fields::address_in))]
fn address(token: &[u8], first: u16, last: u16) -> Option<u16>
    ensures { result ≡ address_in first last token.now }
{
    let [a, b, c] = token else {
        return None;
    };
    address_of(*a, *b, *c, first, last)
}

/// The address from `first` to `last` that three digits spell.
#[tactic(auto, unfolding(crate::specs::Private::Fields::address_in))]
#[inline(always)]
pub fn address_of(a: u8, b: u8, c: u8, first: u16, last: u16) -> Option<u16>
    ensures { result ≡ address_in first last (a ∷ b ∷ c ∷ []) }
{
    let (a, b, c) = (hex_value(a), hex_value(b), hex_value(c));
    if a > 15 || b > 15 || c > 15 {
        return None;
    }
    let number = a as u16 * 256 + b as u16 * 16 + c as u16;
    if first <= number && number <= last {
        Some(number)
    } else {
        None
    }
}

/// The word address that a token spells: three hexadecimal digits in capitals.
#[tactic(auto, using(crate::proofs::FieldValues::address_takes, crate::proofs::FieldValues::address_again))]
pub fn read_address(token: &[u8]) -> Option<u16>
    ensures some { IfSome result (λ addr. (addr < ADDRESS_END) × (token.now ≡ address_token addr)) }
    ensures none { IfNone result ((addr : ℕ) → addr < ADDRESS_END → token.now ≡ address_token addr → ⊥) }
{
    address(token, 0, ADDRESS_END - 1)
}

/// The three hexadecimal digits, in capitals, that spell a word address.
pub fn address_digits(addr: u16) -> [u8; 3]
    requires { addr < ADDRESS_END }
    ensures { result ≡ address_token addr }
{
    [
        hex_digit((addr / 256) as u8),
        hex_digit((addr / 16 % 16) as u8),
        hex_digit((addr % 16) as u8),
    ]
}

fn hex_digit(value: u8) -> u8
    requires { value < 16 }
    ensures { result ≡ digit_glyph true value }
{
    if value < 10 {
        b'0' + value
    } else {
        b'A' + (value - 10)
    }
}

/// The key that a token spells: the decimal of a scale of 0 to 15, or `any`.
#[tactic(auto, using(crate::proofs::FieldValues::natural_takes))]
pub fn read_key(token: &[u8]) -> Option<Key>
    ensures some { IfSome result (λ key. IsKey key × (token.now ≡ key_token key)) }
    ensures none { IfNone result ((key : KeyValue) → IsKey key → token.now ≡ key_token key → ⊥) }
{
    if token == b"any".as_slice() {
        return Some(Key::Any);
    }
    let number = natural(token, 0, 15)?;
    Some(Key::At(number as u8))
}

/// The number from 0 to `most` that a token spells: a decimal without a leading zero.
#[tactic(auto, using(crate::proofs::FieldValues::natural_some, crate::proofs::FieldValues::natural_takes))]
pub fn read_decimal(token: &[u8], most: u16) -> Option<u16>
    ensures some { IfSome result (λ n. (n ≤ most) × (token.now ≡ decimal n)) }
    ensures none { IfNone result ((n : ℕ) → n ≤ most → token.now ≡ decimal n → ⊥) }
{
    let number = natural(token, 0, u64::from(most))?;
    Some(number as u16)
}

/// The value of a capital hexadecimal digit, or 16.
#[inline(always)]
fn hex_value(digit: u8) -> u8
    ensures value { result ≡ hex_value digit }
    ensures within { result ≤ 16 }
{
    match digit {
        b'0'..=b'9' => digit - b'0',
        b'A'..=b'F' => digit - b'A' + 10,
        _ => 16,
    }
}

/// The number from `low` to `high` that a token spells.
#[tactic(auto, using(crate::proofs::Leading::value_taken, crate::proofs::Leading::value_outside, crate::proofs::Leading::no_value))]
fn natural(token: &[u8], low: u64, high: u64) -> Option<u64>
    requires { high ≤ MOST_MAGNITUDE }
    ensures value { result ≡ natural_in low high token.now }
    ensures within { IfSome result (λ n. n ≤ high) }
{
    let (number, after) = leading_number_by_digits(token)?;
    if low <= number && number <= high && after.is_empty() {
        Some(number)
    } else {
        None
    }
}

/// The number from 1 on that stands first in these bytes, and the bytes after its digits. Of fewer than sixteen bytes it reads
/// none.
#[inline(always)]
pub fn leading_magnitude(bytes: &[u8]) -> Option<(u64, &[u8])>
    ensures read { IfSome result (λ read. natural_at 1 MOST_MAGNITUDE bytes.now ≡ Some (read.0, read.1.now)) }
    ensures within { IfSome result (λ read. read.0 ≤ MOST_MAGNITUDE) }
{
    let window = bytes.first_chunk::<16>()?;
    let count = leading_digits(window);
    if count == 0 || 13 < count || bytes[0] == b'0' {
        return None;
    }
    let number = number_of_digits(window, count);
    if number > MOST_MAGNITUDE {
        return None;
    }
    Some((number, &bytes[count..]))
}

/// The number of at most 13 digits that stands first in these bytes, and the bytes after its digits. It is read digit by digit.
#[inline(always)]
pub fn leading_number_by_digits(bytes: &[u8]) -> Option<(u64, &[u8])>
    ensures { LeadsWith (λ rest. rest.now) bytes.now result }
{
    let mut number: u64 = 0;
    for i in 0..bytes.len() {
        let digit = bytes[i].wrapping_sub(b'0');
        if digit > 9 {
            return digits_taken(bytes, i, number);
        }
        if i == 13 {
            return None;
        }
        number = number * 10 + u64::from(digit);
    }
    digits_taken(bytes, bytes.len(), number)
}

/// The number that the first `count` bytes spell, which are digits, and the bytes after them. `None` if there is no digit, or a
/// zero that should not lead.
#[tactic(auto, using(crate::proofs::Leading::no_digits, crate::proofs::Leading::zero_led))]
#[inline(always)]
fn digits_taken(bytes: &[u8], count: usize, number: u64) -> Option<(u64, &[u8])>
    requires digits { AllDigits 10 (take count bytes.now) }
    requires value { number ≡ digits_value 10 (take count bytes.now) }
    requires few { count ≤ 13 }
    requires within { count ≤ length bytes.now }
    requires all { NoDigitFirst (drop count bytes.now) }
    ensures { LeadsWith (λ rest. rest.now) bytes.now result }
{
    if count == 0 {
        return None;
    }
    if bytes[0] == b'0' && count > 1 {
        return None;
    }
    Some((number, &bytes[count..]))
}
