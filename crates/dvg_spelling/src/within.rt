//! The limit of clocks that a word of the command line spells, in milliseconds.

ghost use Rattle.std.specs.Prelude.{◌≡◌, ◌+◌, ℕ, IfSome, IfNone};
ghost use Rattle.dvg_spelling.specs.Within.{IsDigit, IsFraction, IsLimit, IsThousandths};

use dvg_text::read_decimal;

/// What stands before the thousandths of a number.
const POINT: char = '.';

/// The most milliseconds that are spelled.
const MOST_MILLISECONDS: u16 = 10_000;

/// The value of a decimal digit.
fn digit_of(byte: u8) -> Option<u32>
    ensures some { IfSome result (λ value. IsDigit byte × (byte ≡ 48 + value)) }
    ensures none { IfNone result (IsDigit byte → ⊥) }
{
    if byte.is_ascii_digit() {
        Some(u32::from(byte - b'0'))
    } else {
        None
    }
}

/// The thousandths that one, two or three digits behind a point spell.
fn fraction_of(digits: &str) -> Option<u32>
    ensures some { IfSome result (IsFraction digits.now) }
    ensures none { IfNone result ((value : ℕ) → IsFraction digits.now value → ⊥) }
{
    match digits.as_bytes() {
        [a] => Some(100 * digit_of(*a)?),
        [a, b] => Some(100 * digit_of(*a)? + 10 * digit_of(*b)?),
        [a, b, c] => Some(100 * digit_of(*a)? + 10 * digit_of(*b)? + digit_of(*c)?),
        _ => None,
    }
}

/// The thousandths of a millisecond that a word spells: whole milliseconds of 0 to 10000 without leading zeros, and up to three digits
/// behind a point.
fn thousandths_of(text: &str) -> Option<u32>
    ensures some { IfSome result (IsThousandths text.now) }
    ensures none { IfNone result ((value : ℕ) → IsThousandths text.now value → ⊥) }
{
    match text.split_once(POINT) {
        None => Some(1000 * u32::from(read_decimal(text.as_bytes(), MOST_MILLISECONDS)?)),
        Some((whole, digits)) => {
            let whole = read_decimal(whole.as_bytes(), MOST_MILLISECONDS)?;
            Some(1000 * u32::from(whole) + fraction_of(digits)?)
        }
    }
}

/// The limit of clocks that a word of the command line spells: milliseconds of 0.001 to 10000, without leading zeros, and with up to three
/// digits behind a point, times 1,512, rounded down; `None` for any other word.
pub fn limit_of(text: &str) -> Option<u64>
    ensures some { IfSome result (IsLimit text.now) }
    ensures none { IfNone result ((limit : ℕ) → IsLimit text.now limit → ⊥) }
{
    let thousandths = thousandths_of(text)?;
    match thousandths {
        1..=10_000_000 => Some(u64::from(thousandths) * 1512 / 1000),
        _ => None,
    }
}
