//! What a line of a label file tells.

ghost use Rattle.std.specs.Prelude.{◌≡◌, true, drop, IfErr};
ghost use Rattle.dvg_labels.specs.Grammar.{label_meaning, meaning_of, line_meaning, number, are_graphic, is_name, begins, is_flag, untagged, valued, valueless, vice, acme, row, tells_nothing, statement};
ghost use Rattle.dvg_labels.specs.Cutting.{words, first_of};

use crate::cutting::take_word;
use crate::fault::LabelFault;
use crate::limits::LONGEST_NAME;

/// What a line tells: the name of a label and its value, `None` where that is no address.
pub type ToldLabel<'a> = (&'a [u8], Option<u32>);

/// The value that every number over FFFF counts as: it is no address of the processor.
const MOST_VALUE: u32 = 0x10000;

/// The number that hexadecimal digits spell, if they do.
#[tactic(auto, unfolding(crate::specs::Grammar::number_behind))]
fn number(digits: &[u8]) -> Option<u32>
    ensures { result ≡ number digits.now }
{
    if digits.is_empty() {
        return None;
    }
    let mut value: u32 = 0;
    for digit in digits {
        let digit = char::from(*digit).to_digit(16)?;
        value = MOST_VALUE.min(value * 16 + digit);
    }
    Some(value)
}

/// Whether all bytes are graphic ASCII characters.
fn are_graphic(bytes: &[u8]) -> bool
    ensures { result ≡ are_graphic bytes.now }
{
    bytes.iter().all(|byte| byte.is_ascii_graphic())
}

/// Whether a word may be a label's name.
fn is_name(name: &[u8]) -> bool
    ensures { result ≡ is_name name.now }
{
    !name.is_empty() && name.len() <= LONGEST_NAME && are_graphic(name)
}

/// Whether a word begins with a byte.
fn begins(byte: u8, word: &[u8]) -> bool
    ensures { result ≡ begins byte word.now }
{
    match word {
        [first, ..] => *first == byte,
        [] => false,
    }
}

/// A word without the memory space or the section before its colon.
fn untagged(word: &[u8]) -> &[u8]
    ensures { result.now ≡ untagged word.now }
{
    match word {
        [_, b':', rest @ ..] => rest,
        [_, _, b':', rest @ ..] => rest,
        _ => word,
    }
}

/// A label with the value that its digits spell.
fn valued<'a>(name: &'a [u8], digits: &[u8]) -> Option<ToldLabel<'a>>
    ensures { label_meaning result ≡ valued name.now digits.now }
{
    match number(digits) {
        Some(value) if is_name(name) => Some((name, Some(value))),
        _ => None,
    }
}

/// A label without a value that is an address.
fn valueless(name: &[u8]) -> Option<ToldLabel<'_>>
    ensures { label_meaning result ≡ valueless name.now }
{
    if is_name(name) {
        Some((name, None))
    } else {
        None
    }
}

/// What a line of VICE tells: its value, its name behind a dot, and what is behind that.
fn vice<'a>(value: &[u8], name: &'a [u8], behind: &[u8]) -> Option<ToldLabel<'a>>
    requires { begins 46 name.now ≡ true }
    ensures { label_meaning result ≡ vice value.now name.now behind.now }
{
    if behind.is_empty() {
        valued(&name[1..], untagged(value))
    } else {
        None
    }
}

/// What a line of ACME tells: its name, its value behind the sign of equality, and what is behind that.
fn acme<'a>(name: &'a [u8], value: &[u8], behind: &[u8]) -> Option<ToldLabel<'a>>
    ensures { label_meaning result ≡ acme name.now value.now behind.now }
{
    if !behind.is_empty() && !begins(b';', behind) {
        return None;
    }
    match value {
        [b'$', digits @ ..] => valued(name, digits),
        [] => None,
        _ => valueless(name),
    }
}

/// Whether a word stands behind a value in a table of symbols, or nothing does.
fn is_flag(word: &[u8]) -> bool
    ensures { result ≡ is_flag word.now }
{
    word.is_empty() || begins(b'(', word) || word == b"str".as_slice() || word == b"eqm".as_slice()
}

/// What a row of a table of symbols tells: its name, its value, and what is behind that.
fn row<'a>(name: &'a [u8], value: &[u8], behind: &[u8]) -> Option<ToldLabel<'a>>
    ensures { label_meaning result ≡ row name.now value.now behind.now }
{
    if !is_flag(behind) {
        None
    } else if value == b"????".as_slice() {
        valueless(name)
    } else {
        valued(name, untagged(value))
    }
}

/// Whether a line with this first word tells nothing.
fn tells_nothing(first: &[u8]) -> bool
    ensures { result ≡ tells_nothing first.now }
{
    first.is_empty()
        || begins(b';', first)
        || first == b"---".as_slice()
        || first == b"Symbols".as_slice()
}

/// The first word of a line but the `!addr` that ACME may put first, and what is behind it.
fn take_first(line: &[u8]) -> (&[u8], &[u8])
    ensures word { result.0.now ≡ first_of (statement (words line.now)) }
    ensures behind { words result.1.now ≡ drop 1 (statement (words line.now)) }
{
    let (first, rest) = take_word(line);
    if first == b"!addr".as_slice() {
        take_word(rest)
    } else {
        (first, rest)
    }
}

/// What the line with this number tells, by its first four words; each is empty where there are fewer. It tells nothing if it is empty, a
/// remark or a heading.
pub fn read_line(line: u32, bytes: &[u8]) -> Result<Option<ToldLabel<'_>>, LabelFault>
    ensures meaning { meaning_of result ≡ line_meaning bytes.now }
    ensures err { IfErr result (λ fault. fault ≡ LabelFault.Form line) }
{
    let (first, rest) = take_first(bytes);
    let (second, rest) = take_word(rest);
    let (third, rest) = take_word(rest);
    let (fourth, _) = take_word(rest);
    if tells_nothing(first) {
        return Ok(None);
    }
    let label = if first == b"al".as_slice() && begins(b'.', third) {
        vice(second, third, fourth)
    } else if second == b"=".as_slice() {
        acme(first, third, fourth)
    } else {
        row(first, second, third)
    };
    match label {
        Some(label) => Ok(Some(label)),
        None => Err(LabelFault::Form { line }),
    }
}
