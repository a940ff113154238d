//! How a label file is cut into lines, and a line into words.

ghost use Rattle.std.specs.Prelude.{◌≡◌, ◌<◌, ◌≤◌, ◌∷◌, ◌==◌, not, length, drop, position, IfSome};
ghost use Rattle.dvg_labels.specs.Cutting.{lines, lines_behind, words, first_of, is_blank};

use crate::limits::LINE_FEED;

/// Whether a byte stands between words.
fn is_blank(byte: u8) -> bool
    ensures { result ≡ is_blank byte }
{
    byte == b' ' || byte == b'\t' || byte == b'\r'
}

/// Where the first LF stands.
fn line_feed_at(text: &[u8]) -> Option<usize>
    ensures { result ≡ position (λ b. b == LINE_FEED) text.now }
{
    text.iter().position(|byte| *byte == LINE_FEED)
}

/// Where the first byte of a word stands.
fn visible_at(line: &[u8]) -> Option<usize>
    ensures { result ≡ position (λ b. not (is_blank b)) line.now }
{
    line.iter().position(|byte| !is_blank(*byte))
}

/// Where the first byte between words stands.
fn blank_at(line: &[u8]) -> Option<usize>
    ensures { result ≡ position is_blank line.now }
{
    line.iter().position(|byte| is_blank(*byte))
}

/// The first line of a text, and what is behind its LF, if it has one.
#[tactic(auto, using(std::proofs::lemmas::List::take_rest, crate::proofs::Parts::cut_in, crate::proofs::Parts::uncut))]
pub fn cut_line(text: &[u8]) -> (&[u8], Option<&[u8]>)
    ensures lines { lines text.now ≡ result.0.now ∷ lines_behind result.1 }
    ensures shorter { IfSome result.1 (λ rest. length rest.now < length text.now) }
{
    match line_feed_at(text) {
        Some(end) => (&text[..end], Some(&text[end + 1..])),
        None => (text, None),
    }
}

/// The first word of a line, and what is behind it; nothing where there is none.
#[tactic(auto, using(crate::proofs::Parts::word_off, std::proofs::lemmas::List::take_rest))]
pub fn take_word(line: &[u8]) -> (&[u8], &[u8])
    ensures word { result.0.now ≡ first_of (words line.now) }
    ensures behind { words result.1.now ≡ drop 1 (words line.now) }
{
    let rest = &line[visible_at(line).unwrap_or(line.len())..];
    let end = blank_at(rest).unwrap_or(rest.len());
    (&rest[..end], &rest[end..])
}
