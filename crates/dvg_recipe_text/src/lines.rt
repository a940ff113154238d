//! How a text is cut into lines, and what of a line means something.

ghost use Rattle.std.specs.Prelude.{◌<◌, length, IfSome};

use crate::limits::{LINE_FEED, REMARK, SPACE};
use memchr::memchr;

/// The first line of a text and what is behind its LF. `None` if no LF is left.
pub fn cut_line(text: &[u8]) -> Option<(&[u8], &[u8])>
    ensures { IfSome result (λ cut. length cut.1.now < length text.now) }
{
    let end = memchr(LINE_FEED, text)?;
    Some((&text[..end], &text[end + 1..]))
}

/// Whether all bytes are printable ASCII characters.
pub fn are_printable(bytes: &[u8]) -> bool {
    bytes
        .iter()
        .all(|byte| *byte == SPACE || byte.is_ascii_graphic())
}

/// What a line says, without the spaces before it. `None` for an empty line and a remark, which mean nothing.
pub fn meaning(line: &[u8]) -> Option<&[u8]> {
    match line.trim_ascii_start() {
        [] | [REMARK, ..] => None,
        text => Some(text),
    }
}
