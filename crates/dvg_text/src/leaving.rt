//! Where a refused line leaves the form, and what was expected there.

ghost use Rattle.std.specs.Prelude.{◌≡◌, ℕ, List};
ghost use Rattle.dvg_text.specs.Grammar.{ended};
ghost use Rattle.dvg_text.specs.Columns.{IsFirstLine, IsRomLine, IsLaterLine, IsAllowedBefore};

use crate::line_buffer::WriteBuffer;
use crate::nearest::common;
use crate::tokens::Tokens;
use crate::writer::{push_done, push_entry, push_rom};
use dvg_words::RomMap;

/// Where a line leaves the form.
#[derive(Clone, Copy, Debug, PartialEq, Eq)]
pub struct FormLeaving {
    /// The column, counted from 1, of the first byte by which the line is no longer the front of a line of the form, or one past
    /// the line if it ends too early. That the bytes before it are such a front is proved, that no more are is only tested.
    pub column: usize,
    /// What was expected there, and what has to follow it (only tested).
    pub expected: &'static str,
}

/// Where the first line, which comes without its end, leaves the form.
pub fn first_leaving(line: &[u8]) -> FormLeaving
    ensures { IsAllowedBefore IsFirstLine line.now result.column }
{
    let expected = "`dvgcert 1` or `dvgcert 2`; then the line's end";
    let (first, second) = (b"dvgcert 1\n", b"dvgcert 2\n");
    if common(line, first) < common(line, second) {
        return leaving(line, second, expected);
    }
    leaving(line, first, expected)
}

/// Where a line that says where the ROM lies, and comes without its end, leaves the form.
pub fn rom_leaving(line: &[u8]) -> FormLeaving
    ensures { IsAllowedBefore IsRomLine line.now result.column }
{
    let mut tokens = Tokens::new(line);
    let (first, last) = tokens.rom();
    let mut allowed = WriteBuffer::new();
    push_rom(&mut allowed, first, last);
    leaving(line, allowed.as_slice(), tokens.expected())
}

/// Where a later line, over a ROM at this map, leaves the form. It comes without its end.
pub fn later_leaving(map: RomMap, line: &[u8]) -> FormLeaving
    ensures { IsAllowedBefore (IsLaterLine map) line.now result.column }
{
    let mut tokens = Tokens::new(line);
    let mut allowed = WriteBuffer::new();
    if tokens.begins(b'd') {
        push_done(&mut allowed, tokens.count());
        return leaving(line, allowed.as_slice(), tokens.expected());
    }
    push_entry(&mut allowed, &tokens.entry(map.first(), map.last()));
    leaving(line, allowed.as_slice(), tokens.expected())
}

/// Where a line leaves an allowed one, which has its end.
fn leaving(line: &[u8], allowed: &[u8], expected: &'static str) -> FormLeaving
    ensures { (text : List ℕ) → allowed.now ≡ ended text → IsAllowedBefore (λ line. line ≡ text) line.now result.column }
{
    FormLeaving {
        column: common(line, allowed) + 1,
        expected,
    }
}
