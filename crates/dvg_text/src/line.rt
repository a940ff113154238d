//! What a whole line says.

ghost use Rattle.std.specs.Prelude.{◌≡◌, ◌≢◌, ℕ, ◌<◌, ◌≤◌, ◌++◌, IfSome, IfNone};
ghost use Rattle.std.specs.Option.{option_map};
ghost use Rattle.dvg_words.specs.Values.{MemoryMap};
ghost use Rattle.dvg_cert.specs.declared.entry.Entry.{Entry as EntryValue};
ghost use Rattle.dvg_cert.specs.Entry.{IsEntry};
ghost use Rattle.dvg_text.specs.Grammar.{rom_line, done_line, ended, entry_line};
ghost use Rattle.dvg_text.specs.Reading.{EntryLine, IsLine, IsElsewhere};
ghost use Rattle.dvg_text.specs.Private.Fields.{rom_at, done_at, entry_at, nothing_left};

use crate::fields::Fields;
use crate::limits::LINE_FEED;
use dvg_cert::{Entry, MOST_ENTRIES};
use dvg_words::{ADDRESS_END, RomMap};

/// The map that a line spells, which comes without its end. `None` if it spells no map, or the Asteroids map.
#[tactic(auto, using(crate::proofs::FirstLines::nowhere_said))]
pub fn elsewhere_of(line: &[u8]) -> Option<RomMap>
    ensures found { IfSome result (λ map. IsElsewhere map × (line.now ≡ rom_line map)) }
    ensures none { IfNone result ((map : MemoryMap) → IsElsewhere map → line.now ≢ rom_line map) }
{
    let (first, last) = whole_rom(line)?;
    let map = RomMap::new(first, last)?;
    if map.is_asteroids() { None } else { Some(map) }
}

/// The entry that a line spells, for a ROM from word address `first` to `last`. The line comes without its end.
#[tactic(auto, using(crate::proofs::WholeLines::entry_takes, crate::proofs::WholeLines::entry_again))]
pub fn entry_of(line: &[u8], first: u16, last: u16) -> Option<Entry>
    requires { last < ADDRESS_END }
    ensures found { IfSome result (λ e. IsLine first last (EntryLine e) line.now) }
    ensures none { IfNone result ((e : EntryValue) → IsLine first last (EntryLine e) line.now → ⊥) }
{
    whole_entry(line, first, last)
}

/// The entry whose line stands first in these bytes, with its end, and the bytes after that.
#[inline(never)]
pub fn ended_entry(bytes: &[u8], first: u16, last: u16) -> Option<(Entry, &[u8])>
    requires { last < ADDRESS_END }
    ensures { IfSome result (λ read. IsEntry first last read.0 × (bytes.now ≡ ended (entry_line read.0) ++ read.1.now)) }
{
    let (entry, rest) = leading_entry(bytes, first, last)?;
    let mut fields = Fields::new(rest);
    fields.text(&[LINE_FEED])?;
    Some((entry, fields.rest()))
}

/// The number of entries that the last line of a certificate spells. The line comes without its end.
#[tactic(auto, using(crate::proofs::WholeLines::count_takes, crate::proofs::WholeLines::count_again))]
pub fn count_of(line: &[u8]) -> Option<u16>
    ensures found { IfSome result (λ n. (n ≤ MOST_ENTRIES) × (line.now ≡ done_line n)) }
    ensures none { IfNone result ((n : ℕ) → n ≤ MOST_ENTRIES → line.now ≡ done_line n → ⊥) }
{
    whole_count(line)
}

#[tactic(auto, unfolding(crate::specs::Private::Fields::done_at))]
fn whole_count(line: &[u8]) -> Option<u16>
    ensures { result ≡ nothing_left (done_at line.now) }
{
    let mut fields = Fields::new(line);
    fields.text(b"done ")?;
    let count = fields.natural(0, MOST_ENTRIES as u64)? as u16;
    if fields.is_empty() { Some(count) } else { None }
}

#[tactic(auto, unfolding(crate::specs::Private::Fields::rom_at))]
fn whole_rom(line: &[u8]) -> Option<(u16, u16)>
    ensures { result ≡ nothing_left (rom_at line.now) }
{
    let mut fields = Fields::new(line);
    fields.text(b"rom ")?;
    let first = fields.address(0, ADDRESS_END - 1)?;
    fields.text(b" ")?;
    let last = fields.address(0, ADDRESS_END - 1)?;
    if fields.is_empty() {
        Some((first, last))
    } else {
        None
    }
}

#[inline(never)]
fn whole_entry(line: &[u8], first: u16, last: u16) -> Option<Entry>
    ensures { result ≡ nothing_left (entry_at first last line.now) }
{
    let (entry, rest) = leading_entry(line, first, last)?;
    if rest.is_empty() { Some(entry) } else { None }
}

/// The entry that stands first in these bytes, and the bytes after it.
#[inline(always)]
fn leading_entry(bytes: &[u8], first: u16, last: u16) -> Option<(Entry, &[u8])>
    ensures { entry_at first last bytes.now ≡ option_map (λ read. (read.0, read.1.now)) result }
{
    let mut fields = Fields::new(bytes);
    let entry = fields.entry(first, last)?;
    Some((entry, fields.rest()))
}
