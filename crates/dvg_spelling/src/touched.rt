//! The lines of `diff`.

ghost use Rattle.std.specs.Prelude.{◌≡◌};
ghost use Rattle.dvg_spelling.specs.Touched.{touched_line};

use crate::report::Report;
use dvg_survey::TouchedEntry;

/// The line of an entry whose shape reads a word in which two ROMs differ, with its LF. Takes no memory.
pub fn touched_line_of(entry: &TouchedEntry) -> Report
    ensures { result ≡ touched_line entry.now }
{
    let mut line = Report::new();
    line.push_entry_name(b"touched ", entry.entry.addr, entry.entry.key);
    line.push_address(b" at ", entry.word);
    line.ended()
}
