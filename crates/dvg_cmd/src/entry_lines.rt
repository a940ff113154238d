//! Writing lines, one after another.

ghost use Rattle.std.specs.Prelude.{ℕ, List, [], ◌∷◌};
ghost use Rattle.dvg_spelling.specs.Places.{place_line};
ghost use Rattle.dvg_spelling.specs.Touched.{touched_line};
ghost use Rattle.dvg_cmd.specs.MakingFrames.{of_each};
ghost use Rattle.dvg_cmd.specs.Sent.{Writes};

use dvg_spelling::{place_line_of, touched_line_of};
use dvg_survey::{EntryPlaces, TouchedEntry};
use dvg_text::{CountedWrite, WriteFault, write_lines};

/// What has a line of its own.
pub trait HasLine {
    /// The text of the line.
    ghost text: { Self → List ℕ };

    /// Writes it, by one write if it fits one.
    fn write<W: CountedWrite>(&self, out: &mut W) -> Result<(), WriteFault>
        ensures { Writes W.contents W.whole_writes W.failures out.old out.new result (text self.now ∷ []) };
}

impl HasLine for EntryPlaces {
    ghost text = { place_line };

    fn write<W: CountedWrite>(&self, out: &mut W) -> Result<(), WriteFault> {
        write_lines(place_line_of(self).as_slice(), &[], &[], out)
    }
}

impl HasLine for TouchedEntry {
    ghost text = { touched_line };

    fn write<W: CountedWrite>(&self, out: &mut W) -> Result<(), WriteFault> {
        write_lines(touched_line_of(self).as_bytes(), &[], &[], out)
    }
}

/// Writes the line of each of these.
pub fn write_each<L: HasLine, W: CountedWrite>(things: &[L], out: &mut W) -> Result<(), WriteFault>
    ensures { Writes W.contents W.whole_writes W.failures out.old out.new result (of_each L.text things.now) }
{
    for thing in things {
        thing.write(out)?;
    }
    Ok(())
}
