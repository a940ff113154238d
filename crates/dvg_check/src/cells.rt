//! What stands at the word addresses of a ROM and of a frame.

ghost use Rattle.std.specs.Prelude.{◌≡◌};
ghost use Rattle.dvg_words.specs.Values.{Source};
ghost use Rattle.dvg_words.specs.declared.map.TheConstants.{ADDRESS_END};
ghost use Rattle.dvg_words.specs.Decoding.{cell_at, CellFits, StandsBelow};
ghost use Rattle.dvg_words.specs.Memory.{rom_word, frame_word};

use dvg_words::{Cell, Fetch, FrameOn, Machine, RomImage, read_cell};

/// What stands at word addresses.
pub trait Cells {
    /// The word at each address, none where there is none, and the machine that decodes it.
    ghost words: { Self → Source };

    /// The machine that decodes the words.
    fn machine(&self) -> Machine
        ensures { result ≡ (words self.now).machine };

    /// What stands at a word address.
    fn cell(&self, at: u16) -> Cell
        ensures value { result ≡ cell_at (words self.now) at }
        ensures fields { CellFits result }
        ensures near { StandsBelow ADDRESS_END at result };
}

impl<'a> Cells for FrameOn<'a> {
    ghost words = { λ s. frame_word s.machine s.frame };

    fn machine(&self) -> Machine {
        Fetch::machine(self)
    }

    #[inline(always)]
    fn cell(&self, at: u16) -> Cell {
        read_cell(self, at)
    }
}

impl<'a> Cells for RomImage<'a> {
    ghost words = { λ s. rom_word s };

    fn machine(&self) -> Machine {
        RomImage::machine(self)
    }

    fn cell(&self, at: u16) -> Cell {
        read_cell(self, at)
    }
}
