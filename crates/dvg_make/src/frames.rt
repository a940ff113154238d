//! The entries that a frame calls, one call after another.

ghost use Rattle.std.specs.Prelude.{◌≡◌, OnOk, IfOk, IfErr, IfSome};
ghost use Rattle.dvg_words.specs.Memory.{frame_word};
ghost use Rattle.dvg_words.specs.Decoding.{InstrFits, CellFits, StandsBelow, cell_at};
ghost use Rattle.dvg_words.specs.declared.map.TheConstants.{ADDRESS_END};
ghost use Rattle.dvg_cert.specs.Entry.{IsKey, IsClaim};
ghost use Rattle.dvg_make.specs.Private.Making.{IsRightFor};
ghost use Rattle.dvg_make.specs.Private.Partial.{Extends};
ghost use Rattle.dvg_make.specs.Private.Framing.{IsCalledBy, IsFramed, BlocksTarget, BlocksHere};

use crate::fault::FrameCall;
use crate::making::Making;
use crate::obstacle::Blocked;
use dvg_cert::{Entry, Key};
use dvg_items::{Item, Kind, scale_past, target};
use dvg_words::{Cell, FrameImage, FrameOn, Instr, RomImage, read_cell};

/// What stands at a word address of a frame, as the machine of the ROM reads it.
fn frame_cell(rom: &RomImage, frame: &FrameImage, at: u16) -> Cell
    ensures value { result ≡ cell_at (frame_word rom.now.machine frame.now) at }
    ensures fields { CellFits result }
    ensures near { StandsBelow ADDRESS_END at result }
{
    read_cell(&FrameOn::new(rom.machine(), frame), at)
}

impl Making {
    /// The entry that an instruction of a frame calls at this scale. It is made if it is not made yet.
    fn make_call(
        &mut self,
        rom: &RomImage,
        instr: &Instr,
        scale: Key,
    ) -> Result<Option<Entry>, Blocked>
        requires right { IsRightFor rom.now self.old }
        requires fields { InstrFits instr.now }
        requires key { IsKey scale }
        ensures right { OnOk result (IsRightFor rom.now self.new) }
        ensures ok { IfOk result (IsCalledBy rom.now self.old.done instr.now scale self.new.done) }
        ensures claim { IfOk result (λ callee. IfSome callee IsClaim) }
        ensures err { IfErr result (BlocksTarget rom.now self.old.done instr.now scale) }
    {
        let Some(to) = target(Kind::Frame, instr) else {
            return Ok(None);
        };
        self.need(rom, to, scale)?;
        Ok(self.done.find(to, scale))
    }

    /// Makes the entries that a frame calls, each at the scale that is known before the call, and all that these need. `index` is the
    /// number of the frame, counted from 0.
    pub fn make_frame(
        &mut self,
        rom: &RomImage,
        index: usize,
        frame: &FrameImage,
    ) -> Result<(), Blocked>
        requires right { IsRightFor rom.now self.old }
        ensures right { OnOk result (IsRightFor rom.now self.new) }
        ensures grows { OnOk result (Extends self.old.done self.new.done) }
        ensures ok { OnOk result (IsFramed rom.now frame.now self.old.done self.new.done) }
        ensures err { IfErr result (BlocksHere rom.now index frame.now self.old.done) }
    {
        let mut at = 0;
        let mut scale = Key::Any;
        while let Cell::Holds { format, instr } = frame_cell(rom, frame, at) {
            let callee = match self.make_call(rom, &instr, scale) {
                Ok(callee) => callee,
                Err(blocked) => {
                    let call = Some(FrameCall { frame: index, at });
                    return Err(Blocked { call, ..blocked });
                }
            };
            scale = scale_past(&instr, scale, &callee);
            let item = Item { at, format, instr };
            match item.next_address(Kind::Frame) {
                Some(next) => at = next,
                None => return Ok(()),
            }
        }
        Ok(())
    }
}
