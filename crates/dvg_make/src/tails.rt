//! Tails: entries for the rest of a shape, kept so that shapes which share it need not pass its items again.
//!
//! What a shape does from a word address on depends on that address and the scale there alone. So its tail from there is an
//! entry: the one of a shape that starts there. Tails are kept at marks, word addresses that are some words apart. The maker
//! passes the items of a shape up to the first mark whose tail it kept, and joins the tail to what it knows by then.

ghost use Rattle.std.specs.Prelude.{◌≡◌, ◌<◌, List, IfOk, IfSome, OnOk};
ghost use Rattle.dvg_words.specs.Memory.{Rom};
ghost use Rattle.dvg_words.specs.declared.map.TheConstants.{ADDRESS_END};
ghost use Rattle.dvg_cert.specs.Entry.{IsKey, IsClaim};
ghost use Rattle.dvg_cert.specs.declared.entry.Entry.{Entry as EntryValue};
ghost use Rattle.dvg_make.specs.Private.Making.{IsRightFor, ArePartial};
ghost use Rattle.dvg_make.specs.Private.Partial.{IsPartial};

use crate::making::Making;
use crate::partial::{PartialEntry, Progress};
use dvg_cert::{Entry, Key};
use dvg_items::{Item, Kind, scale_past, target};
use dvg_words::{Cell, Instr, RomImage, read_cell};
use std::alloc::AllocError;

/// How many words there are from a mark to the next but one.
const SPACING: u16 = 16;

/// Whether a word address is a mark. The first two of each sixteen are, since an item of two words can begin before either of
/// them and end behind it, but never jump both.
pub fn is_mark(at: u16) -> bool {
    at % SPACING < 2
}

/// Whether a shape's tails are kept, by the word addresses at which it begins and ends. To keep the tails of a short shape costs
/// more than they save.
fn is_long(from: u16, to: u16) -> bool {
    to.saturating_sub(from) >= 2 * SPACING
}

/// Adds the empty partial entry at a word address and a scale, if the address is a mark.
#[tactic(auto, using(crate::proofs::Chains::walks_push, crate::proofs::Turns::start_walk))]
fn push_mark(marks: &mut Vec<PartialEntry>, at: u16, scale: Key) -> Result<(), AllocError>
    requires near { at < ADDRESS_END }
    requires scale { IsKey scale }
    ensures { (rom : Rom) (done : List EntryValue) → ArePartial rom done marks.old.items → OnOk result (ArePartial rom done marks.new.items) }
{
    if is_mark(at) {
        marks.push(PartialEntry::start(at, scale))?;
    }
    Ok(())
}

impl Making {
    /// The entry for exactly this scale that an instruction calls, if it is made.
    fn made_callee(&self, instr: &Instr, scale: Key) -> Option<Entry>
        ensures { IfSome result IsClaim }
    {
        let to = target(Kind::Shape, instr)?;
        self.done.find(to, scale)
    }

    /// The empty partial entries at a shape's marks, each at the scale that is known there. They go up to the first mark whose tail
    /// is kept already, or to the shape's end.
    fn marks(&self, rom: &RomImage, addr: u16, key: Key) -> Result<Vec<PartialEntry>, AllocError>
        requires right { IsRightFor rom.now self.now }
        requires key { IsKey key }
        ensures { IfOk result (λ marks. ArePartial rom.now self.now.done marks.items) }
    {
        let mut marks = Vec::new(self.alloc);
        let mut at = addr;
        let mut scale = key;
        while let Cell::Holds { format, instr } = read_cell(rom, at) {
            if is_mark(at) && self.tails.find(at, scale).is_some() {
                return Ok(marks);
            }
            push_mark(&mut marks, at, scale)?;
            scale = scale_past(&instr, scale, &self.made_callee(&instr, scale));
            let item = Item { at, format, instr };
            match item.next_address(Kind::Shape) {
                Some(next) => at = next,
                None => return Ok(marks),
            }
        }
        Ok(marks)
    }

    /// Keeps the tail that begins at a mark, if it can be made.
    fn keep_tail(&mut self, rom: &RomImage, mark: PartialEntry) -> Result<(), AllocError>
        requires right { IsRightFor rom.now self.old }
        requires partial { IsPartial rom.now self.old.done mark }
        ensures right { OnOk result (IsRightFor rom.now self.new) }
        ensures same { self.new.done ≡ self.old.done }
    {
        let Ok(Progress::Finished { entry, .. }) = self.advance(rom, mark) else {
            return Ok(());
        };
        if self.tails.find(entry.addr, entry.key).is_none() {
            self.tails.add(entry)?;
        }
        Ok(())
    }

    /// Keeps the tails at the marks of a made shape, if it is long. The last one comes first, so that each other one takes only the
    /// items up to the next mark. `end` is the word address at which the making of the shape ended.
    #[tactic(auto, using(crate::proofs::Chains::walks_last, crate::proofs::Chains::walks_pop))]
    pub fn keep_tails(&mut self, rom: &RomImage, shape: &Entry, end: u16) -> Result<(), AllocError>
        requires right { IsRightFor rom.now self.old }
        requires key { IsKey shape.now.key }
        ensures right { OnOk result (IsRightFor rom.now self.new) }
        ensures same { self.new.done ≡ self.old.done }
    {
        if !is_long(shape.addr, end) {
            return Ok(());
        }
        let mut marks = self.marks(rom, shape.addr, shape.key)?;
        while let Some(mark) = marks.pop() {
            self.keep_tail(rom, mark)?;
        }
        Ok(())
    }
}
