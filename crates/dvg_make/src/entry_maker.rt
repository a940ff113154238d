//! Entries that are made one after another.

ghost use Rattle.std.specs.Prelude.{◌≡◌, ◌<◌, [], Some, OnOk, OnErr, IfOk, IfErr};
ghost use Rattle.dvg_words.specs.declared.map.TheConstants.{ADDRESS_END};
ghost use Rattle.dvg_cert.specs.Entry.{IsKey, IsClaim};
ghost use Rattle.dvg_cert.specs.Lookup.{entry_at};
ghost use Rattle.dvg_make.specs.Made.{AllMade};
ghost use Rattle.dvg_make.specs.Refusals.{BarsEntry};
ghost use Rattle.dvg_make.specs.EntryMaker.{HasAllOf};

use crate::fault::EntryFault;
use crate::making::Making;
use dvg_cert::{Entry, Key};
use dvg_words::RomImage;
use std::alloc::Global;
use std::marker::Model;

/// Makes the entries of a vector ROM one after another, for callers that learn from each which one they need next. What was made for
/// one is kept for the others.
#[derive(Drop)]
pub struct EntryMaker<'a> {
    alloc: Global,
    rom: &'a RomImage<'a>,
    making: Making,
}

impl<'a> Model for EntryMaker<'a> {
    ghost use Rattle.dvg_make.specs.EntryMaker.{MadeSoFar};
    ghost use Rattle.dvg_make.specs.Private.Making.{IsRightFor};

    ghost Value = { MadeSoFar };

    ghost view = { λ m. record { rom = m.rom.now; list = m.making.done } };

    ghost invariant = { λ m. IsRightFor m.rom.now m.making };
}

impl<'a> EntryMaker<'a> {
    /// No entry so far.
    pub fn new(alloc: Global, rom: &'a RomImage<'a>) -> EntryMaker<'a>
        ensures { result ≡ record { rom = rom.now; list = [] } }
    {
        rom.prove_whole();
        EntryMaker {
            alloc,
            rom,
            making: Making::new(alloc),
        }
    }

    /// The entry of the shape at a word address, called at this scale; it is made if it is not made yet, and so is all that it needs:
    /// what [`make`](crate::make) makes for this root.
    ///
    /// Refuses 60 to 62 as `make` does, and 63 where there was no memory. 60, 61 and 62 by a count come only where no made
    /// certificate has this entry; 62 by the number of entries where this one and all that were made before would be more than 4,096.
    /// A refusal forgets what was made before. Takes memory as `make` does.
    pub fn entry(&mut self, addr: u16, key: Key) -> Result<Entry, EntryFault>
        requires near { addr < ADDRESS_END }
        requires key { IsKey key }
        ensures rom { self.new.rom ≡ self.old.rom }
        ensures ok { IfOk result (λ e. entry_at self.new.list addr key ≡ Some e) }
        ensures claim { IfOk result IsClaim }
        ensures made { OnOk result (AllMade self.new.rom self.new.list) }
        ensures kept { OnOk result (HasAllOf self.old.list self.new.list) }
        ensures err { IfErr result (BarsEntry self.old.rom addr key) }
        ensures none { OnErr result (self.new.list ≡ []) }
    {
        if let Err(blocked) = self.making.need(self.rom, addr, key) {
            self.rom.prove_whole();
            self.making = Making::new(self.alloc);
            return Err(blocked.obstacle.fault());
        }
        match self.making.done.find(addr, key) {
            Some(entry) => Ok(entry),
            None => unreachable!(),
        }
    }
}
