//! The entry of a shape with all that it needs. The entry of each callee is whole before its caller goes on.

ghost use Rattle.std.specs.Prelude.{◌≡◌, ◌+◌, ◌*◌, ◌<◌, ◌++◌, ◌∷◌, ℕ, List, [], None, length, OnOk, IfErr};
ghost use Rattle.dvg_words.specs.declared.map.TheConstants.{ADDRESS_END};
ghost use Rattle.dvg_cert.specs.declared.limits.TheConstants.{MOST_ENTRIES};
ghost use Rattle.dvg_cert.specs.Entry.{IsKey};
ghost use Rattle.dvg_cert.specs.declared.entry.Key.{Key as KeyValue};
ghost use Rattle.dvg_cert.specs.Lookup.{entry_at};
ghost use Rattle.dvg_make.specs.declared.partial.PartialEntry.{PartialEntry as PartialValue};
ghost use Rattle.dvg_make.specs.Made.{HasEntry};
ghost use Rattle.dvg_make.specs.Private.Partial.{IsTail};
ghost use Rattle.dvg_make.specs.Private.Making.{IsPresent, NotBegun, IsBegun, IsRightFor, InProgress, IsInProgress, StaysInProgress, obstacle_fault, BarsAll, TellsAll, IsNoRoot, IsBlocked};

use crate::account::EntryCause;
use crate::made_entries::MadeEntries;
use crate::making::Making;
use crate::obstacle::{Blocked, Obstacle};
use crate::partial::{PartialEntry, Progress};
use crate::stack::Stack;
use dvg_cert::{Entry, Key, MOST_ENTRIES};
use dvg_words::RomImage;
use std::alloc::{AllocError, Global};

/// Puts a shape on the stack. An `Err` is the cause by which it can't be begun.
fn begin(done: &MadeEntries, stack: &mut Stack, addr: u16, key: Key) -> Result<(), EntryCause>
    ensures ok { OnOk result (IsBegun done.now stack.old stack.new addr key) }
    ensures err { IfErr result (NotBegun done.now stack.old addr key) }
    ensures same { IfErr result (λ cause. stack.new ≡ stack.old) }
{
    if let Some(from) = stack.position(addr, key) {
        return Err(EntryCause::Ring { from });
    }
    if done.len() >= MOST_ENTRIES || stack.len() >= MOST_ENTRIES - done.len() {
        return Err(EntryCause::TooManyEntries);
    }
    stack.push(PartialEntry::start(addr, key))?;
    Ok(())
}

impl Making {
    /// Adds a whole entry, and keeps the tails of its shape. `end` is the word address at which the making of the shape ended.
    fn finish(&mut self, rom: &RomImage, entry: Entry, end: u16) -> Result<(), AllocError>
        requires right { IsRightFor rom.now self.old }
        requires made { IsTail rom.now self.old.done entry }
        requires new { entry_at self.old.done entry.addr entry.key ≡ None }
        requires room { length self.old.done < MOST_ENTRIES }
        ensures right { OnOk result (IsRightFor rom.now self.new) }
        ensures ok { OnOk result (self.new.done ≡ self.old.done ++ entry ∷ []) }
    {
        self.keep_tails(rom, &entry, end)?;
        self.done.add(entry)?;
        Ok(())
    }

    /// Takes the shape on the top as far as it goes: it is finished, or what it needs next is put on top of it.
    fn turn(
        &mut self,
        rom: &RomImage,
        stack: &mut Stack,
        partial: PartialEntry,
    ) -> Result<(), Obstacle>
        requires right { IsRightFor rom.now self.old }
        requires making { IsInProgress rom.now self.old.done stack.old }
        requires top { (rest : List PartialValue) × (stack.old ≡ rest ++ partial ∷ []) }
        ensures right { OnOk result (IsRightFor rom.now self.new) }
        ensures ok { OnOk result (StaysInProgress rom.now self.old.done stack.old self.new.done stack.new) }
        ensures less { OnOk result (2 * length self.old.done + length stack.old < 2 * length self.new.done + length stack.new) }
        ensures present { OnOk result ((addr : ℕ) (key : KeyValue) → IsPresent self.old.done stack.old addr key → IsPresent self.new.done stack.new addr key) }
        ensures err { IfErr result (λ obstacle. BarsAll rom.now self.old.done stack.old (obstacle_fault obstacle)) }
        ensures told { IfErr result (TellsAll rom.now self.old.done stack.old stack.new) }
        ensures no_root { IfErr result IsNoRoot }
    {
        match self.advance(rom, partial)? {
            Progress::Finished { entry, at } => {
                if self.finish(rom, entry, at).is_err() {
                    return Err(partial.obstacle(EntryCause::Memory));
                }
                stack.pop();
                Ok(())
            }
            Progress::Waiting { partial, addr } => {
                stack.replace_top(partial);
                match begin(&self.done, stack, addr, partial.cursor.known.scale) {
                    Ok(()) => Ok(()),
                    Err(cause) => Err(partial.obstacle(cause)),
                }
            }
        }
    }

    /// Makes the entry of a shape, if it is not made yet, and before it the entries of all that the shape calls and tail jumps to.
    pub fn need(&mut self, rom: &RomImage, addr: u16, key: Key) -> Result<(), Blocked>
        requires right { IsRightFor rom.now self.old }
        requires near { addr < ADDRESS_END }
        requires key { IsKey key }
        ensures right { OnOk result (IsRightFor rom.now self.new) }
        ensures ok { OnOk result (InProgress rom.now self.old.done (addr, key) self.new.done []) }
        ensures has { OnOk result (HasEntry self.new.done addr key) }
        ensures err { IfErr result (IsBlocked rom.now self.old.done (addr, key)) }
    {
        if self.done.find(addr, key).is_some() {
            return Ok(());
        }
        let mut stack = Stack::new(self.alloc);
        if let Err(cause) = begin(&self.done, &mut stack, addr, key) {
            let obstacle = PartialEntry::start(addr, key).obstacle(cause);
            return Err(Blocked {
                call: None,
                chain: stack,
                obstacle,
            });
        }
        while let Some(partial) = stack.top() {
            if let Err(obstacle) = self.turn(rom, &mut stack, partial) {
                return Err(Blocked {
                    call: None,
                    chain: stack,
                    obstacle,
                });
            }
        }
        Ok(())
    }
}
