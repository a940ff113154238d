//! Shapes that call nothing.

ghost use Rattle.std.specs.Prelude.{◌≡◌, IfOk, IsTrue, slice_get, Some, true};
ghost use Rattle.dvg_words.specs.Memory.{Rom};
ghost use Rattle.dvg_kept.specs.Private.Leaves.{AreLeaves, IsLeaf};

use dvg_cert::Entry;
use dvg_items::{Item, Kind, target};
use dvg_words::{ADDRESS_END, Cell, RomImage, read_cell};
use std::alloc::{AllocError, Global};
use std::marker::Model;

/// The word addresses of shapes that are known to call nothing.
#[derive(Drop)]
pub struct Leaves {
    /// By word address, whether it is one of them.
    known: Vec<bool>,
}

impl Model for Leaves {
    ghost use Rattle.std.specs.Prelude.{Bool, List};

    ghost Value = { List Bool };

    ghost view = { λ leaves. leaves.known.items };
}

/// Whether the items of a shape call nothing, up to and with its last one.
fn is_leaf(rom: &RomImage, addr: u16) -> bool
    ensures { IsTrue result → IsLeaf rom.now addr }
{
    let mut at = addr;
    while let Cell::Holds { format, instr } = read_cell(rom, at) {
        if target(Kind::Shape, &instr).is_some() {
            return false;
        }
        let item = Item { at, format, instr };
        match item.next_address(Kind::Shape) {
            Some(next) => at = next,
            None => return true,
        }
    }
    false
}

impl Leaves {
    /// None so far.
    pub fn none(alloc: Global) -> Result<Leaves, AllocError>
        ensures { IfOk result (λ leaves. (rom : Rom) → AreLeaves rom leaves) }
    {
        Ok(Leaves {
            known: vec![in alloc; false; usize::from(ADDRESS_END)]?,
        })
    }

    /// Whether the shape at a word address is known to be one.
    pub fn has(&self, addr: u16) -> bool
        ensures { IsTrue result → slice_get self.now addr ≡ Some true }
    {
        self.known.get(usize::from(addr)) == Some(&true)
    }

    /// Adds the shape at a word address, if it calls nothing.
    fn add_leaf(&mut self, rom: &RomImage, addr: u16)
        requires { AreLeaves rom.now self.old }
        ensures { AreLeaves rom.now self.new }
    {
        let index = usize::from(addr);
        if index < self.known.len() && is_leaf(rom, addr) {
            self.known[index] = true;
        }
    }

    /// Adds those of the shapes of these entries.
    pub fn add(&mut self, rom: &RomImage, entries: &[Entry])
        requires { AreLeaves rom.now self.old }
        ensures { AreLeaves rom.now self.new }
    {
        for entry in entries {
            self.add_leaf(rom, entry.addr);
        }
    }
}
