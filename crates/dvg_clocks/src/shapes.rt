//! What the shapes of a certificate take.

ghost use Rattle.std.specs.Prelude.{◌≡◌, [], OnOk, IfOk};
ghost use Rattle.dvg_items.specs.Bounds.{IsSomeCertificate};
ghost use Rattle.dvg_clocks.specs.Sums.{AreGood};
ghost use Rattle.dvg_clocks.specs.Kept.{AreTold, IsKeptToo, clocks_in};

use crate::clocks::{ClockRange, States};
use crate::items::{ScaleCursor, Unseen, items_clocks};
use dvg_cert::{Entries, Entry, Key};
use dvg_items::Kind;
use dvg_words::RomImage;
use indexmap::IndexMap;
use std::alloc::{AllocError, Global};
use std::marker::Model;

/// The clocks of shapes, each from its first word to its return, with all that it calls: by the addresses and keys of their entries.
#[derive(Drop)]
pub struct ShapeClocks {
    found: IndexMap<(u16, Key), ClockRange>,
}

impl Model for ShapeClocks {
    ghost use Rattle.dvg_clocks.specs.Kept.{Kept};

    ghost Value = { Kept };

    ghost view = { λ shapes. shapes.found.entries };
}

impl ShapeClocks {
    /// No shape so far.
    pub fn new(alloc: Global) -> ShapeClocks
        ensures { result ≡ [] }
    {
        ShapeClocks {
            found: IndexMap::new(alloc),
        }
    }

    /// What the shape of an entry takes; nothing for an entry that the certificate doesn't have.
    pub fn of(&self, entry: &Entry) -> ClockRange
        ensures { result ≡ clocks_in self.now entry.now }
    {
        match self.found.get(&(entry.addr, entry.key)) {
            Some(clocks) => *clocks,
            None => ClockRange::ZERO,
        }
    }

    /// Adds what the shape of an entry takes.
    fn add(&mut self, entry: &Entry, clocks: ClockRange) -> Result<(), AllocError>
        ensures { OnOk result (IsKeptToo entry.now clocks self.old self.new) }
    {
        self.found.insert((entry.addr, entry.key), clocks)?;
        Ok(())
    }

    /// The clocks of all shapes of a certificate whose shapes are good, by its list and an index of it.
    ///
    /// Each shape is gone over once, those with fewer words first: a shape has more words than each shape that it calls. Takes memory for
    /// the entries and their clocks; an `Err` says that there was none.
    pub fn of_all<E: Entries>(
        alloc: Global,
        states: &States,
        rom: &RomImage,
        entries: &E,
        list: &[Entry],
    ) -> Result<ShapeClocks, AllocError>
        requires entries { IsSomeCertificate (E.list entries.now) }
        requires list { E.list entries.now ≡ list.now }
        requires good { AreGood rom.now list.now }
        ensures { IfOk result (AreTold states.now rom.now list.now) }
    {
        let mut rising: Vec<Entry> = list.iter().copied().collect(alloc)?;
        rising.sort_by_key(|entry: &Entry| entry.words)?;
        let mut shapes = ShapeClocks::new(alloc);
        for entry in &rising {
            let first = ScaleCursor {
                kind: Kind::Shape,
                at: entry.addr,
                scale: entry.key,
            };
            match items_clocks(states, rom, entries, &shapes, &first, u64::MAX, &mut Unseen) {
                Ok(clocks) => shapes.add(entry, clocks)?,
                Err(_) => unreachable!(),
            }
        }
        Ok(shapes)
    }
}
