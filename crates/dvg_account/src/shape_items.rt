//! The items of a certificate's shape, one after another, and what else begins among them.

ghost use Rattle.std.specs.Prelude.{◌<◌, IfSome};
ghost use Rattle.dvg_items.specs.Iterating.{most_left};

use crate::beginnings::{Beginning, Beginnings};
use dvg_cert::{Entries, Entry, Key};
use dvg_items::{Item, Items, Kind, callee, target};
use dvg_words::Instr;

/// An item of a shape, and what is known of it.
#[derive(Clone, Copy)]
pub struct ShapeItem {
    pub item: Item,
    /// The scale that is known before it.
    pub scale: Key,
    /// The entry that it calls or tail jumps to.
    pub called: Option<Entry>,
    /// The word address behind it to which it goes on, if something else begins there.
    pub meets: Option<(u16, Beginning)>,
    /// The entry with the very scale that is known there, whose own items go on in place of this shape's.
    pub goes_on: Option<Entry>,
}

/// Where a walk over the items of an entry's shape stands.
#[derive(Clone, Copy)]
pub struct ShapeItems<'a> {
    here: Option<u16>,
    scale: Key,
    /// The entries of the certificate, in their order, that begin here or later.
    later: &'a [Entry],
}

impl<'a> ShapeItems<'a> {
    /// The items of an entry's shape. `entries` are those of its certificate that begin behind it, in their order, and maybe some before.
    pub fn of(entry: &Entry, entries: &'a [Entry]) -> ShapeItems<'a> {
        ShapeItems {
            here: Some(entry.addr),
            scale: entry.key,
            later: entries,
        }
    }

    /// The next item. There is none behind one that meets another shape of the certificate at the very scale that is known there.
    pub fn next<E: Entries>(&mut self, entries: &E, beginnings: &Beginnings) -> Option<ShapeItem>
        ensures { IfSome result (λ _. most_left self.new.here < most_left self.old.here) }
    {
        let item = Items::from(beginnings.rom, Kind::Shape, self.here?).next()?;
        let scale = self.scale;
        let called = callee(entries, target(Kind::Shape, &item.instr), scale);
        self.scale = scale_behind(&item.instr, scale, &called);
        self.here = item.next_address(Kind::Shape);
        self.later = from_address(self.later, self.here);
        let meets = self.meets(beginnings);
        let goes_on = match meets {
            Some((at, Beginning::Entry)) => entries.find(at, self.scale),
            _ => None,
        };
        if goes_on.is_some() {
            self.here = None;
        }
        Some(ShapeItem {
            item,
            scale,
            called,
            meets,
            goes_on,
        })
    }

    /// What begins here: the shape of an entry, or something beside the certificate's shapes.
    fn meets(&self, beginnings: &Beginnings) -> Option<(u16, Beginning)> {
        let at = self.here?;
        let beginning = match self.later.first() {
            Some(entry) if entry.addr == at => Beginning::Entry,
            _ => beginnings.at(at)?,
        };
        Some((at, beginning))
    }
}

/// The scale that is known behind an instruction, by the entry that it names.
fn scale_behind(instr: &Instr, scale: Key, called: &Option<Entry>) -> Key {
    match (instr, called) {
        (Instr::Labs { gscale, .. }, _) => Key::At(*gscale),
        (_, Some(entry)) => entry.scale,
        _ => scale,
    }
}

/// Those of these entries, which are in the order of their addresses, that begin at a word address or behind it.
pub fn from_address(entries: &[Entry], here: Option<u16>) -> &[Entry] {
    match here {
        Some(at) => {
            let before = entries.iter().take_while(|entry| entry.addr < at).count();
            entries.get(before..).unwrap_or(&[])
        }
        None => &[],
    }
}
