//! The items of a shape or of a frame, one behind the other.

ghost use Rattle.std.specs.Prelude.{◌≡◌, Some};
ghost use Rattle.std.specs.Iterator.{at_most};
ghost use Rattle.dvg_items.specs.Iterating.{GivesItem, most_left};

use crate::item::{Item, Kind};
use dvg_words::{Cell, Fetch, read_cell};

/// The items from a word address on, up to the last one, or to where no item stands.
#[derive(Drop)]
pub struct Items<'a, F> {
    words: &'a F,
    kind: Kind,
    /// Where the next one would stand; `None` behind the last one.
    here: Option<u16>,
}

impl<'a, F: Fetch> Items<'a, F> {
    /// The items of a shape or of a frame from a word address on.
    pub fn from(words: &'a F, kind: Kind, first: u16) -> Items<'a, F>
        ensures { result ≡ record { words = words.entry; kind = kind; here = Some first } }
    {
        Items {
            words,
            kind,
            here: Some(first),
        }
    }
}

impl<'a, F: Fetch> Iterator for Items<'a, F> {
    type Item = Item;

    ghost next_gives = { λ items item rest. GivesItem items.kind (F.words items.words.now) items.here item rest.here
        × (rest.kind ≡ items.kind) × (rest.words ≡ items.words) };

    ghost remaining = { λ items. at_most (most_left items.here) };

    fn next(&mut self) -> Option<Item> {
        let at = self.here?;
        let Cell::Holds { format, instr } = read_cell(self.words, at) else {
            return None;
        };
        let item = Item { at, format, instr };
        self.here = item.next_address(self.kind);
        Some(item)
    }
}
