//! What the rules see of the items of a shape or of a frame, one behind the other.

ghost use Rattle.std.specs.Prelude.{◌≡◌, ◌<◌};
ghost use Rattle.std.specs.Iterator.{at_most};
ghost use Rattle.dvg_words.specs.declared.map.TheConstants.{ADDRESS_END};
ghost use Rattle.dvg_cert.specs.Entry.{IsKey};
ghost use Rattle.dvg_cert.specs.declared.entry.Key.TheVariants.{Any};
ghost use Rattle.dvg_items.specs.declared.item.Kind.TheVariants.{Frame, Shape};
ghost use Rattle.dvg_items.specs.Bounds.{IsSoundStep};
ghost use Rattle.dvg_items.specs.Cursor.{Onward, first_cursor};
ghost use Rattle.dvg_items.specs.Iterating.{GivesSeen, address, most_left};

use crate::cursor::{Cursor, Step};
use crate::item::Kind;
use crate::seen::Seen;
use dvg_cert::{Entries, Entry, Key};
use dvg_words::{Cell, Fetch, read_cell};

/// What a walk over items goes by: whose items they are, the word address of the first one, and the known scale there.
#[derive(Clone, Copy)]
pub struct WalkContext {
    pub kind: Kind,
    pub first: u16,
    pub scale: Key,
}

impl WalkContext {
    /// A walk over a frame.
    pub fn frame() -> WalkContext
        ensures { result ≡ record { kind = Frame; first = 0; scale = Any } }
    {
        WalkContext {
            kind: Kind::Frame,
            first: 0,
            scale: Key::Any,
        }
    }

    /// A walk over an entry's shape.
    pub fn shape(entry: &Entry) -> WalkContext
        ensures { result ≡ record { kind = Shape; first = entry.now.addr; scale = entry.now.key } }
    {
        WalkContext {
            kind: Kind::Shape,
            first: entry.addr,
            scale: entry.key,
        }
    }
}

/// What the rules see of each item that a walk comes to, by these entries, up to the last one, or to where no item stands.
#[derive(Drop)]
pub struct SeenItems<'a, F, E> {
    words: &'a F,
    entries: &'a E,
    kind: Kind,
    /// Where the next one would stand, or what is known behind the last one.
    here: Step,
}

impl<'a, F: Fetch, E: Entries> SeenItems<'a, F, E> {
    /// A walk from its first item on.
    pub fn new(words: &'a F, entries: &'a E, walk: &WalkContext) -> SeenItems<'a, F, E>
        ensures value { result ≡ record {
          words = words.entry;
          entries = entries.entry;
          kind = walk.now.kind;
          here = Onward (first_cursor walk.now.kind walk.now.first walk.now.scale);
        } }
        ensures sound { walk.now.first < ADDRESS_END → IsKey walk.now.scale → IsSoundStep result.here }
    {
        SeenItems {
            words,
            entries,
            kind: walk.kind,
            here: Step::Onward(Cursor::start(walk.kind, walk.first, walk.scale)),
        }
    }
}

impl<'a, F: Fetch, E: Entries> Iterator for SeenItems<'a, F, E> {
    type Item = Seen;

    ghost can_next = { λ items. IsSoundStep items.here };

    ghost next_gives = { λ items seen rest. GivesSeen
        (record { list = E.list items.entries.now; kind = items.kind; word = F.words items.words.now; here = items.here }) seen
        (record { list = E.list rest.entries.now; kind = rest.kind; word = F.words rest.words.now; here = rest.here }) };

    ghost remaining = { λ items. at_most (most_left (address items.here)) };

    fn next(&mut self) -> Option<Seen> {
        let Step::Onward(here) = self.here else {
            return None;
        };
        let Cell::Holds { format, instr } = read_cell(self.words, here.at) else {
            return None;
        };
        let seen = here.see_by(self.words.machine(), self.entries, self.kind, format, instr);
        self.here = seen.step(self.kind);
        Some(seen)
    }
}
