//! What the rules see of an item.

ghost use Rattle.std.specs.Prelude.{◌≡◌, ◌↔◌, IsTrue};
ghost use Rattle.dvg_items.specs.Seen.{HasCallee};
ghost use Rattle.dvg_items.specs.Cursor.{step_past};
ghost use Rattle.dvg_items.specs.Bounds.{IsSoundSeen, IsSoundStep};

use crate::cursor::{Cursor, Step};
use crate::item::{Item, Kind};
use crate::known::Known;
use crate::lit::LitExtent;
use dvg_cert::{End, Entry};

/// What the rules see of an item: the item, the place before it, what it lights, the entry that it calls, and what is
/// known past it.
#[derive(Clone, Copy)]
pub struct Seen {
    pub item: Item,
    pub place: End,
    pub extent: LitExtent,
    pub callee: Option<Entry>,
    pub after: Known,
}

impl Seen {
    /// Where the item leads: to the cursor at the next item, or to what is known after the last one.
    #[inline(always)]
    pub fn step(&self, kind: Kind) -> Step
        requires { IsSoundSeen self.now }
        ensures value { result ≡ step_past kind self.now }
        ensures sound { IsSoundStep result }
    {
        match self.item.next_address(kind) {
            Some(at) => Step::Onward(Cursor {
                at,
                known: self.after,
            }),
            None => Step::Last(self.after),
        }
    }
}

/// Whether a call or tail jump has its entry. True for every other item.
pub fn has_callee(target: Option<u16>, callee: &Option<Entry>) -> bool
    ensures { IsTrue result ↔ HasCallee target callee.now }
{
    target.is_none() || callee.is_some()
}
