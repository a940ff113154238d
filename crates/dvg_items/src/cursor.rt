//! Where a walk over items stands.

ghost use Rattle.std.specs.Prelude.{◌≡◌, ◌<◌, IfSome};
ghost use Rattle.dvg_words.specs.declared.map.TheConstants.{ADDRESS_END};
ghost use Rattle.dvg_words.specs.Decoding.{InstrFits};
ghost use Rattle.dvg_cert.specs.Entry.{IsKey, IsClaim};
ghost use Rattle.dvg_items.specs.Seen.{seen_with};
ghost use Rattle.dvg_items.specs.Cursor.{first_cursor};
ghost use Rattle.dvg_items.specs.Bounds.{IsSoundCursor, IsSoundSeen};
ghost use Rattle.dvg_items.specs.Known.{callee_at, target};

use crate::action::action_at;
use crate::item::{Item, Kind, target};
use crate::known::{Known, callee};
use crate::seen::Seen;
use dvg_cert::{Entries, Entry, Key};
use dvg_words::{Format, Instr, Machine};

/// The word address of an item, and what is known before it.
#[derive(Clone, Copy)]
pub struct Cursor {
    pub at: u16,
    pub known: Known,
}

/// Where an item leads: to the cursor at the next one, or to what is known after the last one.
#[derive(Clone, Copy)]
pub enum Step {
    Onward(Cursor),
    Last(Known),
}

impl Cursor {
    /// The cursor at the first item of a shape or of a frame, from its word address and its scale (`Any` if unknown).
    pub fn start(kind: Kind, first: u16, scale: Key) -> Cursor
        ensures value { result ≡ first_cursor kind first scale }
        ensures sound { first < ADDRESS_END → IsKey scale → IsSoundCursor result }
    {
        Cursor {
            at: first,
            known: Known::start(kind, scale),
        }
    }

    /// What the rules see of this instruction at the cursor, with the entry that it calls.
    #[inline(always)]
    pub fn see(
        &self,
        machine: Machine,
        format: Format,
        instr: &Instr,
        callee: Option<Entry>,
    ) -> Seen
        requires here { IsSoundCursor self.now }
        requires near { self.now.at < ADDRESS_END }
        requires fields { InstrFits instr.now }
        requires callee { IfSome callee IsClaim }
        ensures value { result ≡ seen_with machine callee self.now.known (record { at = self.now.at; format = format; instr = instr.now }) }
        ensures sound { IsSoundSeen result }
    {
        let item = Item {
            at: self.at,
            format,
            instr: *instr,
        };
        let action = action_at(machine, self, instr, &callee);
        Seen {
            item,
            place: self.known.place,
            extent: action.extent,
            callee,
            after: self.known.past(action.place, &item, &callee),
        }
    }

    /// What the rules see of this instruction at the cursor, with the entry that it calls by its target and the scale that is known. It
    /// takes copies, so that a loop needs no address of what it goes by.
    pub fn see_by<E: Entries>(
        self,
        machine: Machine,
        entries: &E,
        kind: Kind,
        format: Format,
        instr: Instr,
    ) -> Seen
        requires here { IsSoundCursor self }
        requires near { self.at < ADDRESS_END }
        requires fields { InstrFits instr }
        ensures value { result ≡ seen_with machine (callee_at (E.list entries.now) (target kind instr) self.known.scale) self.known
            (record { at = self.at; format = format; instr = instr }) }
        ensures sound { IsSoundSeen result }
    {
        let named = callee(entries, target(kind, &instr), self.known.scale);
        self.see(machine, format, &instr, named)
    }
}
