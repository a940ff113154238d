//! The entries that calls name.

ghost use Rattle.std.specs.Prelude.{◌≡◌, IfSome};
ghost use Rattle.dvg_cert.specs.Entry.{IsClaim};
ghost use Rattle.dvg_cert.specs.Lookup.{named_entry};

use dvg_cert::{Entries, Entry, Key};
use std::marker::Model;

/// The entries of a certificate, with the one that the last call named: where the next call is the same, nothing is looked up.
#[derive(Drop)]
pub struct Callees<'a, E: Entries> {
    entries: &'a E,
    /// The word address and the known scale of the last call.
    to: u16,
    scale: Key,
    /// The entry that it names, `None` before the first call.
    entry: Option<Entry>,
}

impl<'a, E: Entries> Model for Callees<'a, E> {
    ghost use Rattle.std.specs.Prelude.{◌≡◌, List, Some, IfSome};
    ghost use Rattle.dvg_cert.specs.declared.entry.Entry.{Entry};
    ghost use Rattle.dvg_cert.specs.Entry.{IsClaim};
    ghost use Rattle.dvg_cert.specs.Lookup.{named_entry};

    ghost Value = { List Entry };

    ghost view = { λ callees. E.list callees.entries.now };

    ghost invariant = { λ callees. IfSome callees.entry (λ entry.
        (named_entry (E.list callees.entries.now) callees.to callees.scale ≡ Some entry) × IsClaim entry) };
}

impl<'a, E: Entries> Callees<'a, E> {
    /// The entries of a certificate, before the first call.
    pub fn new(entries: &'a E) -> Callees<'a, E>
        ensures { result ≡ E.list entries.now }
    {
        Callees {
            entries,
            to: 0,
            scale: Key::Any,
            entry: None,
        }
    }

    /// The entry that a call of this word address names at this known scale, `Any` where it is unknown.
    #[inline(always)]
    pub fn named(&mut self, to: u16, scale: Key) -> Option<Entry>
        ensures value { result ≡ named_entry self.old to scale }
        ensures claim { IfSome result IsClaim }
        ensures same { self.new ≡ self.old }
    {
        if self.entry.is_none() || self.to != to || self.scale != scale {
            self.to = to;
            self.scale = scale;
            look_up(self.entries, to, scale, &mut self.entry);
        }
        self.entry
    }
}

/// Puts the entry that a call of this word address names at this known scale where that of the last call is.
#[inline(never)]
fn look_up<E: Entries>(entries: &E, to: u16, scale: Key, entry: &mut Option<Entry>)
    ensures value { entry.new ≡ named_entry (E.list entries.now) to scale }
    ensures claim { IfSome entry.new IsClaim }
{
    *entry = entries.named(to, scale);
}
