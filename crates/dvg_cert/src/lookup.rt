//! Finding the entries of a certificate.

ghost use Rattle.std.specs.Prelude.{◌≡◌, List, IfSome};
ghost use Rattle.dvg_cert.specs.declared.entry.Entry.{Entry};
ghost use Rattle.dvg_cert.specs.Entry.{IsClaim};
ghost use Rattle.dvg_cert.specs.Order.{IsRising};
ghost use Rattle.dvg_cert.specs.Lookup.{entry_at, named_entry};
ghost use Rattle.dvg_cert.specs.Private.Searching.{stands_before};

use crate::certificate::{Cert, is_key_before};
use crate::entry::{Entry, Key};
use std::marker::Model;

/// The entries of a certificate, by address and key.
pub trait Entries {
    /// The entries of the certificate, in their order.
    ghost list: { Self → List Entry };

    /// The entry at this word address with exactly this key, `None` if there is none.
    fn find(&self, addr: u16, key: Key) -> Option<Entry>
        ensures entry { result ≡ entry_at (list self.now) addr key }
        ensures claim { IfSome result IsClaim };

    /// The entry that a call of this word address names at this scale, `Any` if the scale is unknown. It is the entry for exactly
    /// this scale, or else the one for any scale.
    fn named(&self, to: u16, scale: Key) -> Option<Entry>
        ensures entry { result ≡ named_entry (list self.now) to scale }
        ensures claim { IfSome result IsClaim }
    {
        match self.find(to, scale) {
            Some(entry) => Some(entry),
            None => self.find(to, Key::Any),
        }
    }
}

/// An index that finds an entry by binary search in the certificate's order. Takes no memory.
#[derive(Drop)]
pub struct ListIndex<'a> {
    cert: &'a Cert,
}

impl<'a> Model for ListIndex<'a> {
    ghost use Rattle.std.specs.Prelude.{List};
    ghost use Rattle.dvg_cert.specs.declared.entry.Entry.{Entry};

    ghost Value = { List Entry };

    ghost view = { λ index. index.cert.now.entries };
}

impl<'a> ListIndex<'a> {
    /// The index of a certificate.
    pub fn new(cert: &'a Cert) -> ListIndex<'a>
        ensures { result ≡ cert.now.entries }
    {
        ListIndex { cert }
    }
}

impl<'a> Entries for ListIndex<'a> {
    ghost list = { λ index. index };

    fn find(&self, addr: u16, key: Key) -> Option<Entry> {
        find_in(self.cert.entries(), addr, key)
    }
}

/// The entry with exactly this address and key, found by binary search.
fn find_in(entries: &[Entry], addr: u16, key: Key) -> Option<Entry>
    requires { IsRising entries.now }
    ensures { result ≡ entry_at entries.now addr key }
{
    let at = entries.partition_point(|entry| stands_before(entry, addr, key));
    if at == entries.len() {
        return None;
    }
    let entry = entries[at];
    if entry.is_at(addr, key) {
        Some(entry)
    } else {
        None
    }
}

/// Whether an entry stands before the place of an address and key.
#[tactic(auto, using(crate::proofs::Searching::lower_is))]
fn stands_before(entry: &Entry, addr: u16, key: Key) -> bool
    ensures { result ≡ stands_before addr key entry.now }
{
    entry.addr < addr || (entry.addr == addr && is_key_before(entry.key, key))
}
