//! The entries that are made so far.

ghost use Rattle.std.specs.Prelude.{◌≡◌, ◌++◌, List, [], ◌∷◌, length, slice_get, ℕ, IfOk, IfSome, IfNone, OnOk, OnErr, Some, None};
ghost use Rattle.std.specs.Map.{values_of};
ghost use Rattle.dvg_cert.specs.declared.entry.Entry.{Entry as EntryValue};
ghost use Rattle.dvg_cert.specs.declared.entry.Key.{Key as KeyValue};
ghost use Rattle.dvg_cert.specs.Entry.{IsClaim};
ghost use Rattle.dvg_cert.specs.Order.{IsRising};
ghost use Rattle.dvg_cert.specs.Lookup.{entry_at};
ghost use Rattle.dvg_cert.specs.Private.Keyed.{IsKeyed};

use dvg_cert::{Entries, Entry, Key};
use indexmap::IndexMap;
use std::alloc::{AllocError, Global};
use std::marker::Model;

/// Entries that are found by address and key, in the order in which they were made.
#[derive(Drop)]
pub struct MadeEntries {
    found: IndexMap<(u16, Key), Entry>,
}

impl Model for MadeEntries {
    ghost Value = { List EntryValue };

    ghost view = { λ done. values_of done.found.entries };

    ghost invariant = { λ done. IsKeyed done.found.entries };
}

#[tactic(auto, using(crate::proofs::Pairs::pairs))]
impl MadeEntries {
    /// No entry so far.
    pub fn new(alloc: Global) -> MadeEntries
        ensures { result ≡ [] }
    {
        MadeEntries {
            found: IndexMap::new(alloc),
        }
    }

    /// The entry with exactly this address and key.
    pub fn find(&self, addr: u16, key: Key) -> Option<Entry>
        ensures entry { result ≡ entry_at self.now addr key }
        ensures claim { IfSome result IsClaim }
    {
        self.found.get(&(addr, key)).copied()
    }

    /// The entry with exactly this address and key, and its position in their order.
    pub fn find_full(&self, addr: u16, key: Key) -> Option<(usize, Entry)>
        ensures found { IfSome result (λ full. entry_at self.now addr key ≡ Some full.1) }
        ensures stands { IfSome result (λ full. slice_get self.now full.0 ≡ Some full.1) }
        ensures none { IfNone result (entry_at self.now addr key ≡ None) }
    {
        let (position, _, entry) = self.found.get_full(&(addr, key))?;
        Some((position, *entry))
    }

    /// The entry at a position in their order.
    pub fn get(&self, position: usize) -> Option<Entry>
        ensures { result ≡ slice_get self.now position }
    {
        let (_, entry) = self.found.get_index(position)?;
        Some(*entry)
    }

    /// How many entries are made.
    pub fn len(&self) -> usize
        ensures { result ≡ length self.now }
    {
        self.found.len()
    }

    /// Adds an entry whose address and key have no entry yet.
    pub(crate) fn add(&mut self, entry: Entry) -> Result<(), AllocError>
        requires new { entry_at self.old entry.addr entry.key ≡ None }
        requires claim { IsClaim entry }
        ensures ok { OnOk result (self.new ≡ self.old ++ entry ∷ []) }
        ensures err { OnErr result (self.new ≡ self.old) }
    {
        self.found.insert((entry.addr, entry.key), entry)?;
        Ok(())
    }

    /// Puts the entries in the order of a certificate.
    pub(crate) fn sort(&mut self) -> Result<(), AllocError>
        ensures rising { OnOk result (IsRising self.new) }
        ensures same { OnOk result ((addr : ℕ) (key : KeyValue) → entry_at self.new addr key ≡ entry_at self.old addr key) }
        ensures len { OnOk result (length self.new ≡ length self.old) }
    {
        self.found.sort_keys()
    }

    /// The entries in their order.
    pub fn entries(&self, alloc: Global) -> Result<Vec<Entry>, AllocError>
        ensures { IfOk result (λ entries. entries.items ≡ self.now) }
    {
        self.found.values().copied().collect(alloc)
    }
}

impl Entries for MadeEntries {
    ghost list = { λ done. done };

    #[inline(never)]
    fn find(&self, addr: u16, key: Key) -> Option<Entry> {
        MadeEntries::find(self, addr, key)
    }
}
