//! An index of a certificate that hashes addresses and keys.

ghost use Rattle.std.specs.Prelude.{◌≡◌, ◌+◌, ◌*◌, ◌≤◌, min, IfOk, IfSome};
ghost use Rattle.std.specs.Option.{option_copied};
ghost use Rattle.dvg_cert.specs.Entry.{IsClaim};
ghost use Rattle.dvg_cert.specs.Lookup.{entry_at};
ghost use Rattle.dvg_cert.specs.Limits.{MOST_ENTRIES};
ghost use Rattle.dvg_cert.specs.Private.Keyed.{hashed_number};
ghost use Rattle.std.specs.Hash as fed;
ghost use Rattle.std.specs.Cmp.Rules.{comparing, hashing};
ghost use Rattle.std.proofs.Common.{rules};

use crate::certificate::Cert;
use crate::entry::{Entry, Key};
use crate::lookup::Entries;
use dvg_words::MOST_ROM_WORDS;
use indexmap::IndexSet;
use std::alloc::{AllocError, Global};
use std::hash::{Hash, Hasher};
use std::marker::Model;

/// The number of pairs of an address and a key: each word of the longest ROM, at sixteen scales and at `any`.
const ALL_KEYS: usize = 17 * MOST_ROM_WORDS;

/// The number of keys for which the table has room. Anybody can compute the hash, and so choose keys that all belong in a few
/// places of the table. The room is far larger than the number of entries, so that few keys end up far from their places.
fn room_for(entries: usize) -> usize
    requires { entries ≤ MOST_ENTRIES }
    ensures { result ≡ min (16 * entries) ALL_KEYS }
{
    (16 * entries).min(ALL_KEYS)
}

/// What an entry is found by.
#[derive(Clone, Copy, PartialEq, Eq)]
struct AddressKey {
    addr: u16,
    key: Key,
}

/// By one number, a write less than the address and the key.
impl Hash for AddressKey {
    ghost hash_input = { λ own. fed.u32 (256 * own.addr + hashed_number own.key) };

    ghost respects_eq = { Prim.search (comparing, hashing, rules) };

    fn hash<H: Hasher>(&self, state: &mut H) {
        state.write_u32(256 * u32::from(self.addr) + u32::from(self.key.hashed()));
    }
}

/// An index that hashes the address and the key, so that a look-up takes about as long however many entries there are.
#[derive(Drop)]
pub struct HashIndex<'a> {
    cert: &'a Cert,
    /// The addresses and keys of the entries, in the certificate's order.
    keys: IndexSet<AddressKey>,
}

impl<'a> Model for HashIndex<'a> {
    ghost use Rattle.std.specs.Prelude.{◌≡◌, List};
    ghost use Rattle.dvg_cert.specs.declared.entry.Entry.{Entry};
    ghost use Rattle.dvg_cert.specs.Private.Keyed.{own_keys};

    ghost Value = { List Entry };

    ghost view = { λ index. index.cert.now.entries };

    ghost invariant = { λ index. index.keys.keys ≡ own_keys index.cert.now.entries };
}

impl<'a> HashIndex<'a> {
    /// The index of a certificate.
    ///
    /// Takes memory for the addresses and keys of sixteen times as many entries, 34,816 at most, and for the table of their
    /// hashes, all of it before the first is put in, and fails only where that was refused. The hash has a fixed seed.
    #[inline(never)]
    pub fn new(alloc: Global, cert: &'a Cert) -> Result<HashIndex<'a>, AllocError>
        ensures { IfOk result (λ index. index ≡ cert.now.entries) }
    {
        let entries = cert.entries();
        let mut keys = IndexSet::with_capacity(alloc, room_for(entries.len()))?;
        for entry in entries {
            keys.insert(AddressKey {
                addr: entry.addr,
                key: entry.key,
            })?;
        }
        Ok(HashIndex { cert, keys })
    }

    /// The entry with exactly this address and key, by reference.
    #[inline(never)]
    #[tactic(auto, using(crate::proofs::Hashing::at_index))]
    fn entry_of(&self, addr: u16, key: Key) -> Option<&Entry>
        ensures entry { option_copied result ≡ entry_at self.now addr key }
        ensures claim { IfSome (option_copied result) IsClaim }
    {
        let index = self.keys.get_index_of(&AddressKey { addr, key })?;
        Some(&self.cert.entries()[index])
    }
}

impl<'a> Entries for HashIndex<'a> {
    ghost list = { λ index. index };

    #[inline(always)]
    fn find(&self, addr: u16, key: Key) -> Option<Entry> {
        self.entry_of(addr, key).copied()
    }
}
