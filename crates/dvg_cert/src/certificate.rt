//! Certificates, and which lists of entries are a certificate's.

ghost use Rattle.std.specs.Prelude.{◌≡◌, ◌↔◌, ◌≤◌, length, take, IsTrue, IfOk, IfErr, ◌≤ℤ◌};
ghost use Rattle.dvg_words.specs.Values.{IsMap};
ghost use Rattle.dvg_cert.specs.Entry.{IsNumber, IsRange, IsKey, IsEnd, IsBox, IsEntry};
ghost use Rattle.dvg_cert.specs.Order.{IsCertificate, StandsAfter, Before, KeyBefore};

use crate::entry::{End, Entry, Key, LitBox};
use crate::limits::{MOST_DEPTH, MOST_ENTRIES, MOST_NUMBER, MOST_WORDS};
use dvg_words::RomMap;
use std::marker::Model;

/// A certificate: where its ROM lies, and its entries. They rise by address and key, and are within the limits.
#[derive(Drop)]
pub struct Cert {
    map: RomMap,
    entries: Vec<Entry>,
}

impl Model for Cert {
    ghost use Rattle.dvg_cert.specs.Order.{Certificate, IsCertificate};

    ghost Value = { Certificate };

    ghost view = { λ s. record { map = s.map; entries = s.entries.items } };

    ghost invariant = { λ s. IsCertificate s.map s.entries.items };
}

impl Cert {
    /// The certificate with these entries for a ROM from word address `rom.0` to `rom.1`. An `Err` gives the vector back: the ROM
    /// can't lie there, or the entries don't rise or are not within the limits.
    pub fn from_entries(entries: Vec<Entry>, rom: (u16, u16)) -> Result<Cert, Vec<Entry>>
        ensures taken { IfOk result (λ cert. (cert ≡ record { map = record { rom_first = rom.0; rom_last = rom.1 }; entries = entries.items })
            × IsCertificate cert.map cert.entries) }
        ensures refused { IfErr result (λ same. (same ≡ entries)
            × (IsCertificate (record { rom_first = rom.0; rom_last = rom.1 }) entries.items → ⊥)) }
    {
        match RomMap::new(rom.0, rom.1) {
            Some(map) if is_certificate(map, &entries) => Ok(certificate_unchecked(map, entries)),
            _ => Err(entries),
        }
    }

    /// Where the ROM lies: the word addresses of its first and its last word.
    pub fn rom(&self) -> (u16, u16)
        ensures first { result.0 ≡ self.now.map.rom_first }
        ensures last { result.1 ≡ self.now.map.rom_last }
        ensures map { IsMap self.now.map }
    {
        let Cert { map, .. } = self;
        (map.first(), map.last())
    }

    /// Where the ROM lies.
    pub fn map(&self) -> RomMap
        ensures value { result ≡ self.now.map }
        ensures map { IsMap self.now.map }
    {
        self.map
    }

    /// A law, called for its clause: the entries are those of a certificate for a ROM at the map. Does nothing.
    pub fn prove_certificate(&self)
        ensures { IsCertificate self.now.map self.now.entries }
    {
        let _ = &self.entries;
    }

    /// The entries, in their order.
    pub fn entries(&self) -> &[Entry]
        ensures value { result.now ≡ self.now.entries }
        ensures certificate { IsCertificate self.now.map self.now.entries }
    {
        &self.entries
    }
}

/// The certificate with these entries. They are known to rise and to be within the limits of a ROM at this map.
pub fn certificate_unchecked(map: RomMap, entries: Vec<Entry>) -> Cert
    requires { IsCertificate map entries.items }
    ensures { result ≡ record { map = map; entries = entries.items } }
{
    Cert { map, entries }
}

/// Whether entries rise and are within the limits of a certificate for a ROM at this map.
#[tactic(auto, using(crate::proofs::Rising::certificate_push, crate::proofs::ListParts::stands_there, std::proofs::lemmas::Grind::common_steps))]
fn is_certificate(map: RomMap, entries: &[Entry]) -> bool
    ensures { IsTrue result ↔ IsCertificate map entries.now }
{
    if entries.len() > MOST_ENTRIES {
        return false;
    }
    for i in 0..entries.len() {
        let entry = &entries[i];
        if !is_entry(map, entry) {
            return false;
        }
        if !stands_after(&entries[..i], entry) {
            return false;
        }
    }
    true
}

/// Whether an entry stands after the last one of these; it does where there are none.
#[tactic(auto, using(crate::proofs::Rising::stands))]
pub fn stands_after(entries: &[Entry], entry: &Entry) -> bool
    ensures { IsTrue result ↔ StandsAfter entries.now entry.now }
{
    match entries.last() {
        Some(before) => is_before(before, entry),
        None => true,
    }
}

fn is_before(a: &Entry, b: &Entry) -> bool
    ensures { IsTrue result ↔ Before a.now b.now }
{
    if a.addr != b.addr {
        return a.addr < b.addr;
    }
    is_key_before(a.key, b.key)
}

/// Whether a key stands before another in a certificate.
pub fn is_key_before(a: Key, b: Key) -> bool
    ensures { IsTrue result ↔ KeyBefore a b }
{
    match (a, b) {
        (Key::At(m), Key::At(n)) => m < n,
        (Key::At(_), Key::Any) => true,
        (Key::Any, _) => false,
    }
}

/// Whether an entry is within the limits of a certificate for a ROM at this map.
pub fn is_entry(map: RomMap, entry: &Entry) -> bool
    ensures { IsTrue result ↔ IsEntry map.rom_first map.rom_last entry.now }
{
    map.first() <= entry.addr
        && entry.addr <= map.last()
        && is_key(entry.key)
        && is_end(entry.stop)
        && is_box(&entry.lit)
        && entry.depth <= MOST_DEPTH
        && 1 <= entry.words
        && entry.words <= MOST_WORDS
        && is_key(entry.scale)
}

/// Whether a key is `Any` or a global scale of 0 to 15.
pub fn is_key(key: Key) -> bool
    ensures { IsTrue result ↔ IsKey key }
{
    match key {
        Key::At(n) => n <= 15,
        Key::Any => true,
    }
}

fn is_end(end: End) -> bool
    ensures { IsTrue result ↔ IsEnd end }
{
    match end {
        End::Rel { x, y } => is_number(x) && is_number(y),
        End::Abs { x, y } => is_number(x) && is_number(y),
        End::Lost => true,
    }
}

fn is_box(lit: &LitBox) -> bool
    ensures { IsTrue result ↔ IsBox lit.now }
{
    match lit {
        LitBox::Empty => true,
        LitBox::Span {
            x_min,
            x_max,
            y_min,
            y_max,
        } => is_range(x_min, x_max) && is_range(y_min, y_max),
    }
}

fn is_range(low: &i64, high: &i64) -> bool
    ensures { IsTrue result ↔ IsRange low.now high.now }
{
    is_number(*low) && is_number(*high) && *low <= *high
}

fn is_number(z: i64) -> bool
    ensures { IsTrue result ↔ IsNumber z }
{
    -MOST_NUMBER <= z && z <= MOST_NUMBER
}
