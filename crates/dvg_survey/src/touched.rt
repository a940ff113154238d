//! Shapes that read a word in which two ROMs differ.

ghost use Rattle.std.specs.Prelude.{◌≡◌, ◌↔◌, ◌<◌, ℕ, Some, Contains, IsTrue, IfSome, IfNone, IfOk};
ghost use Rattle.dvg_survey.specs.Touched.{DiffersAt, taken_at, ReadsDiffering, IsTouched, AreTouched, ReachesTouched};

use dvg_cert::Entry;
use dvg_items::{Items, Kind};
use dvg_words::{RomImage, is_long};
use std::alloc::{AllocError, Global};

/// An entry whose shape reads a word in which the ROMs differ, and the address of one.
#[derive(Clone, Copy, Debug, PartialEq, Eq)]
pub struct TouchedEntry {
    pub entry: Entry,
    pub word: u16,
}

/// Whether the ROMs have different words at an address.
fn differs(rom: &RomImage, other: &RomImage, addr: u16) -> bool
    ensures { IsTrue result ↔ DiffersAt rom.now other.now addr }
{
    rom.word(addr) != other.word(addr)
}

/// A word that differs of those that are fetched for what stands at an address, the first of two.
fn differing_at(rom: &RomImage, other: &RomImage, at: u16) -> Option<u16>
    ensures some { IfSome result (λ p. Contains (taken_at rom.now at) p × DiffersAt rom.now other.now p) }
    ensures first { DiffersAt rom.now other.now at → result ≡ Some at }
    ensures none { IfNone result ((p : ℕ) → Contains (taken_at rom.now at) p → DiffersAt rom.now other.now p → ⊥) }
{
    if differs(rom, other, at) {
        return Some(at);
    }
    let first = rom.word(at)?;
    if is_long(first) && differs(rom, other, at + 1) {
        return Some(at + 1);
    }
    None
}

/// The word address of a word in which the ROMs differ, of those that the shape at an address of the first ROM reads: the first (only
/// tested). A shape reads all words of its items, up to the RTSL or the tail jump at its end, and not those of shapes that it calls.
#[tactic(auto, using(crate::proofs::Touching::goes_on))]
pub fn first_differing(rom: &RomImage, other: &RomImage, addr: u16) -> Option<u16>
    ensures some { IfSome result (ReadsDiffering rom.now other.now addr) }
    ensures none { IfNone result (IsTouched rom.now other.now addr → ⊥) }
{
    let mut at = addr;
    for item in Items::from(rom, Kind::Shape, addr) {
        if let Some(word) = differing_at(rom, other, item.at) {
            return Some(word);
        }
        at = item.next_address(Kind::Shape)?;
    }
    differing_at(rom, other, at)
}

/// The entries whose shapes read a word in which the ROMs differ, in their order. `entries` are those of a certificate for the first
/// ROM.
pub fn touched_entries(
    alloc: Global,
    rom: &RomImage,
    other: &RomImage,
    entries: &[Entry],
) -> Result<Vec<TouchedEntry>, AllocError>
    ensures { IfOk result (λ touched. AreTouched rom.now other.now entries.now touched.items) }
{
    let mut touched = Vec::new(alloc);
    for entry in entries {
        if let Some(word) = first_differing(rom, other, entry.addr) {
            touched.push(TouchedEntry {
                entry: *entry,
                word,
            })?;
        }
    }
    Ok(touched)
}

/// Whether one of these entries has a shape that reads a word in which the ROMs differ. Where they are those of the certificate that
/// is made for a frame over the first ROM, it is whether the frame reaches such a shape.
pub fn reaches_touched(rom: &RomImage, other: &RomImage, entries: &[Entry]) -> bool
    ensures { IsTrue result ↔ ReachesTouched rom.now other.now entries.now }
{
    entries
        .iter()
        .any(|entry| first_differing(rom, other, entry.addr).is_some())
}
