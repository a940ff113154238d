//! The labels of words, and what they name.

ghost use Rattle.std.specs.Prelude.{◌≡◌, ◌≢◌, ℕ, List, ◌++◌, ◌∷◌, [], ◌+◌, true, false, map, IfSome, IfNone, IfErr, IfOk, OnOk, OnErr, IsTrue, ◌↔◌};
ghost use Rattle.dvg_labels.specs.Labels.{Named, named_of, word_of, may_name, IsNearest, IsAddress, IsFound, StandsAtTwo, IsLabelling, add, total};
ghost use Rattle.dvg_labels.specs.Limits.{MOST_LABELS};

use crate::fault::Unnamed;
use crate::limits::MOST_LABELS;
use dvg_words::{MEMORY_LAST, RAM_WORDS};
use std::alloc::{AllocError, Global};
use std::marker::Model;

/// The processor's address of the first byte of vector RAM, word 000 (Asteroids schematics).
const RAM_FIRST_BYTE: u32 = 0x4000;

/// A label of a word: its name, of graphic ASCII characters, and its word address.
#[derive(Drop)]
pub struct Label {
    pub name: Vec<u8>,
    pub addr: u16,
}

/// The label that names a word address, and how many words the address is behind it.
#[derive(Clone, Copy)]
pub struct Nearest<'a> {
    pub name: &'a [u8],
    pub distance: u16,
}

/// The word of a processor's address; `None` where it is no word's first byte.
fn word_of(byte: Option<u32>) -> Option<u16>
    ensures { result ≡ word_of byte }
{
    let offset = byte?.checked_sub(RAM_FIRST_BYTE)?;
    if offset / 2 <= u32::from(MEMORY_LAST) && offset % 2 == 0 {
        Some((offset / 2) as u16)
    } else {
        None
    }
}

/// How many words an address is behind that of a label which may name it: in vector RAM or past it, as the label is.
fn distance_to(addr: u16, at: u16) -> Option<u16>
    ensures some { IfSome result (λ distance. (may_name at addr ≡ true) × (at ≡ addr + distance)) }
    ensures none { IfNone result (may_name at addr ≡ false) }
{
    if addr <= at && (at < RAM_WORDS || RAM_WORDS <= addr) {
        Some(at - addr)
    } else {
        None
    }
}

/// The nearer one of a label and the best one before it.
#[tactic(auto, using(std::proofs::lemmas::Grind::common_steps, crate::proofs::Naming::keep_best, crate::proofs::Naming::take_nearer))]
fn nearer<'a>(best: Option<Nearest<'a>>, label: &'a Label, at: u16) -> Option<Nearest<'a>>
    ensures { (labels : List Named) → IsNearest labels at best.entry → IsNearest (labels ++ named_of label.now ∷ []) at result }
{
    let Some(distance) = distance_to(label.addr, at) else {
        return best;
    };
    let here = Nearest {
        name: label.name.as_slice(),
        distance,
    };
    let Some(nearest) = best else {
        return Some(here);
    };
    if nearest.distance <= distance {
        return best;
    }
    Some(here)
}

/// The label that names a word address.
fn nearest_in(labels: &[Label], at: u16) -> Option<Nearest<'_>>
    ensures { IsNearest (map named_of labels.now) at result }
{
    let mut best = None;
    for label in labels {
        best = nearer(best, label, at);
    }
    best
}

/// Whether a label has a name.
fn has_name(label: &Label, name: &[u8]) -> bool
    ensures { IsTrue result ↔ label.now.name.items ≡ name.now }
{
    label.name.as_slice() == name
}

/// Where a label with a name stands, of these up to a further one.
#[tactic(auto, using(crate::proofs::Naming::keep_other, crate::proofs::Naming::first_found, crate::proofs::Naming::two_found))]
fn found_with(found: Option<u16>, label: &Label, name: &[u8]) -> Result<Option<u16>, Unnamed>
    ensures ok { IfOk result (λ now. (labels : List Named) → IsFound labels name.now found
        → IsFound (labels ++ named_of label.now ∷ []) name.now now) }
    ensures err { IfErr result (λ e. (e ≡ Unnamed.Several) × ((labels : List Named) → IsFound labels name.now found
        → StandsAtTwo (labels ++ named_of label.now ∷ []) name.now)) }
{
    if !has_name(label, name) {
        return Ok(found);
    }
    match found {
        None => Ok(Some(label.addr)),
        Some(addr) if addr == label.addr => Ok(found),
        Some(_) => Err(Unnamed::Several),
    }
}

/// The word address of the labels with a name.
#[tactic(auto, using(crate::proofs::Naming::address_of_found, std::proofs::lemmas::List::take_all))]
fn address_in(labels: &[Label], name: &[u8]) -> Result<u16, Unnamed>
    ensures { IsAddress (map named_of labels.now) name.now result }
{
    let mut found = None;
    for label in labels {
        found = found_with(found, label, name)?;
    }
    found.ok_or(Unnamed::Unknown)
}

/// Adds the label of a word.
fn push_label(
    labels: &mut Vec<Label>,
    alloc: Global,
    name: &[u8],
    addr: u16,
) -> Result<(), AllocError>
    ensures ok { OnOk result (map named_of labels.new.items ≡ map named_of labels.old.items
        ++ record { name = name.now; addr = addr } ∷ []) }
    ensures err { OnErr result (labels.new.items ≡ labels.old.items) }
{
    let name = Vec::from_slice(alloc, name)?;
    labels.push(Label { name, addr })?;
    Ok(())
}

/// The labels of words, in the order of their file, and how many of its labels name no word.
#[derive(Drop)]
pub struct Labels {
    labels: Vec<Label>,
    passed: usize,
}

impl Model for Labels {
    ghost use Rattle.std.specs.Prelude.{map};
    ghost use Rattle.dvg_labels.specs.Labels.{Labelling, IsLabelling, named_of};

    ghost Value = { Labelling };

    ghost view = { λ l. record { named = map named_of l.labels.items; passed = l.passed } };

    ghost invariant = { λ l. IsLabelling (record { named = map named_of l.labels.items; passed = l.passed }) };
}

impl Labels {
    /// No label. Takes no memory.
    pub fn new(alloc: Global) -> Labels
        ensures { result ≡ record { named = []; passed = 0 } }
    {
        Labels {
            labels: Vec::new(alloc),
            passed: 0,
        }
    }

    /// Whether there are as many labels as there may be.
    pub(crate) fn is_full(&self) -> bool
        ensures { IsTrue result ↔ total self.now ≡ MOST_LABELS }
    {
        self.labels.len() + self.passed >= MOST_LABELS
    }

    /// Adds a label with this value, if there is memory for it.
    pub(crate) fn add(
        &mut self,
        alloc: Global,
        name: &[u8],
        value: Option<u32>,
    ) -> Result<(), AllocError>
        requires { total self.old ≢ MOST_LABELS }
        ensures { OnOk result (self.new ≡ add self.old name.now (word_of value)) }
    {
        match word_of(value) {
            Some(addr) => push_label(&mut self.labels, alloc, name, addr),
            None => {
                self.passed += 1;
                Ok(())
            }
        }
    }

    /// The label that names a word address: of those at it or below it, the nearest one, and the first in the file of several there.
    /// A label of vector RAM names no address past it.
    pub fn name_at(&self, at: u16) -> Option<Nearest<'_>>
        ensures { IsNearest self.now.named at result }
    {
        nearest_in(&self.labels, at)
    }

    /// The word address at which all labels with a name stand, or why there is none: no label has the name, or labels with it stand at
    /// several.
    pub fn address_of(&self, name: &[u8]) -> Result<u16, Unnamed>
        ensures { IsAddress self.now.named name.now result }
    {
        address_in(&self.labels, name)
    }

    /// How many labels of the file name no word: they have an odd address, one outside 4000 to 57FF, or none.
    pub fn passed(&self) -> usize
        ensures { result ≡ self.now.passed }
    {
        self.passed
    }
}
