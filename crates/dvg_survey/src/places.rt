//! At which absolute places a call of an entry breaks no rule on the window.
//!
//! Where a call of an entry may stand follows from its box alone. But no place is a good one if a shape that the call leads to
//! lights outside the window at a place that it sets itself. So the entries whose shapes do so are found first, and those from which
//! calls lead to one of them.

ghost use Rattle.std.specs.Prelude.{◌≡◌, ◌↔◌, ◌≤ℤ◌, ◌+ℤ◌, ◌*ℤ◌, pos, ℕ, ℤ, List, Contains, IsTrue, IsFalse, IfOk};
ghost use Rattle.dvg_words.specs.Memory.{Rom as RomValue};
ghost use Rattle.dvg_cert.specs.Entry.{IsBox, IsNumber, IsClaim};
ghost use Rattle.dvg_items.specs.Bounds.{IsSomeCertificate, IsSoundSeen};
ghost use Rattle.dvg_items.specs.Lit.{LitInWindow, box_extent};
ghost use Rattle.dvg_items.specs.declared.seen.Seen.{Seen as SeenValue};
ghost use Rattle.dvg_check.specs.Rules.{FrameKeeps, ShapeKeeps};
ghost use Rattle.dvg_check.specs.declared.fault.Mode.{Mode};
ghost use Rattle.dvg_check.specs.declared.fault.FrameWhy.TheVariants as frame;
ghost use Rattle.dvg_check.specs.declared.fault.ShapeWhy.TheVariants as shape;
ghost use Rattle.dvg_cert.specs.declared.entry.Entry.{Entry as EntryValue};
ghost use Rattle.dvg_survey.specs.Places.{HasPlace, IsNotEmpty, whole_place, IsCallAt, ArePlaces, AreAllPlaces};
ghost use Rattle.dvg_survey.specs.Private.Sweeping.{IsCleanItem, IsClean, IsFaulty, IsSwept, AllBreak, TellsBroken};

use crate::keyed_words::KeyedWords;
use dvg_cert::{Cert, Entries, Entry, LitBox};
use dvg_items::{Kind, Seen, SeenItems, WalkContext, box_corners, lit_in_window};
use dvg_words::{RomImage, Window};
use std::alloc::{AllocError, Global};

/// Screen places from a least to a greatest one on both axes, ends included. They may lie off the screen.
#[derive(Clone, Copy, Debug, PartialEq, Eq)]
pub struct Rectangle {
    pub x_min: i64,
    pub x_max: i64,
    pub y_min: i64,
    pub y_max: i64,
}

/// The absolute whole places at which a call of an entry breaks no rule on the window.
#[derive(Clone, Copy, Debug, PartialEq, Eq)]
pub enum CallPlaces {
    /// All of them: nothing is lit relative to the call.
    Anywhere,
    /// None of them.
    Nowhere,
    /// Those in the rectangle, which is not empty.
    Within(Rectangle),
}

/// An entry of a certificate, and the places of its calls.
#[derive(Clone, Copy)]
pub struct EntryPlaces {
    pub entry: Entry,
    pub places: CallPlaces,
}

/// The least whole place from which a distance, in 1/1024 of a screen place, leads no further down than to a screen place.
fn least_place(first: i16, distance: i64) -> i64
    requires { IsNumber distance }
    ensures { (x : ℤ) → (result ≤ℤ x) ↔ ((pos 1024 *ℤ first) ≤ℤ (pos 1024 *ℤ x +ℤ distance)) }
{
    i64::from(first) - distance.div_euclid(1024)
}

/// The greatest whole place from which a distance, in 1/1024 of a screen place, leads no further up than to a screen place.
fn greatest_place(last: i16, distance: i64) -> i64
    requires { IsNumber distance }
    ensures { (x : ℤ) → (x ≤ℤ result) ↔ ((pos 1024 *ℤ x +ℤ distance) ≤ℤ (pos 1024 *ℤ last)) }
{
    i64::from(last) + (-distance).div_euclid(1024)
}

impl CallPlaces {
    /// The places of these ranges; none where one of them is empty.
    fn between(x_min: i64, x_max: i64, y_min: i64, y_max: i64) -> CallPlaces
        ensures places { (x y : ℤ) → HasPlace result x y ↔ (x_min ≤ℤ x) × (x ≤ℤ x_max) × (y_min ≤ℤ y) × (y ≤ℤ y_max) }
        ensures some { IsNotEmpty result }
    {
        if x_min > x_max || y_min > y_max {
            return CallPlaces::Nowhere;
        }
        CallPlaces::Within(Rectangle {
            x_min,
            x_max,
            y_min,
            y_max,
        })
    }

    /// The absolute whole places, in screen places, at which a call of an entry with this box keeps the rule on the window: 46 in a
    /// frame, 25 in a shape (profile). Any whole numbers are places, also those that no LABS sets. On the profile the places for
    /// `CLIPPED` say nothing of the screen.
    pub fn of_box(window: &Window, lit: &LitBox) -> CallPlaces
        requires { IsBox lit.now }
        ensures places { (x y : ℤ) → HasPlace result x y ↔ LitInWindow window.now (box_extent lit.now) (whole_place x y) }
        ensures some { IsNotEmpty result }
        ensures frame { (entry : EntryValue) (v : SeenValue) (x y : ℤ) (budget : ℕ) → entry.lit ≡ lit.now → IsCallAt entry x y v
            → HasPlace result x y ↔ FrameKeeps window.now budget v frame.OffScreen }
        ensures shape { (entry owner : EntryValue) (v : SeenValue) (x y : ℤ) (mode : Mode) → entry.lit ≡ lit.now → IsCallAt entry x y v
            → HasPlace result x y ↔ ShapeKeeps mode window.now owner v shape.OffScreen }
    {
        let Some((low, high)) = box_corners(lit) else {
            return CallPlaces::Anywhere;
        };
        CallPlaces::between(
            least_place(window.x_min(), low.x),
            greatest_place(window.x_max(), high.x),
            least_place(window.y_min(), low.y),
            greatest_place(window.y_max(), high.y),
        )
    }
}

/// Whether an item lights nothing outside the window at an absolute place, and calls no entry that is marked.
fn is_clean_item(window: &Window, seen: &Seen, broken: &KeyedWords) -> bool
    requires { IsSoundSeen seen.now }
    ensures clean { IsTrue result → IsCleanItem window.now broken.now seen.now }
    ensures faulty { IsFalse result → IsCleanItem window.now broken.now seen.now → ⊥ }
{
    if !lit_in_window(window, &seen.extent, &seen.place) {
        return false;
    }
    match &seen.callee {
        Some(callee) => !broken.has(callee.addr, callee.key),
        None => true,
    }
}

/// Whether each item of an entry's shape is clean.
fn is_clean<E: Entries>(
    window: &Window,
    rom: &RomImage,
    entries: &E,
    entry: &Entry,
    broken: &KeyedWords,
) -> bool
    requires entry { IsClaim entry.now }
    ensures clean { IsTrue result → IsClean window.now rom.now (E.list entries.now) broken.now entry.now }
    ensures faulty { IsFalse result → IsFaulty window.now rom.now (E.list entries.now) broken.now entry.now }
{
    for seen in SeenItems::new(rom, entries, &WalkContext::shape(entry)) {
        if !is_clean_item(window, &seen, broken) {
            return false;
        }
    }
    true
}

/// Those of these entries that are clean. Marks the others.
fn sweep<E: Entries>(
    alloc: Global,
    window: &Window,
    rom: &RomImage,
    entries: &E,
    swept: &[Entry],
    broken: &mut KeyedWords,
) -> Result<Vec<Entry>, AllocError>
    requires entries { IsSomeCertificate (E.list entries.now) }
    requires swept { (e : EntryValue) → Contains swept.now e → Contains (E.list entries.now) e }
    requires broken { AllBreak window.now rom.now (E.list entries.now) broken.old }
    ensures { IfOk result (λ left. IsSwept window.now rom.now (E.list entries.now) swept.now left.items broken.old broken.new) }
{
    let mut left = Vec::new(alloc);
    for entry in swept {
        if is_clean(window, rom, entries, entry, broken) {
            left.push(*entry)?;
        } else {
            broken.add(entry.addr, entry.key);
        }
    }
    Ok(left)
}

/// The entries from which calls lead to a shape that lights outside the window, by address and key. In a made certificate an entry
/// has more words than each that it calls, so that in the order of words one sweep marks all; if it marked any, a second one sees
/// that no more are left.
fn broken_entries<E: Entries>(
    alloc: Global,
    window: &Window,
    rom: &RomImage,
    entries: &E,
    list: &[Entry],
) -> Result<KeyedWords, AllocError>
    requires entries { IsSomeCertificate (E.list entries.now) }
    requires list { E.list entries.now ≡ list.now }
    ensures { IfOk result (TellsBroken window.now rom.now list.now) }
{
    let mut broken = KeyedWords::new(alloc)?;
    let mut swept: Vec<Entry> = list.iter().copied().collect(alloc)?;
    swept.sort_by_key(|entry: &Entry| entry.words)?;
    'sweeps: loop {
        let left = sweep(alloc, window, rom, entries, &swept, &mut broken)?;
        if left.len() == swept.len() {
            return Ok(broken);
        }
        swept = left;
    }
}

/// The places of the calls of an entry, where the entries are marked from which calls lead to a shape that lights outside the window.
fn places_of(window: &Window, entry: &Entry, broken: &KeyedWords) -> CallPlaces
    requires { IsClaim entry.now }
    ensures places { (rom : RomValue) (list : List EntryValue) → Contains list entry.now → TellsBroken window.now rom list broken.now
        → ArePlaces window.now rom list entry.now result }
    ensures some { IsNotEmpty result }
{
    if broken.has(entry.addr, entry.key) {
        CallPlaces::Nowhere
    } else {
        CallPlaces::of_box(window, &entry.lit)
    }
}

/// For each entry of a certificate, in its order, the absolute whole places at which a call of it breaks no rule on the window: its
/// box has no corner outside the window there (46 in a frame, 25 in a shape), and its shape keeps rule 25, as does each shape to
/// which calls and tail jumps lead from there (profile). `entries` are those of the certificate. It says nothing of what follows
/// the call, and on the profile the places for `CLIPPED` say nothing of the screen.
///
/// Goes over the items of each shape once, and where one breaks 25 over those of the other shapes again, in a made certificate once
/// more. Takes memory for marks and entries; an `Err` says that there was none.
pub fn entry_places<E: Entries>(
    alloc: Global,
    rom: &RomImage,
    cert: &Cert,
    entries: &E,
    window: &Window,
) -> Result<Vec<EntryPlaces>, AllocError>
    requires { E.list entries.now ≡ cert.now.entries }
    ensures { IfOk result (λ places. AreAllPlaces window.now rom.now cert.now.entries cert.now.entries places.items) }
{
    let list = cert.entries();
    let broken = broken_entries(alloc, window, rom, entries, list)?;
    let mut places = Vec::new(alloc);
    for entry in list {
        places.push(EntryPlaces {
            entry: *entry,
            places: places_of(window, entry, &broken),
        })?;
    }
    Ok(places)
}
