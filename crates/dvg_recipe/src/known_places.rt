//! What is known behind the items of a frame, by made entries.

ghost use Rattle.std.specs.Prelude.{◌≡◌, ◌↔◌, ◌<◌, ◌+◌, ◌∷◌, List, Some, IsTrue, OnOk, IfOk, IfErr, IfSome, take, reverse};
ghost use Rattle.dvg_words.specs.declared.map.TheConstants.{ADDRESS_END};
ghost use Rattle.dvg_words.specs.Decoding.{InstrFits};
ghost use Rattle.dvg_cert.specs.Entry.{IsKey, IsClaim};
ghost use Rattle.dvg_cert.specs.Lookup.{entry_at};
ghost use Rattle.dvg_items.specs.declared.item.Kind.TheVariants.{Frame};
ghost use Rattle.dvg_items.specs.Known.{target};
ghost use Rattle.dvg_items.specs.Bounds.{IsSoundCursor};
ghost use Rattle.dvg_make.specs.Made.{AllMade};
ghost use Rattle.dvg_make.specs.Refusals.{BarsEntry};
ghost use Rattle.dvg_recipe.specs.Recipes.{IsPlaceIn, Arrives};
ghost use Rattle.dvg_recipe.specs.Members.{NamesMade, Names, ComesTo, IsEndIn, LeadsInto};
ghost use Rattle.dvg_recipe.specs.Private.KnownPlaces.{AreFramesItems, AreKnownTo};

use crate::piece::{PieceKind, PlaceSpan, Span};
use dvg_cert::{End, Entry, Key};
use dvg_items::{Cursor, Item, Kind, Known, target};
use dvg_make::{EntryFault, EntryMaker};
use dvg_words::{Instr, Machine, RomImage, in_units};
use std::alloc::{AllocError, Global};
use std::marker::Model;

/// The items of a frame over a ROM, and what is known behind them, if that was asked for.
#[derive(Drop)]
pub struct KnownPlaces<'a> {
    rom: &'a RomImage<'a>,
    items: &'a [Item],
    /// What is known before each of the items, and behind the last one; none if it was not asked for.
    known: Vec<Known>,
}

impl<'a> Model for KnownPlaces<'a> {
    ghost use Rattle.dvg_recipe.specs.Private.KnownPlaces.{ItemsOver, AreKnownTo};

    ghost Value = { ItemsOver };

    ghost view = { λ p. record { rom = p.rom.now; items = p.items.now } };

    ghost invariant = { λ p. AreKnownTo p.rom.now p.items.now p.known.items };
}

impl<'a> KnownPlaces<'a> {
    /// The items of a frame, of which nothing is known. Takes no memory.
    pub fn unknown(alloc: Global, rom: &'a RomImage<'a>, items: &'a [Item]) -> KnownPlaces<'a>
        ensures { result ≡ record { rom = rom.now; items = items.now } }
    {
        KnownPlaces {
            rom,
            items,
            known: Vec::new(alloc),
        }
    }

    /// The items of a frame, and what is known behind each of them. An `Err` says that this could not be found out: there was no memory, or
    /// a shape that is called needs by itself more entries than a certificate may have.
    pub fn find(
        alloc: Global,
        rom: &'a RomImage<'a>,
        items: &'a [Item],
    ) -> Result<KnownPlaces<'a>, AllocError>
        requires { AreFramesItems items.now }
        ensures { IfOk result (λ places. places ≡ record { rom = rom.now; items = items.now }) }
    {
        let known = all_known(alloc, rom, items)?;
        Ok(KnownPlaces { rom, items, known })
    }

    /// The items.
    pub fn items(&self) -> &[Item]
        ensures { result.now ≡ self.now.items }
    {
        self.items
    }

    /// Whether the items before an index lead into a rectangle. An `Err` says that what is known there was not asked for.
    fn leads_into(&self, to: &PlaceSpan, index: usize) -> Result<bool, AllocError>
        ensures { IfOk result (λ yes. IsTrue yes ↔ LeadsInto self.now.rom to.now (reverse (take index self.now.items))) }
    {
        match self.known.get(index) {
            Some(known) => Ok(is_end_in(to, &known.place)),
            None => Err(AllocError),
        }
    }

    /// Whether they lead into a rectangle, if there is one.
    fn leads_to(&self, to: &Option<PlaceSpan>, index: usize) -> Result<bool, AllocError>
        ensures { IfOk result (λ yes. IsTrue yes ↔ IfSome to.now (λ span. LeadsInto self.now.rom span (reverse (take index self.now.items)))) }
    {
        match to {
            None => Ok(true),
            Some(span) => self.leads_into(span, index),
        }
    }

    /// Whether they lead to where a draw of a piece has to.
    pub fn arrives(&self, kind: &PieceKind, index: usize) -> Result<bool, AllocError>
        ensures { IfOk result (λ yes. IsTrue yes ↔ Arrives (LeadsInto self.now.rom) kind.now (reverse (take index self.now.items))) }
    {
        match kind {
            PieceKind::Draw(range) => self.leads_to(&range.to, index),
            PieceKind::Place(_) | PieceKind::Call(_) | PieceKind::Fixed { .. } => Ok(true),
        }
    }
}

/// The entry of the shape at a word address, called at a scale. Where it and those that were made before would be too many for a
/// certificate, it is made without them: a refusal forgets them.
fn entry_alone(maker: &mut EntryMaker<'_>, to: u16, scale: Key) -> Result<Entry, EntryFault>
    requires near { to < ADDRESS_END }
    requires key { IsKey scale }
    ensures rom { maker.new.rom ≡ maker.old.rom }
    ensures ok { IfOk result (λ e. entry_at maker.new.list to scale ≡ Some e) }
    ensures claim { IfOk result IsClaim }
    ensures made { OnOk result (AllMade maker.new.rom maker.new.list) }
    ensures err { IfErr result (BarsEntry maker.old.rom to scale) }
{
    match maker.entry(to, scale) {
        Err(EntryFault::TooManyEntries) => maker.entry(to, scale),
        Err(why) => Err(why),
        Ok(entry) => Ok(entry),
    }
}

/// The entry of the shape at a word address, called at a scale; `None` if it can't be made.
fn made(maker: &mut EntryMaker<'_>, to: u16, scale: Key) -> Result<Option<Entry>, AllocError>
    requires near { to < ADDRESS_END }
    requires key { IsKey scale }
    ensures rom { maker.new.rom ≡ maker.old.rom }
    ensures claim { IfOk result (λ named. IfSome named IsClaim) }
    ensures names { IfOk result (NamesMade maker.old.rom to scale) }
{
    match entry_alone(maker, to, scale) {
        Ok(entry) => Ok(Some(entry)),
        Err(EntryFault::Memory | EntryFault::TooManyEntries) => Err(AllocError),
        Err(EntryFault::Unstraight { .. } | EntryFault::Deep | EntryFault::TooManyWords) => Ok(
            None,
        ),
    }
}

/// The entry that an item calls at a scale.
fn named(maker: &mut EntryMaker<'_>, instr: &Instr, scale: Key) -> Result<Option<Entry>, AllocError>
    requires fits { InstrFits instr.now }
    requires key { IsKey scale }
    ensures rom { maker.new.rom ≡ maker.old.rom }
    ensures claim { IfOk result (λ named. IfSome named IsClaim) }
    ensures names { IfOk result (Names maker.old.rom (target Frame instr.now) scale) }
{
    match target(Kind::Frame, instr) {
        None => Ok(None),
        Some(to) => made(maker, to, scale),
    }
}

/// What is known behind an item, from the cursor there. The cursor counts the items before it, and has no word address.
pub fn known_past(
    maker: &mut EntryMaker<'_>,
    item: &Item,
    here: &Cursor,
) -> Result<Known, AllocError>
    requires near { here.now.at < ADDRESS_END }
    requires sound { IsSoundCursor here.now }
    requires fits { InstrFits item.now.instr }
    ensures rom { maker.new.rom ≡ maker.old.rom }
    ensures sound { IfOk result (λ next. IsSoundCursor (record { at = here.now.at + 1; known = next })) }
    ensures comes { IfOk result (λ next. (earlier : List Item) → ComesTo maker.old.rom earlier here.now.known → ComesTo maker.old.rom (item.now ∷ earlier) next) }
{
    let callee = named(maker, &item.instr, here.known.scale)?;
    let seen = here.see(Machine::Board, item.format, &item.instr, callee);
    Ok(seen.after)
}

/// What is known before each item of a frame, and behind the last one.
fn all_known(alloc: Global, rom: &RomImage, items: &[Item]) -> Result<Vec<Known>, AllocError>
    requires { AreFramesItems items.now }
    ensures { IfOk result (λ known. AreKnownTo rom.now items.now known.items) }
{
    let mut maker = EntryMaker::new(alloc, rom);
    let mut known = Vec::new(alloc);
    let mut here = Cursor::start(Kind::Frame, 0, Key::Any);
    known.push(here.known)?;
    for item in items {
        let past = known_past(&mut maker, item, &here)?;
        known.push(past)?;
        here = Cursor {
            at: here.at + 1,
            known: past,
        };
    }
    Ok(known)
}

/// Whether a coordinate, in units of 1/1024 of a screen place, is in a range of whole places.
fn is_place_in(range: Span, z: i64) -> bool
    ensures { IsTrue result ↔ IsPlaceIn range z }
{
    in_units(range.low) <= z && z <= in_units(range.high)
}

/// Whether a place is known, and in a rectangle.
fn is_end_in(to: &PlaceSpan, place: &End) -> bool
    ensures { IsTrue result ↔ IsEndIn to.now place.now }
{
    match *place {
        End::Abs { x, y } => is_place_in(to.x, x) && is_place_in(to.y, y),
        End::Rel { .. } | End::Lost => false,
    }
}
