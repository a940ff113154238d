//! Where shapes light at absolute places.

ghost use Rattle.std.specs.Prelude.{◌≡◌, ◌+◌, ◌<◌, IsTrue, IfSome, Contains};
ghost use Rattle.dvg_words.specs.Decoding.{InstrFits};
ghost use Rattle.dvg_words.specs.declared.map.TheConstants.{ADDRESS_END};
ghost use Rattle.dvg_cert.specs.declared.entry.Entry.{Entry as EntryValue};
ghost use Rattle.dvg_cert.specs.declared.entry.Key.{Key};
ghost use Rattle.dvg_cert.specs.Entry.{IsClaim};
ghost use Rattle.dvg_items.specs.Bounds.{IsNearPlace, IsSoundCursor};
ghost use Rattle.dvg_items.specs.Known.{callee_at, effect_of, known_past as past_item, target};
ghost use Rattle.dvg_items.specs.declared.known.Known.{Known as KnownValue};
ghost use Rattle.dvg_items.specs.Seen.{seen_with};
ghost use Rattle.dvg_items.specs.declared.item.Kind.TheVariants.{Shape};
ghost use Rattle.dvg_survey.specs.Calls.{IsShapesExtent};
ghost use Rattle.dvg_survey.specs.Private.Extents.{IsAlike, IsNotAbsolute, IsOwnExtent, IsPassed, IsPlaceSet, IsSoundKnown};

use crate::items::lit_with;
use dvg_cert::{Cert, End, Entries, Entry, LitBox};
use dvg_items::{Cursor, Item, Kind, Known, callee, joined, scale_past, target};
use dvg_words::{Cell, Instr, Machine, Point, RomImage, labs_place, read_cell};

/// Whether an entry's shape begins here, from where on it lights the same: what is lit at absolute places depends on the word address and
/// the scale alone, as long as the place is not absolute.
#[tactic(auto, using(dvg_items::proofs::Listed::listed_at))]
fn begins_shape<E: Entries>(entries: &E, here: &Cursor) -> bool
    ensures { IsTrue result → (other : EntryValue) × Contains (E.list entries.now) other × (other.addr ≡ here.now.at)
        × (other.key ≡ here.now.known.scale) × IsNotAbsolute here.now.known.place }
{
    match here.known.place {
        End::Abs { .. } => false,
        _ => entries.find(here.at, here.known.scale).is_some(),
    }
}

/// The absolute place that an instruction sets, with the entry that it calls; `None` if it sets none.
fn place_set(machine: Machine, instr: &Instr, called: &Option<Entry>) -> Option<End>
    requires { IfSome called.now IsClaim }
    ensures place { (scale : Key) → IsPlaceSet (effect_of machine instr.now scale called.now) result }
    ensures near { IfSome result (IsNearPlace 1) }
{
    match (instr, called) {
        (Instr::Labs { x, y, .. }, _) => {
            let Point { x, y } = labs_place(machine, *x, *y);
            Some(End::Abs { x, y })
        }
        (Instr::Jsrl { .. } | Instr::Jmpl { .. }, Some(entry)) => match entry.stop {
            End::Abs { .. } => Some(entry.stop),
            End::Rel { .. } | End::Lost => None,
        },
        _ => None,
    }
}

/// What is known past the item at a cursor whose place is not absolute, as far as what is lit at absolute places goes by it. Such an item
/// lights nothing at one.
#[inline(always)]
fn known_past<E: Entries>(machine: Machine, entries: &E, here: &Cursor, item: &Item) -> Known
    requires here { IsSoundCursor here.now }
    requires place { IsNotAbsolute here.now.known.place }
    requires item { (item.now.at ≡ here.now.at) × (here.now.at < ADDRESS_END) × InstrFits item.now.instr }
    ensures alike { (known : KnownValue) → IsAlike known here.now.known → IsAlike
        (past_item machine item.now (callee_at (E.list entries.now) (target Shape item.now.instr) known.scale) known) result }
    ensures sound { IsSoundKnown (here.now.at + 1) result }
{
    let known = here.known;
    let called = callee(entries, target(Kind::Shape, &item.instr), known.scale);
    Known {
        place: place_set(machine, &item.instr, &called).unwrap_or(known.place),
        scale: scale_past(&item.instr, known.scale, &called),
        words: known.words,
        depth: known.depth,
    }
}

/// What is known past the item at a cursor, as far as what is lit at absolute places goes by it, and the least box with what the item
/// lights at one.
#[inline(always)]
fn pass_item<E: Entries>(
    machine: Machine,
    entries: &E,
    here: &Cursor,
    item: &Item,
    lit: &mut LitBox,
) -> Known
    requires here { IsSoundCursor here.now }
    requires item { (item.now.at ≡ here.now.at) × (here.now.at < ADDRESS_END) × InstrFits item.now.instr }
    ensures passed { (known : KnownValue) → IsAlike known here.now.known
        → IsPassed (seen_with machine (callee_at (E.list entries.now) (target Shape item.now.instr) known.scale) known item.now)
        lit.old lit.new result }
    ensures sound { IsSoundKnown (here.now.at + 1) result }
{
    match here.known.place {
        End::Abs { .. } => {
            let seen = here.see_by(machine, entries, Kind::Shape, item.format, item.instr);
            *lit = lit_with(lit, &seen);
            seen.after
        }
        End::Rel { .. } | End::Lost => known_past(machine, entries, here, item),
    }
}

/// The least box of what an entry's shape lights at absolute places, up to its end or to where another entry's shape goes on.
fn own_extent<E: Entries>(rom: &RomImage, entries: &E, entry: &Entry) -> LitBox
    requires entry { IsClaim entry.now }
    ensures { IsOwnExtent rom.now (E.list entries.now) entry.now result }
{
    let mut lit = LitBox::Empty;
    let mut here = Cursor::start(Kind::Shape, entry.addr, entry.key);
    while let Cell::Holds { format, instr } = read_cell(rom, here.at) {
        let item = Item {
            at: here.at,
            format,
            instr,
        };
        let known = pass_item(rom.machine(), entries, &here, &item, &mut lit);
        match item.next_address(Kind::Shape) {
            Some(at) => here = Cursor { at, known },
            None => return lit,
        }
        if begins_shape(entries, &here) {
            return lit;
        }
    }
    lit
}

/// The least box of what the shapes of a certificate's entries light at absolute places, in 1/1024 of a screen place, by the
/// certificate's claims (profile). `entries` are those of the certificate. Goes over the items of each shape up to where another
/// entry's shape goes on, and takes no memory.
pub fn shapes_extent<E: Entries>(rom: &RomImage, cert: &Cert, entries: &E) -> LitBox
    requires { E.list entries.now ≡ cert.now.entries }
    ensures { IsShapesExtent rom.now cert.now.entries result }
{
    let mut lit = LitBox::Empty;
    for entry in cert.entries() {
        lit = joined(&lit, &own_extent(rom, entries, entry));
    }
    lit
}
