//! The rules of shapes, and the check of all shapes of a certificate.

ghost use Rattle.std.specs.Prelude.{◌≡◌, ◌<◌, ◌↔◌, IsTrue, OnOk, IfErr, IfNone, IfSome};
ghost use Rattle.dvg_items.specs.declared.item.Kind.TheVariants.{Shape};
ghost use Rattle.dvg_items.specs.Items.{next_address};
ghost use Rattle.dvg_check.specs.declared.fault.Mode.TheVariants.{Bound, Exact};
ghost use Rattle.dvg_check.specs.declared.fault.ShapeWhy.TheVariants as shape;
ghost use Rattle.dvg_check.specs.Rules.{AtLast, AsClaimed, ShapeKeeps, GoodShape, Good};
ghost use Rattle.dvg_check.specs.FirstFault.{shape_number, FirstShapeFault};
ghost use Rattle.dvg_check.specs.Causes.{ShapeCauseOf};
ghost use Rattle.dvg_check.specs.Finding.{ShapeFaultFound, FirstShapeFound, IsSoundFound};
ghost use Rattle.dvg_cert.specs.Entry.{IsClaim};
ghost use Rattle.dvg_items.specs.Bounds.{IsSoundSeen};
ghost use Rattle.dvg_words.specs.declared.map.TheConstants.{ADDRESS_END};
ghost use Rattle.dvg_check.specs.Private.Judging.{EachKept, shape_rules, ShapeBrokenFirst};

use crate::cause::shape_cause;
use crate::fault::{Mode, ShapeFault, ShapeFinding, ShapeWhy};
use crate::rules::Rules;
use crate::tails::first_doubtful;
use crate::walk::walk;
use dvg_cert::{Cert, Entries, Entry, Key};
use dvg_items::{
    Item, Kind, Seen, depth_under, has_callee, lit_in_box, lit_in_window, place_known, scale_known,
    target,
};
use dvg_words::{Instr, RomImage, Window};

/// What a shape is judged by: what its entry claims, whether the claimed counts are bounds or exact, and the window in which it may
/// light.
#[derive(Drop)]
pub struct ShapeRules {
    pub entry: Entry,
    pub mode: Mode,
    pub window: Window,
}

/// Whether the place after a shape's last item is the claimed one; true of each item before the last.
fn ends_there(entry: &Entry, seen: &Seen) -> bool
    requires { seen.now.item.at < ADDRESS_END }
    ensures { IsTrue result ↔ AtLast (next_address Shape seen.now.item) (seen.now.after.place ≡ entry.now.stop) }
{
    seen.item.next_address(Kind::Shape).is_some() || seen.after.place == entry.stop
}

/// Whether the scale after a shape's last item is the claimed one; true of each item before the last.
fn leaves_scale(entry: &Entry, seen: &Seen) -> bool
    requires { seen.now.item.at < ADDRESS_END }
    ensures { IsTrue result ↔ AtLast (next_address Shape seen.now.item) (seen.now.after.scale ≡ entry.now.scale) }
{
    seen.item.next_address(Kind::Shape).is_some() || seen.after.scale == entry.scale
}

/// Whether a count after a shape's last item is as claimed, where claims are exact; true of each item before the last.
fn is_as_claimed(mode: Mode, item: &Item, count: u32, claimed: u32) -> bool
    requires { item.now.at < ADDRESS_END }
    ensures { IsTrue result ↔ AtLast (next_address Shape item.now) (AsClaimed mode count claimed) }
{
    mode == Mode::Bound || item.next_address(Kind::Shape).is_some() || count == claimed
}

/// The first rule that an item of a shape breaks.
fn first_broken(mode: Mode, window: &Window, entry: &Entry, seen: &Seen) -> Option<ShapeWhy>
    requires { IsSoundSeen seen.now }
    ensures kept { IfNone result (EachKept (ShapeKeeps mode window.now entry.now seen.now) shape_rules) }
    ensures broken { IfSome result (ShapeBrokenFirst (ShapeKeeps mode window.now entry.now seen.now)) }
{
    let item = &seen.item;
    let (depth, claimed) = (u32::from(seen.after.depth), u32::from(entry.depth));
    match item.instr {
        Instr::Halt => Some(ShapeWhy::HaltInShape),
        _ if !place_known(&seen.extent, &seen.place) => Some(ShapeWhy::BeamUnknown),
        _ if !scale_known(&seen.extent) => Some(ShapeWhy::ScaleUnknown),
        _ if !lit_in_window(window, &seen.extent, &seen.place) => Some(ShapeWhy::OffScreen),
        _ if !has_callee(target(Kind::Shape, &item.instr), &seen.callee) => Some(ShapeWhy::NoEntry),
        _ if depth_under(&item.instr, &seen.callee) > entry.depth => Some(ShapeWhy::TooDeep),
        _ if seen.after.words > entry.words => Some(ShapeWhy::TooManyWords),
        _ if !ends_there(entry, seen) => Some(ShapeWhy::EndDiffers),
        _ if !leaves_scale(entry, seen) => Some(ShapeWhy::ScaleDiffers),
        _ if !lit_in_box(&entry.lit, &seen.extent, &seen.place) => Some(ShapeWhy::BoxTooSmall),
        _ if !is_as_claimed(mode, item, seen.after.words, entry.words) => {
            Some(ShapeWhy::WordsDiffer)
        }
        _ if !is_as_claimed(mode, item, depth, claimed) => Some(ShapeWhy::DepthDiffers),
        _ => None,
    }
}

impl Rules for ShapeRules {
    type Why = ShapeWhy;

    ghost order = { shape_number };

    ghost valid = { λ r. IsClaim r.entry };

    const KIND: Kind = Kind::Shape;

    ghost KIND = { Shape };

    ghost scale = { λ r. r.entry.key };

    const UNMAPPED: ShapeWhy = ShapeWhy::Unmapped;

    ghost UNMAPPED = { shape.Unmapped };

    const ODD: ShapeWhy = ShapeWhy::Odd;

    ghost ODD = { shape.Odd };

    ghost keeps = { λ r. ShapeKeeps r.mode r.window r.entry };

    fn scale(&self) -> Key {
        self.entry.key
    }

    fn first_broken(&self, seen: &Seen) -> Option<ShapeWhy> {
        first_broken(self.mode, &self.window, &self.entry, seen)
    }
}

/// Judges the shape of one entry item by item; with its first fault it answers what [`judge_shapes`] does (profile). On the
/// profile a yes for `CLIPPED` says nothing of the screen.
pub fn judge_entry<E: Entries>(
    mode: Mode,
    window: &Window,
    rom: &RomImage,
    entries: &E,
    entry: &Entry,
) -> Result<(), ShapeFinding>
    requires entry { IsClaim entry.now }
    ensures ok { OnOk result (GoodShape mode window.now rom.now (E.list entries.now) entry.now) }
    ensures err { IfErr result (λ finding. ShapeFaultFound mode window.now rom.now (E.list entries.now) entry.now finding) }
    ensures place { IfErr result (λ finding. (finding.fault.addr ≡ entry.now.addr) × (finding.fault.key ≡ entry.now.key)) }
    ensures entry { IfErr result (λ finding. finding.entry ≡ entry.now) }
    ensures sound { IfErr result (λ finding. IsSoundFound finding.found) }
    ensures cause { IfErr result (ShapeCauseOf window.now) }
{
    let rules = ShapeRules {
        entry: *entry,
        mode,
        window: *window,
    };
    match walk(rom, entries, &rules, entry.addr) {
        Ok(_) => Ok(()),
        Err(fault) => Err(ShapeFinding {
            fault: ShapeFault {
                addr: entry.addr,
                key: entry.key,
                word: fault.at,
                why: fault.why,
            },
            entry: rules.entry,
            before: fault.before,
            found: fault.found,
            cause: shape_cause(&fault, &rules),
        }),
    }
}

/// Judges each entry's shape, in the order of the certificate, in a mode, as [`check_shapes`] and [`check_shapes_exact`] do; with
/// the first fault it answers what is known there: the entry, place, scale, words and depth before the item that breaks a rule, what
/// stands there, and the rule's own numbers (profile).
///
/// It goes by tails as far as these show the shapes to be good, and from there on item by item. On the profile a yes for `CLIPPED`
/// says nothing of the screen.
pub fn judge_shapes<E: Entries>(
    rom: &RomImage,
    cert: &Cert,
    entries: &E,
    window: &Window,
    mode: Mode,
) -> Result<(), ShapeFinding>
    requires { E.list entries.now ≡ cert.now.entries }
    ensures ok { OnOk result (Good mode window.now rom.now cert.now.entries) }
    ensures err { IfErr result (FirstShapeFound mode window.now rom.now cert.now.entries) }
    ensures sound { IfErr result (λ finding. IsSoundFound finding.found) }
    ensures cause { IfErr result (ShapeCauseOf window.now) }
{
    let list = cert.entries();
    let mut index = first_doubtful(mode, window, rom, entries, list);
    'entries: while index < list.len() {
        if let Err(finding) = judge_entry(mode, window, rom, entries, &list[index]) {
            return Err(finding);
        }
        index += 1;
    }
    Ok(())
}

/// Judges each entry's shape, in the order of the certificate, in a mode: the first fault is answered.
pub fn check_shapes_in<E: Entries>(
    mode: Mode,
    window: &Window,
    rom: &RomImage,
    cert: &Cert,
    entries: &E,
) -> Result<(), ShapeFault>
    requires { E.list entries.now ≡ cert.now.entries }
    ensures ok { OnOk result (Good mode window.now rom.now cert.now.entries) }
    ensures err { IfErr result (FirstShapeFault mode window.now rom.now cert.now.entries) }
{
    match judge_shapes(rom, cert, entries, window, mode) {
        Ok(()) => Ok(()),
        Err(finding) => Err(finding.fault),
    }
}

/// Judges each entry's shape, in the order of the certificate, its counts as bounds: the first faulty entry is answered,
/// with the first item of its shape that breaks a rule, and the lowest rule that this item breaks (20 to 31, profile).
///
/// `entries` are those of the certificate, and the ROM lies where it says. `window` is where strokes may be lit at places that the
/// ROM sets. On the profile a yes for `CLIPPED` says nothing of the screen. Nothing is run, and nothing is allocated. It takes the
/// time of one tail for each word and key at most, of one comparison for each entry, and of a walk over the items of the shape that
/// is answered.
pub fn check_shapes<E: Entries>(
    rom: &RomImage,
    cert: &Cert,
    entries: &E,
    window: &Window,
) -> Result<(), ShapeFault>
    requires entries { E.list entries.now ≡ cert.now.entries }
    requires map { rom.now.map ≡ cert.now.map }
    ensures ok { OnOk result (Good Bound window.now rom.now cert.now.entries) }
    ensures err { IfErr result (FirstShapeFault Bound window.now rom.now cert.now.entries) }
{
    check_shapes_in(Mode::Bound, window, rom, cert, entries)
}

/// Judges each entry's shape, in the order of the certificate, its counts as exact: as [`check_shapes`] does, and by two rules
/// more, that at a shape's last item its words and its depth are just as claimed (32 and 33, profile). On the profile a yes for
/// `CLIPPED` says nothing of the screen.
pub fn check_shapes_exact<E: Entries>(
    rom: &RomImage,
    cert: &Cert,
    entries: &E,
    window: &Window,
) -> Result<(), ShapeFault>
    requires entries { E.list entries.now ≡ cert.now.entries }
    requires map { rom.now.map ≡ cert.now.map }
    ensures ok { OnOk result (Good Exact window.now rom.now cert.now.entries) }
    ensures err { IfErr result (FirstShapeFault Exact window.now rom.now cert.now.entries) }
{
    check_shapes_in(Mode::Exact, window, rom, cert, entries)
}
