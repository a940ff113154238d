//! The stroke by which a shape lights as far towards an edge as its entry's box.

ghost use Rattle.std.specs.Prelude.{◌≡◌, ◌↔◌, Contains, IsTrue, length, IfSome, IfNone};
ghost use Rattle.dvg_cert.specs.Entry.{IsClaim};
ghost use Rattle.dvg_items.specs.Bounds.{IsSoundSeen};
ghost use Rattle.dvg_items.specs.Lit.{relative_corners};
ghost use Rattle.dvg_survey.specs.Furthest.{IsOnSide, Reaches, FirstReaches, NoneReaches, FindsStroke};

use dvg_cert::{Cert, Entries, Entry, LitBox};
use dvg_check::Edge;
use dvg_items::{Item, Seen, SeenItems, WalkContext, relative_corners};
use dvg_words::{Point, RomImage};

/// Whether a point lies on the side of a box towards an edge.
fn is_on_side(edge: Edge, lit: &LitBox, p: &Point) -> bool
    ensures { IsTrue result ↔ IsOnSide edge lit.now p.now }
{
    match (edge, lit) {
        (_, LitBox::Empty) => false,
        (Edge::Left, LitBox::Span { x_min, .. }) => p.x == *x_min,
        (Edge::Right, LitBox::Span { x_max, .. }) => p.x == *x_max,
        (Edge::Bottom, LitBox::Span { y_min, .. }) => p.y == *y_min,
        (Edge::Top, LitBox::Span { y_max, .. }) => p.y == *y_max,
    }
}

/// Whether a corner of what an item lights at a relative place lies on the side of a box towards an edge.
fn reaches(edge: Edge, lit: &LitBox, seen: &Seen) -> bool
    requires { IsSoundSeen seen.now }
    ensures { IsTrue result ↔ Reaches edge lit.now (relative_corners seen.now.extent seen.now.place) }
{
    match relative_corners(&seen.extent, &seen.place) {
        Some((from, to)) => is_on_side(edge, lit, &from) || is_on_side(edge, lit, &to),
        None => false,
    }
}

/// The first item of an entry's shape that lights something on the side of the entry's box towards an edge.
fn first_reaching<E: Entries>(
    rom: &RomImage,
    entries: &E,
    entry: &Entry,
    edge: Edge,
) -> Option<Seen>
    requires entry { IsClaim entry.now }
    ensures some { IfSome result (FirstReaches rom.now (E.list entries.now) edge entry.now) }
    ensures none { IfNone result (NoneReaches rom.now (E.list entries.now) edge entry.now) }
{
    for seen in SeenItems::new(rom, entries, &WalkContext::shape(entry)) {
        if reaches(edge, &entry.lit, &seen) {
            return Some(seen);
        }
    }
    None
}

/// The lit draw by which a shape lights as far towards an edge as its entry's box, at the entry's scale, by the claims of a
/// certificate: one of the shape, or of what it calls or jumps to, and the first of them where several reach as far (profile).
/// `None` where the entry's box, or that of a shape on the way, is wider than what is lit, which a made certificate's is not; or
/// where the shapes on the way are more than the entries. `entries` are those of the certificate. Takes no memory.
#[tactic(auto, using(crate::proofs::Reaching::starts_down))]
pub fn furthest_stroke<E: Entries>(
    rom: &RomImage,
    cert: &Cert,
    entries: &E,
    entry: &Entry,
    edge: Edge,
) -> Option<Item>
    requires entries { E.list entries.now ≡ cert.now.entries }
    requires entry { Contains cert.now.entries entry.now }
    ensures { FindsStroke (length cert.now.entries) rom.now cert.now.entries edge entry.now result }
{
    let most = cert.entries().len();
    let mut last = *entry;
    for _ in 0..most {
        let Some(seen) = first_reaching(rom, entries, &last, edge) else {
            return None;
        };
        match seen.callee {
            Some(called) => last = called,
            None => return Some(seen.item),
        }
    }
    None
}
