//! What an item does: where it leaves the beam, and what it lights.

ghost use Rattle.std.specs.Prelude.{◌≡◌, ◌<◌, ◌+◌, IfSome};
ghost use Rattle.dvg_words.specs.declared.map.TheConstants.{ADDRESS_END};
ghost use Rattle.dvg_items.specs.Known.{effect_of, place_past};
ghost use Rattle.dvg_items.specs.Lit.{extent_of};
ghost use Rattle.dvg_cert.specs.Entry.{IsClaim};
ghost use Rattle.dvg_items.specs.Bounds.{IsNearPlace, IsNearEffect, IsNearExtent, IsSoundCursor};

use crate::cursor::Cursor;
use crate::known::{Effect, draw_effect, place_past, stop_effect};
use crate::lit::{LitExtent, box_extent, draw_extent};
use dvg_cert::{End, Entry};
use dvg_words::{Instr, Machine, Point, labs_place};

/// Where an item leaves the beam, and what it lights, seen from the place before it.
#[derive(Clone, Copy)]
pub struct Action {
    pub place: End,
    pub extent: LitExtent,
}

/// What an item with this effect on the place and this extent does at a cursor.
#[inline(always)]
fn with_effect(here: &Cursor, effect: Effect, extent: LitExtent) -> Action
    requires here { IsSoundCursor here.now }
    requires near { here.now.at < ADDRESS_END }
    requires effect { IsNearEffect effect }
    ensures place { result.place ≡ place_past effect here.now.known.place }
    ensures extent { result.extent ≡ extent }
    ensures near_place { IsNearPlace (here.now.at + 1) result.place }
{
    Action {
        place: place_past(&effect, &here.known.place),
        extent,
    }
}

/// What an instruction does at a cursor, with the entry that it calls.
#[inline(always)]
pub fn action_at(machine: Machine, here: &Cursor, instr: &Instr, callee: &Option<Entry>) -> Action
    requires here { IsSoundCursor here.now }
    requires near { here.now.at < ADDRESS_END }
    requires callee { IfSome callee.now IsClaim }
    ensures place { result.place ≡ place_past (effect_of machine instr.now here.now.known.scale callee.now) here.now.known.place }
    ensures extent { result.extent ≡ extent_of machine instr.now here.now.known.scale callee.now }
    ensures near_place { IsNearPlace (here.now.at + 1) result.place }
    ensures near_extent { IsNearExtent result.extent }
{
    match (instr, callee) {
        (Instr::Draw(draw), _) => {
            let effect = draw_effect(machine, draw, here.known.scale);
            with_effect(here, effect, draw_extent(draw, &effect))
        }
        (Instr::Labs { x, y, .. }, _) => {
            let set = Effect::Sets(labs_place(machine, *x, *y));
            with_effect(here, set, LitExtent::Nothing)
        }
        (Instr::Jsrl { .. } | Instr::Jmpl { .. }, Some(e)) => {
            with_effect(here, stop_effect(e.stop), box_extent(e.lit))
        }
        _ => with_effect(here, Effect::Moves(Point::ORIGIN), LitExtent::Nothing),
    }
}
