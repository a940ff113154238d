//! What is known before an item, and what an item does to it.

ghost use Rattle.std.specs.Prelude.{◌≡◌, ℕ, ◌≤◌, ◌<◌, ◌+◌, IfSome, unwrap_or};
ghost use Rattle.dvg_words.specs.declared.map.TheConstants.{ADDRESS_END};
ghost use Rattle.dvg_words.specs.Decoding.{InstrFits};
ghost use Rattle.dvg_cert.specs.Entry.{IsKey, IsEnd, IsClaim};
ghost use Rattle.dvg_cert.specs.declared.limits.TheConstants.{MOST_WORDS};
ghost use Rattle.dvg_items.specs.Known.{callee_at, scale_set, draw_effect, stop_effect, effect_of, place_past, callee_words, depth_under, known_past, start};
ghost use Rattle.dvg_items.specs.Bounds.{IsNearPlace, IsNearEffect, IsFewWords, IsSoundCursor};

use crate::item::{Item, Kind};
use dvg_cert::{End, Entries, Entry, Key};
use dvg_words::{Draw, Instr, Machine, Point, draw_move, shift};

/// What an item does to the place, in units of 1/1024 of a screen place.
#[derive(Clone, Copy)]
pub enum Effect {
    Sets(Point),
    Loses,
    Moves(Point),
}

/// What is known before an item: the place, in units of 1/1024 of a screen place, absolute, or from where the call was, or lost; the
/// scale (`Any` if it is unknown); the words so far; and the most return places stored at once.
#[derive(Clone, Copy, Debug, PartialEq, Eq)]
pub struct Known {
    pub place: End,
    pub scale: Key,
    pub words: u32,
    pub depth: u8,
}

/// What a draw does to the place.
pub fn draw_effect(machine: Machine, draw: &Draw, scale: Key) -> Effect
    requires { IsKey scale }
    ensures effect { result ≡ draw_effect machine draw.now scale }
    ensures near { IsNearEffect result }
{
    match scale {
        Key::At(gscale) => Effect::Moves(draw_move(machine, draw, gscale)),
        Key::Any => Effect::Loses,
    }
}

/// What a called shape does to the place.
pub fn stop_effect(stop: End) -> Effect
    requires { IsEnd stop }
    ensures effect { result ≡ stop_effect stop }
    ensures near { IsNearEffect result }
{
    match stop {
        End::Rel { x, y } => Effect::Moves(Point { x, y }),
        End::Abs { x, y } => Effect::Sets(Point { x, y }),
        End::Lost => Effect::Loses,
    }
}

/// The place past an effect.
#[inline(always)]
pub fn place_past(effect: &Effect, place: &End) -> End
    requires place { IsNearPlace ADDRESS_END place.now }
    requires effect { IsNearEffect effect.now }
    ensures value { result ≡ place_past effect.now place.now }
    ensures near { (at : ℕ) → IsNearPlace at place.now → IsNearPlace (at + 1) result }
{
    match (effect, place) {
        (Effect::Sets(p), _) => End::Abs { x: p.x, y: p.y },
        (Effect::Loses, _) | (_, End::Lost) => End::Lost,
        (Effect::Moves(d), End::Rel { x, y }) => {
            let p = shift(&Point { x: *x, y: *y }, d);
            End::Rel { x: p.x, y: p.y }
        }
        (Effect::Moves(d), End::Abs { x, y }) => {
            let p = shift(&Point { x: *x, y: *y }, d);
            End::Abs { x: p.x, y: p.y }
        }
    }
}

/// The scale past an instruction, with the entry that it calls.
#[inline(always)]
pub fn scale_past(instr: &Instr, scale: Key, callee: &Option<Entry>) -> Key
    requires scale { IsKey scale }
    requires instr { InstrFits instr.now }
    requires callee { IfSome callee.now IsClaim }
    ensures value { result ≡ unwrap_or (scale_set instr.now callee.now) scale }
    ensures key { IsKey result }
{
    match (instr, callee) {
        (Instr::Labs { gscale, .. }, _) => Key::At(*gscale),
        (Instr::Jsrl { .. } | Instr::Jmpl { .. }, Some(e)) => e.scale,
        _ => scale,
    }
}

/// The most return places stored at once under an instruction, with the entry that it calls.
pub fn depth_under(instr: &Instr, callee: &Option<Entry>) -> u8
    requires { IfSome callee.now IsClaim }
    ensures value { result ≡ depth_under instr.now callee.now }
    ensures few { result ≤ 4 }
{
    match (instr, callee) {
        (Instr::Jsrl { .. }, Some(e)) => 1 + e.depth,
        (Instr::Jmpl { .. }, Some(e)) => e.depth,
        _ => 0,
    }
}

/// The words that the called entry claims, 0 if none is called.
fn callee_words(callee: &Option<Entry>) -> u32
    requires { IfSome callee.now IsClaim }
    ensures value { result ≡ callee_words callee.now }
    ensures few { result ≤ MOST_WORDS }
{
    match callee {
        None => 0,
        Some(e) => e.words,
    }
}

/// The entry that a target and a known scale name. The scale is `Any` if it is unknown.
#[inline(always)]
pub fn callee<E: Entries>(entries: &E, target: Option<u16>, scale: Key) -> Option<Entry>
    ensures value { result ≡ callee_at (E.list entries.now) target scale }
    ensures claim { IfSome result IsClaim }
{
    match target {
        None => None,
        Some(to) => entries.named(to, scale),
    }
}

impl Known {
    /// What is known before the first item of a shape or of a frame, at a scale, `Any` if it is unknown.
    pub fn start(kind: Kind, scale: Key) -> Known
        ensures { result ≡ start kind scale }
    {
        let place = match kind {
            Kind::Shape => End::Rel { x: 0, y: 0 },
            Kind::Frame => End::Lost,
        };
        Known {
            place,
            scale,
            words: 0,
            depth: 0,
        }
    }

    /// What is known past an item that leaves the beam at this place, with the entry that it calls.
    #[inline(always)]
    pub fn past(&self, place: End, item: &Item, callee: &Option<Entry>) -> Known
        requires before { IsSoundCursor (record { at = item.now.at; known = self.now }) }
        requires place { IsNearPlace (item.now.at + 1) place }
        requires callee { IfSome callee.now IsClaim }
        requires near { item.now.at < ADDRESS_END }
        requires fields { InstrFits item.now.instr }
        ensures value { (machine : Machine) → place ≡ place_past (effect_of machine item.now.instr self.now.scale callee.now) self.now.place
            → result ≡ known_past machine item.now callee.now self.now }
        ensures place { IsNearPlace (item.now.at + 1) result.place }
        ensures key { IsKey result.scale }
        ensures words { IsFewWords (item.now.at + 1) result.words }
        ensures depth { result.depth ≤ 4 }
    {
        Known {
            place,
            scale: scale_past(&item.instr, self.scale, callee),
            words: u32::from(item.format.words()) + callee_words(callee) + self.words,
            depth: depth_under(&item.instr, callee).max(self.depth),
        }
    }
}
