//! What the items of a piece may do, and what that is at a scale.

ghost use Rattle.std.specs.Prelude.{◌≡◌, List, ◌≤◌, ◌*ℤ◌, pos, true, IfSome};
ghost use Rattle.dvg_words.specs.Decoding.{InstrFits, word_count};
ghost use Rattle.dvg_words.specs.declared.machine.Machine.TheVariants.{Board};
ghost use Rattle.dvg_words.specs.declared.instruction.Cell.TheVariants.{Holds};
ghost use Rattle.dvg_cert.specs.Entry.{IsKey, IsClaim};
ghost use Rattle.dvg_cert.specs.declared.entry.Entry.{Entry};
ghost use Rattle.dvg_items.specs.declared.item.Item.{Item};
ghost use Rattle.dvg_items.specs.declared.known.Known.{Known};
ghost use Rattle.dvg_recipe.specs.Limits.{DrawRangeFits, PieceFits};
ghost use Rattle.dvg_recipe.specs.Recipes.{Draw as Draws, Fixed, IsInSpan};
ghost use Rattle.dvg_recipe.specs.Private.Judging.{IsTaken};
ghost use Rattle.dvg_recipe.specs.Private.Hulls.{IsNearRectangle, IsNearMotion, IsNearLight, IsNearInto, IsSoundChange, IsAct, ActFits, act_change, at_point, places_of, span_places, into_of, place_change, still, stop_motion, box_light, call_change, moves, draw_light, draw_change};

use crate::hull::{Act, Change, Light, Motion, Rectangle};
use crate::piece::{DrawRange, PlaceRange, PlaceSpan};
use crate::takes::cell_of_words;
use dvg_cert::{End, Entries, Entry, Key, LitBox};
use dvg_items::callee;
use dvg_words::{Cell, Draw, Format, Instr, Machine, Point, draw_move, in_units, labs_place};

fn at_point(p: Point) -> Rectangle
    ensures { result ≡ at_point p }
{
    Rectangle { low: p, high: p }
}

/// Where the board sets the beam at a screen place, in units of 1/1024 of it.
fn place(x: i16, y: i16) -> Point
    ensures { result ≡ record { x = pos 1024 *ℤ x; y = pos 1024 *ℤ y } }
{
    Point {
        x: in_units(x),
        y: in_units(y),
    }
}

/// The places of a range.
pub fn places_of(range: &PlaceRange) -> Rectangle
    ensures { result ≡ places_of range.now }
{
    Rectangle {
        low: place(range.x.low, range.y.low),
        high: place(range.x.high, range.y.high),
    }
}

fn span_places(span: &PlaceSpan) -> Rectangle
    ensures { result ≡ span_places span.now }
{
    Rectangle {
        low: place(span.x.low, span.y.low),
        high: place(span.x.high, span.y.high),
    }
}

fn place_change(places: Rectangle, scale: u8) -> Change
    ensures { result ≡ place_change places scale }
{
    Change {
        motion: Motion::To(places),
        light: Light::Dark,
        scale: Key::At(scale),
        words: 2,
        depth: 0,
        named: true,
        into: None,
    }
}

/// A short instruction that leaves place and scale as they are.
pub fn still(scale: Key) -> Change
    ensures { result ≡ still scale }
{
    Change {
        motion: Motion::By(at_point(Point::ORIGIN)),
        light: Light::Dark,
        scale,
        words: 1,
        depth: 0,
        named: true,
        into: None,
    }
}

/// Where a called shape leaves the beam.
fn stop_motion(stop: End) -> Motion
    ensures { result ≡ stop_motion stop }
{
    match stop {
        End::Rel { x, y } => Motion::By(at_point(Point { x, y })),
        End::Abs { x, y } => Motion::To(at_point(Point { x, y })),
        End::Lost => Motion::Away,
    }
}

/// What a called shape lights.
fn box_light(lit: LitBox) -> Light
    ensures { result ≡ box_light lit }
{
    match lit {
        LitBox::Empty => Light::Dark,
        LitBox::Span {
            x_min,
            x_max,
            y_min,
            y_max,
        } => Light::Shown {
            from: at_point(Point { x: x_min, y: y_min }),
            to: at_point(Point { x: x_max, y: y_max }),
        },
    }
}

/// A JSRL at a scale, with the entry that it calls.
fn call_change(named: Option<Entry>, scale: Key) -> Change
    requires { IfSome named IsClaim }
    ensures { result ≡ call_change named scale }
{
    match named {
        None => Change {
            named: false,
            ..still(scale)
        },
        Some(e) => Change {
            motion: stop_motion(e.stop),
            light: box_light(e.lit),
            scale: e.scale,
            words: 1 + e.words,
            depth: 1 + e.depth,
            named: e.key == scale,
            into: None,
        },
    }
}

/// The moves of draws between two.
#[tactic(auto, using(crate::proofs::Doing::within_near))]
fn moves(low: &Draw, high: &Draw, gscale: u8) -> Rectangle
    requires { gscale ≤ 15 }
    ensures value { result ≡ moves low.now high.now gscale }
    ensures near { IsNearRectangle 1 result }
{
    Rectangle {
        low: draw_move(Machine::Board, low, gscale),
        high: draw_move(Machine::Board, high, gscale),
    }
}

/// What draws light, the brightest of this intensity.
fn draw_light(bright: u8, lit: Light) -> Light
    requires { IsNearLight lit }
    ensures value { result ≡ draw_light bright lit }
    ensures near { IsNearLight result }
{
    if bright == 0 { Light::Dark } else { lit }
}

/// Draws of a format that move and light so, at a scale, into a rectangle, if there is one.
fn drawn(
    format: Format,
    motion: Motion,
    light: Light,
    into: Option<Rectangle>,
    scale: Key,
) -> Change
    requires motion { IsNearMotion motion }
    requires light { IsNearLight light }
    requires into { IsNearInto into }
    requires scale { IsKey scale }
    ensures value { result ≡ record { motion = motion; light = light; scale = scale; words = word_count format; depth = 0; named = true; into = into } }
    ensures sound { IsSoundChange result }
{
    Change {
        motion,
        light,
        scale,
        words: u32::from(format.words()),
        depth: 0,
        named: true,
        into,
    }
}

/// Draws between two, at a scale, into a rectangle, if there is one.
#[tactic(auto, using(crate::proofs::Doing::origin_near))]
fn draw_change(
    format: Format,
    low: &Draw,
    high: &Draw,
    into: Option<Rectangle>,
    scale: Key,
) -> Change
    requires into { IsNearInto into }
    requires key { IsKey scale }
    ensures value { result ≡ draw_change format low.now high.now into scale }
    ensures sound { IsSoundChange result }
{
    match scale {
        Key::At(gscale) => {
            let by = moves(low, high, gscale);
            let from = at_point(Point::ORIGIN);
            let light = draw_light(high.bright, Light::Shown { from, to: by });
            drawn(format, Motion::By(by), light, into, scale)
        }
        Key::Any => {
            let light = draw_light(high.bright, Light::Unbounded);
            drawn(format, Motion::Away, light, into, scale)
        }
    }
}

/// A draw of a range, of these sizes and this intensity.
fn corner(range: &DrawRange, dx: i16, dy: i16, bright: i16) -> Draw
    requires fits { DrawRangeFits range.now }
    requires dx { IsInSpan range.now.dx dx }
    requires dy { IsInSpan range.now.dy dy }
    requires bright { IsInSpan range.now.bright bright }
    ensures lscale { result.lscale ≡ range.now.lscale }
    ensures dx { result.dx ≡ dx }
    ensures dy { result.dy ≡ dy }
    ensures bright { pos result.bright ≡ bright }
{
    Draw {
        dx,
        dy,
        lscale: range.lscale,
        bright: bright as u8,
    }
}

/// Where draws of a range have to lead.
fn into_of(range: &DrawRange) -> Option<Rectangle>
    requires { DrawRangeFits range.now }
    ensures value { result ≡ into_of range.now.to }
    ensures near { IsNearInto result }
{
    match &range.to {
        None => None,
        Some(span) => Some(span_places(span)),
    }
}

/// What the draws of a range do.
pub fn draws_act(range: &DrawRange) -> Act
    requires fits { PieceFits (Draws range.now) }
    ensures is { (list : List Entry) (known : Known) (i : Item) → IsTaken (Draws range.now) known i → IsAct list result known i }
    ensures fits { ActFits result }
{
    Act::Draws {
        format: range.format,
        low: corner(range, range.dx.low, range.dy.low, range.bright.low),
        high: corner(range, range.dx.high, range.dy.high, range.bright.high),
        into: into_of(range),
    }
}

/// What an instruction does.
fn instr_act(format: Format, instr: &Instr) -> Act
    requires fits { InstrFits instr.now }
    ensures is { (list : List Entry) (known : Known) (i : Item) → Holds format instr.now ≡ Holds i.format i.instr → IsAct list result known i }
    ensures fits { ActFits result }
{
    match *instr {
        Instr::Draw(draw) => Act::Draws {
            format,
            low: draw,
            high: draw,
            into: None,
        },
        Instr::Labs { x, y, gscale } => Act::Place {
            places: at_point(labs_place(Machine::Board, x, y)),
            scale: gscale,
        },
        Instr::Jsrl { to } => Act::Call { to },
        Instr::Halt | Instr::Rtsl | Instr::Jmpl { .. } => Act::Still,
    }
}

/// What the instruction of two words does.
pub fn words_act(first: u16, second: u16) -> Act
    ensures is { (list : List Entry) (known : Known) (i : Item) → IsTaken (Fixed first second) known i → IsAct list result known i }
    ensures fits { ActFits result }
{
    match cell_of_words(first, second) {
        Cell::Holds { format, instr } => instr_act(format, &instr),
        Cell::Missing | Cell::Odd => Act::Still,
    }
}

/// What an act does at a scale.
pub fn act_change<E: Entries>(entries: &E, act: &Act, scale: Key) -> Change
    requires fits { ActFits act.now }
    requires key { IsKey scale }
    ensures value { result ≡ act_change (E.list entries.now) act.now scale }
    ensures sound { IsSoundChange result }
{
    match act {
        Act::Draws {
            format,
            low,
            high,
            into,
        } => draw_change(*format, low, high, *into, scale),
        Act::Place { places, scale } => place_change(*places, *scale),
        Act::Call { to } => call_change(callee(entries, Some(*to), scale), scale),
        Act::Still => still(scale),
    }
}

/// What the instruction of two words does at a scale.
pub fn words_change<E: Entries>(entries: &E, first: u16, second: u16, scale: Key) -> Change
    requires key { IsKey scale }
    ensures { IsSoundChange result }
{
    act_change(entries, &words_act(first, second), scale)
}
