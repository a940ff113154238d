//! How long the lists of a recipe may be.

ghost use Rattle.std.specs.Prelude.{◌≡◌, ◌≤◌, ◌↔◌, ◌+◌, ◌-◌, ◌*◌, ℕ, List, min, Contains, IfSome, IfNone};
ghost use Rattle.std.specs.List.{sum_by};
ghost use Rattle.dvg_recipe.specs.declared.lengths.TheConstants.{MOST_COUNTED};
ghost use Rattle.dvg_recipe.specs.Lengths.{piece_words, longest, HasRoom, HaveRoom, JumpsHaveRoom, FitsAreas};
ghost use Rattle.dvg_recipe.specs.Recipes.{Area, Piece, Jump};

use crate::piece::{Piece, PieceKind};
use crate::recipe::{Area, Jump, Part, Recipe};
use crate::takes::cell_of_words;
use dvg_words::Cell;
use std::alloc::{AllocError, Global};

/// Where the counting of words stops: behind each word address that an area can have.
const MOST_COUNTED: u32 = 65_536;

/// The words of each instruction that a piece allows.
fn piece_words(kind: &PieceKind) -> u32
    ensures value { result ≡ piece_words kind.now }
    ensures few { result ≤ 2 }
{
    match kind {
        PieceKind::Place(_) => 2,
        PieceKind::Call(_) => 1,
        PieceKind::Draw(range) => u32::from(range.format.words()),
        PieceKind::Fixed { first, second } => match cell_of_words(*first, *second) {
            Cell::Holds { format, .. } => u32::from(format.words()),
            Cell::Missing | Cell::Odd => 0,
        },
    }
}

/// The words of a row, as far as they are counted.
fn row_words(row: &[Piece]) -> u32
    ensures { result ≡ min (sum_by (λ (piece : Piece). piece_words piece.kind) row.now) MOST_COUNTED }
{
    let mut words = 0;
    for piece in row {
        words = (words + piece_words(&piece.kind)).min(MOST_COUNTED);
    }
    words
}

/// So many times so many words, as far as they are counted.
fn times(turns: u16, words: u32) -> u32
    requires { words ≤ MOST_COUNTED }
    ensures { result ≡ min (turns * words) MOST_COUNTED }
{
    (u32::from(turns) * words).min(MOST_COUNTED)
}

/// The most words of the items that a part spells, as far as they are counted.
fn longest(part: &Part) -> u32
    ensures { result ≡ min (longest part.now) MOST_COUNTED }
{
    match part {
        Part::Row(row) => row_words(row),
        Part::Then(first, second) => (longest(first) + longest(second)).min(MOST_COUNTED),
        Part::Either(one, other) => longest(one).max(longest(other)),
        Part::Repeat { most, body, .. } => times(*most, longest(body)),
    }
}

/// The number of the first piece of a row at which its words pass so many (only tested).
fn first_past_in_row(row: &[Piece], room: u32) -> Option<u16> {
    let mut left = room;
    for piece in row {
        let words = piece_words(&piece.kind);
        if words > left {
            return Some(piece.number);
        }
        left -= words;
    }
    None
}

/// The number of the first piece of a part, in the order of reading with repeats written out, at which its longest items pass so many
/// words (only tested).
fn first_past(part: &Part, room: u32) -> Option<u16> {
    if longest(part) <= room {
        return None;
    }
    match part {
        Part::Row(row) => first_past_in_row(row, room),
        Part::Then(first, second) => {
            let words = longest(first);
            if words > room {
                first_past(first, room)
            } else {
                first_past(second, room - words)
            }
        }
        Part::Either(one, other) => {
            if longest(one) > room {
                first_past(one, room)
            } else {
                first_past(other, room)
            }
        }
        Part::Repeat { body, .. } => {
            let words = longest(body);
            if words == 0 {
                return None;
            }
            first_past(body, room % words)
        }
    }
}

/// The words of an area.
fn area_words(area: &Area) -> u32
    ensures { result ≡ area.now.last + 1 - area.now.first }
{
    (u32::from(area.last) + 1).saturating_sub(u32::from(area.first))
}

/// The number of the piece at which the longest items of a part, and an item of one word behind them that has the number `behind`, pass
/// the end of an area; which piece it is, is only tested.
fn past_end(body: &Part, area: &Area, behind: u16) -> Option<u16>
    ensures none { IfNone result (HasRoom area.now (longest body.now)) }
    ensures some { IfSome result (λ _. HasRoom area.now (longest body.now) → ⊥) }
{
    if u32::from(area.first) + longest(body) <= u32::from(area.last) {
        return None;
    }
    Some(first_past(body, area_words(area)).unwrap_or(behind))
}

/// The area of the fewest words.
fn smallest(areas: &[Area]) -> Option<Area>
    ensures some { IfSome result (λ least. (n : ℕ) → HasRoom least n ↔ HaveRoom areas.now n) }
    ensures none { IfNone result ((n : ℕ) → HaveRoom areas.now n) }
{
    let mut least = *areas.first()?;
    for area in areas {
        if area_words(area) < area_words(&least) {
            least = *area;
        }
    }
    Some(least)
}

/// The number of the piece at which the longest items up to the first jump, and that jump, pass the end of a list's area.
fn lists_past_end(lists: &[Area], body: &Part, behind: u16) -> Option<u16>
    ensures none { IfNone result (HaveRoom lists.now (longest body.now)) }
    ensures some { IfSome result (λ _. HaveRoom lists.now (longest body.now) → ⊥) }
{
    let least = smallest(lists)?;
    past_end(body, &least, behind)
}

/// The number of a jump, or that of the HALT behind all of them.
fn number_at(jumps: &[Jump], index: usize, halt: u16) -> u16 {
    match jumps.get(index) {
        Some(jump) => jump.number,
        None => halt,
    }
}

/// The number of the piece at which the longest items behind a jump, and the next jump or the HALT, pass the end of the jump's area.
fn jumps_past_end(jumps: &[Jump], halt: u16) -> Option<u16>
    ensures none { IfNone result (JumpsHaveRoom jumps.now) }
    ensures some { IfSome result (λ _. JumpsHaveRoom jumps.now → ⊥) }
{
    let mut next = 0;
    for jump in jumps {
        next += 1;
        let behind = number_at(jumps, next, halt);
        if let Some(number) = past_end(&jump.body, &jump.area, behind) {
            return Some(number);
        }
    }
    None
}

/// The number of the first piece, in the order of reading with repeats written out, at which the longest list of a recipe passes the end
/// of its area: of several lists the smallest area decides, and a jump counts in the area that it leaves. `None` if the longest list
/// fits; which piece it is, is only tested.
pub fn too_long(recipe: &Recipe) -> Option<u16>
    ensures none { IfNone result (FitsAreas recipe.now) }
    ensures some { IfSome result (λ _. FitsAreas recipe.now → ⊥) }
{
    let behind = number_at(recipe.jumps(), 0, recipe.halt());
    let past = lists_past_end(recipe.lists(), recipe.body(), behind);
    if let Some(number) = past {
        return Some(number);
    }
    jumps_past_end(recipe.jumps(), recipe.halt())
}

/// How many words of an area the longest list takes, its jump or its HALT among them.
#[derive(Clone, Copy, Debug, PartialEq, Eq)]
pub struct Room {
    pub area: Area,
    /// 65,537 at most.
    pub words: u32,
}

/// How many words of an area the longest items of a part take, and an item of one word behind them.
fn room_of(area: Area, body: &Part) -> Room
    ensures { result ≡ record { area = area; words = min (longest body.now) MOST_COUNTED + 1 } }
{
    Room {
        area,
        words: longest(body) + 1,
    }
}

/// How many words the longest list takes of the area of each list, and then of each jump (which areas are told is only tested).
pub fn rooms(alloc: Global, recipe: &Recipe) -> Result<Vec<Room>, AllocError> {
    let mut rooms = Vec::new(alloc);
    for area in recipe.lists() {
        rooms.push(room_of(*area, recipe.body()))?;
    }
    for jump in recipe.jumps() {
        rooms.push(room_of(jump.area, &jump.body))?;
    }
    Ok(rooms)
}
