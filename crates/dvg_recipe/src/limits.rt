//! Limits of recipes.

ghost use Rattle.std.specs.Prelude.{◌≡◌, ◌↔◌, ◌≤◌, ◌<◌, ℕ, pos, Contains, Some, IsTrue, IfSome, IfNone, length};
ghost use Rattle.dvg_words.specs.declared.map.TheConstants.{ADDRESS_END};
ghost use Rattle.dvg_words.specs.declared.machine.Machine.TheVariants.{Board};
ghost use Rattle.dvg_words.specs.Decoding.{cell_of_words};
ghost use Rattle.dvg_recipe.specs.Limits.{IsSpanBetween, IsSvecSize, SizesFit, LscaleFits, PlaceSpanFits, ToFits, DrawRangeFits, IsStraight, AreAddresses, PieceFits, RowFits, HasPiece, PartFits, RowNumbered, Numbered, AreaFits, AreasFit, JumpFits, JumpsFit, IsRecipe};
ghost use Rattle.dvg_recipe.specs.Recipes.{Piece, Place};

use crate::options::has_few_options;
use crate::piece::{DrawRange, Piece, PieceKind, PlaceRange, PlaceSpan, Span};
use crate::recipe::{Area, Jump, Part};
use crate::takes::cell_of_words;
use dvg_words::{ADDRESS_END, Cell, Format, Instr, RAM_WORDS};

/// The most lists of a recipe (profile).
pub const MOST_LISTS: usize = 8;

/// The most pieces of a recipe: items of parts, jumps and the HALT (profile).
pub const MOST_PIECES: u16 = 4096;

/// The most turns of a repeat (profile).
pub const MOST_TURNS: u16 = 1023;

/// The most levels of a part above a row (profile). 16 blocks, one in another, with 4,096 lines in all have fewer in balanced pairs.
pub const MOST_LEVELS: u16 = 256;

/// The most repeats of a recipe, one in another (profile).
pub const MOST_NESTED: u16 = 16;

fn is_span_between(range: Span, low: i16, high: i16) -> bool
    ensures { IsTrue result ↔ IsSpanBetween low high range }
{
    low <= range.low && range.low <= range.high && range.high <= high
}

fn is_svec_size(size: i16) -> bool
    ensures { IsTrue result ↔ IsSvecSize size }
{
    matches!(size, -768 | -512 | -256 | 0 | 256 | 512 | 768)
}

fn sizes_fit(format: Format, range: Span) -> bool
    ensures { IsTrue result ↔ SizesFit format range }
{
    match format {
        Format::Short => {
            range.low <= range.high && is_svec_size(range.low) && is_svec_size(range.high)
        }
        Format::Long => is_span_between(range, -1023, 1023),
    }
}

fn lscale_fits(format: Format, lscale: u8) -> bool
    ensures { IsTrue result ↔ LscaleFits format lscale }
{
    match format {
        Format::Short => 2 <= lscale && lscale <= 5,
        Format::Long => lscale <= 9,
    }
}

fn place_span_fits(span: &PlaceSpan) -> bool
    ensures { IsTrue result ↔ PlaceSpanFits span.now }
{
    is_span_between(span.x, -2048, 2047) && is_span_between(span.y, -2048, 2047)
}

fn to_fits(format: Format, to: &Option<PlaceSpan>) -> bool
    ensures { IsTrue result ↔ ToFits format to.now }
{
    match (to, format) {
        (None, _) => true,
        (Some(_), Format::Short) => false,
        (Some(span), Format::Long) => place_span_fits(span),
    }
}

fn draw_fits(range: &DrawRange) -> bool
    ensures { IsTrue result ↔ DrawRangeFits range.now }
{
    lscale_fits(range.format, range.lscale)
        && sizes_fit(range.format, range.dx)
        && sizes_fit(range.format, range.dy)
        && is_span_between(range.bright, 0, 15)
        && to_fits(range.format, &range.to)
}

fn place_fits(range: &PlaceRange) -> bool
    ensures { IsTrue result ↔ PieceFits (Place range.now) }
{
    is_span_between(range.x, -2048, 2047)
        && is_span_between(range.y, -2048, 2047)
        && range.scales.contains(&true)
}

fn are_addresses(targets: &[u16]) -> bool
    ensures { IsTrue result ↔ AreAddresses targets.now }
{
    for to in targets {
        if *to >= ADDRESS_END {
            return false;
        }
    }
    true
}

fn is_straight(first: u16, second: u16) -> bool
    ensures { IsTrue result ↔ IsStraight (cell_of_words Board (Some first) (Some second)) }
{
    match cell_of_words(first, second) {
        Cell::Holds { instr, .. } => match instr {
            Instr::Draw(_) | Instr::Labs { .. } | Instr::Jsrl { .. } => true,
            Instr::Halt | Instr::Rtsl | Instr::Jmpl { .. } => false,
        },
        Cell::Missing | Cell::Odd => false,
    }
}

/// Whether a piece allows some instruction, and words can say its ends.
pub fn piece_fits(kind: &PieceKind) -> bool
    ensures { IsTrue result ↔ PieceFits kind.now }
{
    match kind {
        PieceKind::Place(range) => place_fits(range),
        PieceKind::Call(targets) => !targets.is_empty() && are_addresses(targets),
        PieceKind::Draw(range) => draw_fits(range),
        PieceKind::Fixed { first, second } => is_straight(*first, *second),
    }
}

fn row_fits(row: &[Piece]) -> bool
    ensures { IsTrue result ↔ RowFits row.now }
{
    for piece in row {
        if !piece_fits(&piece.kind) {
            return false;
        }
    }
    true
}

/// Whether a part has a piece.
fn has_piece(part: &Part) -> bool
    ensures { IsTrue result ↔ HasPiece part.now }
{
    match part {
        Part::Row(row) => !row.is_empty(),
        Part::Then(first, second) => has_piece(first) || has_piece(second),
        Part::Either(one, other) => has_piece(one) || has_piece(other),
        Part::Repeat { body, .. } => has_piece(body),
    }
}

/// Whether each piece and each repeat of a part is within its limits, with at most so many levels above a row, and at most so many
/// repeats one in another.
pub fn part_fits(part: &Part, levels: u16, nested: u16) -> bool
    ensures { IsTrue result ↔ PartFits levels nested part.now }
{
    match part {
        Part::Row(row) => row_fits(row),
        Part::Then(first, second) => {
            0 < levels
                && part_fits(first, levels - 1, nested)
                && part_fits(second, levels - 1, nested)
        }
        Part::Either(one, other) => {
            0 < levels && part_fits(one, levels - 1, nested) && part_fits(other, levels - 1, nested)
        }
        Part::Repeat { least, most, body } => {
            0 < levels
                && 0 < nested
                && *least <= *most
                && 0 < *most
                && *most <= MOST_TURNS
                && has_piece(body)
                && part_fits(body, levels - 1, nested - 1)
        }
    }
}

/// The number behind those of a row, if they go up from this one.
fn row_past(row: &[Piece], first: u16) -> Option<u16>
    ensures some { IfSome result (RowNumbered row.now first) }
    ensures none { IfNone result ((m : ℕ) → RowNumbered row.now first m → ⊥) }
{
    let mut next = first;
    for piece in row {
        if piece.number != next || next >= MOST_PIECES {
            return None;
        }
        next += 1;
    }
    Some(next)
}

/// The number behind those of a part, if they go up from this one in the order of reading.
#[tactic(auto, using(crate::proofs::Fitting::numbered_once))]
pub fn part_past(part: &Part, first: u16) -> Option<u16>
    ensures some { IfSome result (Numbered part.now first) }
    ensures none { IfNone result ((m : ℕ) → Numbered part.now first m → ⊥) }
{
    match part {
        Part::Row(row) => row_past(row, first),
        Part::Then(one, other) => {
            let between = part_past(one, first)?;
            part_past(other, between)
        }
        Part::Either(one, other) => {
            let between = part_past(one, first)?;
            part_past(other, between)
        }
        Part::Repeat { body, .. } => part_past(body, first),
    }
}

fn area_fits(first: u16, area: &Area) -> bool
    ensures { IsTrue result ↔ AreaFits first area.now }
{
    first <= area.first && area.first <= area.last && area.last < RAM_WORDS
}

/// The word address behind the areas of lists, if each stands behind the one before.
pub fn areas_past(areas: &[Area]) -> Option<u16>
    ensures some { IfSome result (AreasFit areas.now 0) }
    ensures none { IfNone result ((m : ℕ) → AreasFit areas.now 0 m → ⊥) }
{
    let mut next = 0;
    for area in areas {
        if !area_fits(next, area) {
            return None;
        }
        next = area.last + 1;
    }
    Some(next)
}

/// Whether a jump and what stands behind it are within the limits, its area behind a word address, and its JMPL of this number.
fn jump_fits(jump: &Jump, word: u16, number: u16) -> bool
    ensures { IsTrue result ↔ JumpFits jump.now word number }
{
    area_fits(word, &jump.area)
        && jump.number == number
        && number < MOST_PIECES
        && part_fits(&jump.body, MOST_LEVELS, MOST_NESTED)
}

/// The number behind those of jumps, if they go up from this one, and each area stands behind the one before, the first behind a word
/// address.
#[tactic(auto, using(crate::proofs::Fitting::numbered_once))]
fn jumps_past(jumps: &[Jump], word: u16, first: u16) -> Option<u16>
    ensures some { IfSome result (JumpsFit jumps.now word first) }
    ensures none { IfNone result ((m : ℕ) → JumpsFit jumps.now word first m → ⊥) }
{
    let mut word = word;
    let mut next = first;
    for jump in jumps {
        if !jump_fits(jump, word, next) {
            return None;
        }
        next = part_past(&jump.body, next + 1)?;
        word = jump.area.last + 1;
    }
    Some(next)
}

/// Whether lists, what stands in them, the jumps and the number of the HALT are those of a recipe.
#[tactic(auto, using(crate::proofs::Fitting::numbered_once, crate::proofs::Fitting::areas_once, crate::proofs::Fitting::jumps_once))]
pub fn is_recipe(lists: &[Area], body: &Part, jumps: &[Jump], halt: u16) -> bool
    ensures { IsTrue result ↔ IsRecipe (record { lists = lists.now; body = body.now; jumps = jumps.now; halt = halt }) }
{
    if lists.is_empty()
        || lists.len() > MOST_LISTS
        || halt >= MOST_PIECES
        || !part_fits(body, MOST_LEVELS, MOST_NESTED)
    {
        return false;
    }
    let Some(word) = areas_past(lists) else {
        return false;
    };
    let Some(number) = part_past(body, 0) else {
        return false;
    };
    jumps_past(jumps, word, number) == Some(halt) && has_few_options(body, jumps)
}
