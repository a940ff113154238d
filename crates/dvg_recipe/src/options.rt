//! How many instructions there are to choose from in a recipe, its repeats written out: the work of judging it.

ghost use Rattle.std.specs.Prelude.{◌≡◌, ◌≤◌, ◌+◌, ◌*◌, min, IsTrue, ◌↔◌};
ghost use Rattle.std.specs.List.{sum_by};
ghost use Rattle.dvg_recipe.specs.declared.options.TheConstants.{MOST_OPTIONS, MOST_COUNTED};
ghost use Rattle.dvg_recipe.specs.declared.limits.TheConstants.{MOST_TURNS};
ghost use Rattle.dvg_recipe.specs.Limits.{piece_options, options, all_options};
ghost use Rattle.dvg_recipe.specs.Recipes.{Piece, Jump};

use crate::limits::MOST_TURNS;
use crate::piece::{Piece, PieceKind};
use crate::recipe::{Jump, Part};

/// The most options of a recipe, its repeats written out, but in no more turns than a list has words (profile).
pub const MOST_OPTIONS: u64 = 262_144;

/// Where the counting of options stops.
const MOST_COUNTED: u64 = 262_145;

/// The options of a piece, as far as they are counted: each address of a call is one, a place is one for each of the 16 global scales, and
/// other pieces are one.
pub fn piece_options(kind: &PieceKind) -> u64
    ensures { result ≡ min (piece_options kind.now) MOST_COUNTED }
{
    match kind {
        PieceKind::Place(_) => 16,
        PieceKind::Call(targets) => (targets.len() as u64).min(MOST_COUNTED),
        PieceKind::Draw(_) | PieceKind::Fixed { .. } => 1,
    }
}

/// The options of a row in one turn, as far as they are counted.
fn sum_options(row: &[Piece]) -> u64
    ensures { result ≡ min (sum_by (λ (piece : Piece). piece_options piece.kind) row.now) MOST_COUNTED }
{
    let mut options = 0;
    for piece in row {
        options = (options + piece_options(&piece.kind)).min(MOST_COUNTED);
    }
    options
}

/// So many times so many options, as far as they are counted.
fn times(turns: u16, options: u64) -> u64
    requires { options ≤ MOST_COUNTED }
    ensures { result ≡ min (turns * options) MOST_COUNTED }
{
    (u64::from(turns) * options).min(MOST_COUNTED)
}

/// The options of a row in so many turns, as far as they are counted.
fn row_options(row: &[Piece], turns: u16) -> u64
    ensures { result ≡ min (turns * sum_by (λ (piece : Piece). piece_options piece.kind) row.now) MOST_COUNTED }
{
    times(turns, sum_options(row))
}

/// The turns of a repeat that has so many of its own and is in one with so many: no more than a list has words.
pub fn turns_within(turns: u16, most: u16) -> u16
    ensures { result ≡ min (turns * most) MOST_TURNS }
{
    (u32::from(turns) * u32::from(most)).min(u32::from(MOST_TURNS)) as u16
}

/// The options of a part in so many turns, as far as they are counted.
fn options(part: &Part, turns: u16) -> u64
    ensures { result ≡ min (options turns part.now) MOST_COUNTED }
{
    match part {
        Part::Row(row) => row_options(row, turns),
        Part::Then(first, second) => {
            (options(first, turns) + options(second, turns)).min(MOST_COUNTED)
        }
        Part::Either(one, other) => {
            (options(one, turns) + options(other, turns)).min(MOST_COUNTED)
        }
        Part::Repeat { most, body, .. } => options(body, turns_within(turns, *most)),
    }
}

/// The options of what stands behind jumps, as far as they are counted.
fn jumps_options(jumps: &[Jump]) -> u64
    ensures { result ≡ min (sum_by (λ (jump : Jump). options 1 jump.body) jumps.now) MOST_COUNTED }
{
    let mut all = 0;
    for jump in jumps {
        all = (all + options(&jump.body, 1)).min(MOST_COUNTED);
    }
    all
}

/// Whether a recipe of these parts has at most so many options as a recipe may have.
pub fn has_few_options(body: &Part, jumps: &[Jump]) -> bool
    ensures { IsTrue result ↔ (all_options body.now jumps.now ≤ MOST_OPTIONS) }
{
    options(body, 1) + jumps_options(jumps) <= MOST_OPTIONS
}
