//! The account of a verdict on a recipe: the room in its areas, and what is known before its lines, or a frame that shows why it is refused.

ghost use Rattle.dvg_recipe_cmd.specs.Private.Judging.{IsReady};

use crate::judging::{Ready, RecipeOptions, line_of_piece, piece_of};
use crate::text_lines::blocks_around;
use dvg_account::{KnownBefore, RecipeText};
use dvg_cert::LitBox;
use dvg_cmd::{Behind, Detail, OwnCertificates, PlainWhy, plain_account};
use dvg_labels::Labels;
use dvg_make::FrameRefusal;
use dvg_recipe::{Hull, Places, RecipeRefusal, SeenPiece, SurveyedRecipe, find_refused, rooms};
use dvg_recipe_text::ReadRecipe;
use dvg_words::Machine;
use std::alloc::{AllocError, Global};

/// Adds a line for the area of each list, and of each jump.
fn push_rooms(text: &mut RecipeText, alloc: Global, read: &ReadRecipe) -> Result<(), AllocError> {
    for room in rooms(alloc, &read.recipe)? {
        text.push_room(room.area.first, room.area.last, room.words);
    }
    Ok(())
}

/// What may be known before a line, by a hull.
fn known_of(hull: &Hull) -> KnownBefore {
    let places = match hull.places {
        Places::Lost => None,
        Places::Within(within) => Some(LitBox::Span {
            x_min: within.low.x,
            x_max: within.high.x,
            y_min: within.low.y,
            y_max: within.high.y,
        }),
    };
    KnownBefore {
        scale: hull.scale,
        places,
        words: hull.words,
        depth: hull.depth,
    }
}

/// Adds, for each scale that may be known before a piece, a line of what may be known there. `line` is the piece's line.
fn push_before(text: &mut RecipeText, line: u32, piece: &SeenPiece) {
    for hull in piece.before().iter().flatten() {
        text.push_before(line, &known_of(hull));
    }
}

/// Adds the lines of what may be known before the first piece of each line of the text.
fn push_known(text: &mut RecipeText, read: &ReadRecipe, seen: &[SeenPiece]) {
    let mut last = 0;
    for (piece, number) in seen.iter().zip(read.lines.iter()) {
        let line = u32::from(*number);
        if line != last {
            push_before(text, line, piece);
            last = line;
        }
    }
}

/// Adds the line of the text whose pieces may take the most words, and how many these are, if some piece takes any.
fn push_takes_most(text: &mut RecipeText, read: &ReadRecipe, seen: &[SeenPiece]) {
    let mut most = (0, 0);
    let mut here = (0, 0u32);
    for (piece, number) in seen.iter().zip(read.lines.iter()) {
        let line = u32::from(*number);
        let before = if line == here.0 { here.1 } else { 0 };
        here = (line, before.saturating_add(piece.words));
        if here.1 > most.1 {
            most = here;
        }
    }
    let (line, words) = most;
    if words > 0 {
        text.push_takes_most(line, words);
    }
}

/// Adds the lines of an accepted recipe.
fn push_accepted(
    text: &mut RecipeText,
    ready: &Ready,
    seen: &[SeenPiece],
) -> Result<(), AllocError> {
    push_rooms(text, ready.alloc, &ready.read)?;
    push_takes_most(text, &ready.read, seen);
    push_known(text, &ready.read, seen);
    Ok(())
}

/// Adds a line for each repeat around the piece by which a recipe is refused, the outermost first.
fn push_turns(
    text: &mut RecipeText,
    ready: &Ready,
    piece: u16,
    turns: &[u16],
) -> Result<(), AllocError> {
    let line = line_of_piece(&ready.read, piece);
    let blocks = blocks_around(ready.alloc, ready.explained.text, line)?;
    for (turn, line) in turns.iter().zip(blocks.iter().flatten()) {
        text.push_turn(*turn, *line);
    }
    Ok(())
}

/// Adds the lines of a frame that shows why a recipe is refused, and answers the account of that frame; or tells that none shows it.
fn push_shown(
    text: &mut RecipeText,
    ready: &Ready,
    refusal: &RecipeRefusal,
    detail: Detail,
) -> Behind
    requires { IsReady ready.now }
{
    let RecipeOptions {
        map,
        budget,
        window,
    } = ready.explained.options;
    let recipe = &ready.read.recipe;
    let Some(shown) = find_refused(ready.alloc, &ready.image, recipe, budget, window, refusal)?
    else {
        text.push_nothing_shown();
        return Ok(None);
    };
    if let Some(piece) = piece_of(refusal) {
        push_turns(text, ready, piece, &shown.turns)?;
    }
    text.push_shown(shown.frame.len() / 2);
    let judge = OwnCertificates {
        machine: Machine::Board,
        rom: ready.explained.rom,
        map,
        budget,
        window,
        others: None,
    };
    match judge.verdict(ready.alloc, &shown.frame, detail) {
        (Err(FrameRefusal::NoMemory), _) => Err(AllocError),
        (_, behind) => behind,
    }
}

/// Adds the lines of what was seen of a recipe, and answers what follows behind them: the rule of a number that is not about a frame, or
/// the account of a frame that shows why the recipe is refused.
fn push_surveyed(
    text: &mut RecipeText,
    ready: &Ready,
    surveyed: &SurveyedRecipe,
    detail: Detail,
) -> Behind
    requires { IsReady ready.now }
{
    let number = match &surveyed.verdict {
        Ok(_) => {
            push_accepted(text, ready, &surveyed.seen)?;
            return Ok(None);
        }
        Err(RecipeRefusal::Memory) => return Err(AllocError),
        Err(RecipeRefusal::TooLong { .. }) => {
            push_rooms(text, ready.alloc, &ready.read)?;
            57
        }
        Err(RecipeRefusal::Stuck { piece }) => {
            if let Some(seen) = surveyed.seen.get(usize::from(*piece)) {
                push_before(text, line_of_piece(&ready.read, *piece), seen);
            }
            59
        }
        Err(refusal) => return push_shown(text, ready, refusal, detail),
    };
    let why = PlainWhy::Nothing;
    plain_account(Machine::Board, ready.alloc, number, why, detail)
}

/// The account of the verdict on a recipe that was read; addresses are named by these labels, if there are any.
pub fn account_text(
    ready: &Ready,
    surveyed: &SurveyedRecipe,
    labels: Option<&Labels>,
) -> Result<String, AllocError>
    requires { IsReady ready.now }
{
    let mut text = RecipeText::new(ready.alloc);
    let behind = push_surveyed(&mut text, ready, surveyed, Detail::Account(labels))?;
    let mut text = text.finish()?;
    if let Some(account) = behind {
        text.push_str(account.as_str())?;
    }
    Ok(text)
}
