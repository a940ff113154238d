//! What a recipe, and a frame that may belong to it, come to, in plain numbers; and the frame that shows why a recipe is refused, in C's
//! buffer.

ghost use Rattle.std.specs.Prelude.{◌≡◌, Ok, IfOk, IfErr};
ghost use Rattle.dvg_c.specs.declared.passed.TheConstants.{BOARD};
ghost use Rattle.dvg_c.specs.Told.{map_of, window_of};
ghost use Rattle.dvg_c.specs.Alone.{AreTaken, IsBad};
ghost use Rattle.dvg_c.specs.Recipes.{MemberVerdict, TellsWitness, at_line, options_of, recipe_numbered, recipe_yes_of, told_member, told_recipe, told_recipe_no, told_unmade_for};

use crate::answer::{BAD_MAP, BAD_WINDOW, NO_TEXT_MEMORY, numbered, scale_of, unmade};
use crate::passed::{MapEnds, WindowEnds, map_between, window_for};
use crate::text::put_text;
use dvg_check::Yes;
use dvg_cmd::{Detail, EntryFault};
use dvg_recipe_cmd::{
    Membership, RecipeNo, RecipeOptions, Recorded, Witness, membership_of, ready,
};
use dvg_recipe_text::read_recipe;
use dvg_words::{Machine, RomMap};
use std::alloc::Global;

/// The answer of a recipe, or of a frame that may belong to it. A field that its number doesn't speak of is 0.
#[repr(C)]
#[derive(Clone, Copy)]
pub struct RecipeAnswer {
    /// How many bytes the frame has that shows why a recipe is refused; 0 where there is none.
    pub length: usize,
    /// With 0, of a recipe: how many entries are made for all of its calls.
    pub shapes: u32,
    /// With 0, of a recipe: how many words every run of each of its frames fetches at most.
    pub words: u32,
    /// With 44 to 48, 51 to 57 and 59 to 62: the recipe's line, counted from 1.
    pub line: u32,
    /// With 25: the word address of the first item that breaks the rule. With 60: that of the item that no shape can have. With 88: that
    /// of the frame's item with which it leaves the recipe.
    pub word: u16,
    /// With 25: the word address of the entry whose shape breaks it.
    pub shape: u16,
    /// With 25: the global scale of that entry, 0 to 15, or 16 for any.
    pub scale: u8,
    /// With 0, of a recipe: how many return places every run of each of its frames stores at once at most.
    pub depth: u8,
    /// 0 where the recipe is accepted, or the frame belongs to it, else the number of the refusal, 88 for a frame that does not belong, 80
    /// for a bad window, or 83 for a bad map.
    pub number: u8,
    /// 0 where the frame that shows why stands whole in the buffer, or there is none; 84 where the buffer is too short for it; 85 where
    /// there was no memory to look for it.
    pub witness: u8,
}

/// The number of a frame that is none of the recipe's.
pub const OUTSIDE: u8 = 88;

/// A number alone.
pub fn recipe_numbered(number: u8) -> RecipeAnswer
    ensures { result ≡ recipe_numbered number }
{
    RecipeAnswer {
        length: 0,
        shapes: 0,
        words: 0,
        line: 0,
        word: 0,
        shape: 0,
        scale: 0,
        depth: 0,
        number,
        witness: 0,
    }
}

/// A number and a line of the recipe.
fn at_line(number: u8, line: u32) -> RecipeAnswer
    ensures { result ≡ at_line number line }
{
    RecipeAnswer {
        line,
        ..recipe_numbered(number)
    }
}

/// Why the entry can't be made that the call of a line needs.
fn unmade_for(why: EntryFault, line: u32) -> RecipeAnswer
    ensures { result ≡ told_unmade_for why line }
{
    let made = unmade(why);
    match why {
        EntryFault::Memory => recipe_numbered(made.number),
        _ => RecipeAnswer {
            word: made.word,
            ..at_line(made.number, line)
        },
    }
}

/// Why a recipe is not accepted.
fn refused_recipe(no: &RecipeNo) -> RecipeAnswer
    ensures { result ≡ told_recipe_no no.now }
{
    match *no {
        RecipeNo::Text(fault) => at_line(fault.number(), fault.line),
        RecipeNo::BudgetRange => recipe_numbered(49),
        RecipeNo::RomLength => recipe_numbered(1),
        RecipeNo::TooLong { line } => at_line(57, line),
        RecipeNo::Stuck { line } => at_line(59, line),
        RecipeNo::Make { why, line } => unmade_for(why, line),
        RecipeNo::Shape(fault) => RecipeAnswer {
            shape: fault.addr,
            scale: scale_of(fault.key),
            word: fault.word,
            ..recipe_numbered(fault.number())
        },
        RecipeNo::Frame { why, line } => at_line(why.number(), line),
        RecipeNo::NoMemory => recipe_numbered(63),
    }
}

/// The answer of a verdict on a recipe.
pub fn recipe_answer_of(verdict: &Result<Yes, RecipeNo>) -> RecipeAnswer
    ensures value { result ≡ told_recipe verdict.now }
    ensures accepted { result.number ≡ 0 → verdict.now ≡ Ok (recipe_yes_of result) }
{
    match verdict {
        Ok(yes) => RecipeAnswer {
            shapes: yes.shapes,
            words: yes.words,
            depth: yes.depth,
            ..recipe_numbered(0)
        },
        Err(no) => refused_recipe(no),
    }
}

/// What is asked of a recipe's frames, or the answer that tells the first of the map and the window that is out of range. The machine is the
/// board.
pub fn recipe_options(
    map: MapEnds,
    budget: u32,
    window: WindowEnds,
) -> Result<RecipeOptions, RecipeAnswer>
    ensures ok { IfOk result (λ options. (options ≡ options_of (map_of map) budget (window_of window))
        × AreTaken BOARD (map_of map) (window_of window)) }
    ensures err { IfErr result (λ answer. IsBad BOARD (map_of map) (window_of window) answer.number) }
    ensures alone { IfErr result (λ answer. answer ≡ recipe_numbered answer.number) }
{
    let map = map_between(map).ok_or(recipe_numbered(BAD_MAP))?;
    let window = window_for(Machine::Board, window).ok_or(recipe_numbered(BAD_WINDOW))?;
    Ok(RecipeOptions {
        map,
        budget,
        window,
    })
}

/// Puts the frame that shows why a recipe is refused at the start of a buffer, if there is one and it fits, and says so in the answer.
pub fn put_witness(witness: &Witness, answer: RecipeAnswer, buffer: &mut [u8]) -> RecipeAnswer
    ensures told { TellsWitness witness.now answer buffer.old buffer.new result }
    ensures number { result.number ≡ answer.number }
    ensures counts { recipe_yes_of result ≡ recipe_yes_of answer }
{
    match witness {
        Ok(None) => answer,
        Ok(Some(frame)) => {
            let put = put_text(frame, numbered(0), buffer);
            RecipeAnswer {
                length: put.length,
                witness: put.number,
                ..answer
            }
        }
        Err(_) => RecipeAnswer {
            witness: NO_TEXT_MEMORY,
            ..answer
        },
    }
}

/// What is said of a frame, and the recipe of a text; or the first that applies of 51 to 56, 1 and 57.
pub fn membership_in(
    alloc: Global,
    rom: &[u8],
    map: RomMap,
    recipe: &[u8],
    frame: &[u8],
) -> Result<Membership, RecipeNo>
    ensures { MemberVerdict rom.now map frame.now result }
{
    let recipe = read_recipe(alloc, recipe, None);
    let given = Recorded {
        rom,
        map,
        recipe: &recipe,
    };
    let (read, image) = ready(&given)?;
    let (membership, _) = membership_of(alloc, &image, read, frame, Detail::Line);
    Ok(membership)
}

/// What is said of a frame, or why the recipe is refused, in plain numbers.
pub fn member_answer_of(verdict: &Result<Membership, RecipeNo>) -> RecipeAnswer
    ensures { result ≡ told_member verdict.now }
{
    match verdict {
        Ok(Membership::Belongs) => recipe_numbered(0),
        Ok(Membership::Outside { at }) => RecipeAnswer {
            word: *at,
            ..recipe_numbered(OUTSIDE)
        },
        Ok(Membership::WrongLength) => recipe_numbered(2),
        Ok(Membership::NoMemory | Membership::Unread) => recipe_numbered(63),
        Err(no) => refused_recipe(no),
    }
}
