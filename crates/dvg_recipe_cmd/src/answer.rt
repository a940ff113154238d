//! What is said of a recipe.

ghost use Rattle.std.specs.Prelude.{◌≡◌, ◌++◌, codes};
ghost use Rattle.dvg_recipe_cmd.specs.Answers.{no_outcome, recipe_no_text};

use dvg_check::{FrameWhy, ShapeFault};
use dvg_make::{EntryFault, MakeFault};
use dvg_recipe_text::{RecipeTextFault, RecipeTextWhy};
use dvg_spelling::ItemPlace::RecipeLine;
use dvg_spelling::{Answer, Outcome, Report, Why};

/// Why a recipe is not accepted, by the lines of its text.
#[derive(Clone, Copy, Debug)]
pub enum RecipeNo {
    /// 51 to 56: a line of its text is wrong.
    Text(RecipeTextFault),
    /// 49: the budget is 0, or over 1,000,000.
    BudgetRange,
    /// 1: the ROM has a wrong length.
    RomLength,
    /// 57: the longest list passes the end of its area at this line.
    TooLong { line: u32 },
    /// 60 to 62: the entry can't be made that the call of this line needs.
    Make { why: EntryFault, line: u32 },
    /// 59: from some place that may be known at this line, no size leads into the rectangle behind `to`; or the place is lost there, or the
    /// scale unknown.
    Stuck { line: u32 },
    /// 25: a shape that the recipe calls lights outside the window.
    Shape(ShapeFault),
    /// 44 to 48: some frame breaks a rule at this line.
    Frame { why: FrameWhy, line: u32 },
    /// There was no memory to judge it.
    NoMemory,
}

/// What a line says of a recipe.
pub type RecipeAnswer = Answer<RecipeNo>;

impl RecipeNo {
    /// The number of the refusal. 63 where there was no memory to judge it.
    pub fn number(&self) -> u8 {
        match *self {
            RecipeNo::Text(fault) => fault.number(),
            RecipeNo::BudgetRange => 49,
            RecipeNo::RomLength => 1,
            RecipeNo::TooLong { .. } => 57,
            RecipeNo::Make { why, .. } => MakeFault::from(why).number(),
            RecipeNo::Stuck { .. } => 59,
            RecipeNo::Shape(fault) => fault.number(),
            RecipeNo::Frame { why, .. } => why.number(),
            RecipeNo::NoMemory => 63,
        }
    }
}

impl Why for RecipeNo {
    ghost text = { λ no. recipe_no_text no };

    ghost outcome = { λ no. no_outcome no };

    fn push_to(&self, line: &mut Report) {
        match *self {
            RecipeNo::Text(fault) => line.push_refused_at(fault.number(), RecipeLine(fault.line)),
            RecipeNo::BudgetRange => line.push(b"refused 49"),
            RecipeNo::RomLength => line.push(b"refused 1"),
            RecipeNo::TooLong { line: at } => line.push_refused_at(57, RecipeLine(at)),
            RecipeNo::Make { why, line: at } => line.push_unmade(why, RecipeLine(at)),
            RecipeNo::Stuck { line: at } => line.push_refused_at(59, RecipeLine(at)),
            RecipeNo::Shape(fault) => {
                line.push_count(b"refused ", u32::from(fault.number()));
                line.push_entry_name(b" shape ", fault.addr, fault.key);
                line.push_address(b" at ", fault.word);
            }
            RecipeNo::Frame { why, line: at } => line.push_refused_at(why.number(), RecipeLine(at)),
            RecipeNo::NoMemory => line.push(b"out of memory"),
        }
    }

    fn outcome(&self) -> Outcome {
        match self {
            RecipeNo::Text(fault) if fault.why == RecipeTextWhy::Memory => Outcome::NoMemory,
            RecipeNo::Make {
                why: EntryFault::Memory,
                ..
            } => Outcome::NoMemory,
            RecipeNo::NoMemory => Outcome::NoMemory,
            _ => Outcome::Refused,
        }
    }
}

/// The line of a refusal for which no recipe is named, with its LF. Takes no memory.
pub fn refusal_line_of(no: &RecipeNo) -> Report
    ensures { result ≡ recipe_no_text no.now ++ codes "\n" }
{
    let mut line = Report::new();
    no.push_to(&mut line);
    line.ended()
}
