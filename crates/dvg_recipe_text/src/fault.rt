//! Why the text of a recipe is refused.

ghost use Rattle.std.specs.Prelude.{◌≡◌};
ghost use Rattle.dvg_recipe_text.specs.Faults.{text_number};
ghost use Rattle.dvg_recipe_text.specs.declared.fault.RecipeTextWhy.TheVariants.{Memory};

use std::alloc::{AllocError, AllocFailed};
use thiserror::Error;

/// What is wrong with a line of a recipe.
#[derive(Clone, Copy, Debug, PartialEq, Eq, Error)]
pub enum RecipeTextWhy {
    /// Refusal 51: it is of none of the forms that may stand here.
    #[error("no line of this form may stand here")]
    Form,
    /// Refusal 52: a name is neither defined above nor a label's.
    #[error("a name is not defined above")]
    Undefined,
    /// Refusal 52: a name is that of labels at several words.
    #[error("a name is that of labels at several words")]
    Several,
    /// Refusal 52: its name is defined above.
    #[error("the name is defined twice")]
    DefinedTwice,
    /// Refusal 53: the text ends here, before a HALT's line or within a line.
    #[error("the text ends too early")]
    Unended,
    /// Refusal 54: it stands behind the HALT's line.
    #[error("it stands behind `halt`")]
    After,
    /// Refusal 55: it has over 200 bytes, or would have when printed.
    #[error("the line is too long")]
    LineTooLong,
    /// Refusal 55: it is the 4,097th.
    #[error("there are too many lines")]
    TooManyLines,
    /// Refusal 55: its block is in sixteen others.
    #[error("there are too many blocks, one in another")]
    TooDeep,
    /// Refusal 55: a piece of it is the 4,097th.
    #[error("there are too many pieces")]
    TooManyPieces,
    /// Refusal 55: with a piece of it the recipe, its repeats written out, has over 262,144 instructions to choose from.
    #[error("there are too many instructions to choose from")]
    TooManyOptions,
    /// Refusal 56: there was no memory for it.
    #[error("there is no memory for the line")]
    Memory,
}

impl RecipeTextWhy {
    /// The number of the refusal, 51 to 56.
    pub fn number(self) -> u8
        ensures { result ≡ text_number self }
    {
        match self {
            RecipeTextWhy::Form => 51,
            RecipeTextWhy::Undefined | RecipeTextWhy::Several | RecipeTextWhy::DefinedTwice => 52,
            RecipeTextWhy::Unended => 53,
            RecipeTextWhy::After => 54,
            RecipeTextWhy::LineTooLong
            | RecipeTextWhy::TooManyLines
            | RecipeTextWhy::TooDeep
            | RecipeTextWhy::TooManyPieces
            | RecipeTextWhy::TooManyOptions => 55,
            RecipeTextWhy::Memory => 56,
        }
    }
}

impl From<AllocError> for RecipeTextWhy {
    ghost from_gives = { λ _ why. why ≡ Memory };

    fn from(_error: AllocError) -> RecipeTextWhy {
        RecipeTextWhy::Memory
    }
}

impl<T: Drop> From<AllocFailed<T>> for RecipeTextWhy {
    ghost from_gives = { λ _ why. why ≡ Memory };

    fn from(_error: AllocFailed<T>) -> RecipeTextWhy {
        RecipeTextWhy::Memory
    }
}

/// A refused text of a recipe: the line, counted from 1, and what is wrong with it.
#[derive(Clone, Copy, Debug, PartialEq, Eq, Error)]
#[error("line {line}: {why}")]
pub struct RecipeTextFault {
    pub line: u32,
    pub why: RecipeTextWhy,
}

impl RecipeTextFault {
    /// The number of the refusal, 51 to 56.
    pub fn number(self) -> u8
        ensures { result ≡ text_number self.why }
    {
        self.why.number()
    }
}
