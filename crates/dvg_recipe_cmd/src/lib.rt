//! Runs over recipes, and over frames that may be theirs, with readers and writers.
//!
//! [`run_recipes`] judges recipe after recipe over a vector ROM on the board, and writes a line for each. [`run_recipe_for_witness`] judges
//! one, and writes a frame that shows why it is refused. [`run_belongs`] tells of frame after frame whether it is one of a recipe's, and
//! [`run_print`] writes the one spelling of a recipe's text.
#![tactic(auto)]

mod account;
mod answer;
mod frames;
mod judging;
mod membership;
mod printing;
mod reading;
mod recipes;
mod tally;
mod text_lines;

pub use answer::{RecipeAnswer, RecipeNo};
pub use dvg_recipe_text::{ReadRecipe, RecipeTextFault, RecipeTextWhy};
pub use frames::{Recorded, membership_of, ready, run_belongs};
pub use judging::{Explained, JudgedRecipe, RecipeOptions, Wanted, Witness, judge_text, time_text};
pub use membership::{Membership, membership_line_of, membership_outcome_of};
pub use printing::run_print;
pub use reading::load_recipe;
pub use recipes::{RecipeAsked, WitnessEnd, run_recipe_for_witness, run_recipes};
pub use tally::{BelongsTally, belongs_summary_of};
