//! The text of recipes, read and printed.
//!
//! [`read_recipe`] reads a text: areas of lists, names of shapes, and a line for each item, block, jump and the HALT. It answers the
//! [`Recipe`](dvg_recipe::Recipe) with the line of each of its pieces, or the first line that is wrong, and why
//! ([`RecipeTextFault`]). [`print_recipe`] writes the one spelling of a text that is read.
#![tactic(auto)]

mod blocks;
mod fault;
mod instructions;
mod limits;
mod line;
mod lines;
mod names;
mod printing;
mod reader;
mod reading;
mod sequence;
mod words;

pub use fault::{RecipeTextFault, RecipeTextWhy};
pub use limits::{LONGEST_LINE, LONGEST_NAME, MOST_BLOCKS, MOST_LINES};
pub use printing::print_recipe;
pub use reader::ReadRecipe;
pub use reading::read_recipe;
