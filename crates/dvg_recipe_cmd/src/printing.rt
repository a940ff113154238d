//! Writing the one spelling of a recipe's text.

use crate::answer::{RecipeAnswer, RecipeNo};
use crate::reading::read_text;
use dvg_labels::Labels;
use dvg_recipe_text::print_recipe;
use dvg_spelling::{Answer, Outcome, RunFault};
use dvg_text::{CountedRead, CountedWrite, write_bytes, write_lines};
use std::alloc::Global;

/// Reads the text of a recipe, and writes its one spelling; or, to the other writer, the line of its refusal, which begins with the name.
pub fn run_print<R: CountedRead, W: CountedWrite, E: CountedWrite>(
    alloc: Global,
    name: &str,
    recipe: &mut R,
    labels: Option<&Labels>,
    out: &mut W,
    refusals: &mut E,
) -> Result<Outcome, RunFault> {
    let text = read_text(alloc, recipe)?;
    match print_recipe(alloc, &text, labels) {
        Ok(printed) => {
            write_bytes(&printed, out)?;
            Ok(Outcome::Accepted)
        }
        Err(fault) => {
            let answer: RecipeAnswer = Answer::Judged(Err(RecipeNo::Text(fault)));
            let line = answer.line();
            write_lines(name.as_bytes(), line.as_bytes(), &[], refusals)?;
            Ok(answer.outcome())
        }
    }
}
