//! Reading a text.

ghost use Rattle.std.specs.Prelude.{◌≡◌, ◌≤◌, ◌+◌, IfOk, IfErr, length};
ghost use Rattle.dvg_recipe_text.specs.declared.limits.TheConstants.{MOST_LINES};

use crate::fault::RecipeTextFault;
use crate::lines::cut_line;
use crate::reader::{ReadRecipe, Reader};
use dvg_labels::Labels;
use std::alloc::Global;

/// The recipe that a text describes, with the lines of its pieces, or the first line that is wrong, and why. A name that the recipe does
/// not define above is that of a label.
pub fn read_recipe(
    alloc: Global,
    text: &[u8],
    labels: Option<&Labels>,
) -> Result<ReadRecipe, RecipeTextFault>
    // each piece has its line: the HALT is the last one
    ensures lines { IfOk result (λ read. length read.lines.items ≡ read.recipe.halt + 1) }
    ensures line { IfErr result (λ fault. (1 ≤ fault.line) × (fault.line ≤ MOST_LINES + 1)) }
{
    let mut reader = Reader::new(alloc, labels);
    let mut rest = text;
    let mut line = 1;
    'reading: while let Some((bytes, behind)) = cut_line(rest) {
        if let Err(why) = reader.take_line(line, bytes) {
            return Err(RecipeTextFault { line, why });
        }
        rest = behind;
        line += 1;
    }
    reader.finish(line, rest)
}
