//! Reading texts of recipes and frames to their limits.

ghost use Rattle.std.specs.Prelude.{◌≡◌, ◌⊎◌, IfOk, IfErr};
ghost use Rattle.dvg_text.specs.Devices.{count_after};
ghost use Rattle.dvg_recipe_cmd.specs.Recipes.{ReadsRecipe, is_unread_recipe};

use dvg_cmd::fill;
use dvg_labels::Labels;
use dvg_recipe_text::{ReadRecipe, RecipeTextFault, read_recipe};
use dvg_spelling::RunFault;
use dvg_text::CountedRead;
use std::alloc::Global;

/// How many bytes of a text are read at once.
const PIECE: usize = 4096;

/// How many bytes of a text are read at most. No text is read that has so many, and none is answered otherwise for what
/// stands behind them: 4,097 lines have 819,400 bytes at most.
const MOST_READ: usize = 201 * PIECE;

/// The text that a reader holds, or as much of it as is read of any.
pub fn read_text<R: CountedRead>(alloc: Global, reader: &mut R) -> Result<Vec<u8>, RunFault>
    ensures ok { IfOk result (λ text. ReadsRecipe (R.remaining reader.old) (R.remaining reader.new) text.items) }
    ensures fault { IfErr result (λ fault. (fault ≡ RunFault.ReadRecipe) ⊎ (fault ≡ RunFault.Memory)) }
    ensures count { R.failures reader.new ≡ count_after (is_unread_recipe result) (R.failures reader.old) }
{
    let mut text = Vec::new(alloc);
    let mut piece = [0; PIECE];
    let mut left = MOST_READ;
    'reading: while left > 0 {
        let room = left.min(PIECE);
        let Ok(len) = fill(reader, &mut piece[..room]) else {
            return Err(RunFault::ReadRecipe);
        };
        text.extend_from_slice(&piece[..len])?;
        left = if len == room { left - room } else { 0 };
    }
    Ok(text)
}

/// The recipe whose text a reader holds, by these labels, or the fault of its text.
pub fn load_recipe<R: CountedRead>(
    alloc: Global,
    recipe: &mut R,
    labels: Option<&Labels>,
) -> Result<Result<ReadRecipe, RecipeTextFault>, RunFault>
    ensures count { R.failures recipe.new ≡ count_after (is_unread_recipe result) (R.failures recipe.old) }
{
    let text = read_text(alloc, recipe)?;
    Ok(read_recipe(alloc, &text, labels))
}
