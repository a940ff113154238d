//! Laws over the definitions alone: worked recipes. Each is the contract of a function that does nothing.

ghost use Rattle.dvg_recipe.specs.Examples.{WorkedMembers, WorkedRecipes};

/// A worked recipe of all kinds of pieces: a frame belongs to it, by items that are written out; one with a place past the range does
/// not, nor does one with a turn too many.
pub fn worked_members()
    ensures { WorkedMembers }
{}

/// A worked recipe with one place for each Y up to some, and a call there: with places up to Y 256 each of its frames is all that a yes
/// means, with at most seven words and one return place; with places up to Y 257 a frame of it is refused with 46.
pub fn worked_recipes()
    ensures { WorkedRecipes }
{}
