//! Sets of indices of items, as rising lists.

ghost use Rattle.std.specs.Prelude.{◌≡◌, [], ◌∷◌, IfOk, false};
ghost use Rattle.dvg_recipe.specs.Private.Indices.{IsJoined};

use std::alloc::AllocError;

/// Whether an index is past all of a set.
fn is_past(set: &[usize], index: usize) -> bool {
    match set.last() {
        Some(&last) => last < index,
        None => true,
    }
}

/// Adds an index to a set. Whether it was new.
#[inline(always)]
pub fn add(set: &mut Vec<usize>, index: usize) -> Result<bool, AllocError>
    ensures joined { IfOk result (λ _. IsJoined set.old.items (index ∷ []) set.new.items) }
    ensures same { IfOk result (λ is_new. is_new ≡ false → set.new.items ≡ set.old.items) }
{
    if is_past(set, index) {
        set.push(index)?;
        return Ok(true);
    }
    match set.binary_search(&index) {
        Ok(_) => Ok(false),
        Err(place) => {
            set.insert(place, index)?;
            Ok(true)
        }
    }
}

/// Adds all indices of another set. Whether some of them was new.
#[inline(always)]
pub fn add_all(set: &mut Vec<usize>, more: &[usize]) -> Result<bool, AllocError>
    ensures joined { IfOk result (λ _. IsJoined set.old.items more.now set.new.items) }
    ensures same { IfOk result (λ grown. grown ≡ false → set.new.items ≡ set.old.items) }
{
    let mut grown = false;
    for index in more {
        let is_new = add(set, *index)?;
        grown = grown || is_new;
    }
    Ok(grown)
}

/// Makes a set of just these indices.
pub fn set_to(set: &mut Vec<usize>, indices: &[usize]) -> Result<(), AllocError>
    ensures { IfOk result (λ _. set.new.items ≡ indices.now) }
{
    set.clear();
    set.extend_from_slice(indices)
}
