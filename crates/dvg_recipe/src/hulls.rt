//! Sets of hulls: at most one for each scale.

ghost use Rattle.std.specs.Prelude.{◌≡◌, [], ◌∷◌, IfOk, IfSome};
ghost use Rattle.dvg_recipe.specs.Private.Hulls.{AreUnder, HasScaleAt, joined};

use crate::hull::Hull;
use crate::rectangles::joined_places;
use dvg_cert::Key;
use std::alloc::AllocError;

/// The least hull that has two others of one scale.
pub fn joined(one: &Hull, other: &Hull) -> Hull
    ensures { result ≡ joined one.now other.now }
{
    Hull {
        scale: one.scale,
        places: joined_places(&one.places, &other.places),
        words: one.words.max(other.words),
        depth: one.depth.max(other.depth),
    }
}

/// Where the hull of a scale stands in a set that has a hull for each of the scales from 0 on.
fn usual_index(scale: Key) -> usize {
    match scale {
        Key::At(scale) => usize::from(scale),
        Key::Any => 0,
    }
}

/// Where the hull of a scale stands.
fn index_of(hulls: &[Hull], scale: Key) -> Option<usize>
    ensures { IfSome result (HasScaleAt hulls.now scale) }
{
    let usual = usual_index(scale);
    match hulls.get(usual) {
        Some(hull) if hull.scale == scale => return Some(usual),
        _ => {}
    }
    for (index, hull) in hulls.iter().enumerate() {
        if hull.scale == scale {
            return Some(index);
        }
    }
    None
}

/// Adds what a hull has.
pub fn add(hulls: &mut Vec<Hull>, hull: &Hull) -> Result<(), AllocError>
    ensures kept { IfOk result (λ _. AreUnder hulls.old.items hulls.new.items) }
    ensures added { IfOk result (λ _. AreUnder (hull.now ∷ []) hulls.new.items) }
{
    match index_of(hulls, hull.scale) {
        Some(index) => {
            let old = hulls[index];
            hulls[index] = joined(&old, hull);
        }
        None => hulls.push(*hull)?,
    }
    Ok(())
}

/// Adds what other hulls have.
#[inline(never)]
pub fn add_all(hulls: &mut Vec<Hull>, more: &[Hull]) -> Result<(), AllocError>
    ensures kept { IfOk result (λ _. AreUnder hulls.old.items hulls.new.items) }
    ensures added { IfOk result (λ _. AreUnder more.now hulls.new.items) }
{
    for hull in more {
        add(hulls, hull)?;
    }
    Ok(())
}
