//! Least boxes, one item after another.

ghost use Rattle.std.specs.Prelude.{List, ◌++◌};
ghost use Rattle.dvg_words.specs.declared.map.TheConstants.{ADDRESS_END};
ghost use Rattle.dvg_words.specs.declared.beam.Point.{Point};
ghost use Rattle.dvg_items.specs.Lit.{relative_corners};
ghost use Rattle.dvg_items.specs.Bounds.{IsNearPlace, IsNearExtent};
ghost use Rattle.dvg_items.specs.Least.{IsLeast};

use dvg_cert::{End, LitBox};
use dvg_items::{LitExtent, relative_corners, widened};

/// Widens the least box of some lit places to the least box of these and of what an item lights from a relative place.
pub fn boxed(lit: &LitBox, extent: &LitExtent, place: &End) -> LitBox
    requires place { IsNearPlace ADDRESS_END place.now }
    requires extent { IsNearExtent extent.now }
    ensures { (ps : List Point) → IsLeast ps lit.now → IsLeast (relative_corners extent.now place.now ++ ps) result }
{
    match relative_corners(extent, place) {
        Some((from, to)) => widened(lit, &from, &to),
        None => *lit,
    }
}
