//! How far a box is from each edge of a window.

ghost use Rattle.std.specs.Prelude.{◌≡◌, ◌+ℤ◌, ◌<ℤ◌, pos, IfSome, IfNone};
ghost use Rattle.dvg_cert.specs.declared.entry.LitBox.TheVariants.{Empty};
ghost use Rattle.dvg_items.specs.Lit.{IsInside};
ghost use Rattle.dvg_check.specs.Leaving.{window_limits};
ghost use Rattle.dvg_survey.specs.Margins.{AreMargins, limits_box};

use dvg_cert::LitBox;
use dvg_check::Limits;
use dvg_items::box_corners;
use dvg_words::Window;

/// How far a box is from each edge of the window that it lies in, in 1/1024 of a screen place.
#[derive(Clone, Copy, Debug, PartialEq, Eq)]
pub struct Margins {
    pub left: u64,
    pub right: u64,
    pub bottom: u64,
    pub top: u64,
}

/// How far the first coordinate is below the second one; `None` where it is above it.
fn distance_up(low: i64, high: i64) -> Option<u64>
    ensures some { IfSome result (λ by. high ≡ low +ℤ pos by) }
    ensures none { IfNone result (high <ℤ low) }
{
    if high < low {
        None
    } else {
        Some(low.abs_diff(high))
    }
}

impl Margins {
    /// The margins of a box in a window; `None` where the box is empty or has a part outside the window.
    pub fn within(window: &Window, lit: &LitBox) -> Option<Margins>
        ensures some { IfSome result (AreMargins (window_limits window.now) lit.now) }
        ensures none { IfNone result (IsInside lit.now (limits_box (window_limits window.now)) → lit.now ≡ Empty) }
    {
        let (low, high) = box_corners(lit)?;
        let limits = Limits::of_window(window);
        Some(Margins {
            left: distance_up(limits.x_min, low.x)?,
            right: distance_up(high.x, limits.x_max)?,
            bottom: distance_up(limits.y_min, low.y)?,
            top: distance_up(high.y, limits.y_max)?,
        })
    }
}
