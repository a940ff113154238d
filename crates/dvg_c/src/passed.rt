//! What C passes: numbers of machines and of modes, and the ends of maps and of windows. Each is tested before it is used.

ghost use Rattle.std.specs.Prelude.{◌≡◌, ◌≤◌, ◌↔◌, IsTrue};
ghost use Rattle.dvg_words.specs.Values.{IsMap, IsWindow, IsFor};
ghost use Rattle.dvg_c.specs.Told.{Tested, machine_of, map_of, mode_of, window_of};

use dvg_check::Mode;
use dvg_words::{CLIPPED, Machine, RomMap, Window};

/// The fixed-point profile.
pub const PROFILE: u32 = 0;

/// A board of the DVG.
pub const BOARD: u32 = 1;

/// The machine that a number stands for; `None` where it stands for none.
pub fn machine_numbered(number: u32) -> Option<Machine>
    ensures { Tested (λ _. number ≤ BOARD) (machine_of number) result }
{
    match number {
        PROFILE => Some(Machine::Profile),
        BOARD => Some(Machine::Board),
        _ => None,
    }
}

/// Counts as bounds.
pub const BOUND: u32 = 0;

/// Counts as exact.
pub const EXACT: u32 = 1;

/// The mode that a number stands for; `None` where it stands for none.
pub fn mode_numbered(number: u32) -> Option<Mode>
    ensures { Tested (λ _. number ≤ EXACT) (mode_of number) result }
{
    match number {
        BOUND => Some(Mode::Bound),
        EXACT => Some(Mode::Exact),
        _ => None,
    }
}

/// The word addresses of a ROM's first and last word, which nothing has tested yet.
#[repr(C)]
#[derive(Clone, Copy)]
pub struct MapEnds {
    pub first: u16,
    pub last: u16,
}

/// The map between these ends; `None` unless 400 <= `first` <= `last` <= BFF.
pub fn map_between(ends: MapEnds) -> Option<RomMap>
    ensures { Tested IsMap (map_of ends) result }
{
    RomMap::new(ends.first, ends.last)
}

/// The ends of where strokes may be lit, in whole screen places, which nothing has tested yet.
#[repr(C)]
#[derive(Clone, Copy)]
pub struct WindowEnds {
    pub x_min: i16,
    pub x_max: i16,
    pub y_min: i16,
    pub y_max: i16,
}

/// The part of the screen between these ends; `None` where a least place is below 0 or over the greatest, or a greatest over 1023.
pub fn window_between(ends: WindowEnds) -> Option<Window>
    ensures { Tested IsWindow (window_of ends) result }
{
    let x_min = u16::try_from(ends.x_min).ok()?;
    let x_max = u16::try_from(ends.x_max).ok()?;
    let y_min = u16::try_from(ends.y_min).ok()?;
    let y_max = u16::try_from(ends.y_max).ok()?;
    Window::new(x_min, x_max, y_min, y_max)
}

/// Whether a window has just these ends.
fn are_ends_of(ends: WindowEnds, window: &Window) -> bool
    ensures { IsTrue result ↔ (window_of ends ≡ window.now) }
{
    ends.x_min == window.x_min()
        && ends.x_max == window.x_max()
        && ends.y_min == window.y_min()
        && ends.y_max == window.y_max()
}

/// The window between these ends for a machine: a part of the screen, or, on the board, what it clips; `None` for all other ends.
pub fn window_for(machine: Machine, ends: WindowEnds) -> Option<Window>
    ensures { Tested (IsFor machine) (window_of ends) result }
{
    if are_ends_of(ends, &CLIPPED) && CLIPPED.is_for(machine) {
        return Some(CLIPPED);
    }
    window_between(ends)
}
