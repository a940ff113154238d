//! Where the beam goes. Places are in units of 1/1024 of a screen place, and y grows upwards (profile).

ghost use Rattle.std.specs.Prelude.{ℤ, ◌≡◌, ◌≤◌, pos, negsuc, neg_ℤ, ◌+◌, ◌*◌, ◌^◌, ◌+ℤ◌, ◌≤ℤ◌, ◌*ℤ◌, FitsSigned};
ghost use Rattle.std.specs.Int.{w64};
ghost use Rattle.dvg_words.specs.Beam.{axis_move, effective_scale, factor, rounded_move, displacement, shift, labs_coordinate, labs_place, IsWithin};
ghost use Rattle.dvg_words.specs.Values.{Profile, Board};

use crate::instruction::Draw;
use crate::machine::Machine;

/// A place of the beam, or a move, in units of 1/1024 of a screen place.
#[derive(Clone, Copy, Debug, PartialEq, Eq)]
pub struct Point {
    pub x: i64,
    pub y: i64,
}

impl Point {
    /// The place 0, 0. As a move it leaves the beam where it is.
    pub const ORIGIN: Point = Point { x: 0, y: 0 };
}

/// The place that a move leads to from a place.
pub fn shift(place: &Point, by: &Point) -> Point
    requires x { FitsSigned w64 (place.now.x +ℤ by.now.x) }
    requires y { FitsSigned w64 (place.now.y +ℤ by.now.y) }
    ensures { result ≡ shift place.now by.now }
{
    Point {
        x: place.x + by.x,
        y: place.y + by.y,
    }
}

/// Where a field of a LABS, 0 to 4095, sets the beam on an axis of a machine. The board loads it as two's complement of twelve bits.
fn labs_coordinate(machine: Machine, field: u16) -> i64
    ensures value { result ≡ labs_coordinate machine field }
    ensures low { neg_ℤ (pos (2 ^ 31)) ≤ℤ result }
    ensures high { result ≤ℤ pos (2 ^ 31) }
{
    let greatest = match machine {
        Machine::Profile => u16::MAX,
        Machine::Board => 2047,
    };
    if field > greatest {
        1024 * (i64::from(field) - 4096)
    } else {
        1024 * i64::from(field)
    }
}

/// Where a LABS of these fields, 0 to 4095, sets the beam on a machine, in units of 1/1024 of a screen place.
pub fn labs_place(machine: Machine, x: u16, y: u16) -> Point
    ensures value { result ≡ labs_place machine x y }
    ensures near { IsWithin (2 ^ 31) result }
{
    Point {
        x: labs_coordinate(machine, x),
        y: labs_coordinate(machine, y),
    }
}

/// The effective scale of a draw, 0 to 15: its local scale and the global one, modulo 16.
fn effective_scale(local: u8, global: u8) -> u8
    requires local { local ≤ 9 }
    requires global { global ≤ 15 }
    ensures value { result ≡ effective_scale local global }
    ensures small { result ≤ 15 }
{
    (local + global) % 16
}

/// The factor of a draw's sizes, 1 to 1024, at a local scale of 0 to 9 and a global scale of 0 to 15. Size times factor is in
/// units of 1/1024 of a screen place (profile).
#[tactic(auto, using(crate::proofs::Rounding::lossless, std::proofs::lemmas::Int::ints, std::proofs::lemmas::Bool::Decides::nat_tests))]
pub fn factor(local: u8, global: u8) -> u16
    requires local { local ≤ 9 }
    requires global { global ≤ 15 }
    ensures value { result ≡ factor local global }
    ensures small { result ≤ 1024 }
{
    match effective_scale(local, global) {
        scale @ 0..=9 => 2 << scale,
        _ => 1,
    }
}

/// A size of a draw, multiplied by a factor.
fn scaled(size: i16, factor: u16) -> i64
    requires size_low { negsuc 1022 ≤ℤ size }
    requires size_high { size ≤ℤ pos 1023 }
    requires factor { factor ≤ 1024 }
    ensures value { result ≡ size *ℤ pos factor }
    ensures low { neg_ℤ (pos (1023 * 1024)) ≤ℤ result }
    ensures high { result ≤ℤ pos (1023 * 1024) }
{
    i64::from(size) * i64::from(factor)
}

/// 2048 times the factor at an effective scale of 0 to 9, and 1.
#[tactic(auto, using(crate::proofs::Rounding::lossless))]
fn finer_factor(scale: u8) -> u32
    requires { scale ≤ 9 }
    ensures value { result ≡ 2048 * 2 ^ (scale + 1) + 1 }
{
    (4096 << scale) + 1
}

/// A size of a draw at an effective scale of 0 to 9, multiplied by the factor, and the size once more, in units that are 1/2048 of
/// those of the product.
fn finer(size: i16, scale: u8) -> i64
    requires size_low { negsuc 1022 ≤ℤ size }
    requires size_high { size ≤ℤ pos 1023 }
    requires scale { scale ≤ 9 }
    ensures value { result ≡ size *ℤ pos (2048 * 2 ^ (scale + 1) + 1) }
    ensures low { negsuc 2147483647 ≤ℤ result }
    ensures high { result ≤ℤ pos 2147483648 }
{
    i64::from(size) * i64::from(finer_factor(scale))
}

/// A size of a draw at an effective scale of 0 to 9, multiplied by the factor, the distance rounded half up to whole screen places.
#[tactic(auto, using(crate::proofs::Rounding::rounds_at))]
fn rounded_move(size: i16, scale: u8) -> i64
    requires size_low { negsuc 1022 ≤ℤ size }
    requires size_high { size ≤ℤ pos 1023 }
    requires scale { scale ≤ 9 }
    ensures value { result ≡ rounded_move (size *ℤ pos (2 ^ (scale + 1))) }
    ensures low { neg_ℤ (pos (1023 * 1024)) ≤ℤ result }
    ensures high { result ≤ℤ pos (1023 * 1024) }
{
    // Half a place is added, and what is then over a whole place dropped. The size once more is less than one of the units, but away
    // from 0: so halves go away from 0 to the left and down, too.
    let places = (finer(size, scale) + 2048 * 512).div_euclid(2048 * 1024);
    1024 * places
}

/// How far a draw moves the beam on a machine at a global scale of 0 to 15, in units of 1/1024 of a screen place.
#[tactic(auto, unfolding(crate::specs::Beam::displacement), using(std::proofs::lemmas::Bool::Decides::nat_tests))]
pub fn draw_move(machine: Machine, draw: &Draw, gscale: u8) -> Point
    requires { gscale ≤ 15 }
    ensures value { result ≡ displacement machine draw.now gscale }
    ensures near { IsWithin (2 ^ 31) result }
    ensures least { IsWithin (1023 * 1024) result }
{
    match machine {
        Machine::Profile => {
            let factor = factor(draw.lscale, gscale);
            Point {
                x: scaled(draw.dx, factor),
                y: scaled(draw.dy, factor),
            }
        }
        Machine::Board => match effective_scale(draw.lscale, gscale) {
            scale @ 0..=9 => Point {
                x: rounded_move(draw.dx, scale),
                y: rounded_move(draw.dy, scale),
            },
            _ => Point::ORIGIN,
        },
    }
}

/// How far a draw moves the beam on a machine at a global scale of 0 to 15, as (x, y) in units of 1/1024 of a screen place.
pub fn displacement_on(machine: Machine, draw: &Draw, gscale: u8) -> (i32, i32)
    requires { gscale ≤ 15 }
    ensures x { result.0 ≡ (displacement machine draw.now gscale).x }
    ensures y { result.1 ≡ (displacement machine draw.now gscale).y }
{
    let by = draw_move(machine, draw, gscale);
    (by.x as i32, by.y as i32)
}

/// How far a draw moves the beam on the profile's machine at a global scale of 0 to 15, as (x, y) in units of 1/1024 of a screen
/// place.
pub fn displacement(draw: &Draw, gscale: u8) -> (i32, i32)
    requires { gscale ≤ 15 }
    ensures x { result.0 ≡ (displacement Profile draw.now gscale).x }
    ensures y { result.1 ≡ (displacement Profile draw.now gscale).y }
{
    displacement_on(Machine::Profile, draw, gscale)
}
