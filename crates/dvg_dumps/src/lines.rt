//! The lines of an address or of a byte, each by its weight: 1 for A0 or D0, 2 for A1 or D1, and so on.

ghost use Rattle.std.specs.Prelude.{◌≡◌};
ghost use Rattle.dvg_dumps.specs.Lines.{blank, crossed, has_level, inverted, is_high, stuck};

/// The level of a line.
#[derive(Clone, Copy, Debug, PartialEq, Eq)]
pub enum Level {
    Low,
    High,
}

/// Whether a line is high.
pub fn is_high(n: u16, line: u16) -> bool
    ensures { result ≡ is_high n line }
{
    n & line != 0
}

/// Whether a line has this level.
pub fn has_level(n: u16, line: u16, level: Level) -> bool
    ensures { result ≡ has_level n line level }
{
    match level {
        Level::Low => !is_high(n, line),
        Level::High => is_high(n, line),
    }
}

/// With a line that always has this level.
pub fn stuck(n: u16, line: u16, level: Level) -> u16
    ensures { result ≡ stuck n line level }
{
    match level {
        Level::Low => n & (u16::MAX - line),
        Level::High => n | line,
    }
}

/// With a line inverted; with several, if this is the sum of their weights.
pub fn inverted(n: u16, line: u16) -> u16
    ensures { result ≡ inverted n line }
{
    n ^ line
}

/// With two lines exchanged.
pub fn crossed(n: u16, one: u16, other: u16) -> u16
    ensures { result ≡ crossed n one other }
{
    if is_high(n, one) == is_high(n, other) {
        n
    } else {
        inverted(inverted(n, one), other)
    }
}

/// The byte of which all lines have this level.
pub fn blank(level: Level) -> u16
    ensures { result ≡ blank level }
{
    match level {
        Level::Low => 0,
        Level::High => 255,
    }
}
