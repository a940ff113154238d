//! How many clocks what stands before a point of a recipe may take at most, by the known scale there.

ghost use Rattle.std.specs.Prelude.{◌≡◌, Some};
ghost use Rattle.dvg_cert.specs.Entry.{IsKey};
ghost use Rattle.dvg_clocks.specs.declared.clocks.ClockRange.{ClockRange as Clocks};
ghost use Rattle.dvg_recipe.specs.Private.Clocks.{AreNoMore, IsUnder, greater, joined_clocks, most_at};

use dvg_cert::Key;
use dvg_clocks::ClockRange;

/// What the frames of a recipe may have taken at most before a point, by the known scale there: the greatest least, and the greatest most.
/// `None` at a scale that no frame has there.
#[derive(Clone, Copy)]
pub struct MostClocks {
    /// At each of the global scales 0 to 15.
    at: [Option<ClockRange>; 16],
    /// At unknown scale.
    any: Option<ClockRange>,
}

/// Each end the greater one of two.
fn greater(one: ClockRange, other: ClockRange) -> ClockRange
    ensures { result ≡ greater one other }
{
    ClockRange {
        least: one.least.max(other.least),
        most: one.most.max(other.most),
    }
}

/// The most with one range more.
fn joined(old: Option<ClockRange>, more: ClockRange) -> ClockRange
    ensures { result ≡ joined_clocks old more }
{
    match old {
        Some(old) => greater(old, more),
        None => more,
    }
}

impl MostClocks {
    /// No frame has any scale.
    pub const NONE: MostClocks = MostClocks {
        at: [None; 16],
        any: None,
    };

    /// The most at a scale.
    pub fn at(&self, scale: Key) -> Option<ClockRange>
        requires { IsKey scale }
        ensures { result ≡ most_at self.now scale }
    {
        match scale {
            Key::At(scale) => self.at[usize::from(scale)],
            Key::Any => self.any,
        }
    }

    /// Adds what may be taken at a scale.
    pub fn add(&mut self, scale: Key, clocks: ClockRange)
        requires { IsKey scale }
        ensures added { IsUnder clocks (most_at self.new scale) }
        ensures kept { AreNoMore self.old self.new }
    {
        match scale {
            Key::At(scale) => {
                let index = usize::from(scale);
                self.at[index] = Some(joined(self.at[index], clocks));
            }
            Key::Any => self.any = Some(joined(self.any, clocks)),
        }
    }

    /// Adds what may be taken at a scale in other frames, if any has it.
    fn add_from(&mut self, more: &MostClocks, scale: Key)
        requires { IsKey scale }
        ensures added { (n : Clocks) → IsUnder n (most_at more.now scale) → IsUnder n (most_at self.new scale) }
        ensures kept { AreNoMore self.old self.new }
    {
        if let Some(clocks) = more.at(scale) {
            self.add(scale, clocks);
        }
    }

    /// Adds what may be taken in other frames.
    pub fn add_all(&mut self, more: &MostClocks)
        ensures added { AreNoMore more.now self.new }
        ensures kept { AreNoMore self.old self.new }
    {
        for scale in 0..16u8 {
            self.add_from(more, Key::At(scale));
        }
        self.add_from(more, Key::Any);
    }

    /// The most at all scales; nothing if no frame has any.
    pub fn greatest(&self) -> ClockRange
        ensures { (scale : Key) (n : Clocks) → IsUnder n (most_at self.now scale) → IsUnder n (Some result) }
    {
        let mut most = ClockRange::ZERO;
        for scale in 0..16u8 {
            most = joined(self.at(Key::At(scale)), most);
        }
        joined(self.any, most)
    }
}
