//! The window that a word of the command line spells.

ghost use Rattle.std.specs.Prelude.{◌≤◌, ◌≡◌, ◌∷◌, ◌++◌, ℕ, List, decimal, IfSome, IfNone};
ghost use Rattle.dvg_words.specs.Values.{Window as Places};
ghost use Rattle.dvg_spelling.specs.Arguments.{IsWindowText};

use dvg_text::read_decimal;
use dvg_words::Window;

/// What stands between the places of a window.
const COMMA: char = ',';

/// The screen place that a word spells.
fn place_of(word: &str) -> Option<u16>
    ensures some { IfSome result (λ n. (n ≤ 1023) × (word.now ≡ decimal n)) }
    ensures none { IfNone result ((n : ℕ) → n ≤ 1023 → word.now ≡ decimal n → ⊥) }
{
    read_decimal(word.as_bytes(), 1023)
}

/// The screen place that stands before the first comma, and what follows that.
fn place_before_comma(text: &str) -> Option<(u16, &str)>
    ensures some { IfSome result (λ read. (read.0 ≤ 1023) × (text.now ≡ decimal read.0 ++ COMMA ∷ read.1.now)) }
    ensures none { IfNone result ((n : ℕ) (rest : List ℕ) → n ≤ 1023 → text.now ≡ decimal n ++ COMMA ∷ rest → ⊥) }
{
    let (place, rest) = text.split_once(COMMA)?;
    Some((place_of(place)?, rest))
}

/// The window that a word of the command line spells: its least and its greatest screen place across, and those up, each 0 to 1023
/// as a decimal without leading zeros, with commas between; `None` for any other word, and where a least place is over its
/// greatest.
pub fn window_of(text: &str) -> Option<Window>
    ensures some { IfSome result (IsWindowText text.now) }
    ensures none { IfNone result ((w : Places) → IsWindowText text.now w → ⊥) }
{
    let (x_min, rest) = place_before_comma(text)?;
    let (x_max, rest) = place_before_comma(rest)?;
    let (y_min, y_max) = place_before_comma(rest)?;
    Window::new(x_min, x_max, y_min, place_of(y_max)?)
}
