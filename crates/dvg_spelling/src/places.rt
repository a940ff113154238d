//! The lines of `places`.

ghost use Rattle.std.specs.Prelude.{◌≡◌, ◌+◌, ◌≤◌, ◌++◌, length};
ghost use Rattle.std.specs.Fmt.{signed_decimal};
ghost use Rattle.arrayvec.specs.ArrayVec.{array_vec_len};
ghost use Rattle.dvg_spelling.specs.Places.{place_line, places_text};

use crate::report::entry_name;
use arrayvec::ArrayVec;
use dvg_survey::{CallPlaces, EntryPlaces};
use dvg_text::push_bytes;
use itoa::Buffer;

/// A line of at most 256 bytes, its LF included.
pub type PlaceLine = ArrayVec<u8, 256>;

/// The line of the places of an entry's calls, with its LF. Takes no memory.
pub fn place_line_of(entry: &EntryPlaces) -> PlaceLine
    ensures { result.items ≡ place_line entry.now }
{
    let mut line = PlaceLine::new();
    push_bytes(&mut line, b"place ");
    push_bytes(
        &mut line,
        entry_name(entry.entry.addr, entry.entry.key).as_bytes(),
    );
    push_bytes(&mut line, b" ");
    push_places(&mut line, &entry.places);
    push_bytes(&mut line, b"\n");
    line
}

#[tactic(auto, using(crate::proofs::Lines::numbers))]
fn push_places(line: &mut PlaceLine, places: &CallPlaces)
    requires { array_vec_len line.old ≤ 73 }
    ensures text { line.new.items ≡ line.old.items ++ places_text places.now }
    ensures short { array_vec_len line.new ≤ array_vec_len line.old + 163 }
{
    match places {
        CallPlaces::Anywhere => push_bytes(line, b"anywhere"),
        CallPlaces::Nowhere => push_bytes(line, b"nowhere"),
        CallPlaces::Within(rectangle) => {
            push_number(line, b"", rectangle.x_min);
            push_number(line, b",", rectangle.x_max);
            push_number(line, b",", rectangle.y_min);
            push_number(line, b",", rectangle.y_max);
        }
    }
}

/// A number behind a text.
fn push_number(line: &mut PlaceLine, before: &[u8], number: i64)
    requires room { array_vec_len line.old + length before.now ≤ 216 }
    ensures text { line.new.items ≡ line.old.items ++ before.now ++ signed_decimal number }
    ensures short { array_vec_len line.new ≤ array_vec_len line.old + length before.now + 40 }
{
    push_bytes(line, before);
    push_bytes(line, Buffer::new().format(number).as_bytes());
}
