//! Values that words of the command line spell: roots, maps and starts.

ghost use Rattle.std.specs.Prelude.{ℕ, IfSome, IfNone};
ghost use Rattle.dvg_words.specs.Values.{MemoryMap};
ghost use Rattle.dvg_cert.specs.declared.entry.Key.{Key as KeyValue};
ghost use Rattle.dvg_spelling.specs.Arguments.{IsRoot, IsMapText, IsStart};

use dvg_cert::Key;
use dvg_text::{read_address, read_key};
use dvg_words::RomMap;

/// The root that a word of the command line spells, as reports name entries: three hexadecimal digits in capitals, a slash,
/// and a scale of 0 to 15 or `any`.
pub fn root_of(text: &str) -> Option<(u16, Key)>
    ensures some { IfSome result (λ root. IsRoot text.now root.0 root.1) }
    ensures none { IfNone result ((addr : ℕ) (key : KeyValue) → IsRoot text.now addr key → ⊥) }
{
    let [a, b, c, b'/', key @ ..] = text.as_bytes() else {
        return None;
    };
    let addr = read_address(&[*a, *b, *c])?;
    let key = read_key(key)?;
    Some((addr, key))
}

/// The map that a word of the command line spells: the word addresses of the ROM's first and last word, each of three hexadecimal
/// digits in capitals, with a slash between; `None` for any other word, and unless 400 <= first <= last <= BFF.
pub fn map_of(text: &str) -> Option<RomMap>
    ensures some { IfSome result (λ map. IsMapText text.now map) }
    ensures none { IfNone result ((map : MemoryMap) → IsMapText text.now map → ⊥) }
{
    let [a, b, c, b'/', d, e, f] = text.as_bytes() else {
        return None;
    };
    let first = read_address(&[*a, *b, *c])?;
    let last = read_address(&[*d, *e, *f])?;
    RomMap::new(first, last)
}

/// The word address that a word of the command line spells: three hexadecimal digits in capitals.
pub fn start_of(text: &str) -> Option<u16>
    ensures some { IfSome result (IsStart text.now) }
    ensures none { IfNone result ((addr : ℕ) → IsStart text.now addr → ⊥) }
{
    let [a, b, c] = text.as_bytes() else {
        return None;
    };
    read_address(&[*a, *b, *c])
}
