//! The law of look-ups, proved over the definitions alone.

ghost use Rattle.dvg_cert.specs.Laws.{OnlyEntry};

/// The entry that is found at an address and key is the only one there, and where none is found none is.
pub fn only_entry()
    ensures { OnlyEntry }
{}
