//! A law over the definitions alone, proved as the contract of a function with an empty body.

ghost use Rattle.dvg_cmd.specs.Laws.{StartIsJump};

/// The word that a start puts in at word 000 is the JMPL to that word address.
pub fn start_is_jump()
    ensures { StartIsJump }
{}
