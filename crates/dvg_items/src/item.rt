//! Items: instructions at their word addresses.

ghost use Rattle.std.specs.Prelude.{◌≡◌, ◌<◌};
ghost use Rattle.dvg_words.specs.declared.map.TheConstants.{ADDRESS_END};
ghost use Rattle.dvg_items.specs.Items.{next_address};
ghost use Rattle.dvg_items.specs.Known.{target};

use dvg_words::{Format, Instr};

/// Whether items are of a shape or of a frame.
#[derive(Clone, Copy)]
pub enum Kind {
    Shape,
    Frame,
}

/// The word address of an instruction's first word, and the instruction.
#[derive(Clone, Copy)]
pub struct Item {
    pub at: u16,
    pub format: Format,
    pub instr: Instr,
}

impl Item {
    /// The word address of the next item: past this one's words, or where a frame's jump leads. `None` after the last item: HALT,
    /// RTSL, a shape's JMPL, or a frame's JMPL to its own address or a lower one (profile).
    #[inline(always)]
    pub fn next_address(&self, kind: Kind) -> Option<u16>
        requires { self.now.at < ADDRESS_END }
        ensures { result ≡ next_address kind self.now }
    {
        match (kind, self.instr) {
            (_, Instr::Halt | Instr::Rtsl) | (Kind::Shape, Instr::Jmpl { .. }) => None,
            (Kind::Frame, Instr::Jmpl { to }) => { if self.at < to { Some(to) } else { None } }
            _ => Some(self.at + self.format.words()),
        }
    }
}

/// The word address to which a call or a shape's tail jump leads. `None` for every other instruction.
#[inline(always)]
pub fn target(kind: Kind, instr: &Instr) -> Option<u16>
    ensures { result ≡ target kind instr.now }
{
    match (kind, instr) {
        (_, Instr::Jsrl { to }) | (Kind::Shape, Instr::Jmpl { to }) => Some(*to),
        _ => None,
    }
}
