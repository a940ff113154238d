//! Why a text was not written.

ghost use Rattle.std.specs.Prelude.{◌≡◌};
ghost use Rattle.dvg_text.specs.Numbers.{write_number};

use thiserror::Error;

/// Why a text was not written.
#[derive(Clone, Copy, Debug, PartialEq, Eq, Error)]
pub enum WriteFault {
    /// Refusal 17: the writer failed, or took no byte.
    #[error("the writer failed")]
    Device,
}

impl WriteFault {
    /// The number of the refusal, 17.
    pub fn number(self) -> u8
        ensures { result ≡ write_number self }
    {
        match self {
            WriteFault::Device => 17,
        }
    }
}
