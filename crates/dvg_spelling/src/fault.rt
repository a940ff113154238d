//! Why runs ended before what they write was written, or never began.

ghost use Rattle.std.specs.Prelude.{◌≡◌};
ghost use Rattle.dvg_spelling.specs.Faults.{run_number, make_run_number, frame_blamed, told_fault};
ghost use Rattle.dvg_spelling.specs.declared.fault.MakeRunFault.TheVariants as maker;
ghost use Rattle.dvg_make.specs.declared.fault.MakeFault.TheVariants as making;

use crate::status::text_of;
use dvg_make::{EntryFault, FrameCall, FramesFault, MakeFault};
use dvg_text::WriteFault;
use std::alloc::{AllocError, AllocFailed};
use thiserror::Error;

/// Why a run ended before its report was written, or never began. The numbers are 70 to 74.
#[derive(Clone, Copy, Debug, PartialEq, Eq, Error)]
#[error("{}", text_of(self))]
pub enum RunFault {
    /// 70: the ROM's reader failed.
    ReadRom,
    /// 71: the frame's reader failed.
    ReadFrame,
    /// 71: the recipe's reader failed.
    ReadRecipe,
    /// 72: the certificate's reader failed.
    ReadCert,
    /// 73: the writer failed, or took no byte.
    Write,
    /// 74: out of memory before the run, or for the text of rules. `run_check` never answers it: its own refusals for want of
    /// memory are outcomes.
    Memory,
}

impl RunFault {
    /// The number of the fault, 70 to 74.
    pub fn number(self) -> u8
        ensures { result ≡ run_number self }
    {
        match self {
            RunFault::ReadRom => 70,
            RunFault::ReadFrame | RunFault::ReadRecipe => 71,
            RunFault::ReadCert => 72,
            RunFault::Write => 73,
            RunFault::Memory => 74,
        }
    }
}

impl From<WriteFault> for RunFault {
    ghost use Rattle.std.specs.Prelude.{◌≡◌};
    ghost use Rattle.dvg_spelling.specs.declared.fault.RunFault.TheVariants.{Write};

    ghost from_gives = { λ _ fault. fault ≡ Write };

    fn from(_fault: WriteFault) -> RunFault {
        RunFault::Write
    }
}

impl From<AllocError> for RunFault {
    ghost use Rattle.std.specs.Prelude.{◌≡◌};
    ghost use Rattle.dvg_spelling.specs.declared.fault.RunFault.TheVariants.{Memory};

    ghost from_gives = { λ _ fault. fault ≡ Memory };

    fn from(_error: AllocError) -> RunFault {
        RunFault::Memory
    }
}

/// Why a run of the maker wrote no certificate, or only a prefix of one. A run for roots alone has no fault of a frame.
#[derive(Clone, Copy, Debug, PartialEq, Eq, Error)]
pub enum MakeRunFault {
    /// 1: the ROM has a wrong length.
    #[error("the ROM has a wrong length")]
    RomLength,
    /// 2: this frame, counted from 0, has a wrong length.
    #[error("the frame has a wrong length")]
    FrameLength { frame: usize },
    /// 60 to 63: no certificate is made, with no frame to blame.
    #[error("{0}")]
    Make(MakeFault),
    /// 60 to 63: the entry is not made that this call needs.
    #[error("{why}")]
    Call { call: FrameCall, why: EntryFault },
    /// 70: the ROM's reader failed.
    #[error("{}", RunFault::ReadRom)]
    ReadRom,
    /// 71: a frame's reader failed.
    #[error("{}", RunFault::ReadFrame)]
    ReadFrame,
    /// 73: the writer failed, or took no byte.
    #[error("{}", RunFault::Write)]
    Write,
}

impl MakeRunFault {
    /// The number of the fault: 1, 2, 60 to 63, 70, 71 or 73.
    pub fn number(self) -> u8
        ensures { result ≡ make_run_number self }
    {
        match self {
            MakeRunFault::RomLength => 1,
            MakeRunFault::FrameLength { .. } => 2,
            MakeRunFault::Make(fault) => fault.number(),
            MakeRunFault::Call { why, .. } => MakeFault::from(why).number(),
            MakeRunFault::ReadRom => 70,
            MakeRunFault::ReadFrame => 71,
            MakeRunFault::Write => 73,
        }
    }

    /// Which frame has the fault, counted from 0, where it is one's.
    pub fn frame(self) -> Option<usize>
        ensures { result ≡ frame_blamed self }
    {
        match self {
            MakeRunFault::FrameLength { frame } => Some(frame),
            MakeRunFault::Call { call, .. } => Some(call.frame),
            MakeRunFault::RomLength
            | MakeRunFault::Make(_)
            | MakeRunFault::ReadRom
            | MakeRunFault::ReadFrame
            | MakeRunFault::Write => None,
        }
    }
}

impl From<WriteFault> for MakeRunFault {
    ghost from_gives = { λ _ fault. fault ≡ maker.Write };

    fn from(_fault: WriteFault) -> MakeRunFault {
        MakeRunFault::Write
    }
}

impl From<FramesFault> for MakeRunFault {
    ghost from_gives = { λ refusal fault. fault ≡ told_fault refusal.call refusal.why };

    fn from(fault: FramesFault) -> MakeRunFault {
        match fault.call {
            Some(call) => MakeRunFault::Call {
                call,
                why: fault.why,
            },
            None => MakeRunFault::Make(fault.why.into()),
        }
    }
}

impl From<AllocError> for MakeRunFault {
    ghost from_gives = { λ _ fault. fault ≡ maker.Make making.Memory };

    fn from(_error: AllocError) -> MakeRunFault {
        MakeRunFault::Make(MakeFault::Memory)
    }
}

impl<T: Drop> From<AllocFailed<T>> for MakeRunFault {
    ghost from_gives = { λ _ fault. fault ≡ maker.Make making.Memory };

    fn from(_error: AllocFailed<T>) -> MakeRunFault {
        MakeRunFault::Make(MakeFault::Memory)
    }
}
