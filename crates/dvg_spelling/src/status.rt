//! Exit statuses, and what is said on standard error.

ghost use Rattle.std.specs.Prelude.{◌≡◌, ◌++◌, codes};
ghost use Rattle.dvg_spelling.specs.Messages.{fault_message};
ghost use Rattle.dvg_spelling.specs.Status.{exit_status, make_exit_status};

use crate::fault::{MakeRunFault, RunFault};
use crate::outcome::Outcome;
use dvg_make::{EntryFault, MakeFault};

/// The exit status of a run: 0 where all is accepted, else that of the worst: 1 refused, 4 out of memory, 3 a failed read or write.
pub fn status_of(end: &Result<Outcome, RunFault>) -> u8
    ensures { result ≡ exit_status end.now }
{
    match end {
        Ok(Outcome::Accepted) => 0,
        Ok(Outcome::Refused) => 1,
        Ok(Outcome::NoMemory) | Err(RunFault::Memory) => 4,
        Ok(Outcome::Unread)
        | Err(
            RunFault::ReadRom
            | RunFault::ReadFrame
            | RunFault::ReadRecipe
            | RunFault::ReadCert
            | RunFault::Write,
        ) => 3,
    }
}

/// The line on standard error for a fault, without its LF.
pub fn message_of(fault: &RunFault) -> &'static str
    ensures { result.now ≡ fault_message fault.now }
{
    match fault {
        RunFault::ReadRom => "dvgcheck: cannot read the ROM",
        RunFault::ReadFrame => "dvgcheck: cannot read the frame",
        RunFault::ReadRecipe => "dvgcheck: cannot read the recipe",
        RunFault::ReadCert => "dvgcheck: cannot read the certificate",
        RunFault::Write => "dvgcheck: cannot write",
        RunFault::Memory => "dvgcheck: out of memory",
    }
}

/// A fault's message without the program's name, as `Display` shows it.
pub fn text_of(fault: &RunFault) -> &'static str
    ensures { fault_message fault.now ≡ codes "dvgcheck: " ++ result.now }
{
    let message = message_of(fault);
    message.strip_prefix("dvgcheck: ").unwrap_or(message)
}

/// The exit status of a run of the maker: 0 made, 1 refused, 3 a failed read or write, 4 out of memory.
pub fn make_status_of(end: &Result<(), MakeRunFault>) -> u8
    ensures { result ≡ make_exit_status end.now }
{
    match end {
        Ok(()) => 0,
        Err(
            MakeRunFault::Make(MakeFault::Memory)
            | MakeRunFault::Call {
                why: EntryFault::Memory,
                ..
            },
        ) => 4,
        Err(
            MakeRunFault::RomLength
            | MakeRunFault::FrameLength { .. }
            | MakeRunFault::Make(_)
            | MakeRunFault::Call { .. },
        ) => 1,
        Err(MakeRunFault::ReadRom | MakeRunFault::ReadFrame | MakeRunFault::Write) => 3,
    }
}
