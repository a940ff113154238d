//! Runs over frames, wherever they come from: the command line, a list, or files of records.

ghost use Rattle.std.specs.Iterator.{IsFinite};

use crate::command::{Arguments, Named};
use crate::input::Source;
use crate::list::List;
use crate::records::Records;
use crate::stop::Stop;
use dvg_cmd::{Counted, CountedRead, NamedReader, Outcome, RunFault};

/// What is asked of frames.
pub trait AskedOfFrames {
    /// Reads what else is needed, and then answers frame after frame.
    fn run<R: CountedRead + Drop, I: Iterator<Item = NamedReader<R>> + Drop>(
        &self,
        rt: &HostRuntime,
        frames: I,
    ) -> Result<Outcome, RunFault>
        requires can { I.can_next frames }
        requires ends { IsFinite (I.remaining frames) };

    /// Does so with the frames of the command line: each file is opened when the one before it is closed.
    fn run_named(&self, rt: &HostRuntime, frames: Vec<Named>) -> Result<Outcome, RunFault> {
        self.run(rt, frames.into_iter().map(|frame| opened(rt, frame)))
    }
}

/// A frame or a recipe whose turn it is, opened.
pub fn opened(rt: &HostRuntime, named: Named) -> NamedReader<Counted<Source>> {
    let Named { input, name } = named;
    NamedReader {
        name,
        reader: input.open(rt).ok().map(Counted::new),
    }
}

/// Answers frames. A list is read name by name, beginning before any other file is opened, and a record is answered as soon as it is read.
pub fn run_over<A: AskedOfFrames>(
    rt: &HostRuntime,
    arguments: &Arguments,
    asked: &A,
) -> Result<Outcome, Stop> {
    let (outcome, fault) = if let Some(length) = arguments.record_length()? {
        let mut records = Records::new(arguments.files("FRAME")?, length);
        // No files have so many records.
        let frames = (0..u64::MAX).map_while(|_| records.step(rt)).flatten();
        (asked.run(rt, frames)?, records.fault())
    } else if let Some((input, end)) = arguments.list() {
        let mut list = List::open(rt, input, end)?;
        // No list has so many names.
        let frames = (0..u64::MAX).map_while(|_| list.next_frame(rt));
        (asked.run(rt, frames)?, list.fault())
    } else {
        (asked.run_named(rt, arguments.files("FRAME")?)?, None)
    };
    match fault {
        Some(fault) => Err(fault.behind(outcome)),
        None => Ok(outcome),
    }
}
