//! The lines of calls that lead from one entry to the next.

use crate::lines::Lines;
use crate::piece::Piece::{Address, Line, Name, Text};
use dvg_cert::Key;
use dvg_survey::Call;

/// Adds a line with this key for each of these calls, of which the first stands in the entry that is named here, or in the frame, and
/// each later one in what the one before calls.
pub fn push_steps(lines: &mut Lines, key: &'static str, first: Option<(u16, Key)>, calls: &[Call]) {
    let mut caller = first;
    for call in calls {
        let from = match caller {
            Some((addr, key)) => Name(addr, key),
            None => Text("frame"),
        };
        lines.add(&[
            Line(key),
            from,
            Text(" at "),
            Address(call.at),
            Text(" leads to "),
            Name(call.entry.addr, call.entry.key),
        ]);
        caller = Some((call.entry.addr, call.entry.key));
    }
}
