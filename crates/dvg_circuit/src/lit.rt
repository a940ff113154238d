//! The draws that light the beam.

ghost use Rattle.std.specs.Prelude.{◌≡◌, IfOk};
ghost use Rattle.dvg_circuit.specs.Counters.{passed};

use crate::counters::Counters;
use dvg_words::Draw;
use std::alloc::{AllocError, Global};

/// A draw that lit the beam: what was drawn, where the counters were when it began, and for how many counts it stepped them. At each
/// count the beam was lit, at its first place and its last, too.
#[derive(Clone, Copy, Debug, PartialEq, Eq)]
pub struct LitDraw {
    pub draw: Draw,
    pub from: Counters,
    pub counts: u16,
}

impl LitDraw {
    /// The counters at each count, from the first place to the last. `Err` if memory is out.
    pub fn passed(&self, alloc: Global) -> Result<Vec<Counters>, AllocError>
        ensures { IfOk result (λ way. way.items ≡ passed self.now.draw self.now.from self.now.counts) }
    {
        let mut way = Vec::new(alloc);
        let mut at = self.from;
        way.push(at)?;
        for count in 0..self.counts {
            at = at.counted(&self.draw, count);
            way.push(at)?;
        }
        Ok(way)
    }
}
