//! Laws over the definitions alone, for every map, window and mode, except `exact_is_exact`, which is for the mode `Exact`, those of
//! the circuit, which are for the board, and the worked examples. Each is the contract of a function that does nothing.

ghost use Rattle.dvg_words.specs.declared.machine.Machine.{Machine};
ghost use Rattle.dvg_check.specs.Rules.{Mode};
ghost use Rattle.dvg_check.specs.Laws.{OneItem, OneShape, AllShapes, GoodIsSafe, ExactIsExact, OneFault, NoFault, OneShapeFault, NoShapeFault, OneCount, StrokeInWindow, SafeStrokes, SafeStack, SafeIsWithinOnCircuit, SafeIsSafeOnCircuit, CountsAreOnCircuit};
ghost use Rattle.dvg_check.specs.Drift.{PlaceIsSum, HalfPlaceEach, InsetIsSafe};
ghost use Rattle.dvg_check.specs.Example.{WorkedExample};
ghost use Rattle.dvg_check.specs.MachinesExample.{WorkedMachines};
ghost use Rattle.dvg_check.specs.CourseExample.{WorkedCourse};
ghost use Rattle.dvg_check.specs.CircuitExample.{WorkedCircuit};

use dvg_words::laws::{half_place, stack_within_max};

/// A draw or a LABS leads from a state that agrees with what is known before it to one that agrees with what is known
/// after it.
#[tactic(auto, using(crate::proofs::Steps::one_item))]
pub fn one_item()
    ensures { OneItem }
{}

/// A good shape behaves where each with fewer words does.
pub fn one_shape()
    ensures { (mode : Mode) → OneShape mode }
{}

/// All good shapes behave.
pub fn all_shapes()
    ensures { (mode : Mode) → AllShapes mode }
{}

/// Where the shapes and a frame are good, the frame is safe.
pub fn good_is_safe()
    ensures { GoodIsSafe }
{}

/// Where the counts of the shapes are exact, so are those of a good frame.
pub fn exact_is_exact()
    ensures { ExactIsExact }
{}

/// A frame has one first fault at most.
pub fn one_fault()
    ensures { OneFault }
{}

/// A good frame has no fault.
pub fn no_fault()
    ensures { NoFault }
{}

/// A certificate has one first faulty shape at most.
pub fn one_shape_fault()
    ensures { OneShapeFault }
{}

/// A certificate of good shapes has no fault.
pub fn no_shape_fault()
    ensures { NoShapeFault }
{}

/// A good frame has one count of words and one depth.
pub fn one_count()
    ensures { OneCount }
{}

/// A straight stroke lies in the window where both its ends do.
pub fn stroke_in_window()
    ensures { StrokeInWindow }
{}

/// Over a safe memory no point of a lit stroke of any run lies outside the window.
pub fn safe_strokes()
    ensures { SafeStrokes }
{
    stroke_in_window();
}

/// Over a safe memory each state of any run stores at most so many return places as the safety theorem tells, and four at
/// the most.
#[tactic(auto, using(crate::proofs::Safety::safe_state))]
pub fn safe_stack()
    ensures { SafeStack }
{
    stack_within_max();
}

/// What is safe on the board's generator within any bounds is safe on its circuit: at each count of each lit draw the counters hold
/// the twelve bits of a place within them.
pub fn within_on_circuit()
    ensures { SafeIsWithinOnCircuit }
{}

/// What is safe on the board's generator, in a window as calls take them, is safe on its circuit, where the board shows of each lit
/// draw just the part that lies on the screen.
pub fn safe_on_circuit()
    ensures { SafeIsSafeOnCircuit }
{}

/// What is safe on the board's generator with exact counts has the same counts on its circuit.
pub fn counts_on_circuit()
    ensures { CountsAreOnCircuit }
{}

/// In each state of each run, on either machine, the beam is where it was last set, moved by the sum of the moves of the draws
/// since then.
#[tactic(auto, using(crate::proofs::Course::place_is_sum))]
pub fn place_is_sum()
    ensures { PlaceIsSum }
{}

/// Where the runs of one machine come to no draw of an effective scale over 9 and to no odd LABS, as many steps of the other lead
/// to the same state, but for strokes and place: on each axis it is at most half a screen place away for each draw, dark or lit,
/// since the beam was last set.
#[tactic(auto, using(crate::proofs::Drift::half_place_each))]
pub fn half_place_each()
    ensures { HalfPlaceEach }
{
    half_place();
}

/// Where besides at most n draws, dark ones included, come after each LABS and before the next one, what is safe on the one machine
/// in a window that is n / 2 screen places smaller on each side, rounded up, is safe in the window on the other.
pub fn inset_is_safe()
    ensures { InsetIsSafe }
{
    half_place();
}

/// The worked example is good on either machine: a lit stroke as a shape of the ROM at 800, and a frame that calls it.
pub fn worked_example()
    ensures { (machine : Machine) → WorkedExample machine }
{}

/// Two worked frames without calls. The profile accepts one whose two draws of half a place end at the screen's edge, where the
/// board, which draws a whole place each time, leaves the screen: it refuses the second with 46. The board accepts one that a LABS
/// begins left of the screen, which the profile refuses with 41.
#[tactic(auto, using(crate::proofs::MachinesExample::edge_accepted, crate::proofs::MachinesExample::edge_refused, crate::proofs::MachinesExample::left_accepted, crate::proofs::MachinesExample::left_refused))]
pub fn worked_machines()
    ensures { WorkedMachines }
{}

/// The runs of the first of these frames, on either machine: where its LABS sets the beam, and how far its two draws move it. They
/// meet the premises of `inset_is_safe` for two draws, and do not for one.
pub fn worked_course()
    ensures { (machine : Machine) → WorkedCourse machine }
{}

/// The worked example on the board's circuit: it meets the premises of the board's theorem from whatever the registers hold, while a
/// word that isn't fetched again is written over, and it is safe with just seven words and one return place.
#[tactic(auto, using(crate::proofs::CircuitExample::worked_circuit))]
pub fn worked_circuit()
    ensures { WorkedCircuit }
{}
