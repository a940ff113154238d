//! Laws over the definitions alone, each proved as the contract of a function with an empty body.

ghost use Rattle.dvg_circuit.specs.Example.{WorkedPulses, WorkedAddresses, WorkedRuns};
ghost use Rattle.dvg_circuit.specs.Following.{DrawnOnStroke, CircuitFollows};
ghost use Rattle.dvg_circuit.specs.Showing.{LitInWindow, ShownInWindow, LitOnScreen, ScreenIsShown, ClippedOnCircuit};
ghost use Rattle.dvg_circuit.specs.ClippedExample.{WorkedClips};
ghost use Rattle.dvg_circuit.specs.Writing.{WritesElsewhere};
ghost use Rattle.dvg_circuit.specs.AnyStart.{OnePlaceEach, OnePlaceADraw, WorkedStarts};
ghost use Rattle.dvg_circuit.specs.Laws.{RoundedHalfUp, NoneBeyondEnds, CounterIsPlace, Blanking, NoSharedBits, AllDecoded};

/// The draw of the worked run, pulse by pulse: which of its four counts step which counter, and the places that they pass.
pub fn worked_pulses()
    ensures { WorkedPulses }
{}

/// Word addresses wrap at twelve bits, between two instructions and within one.
pub fn worked_addresses()
    ensures { WorkedAddresses }
{}

/// The worked run: five instructions, from any counters, scale and stored places, with the stack pointer at 15. It wraps a counter
/// and the pointer, and its first word is written over once it was fetched.
#[tactic(auto, using(crate::proofs::Following::after_halt), unfolding(dvg_words::specs::Decoding::instruction_of))]
pub fn worked_runs()
    ensures { WorkedRuns }
{}

/// A draw's pulses on an axis are its size by 2^(scale + 1) / 1024, rounded half up, at effective scales of 0 to 9, and none above.
#[tactic(auto, using(crate::proofs::Rounding::rounded_half_up))]
pub fn rounded_half_up()
    ensures { RoundedHalfUp }
{}

/// An axis passes no place beyond the two ends of a draw.
pub fn none_beyond_ends()
    ensures { NoneBeyondEnds }
{}

/// A counter holds the twelve bits of the place without bounds, at every count.
#[tactic(auto, using(crate::proofs::Places::counter_is_place))]
pub fn counter_is_place()
    ensures { CounterIsPlace }
{}

/// A place of the screen is shown as itself, and the places next to it, as far as a screen is wide, are blanked.
pub fn blanking()
    ensures { Blanking }
{}

/// Two places of -1024 to 2047 never share their twelve bits.
pub fn no_shared_bits()
    ensures { NoSharedBits }
{}

/// Each two words are an instruction of the board.
#[tactic(auto, using(crate::proofs::Reading::all_decoded))]
pub fn all_decoded()
    ensures { AllDecoded }
{}

/// The circuit follows the generator of `Machine::Board`, step by step, as long as that has no fault: from any counters, scale, stack
/// pointer and stored places, over any memory that reads the words it fetches as the frame and the ROM have them.
pub fn circuit_follows()
    ensures { CircuitFollows }
{}

/// At every count of a lit draw the counters are at a place of its stroke.
#[tactic(auto, using(crate::proofs::Moves::drawn_on_stroke))]
pub fn drawn_on_stroke()
    ensures { DrawnOnStroke }
{}

/// On a stroke between two places of a window, both counters are at places of that window at every count.
pub fn lit_in_window()
    ensures { LitInWindow }
{}

/// Of a place of a window, -1024 to 2047 included, the board shows just what is on the screen, as itself; of a window of the screen
/// it shows each place.
#[tactic(auto, using(crate::proofs::Showing::shown_in_window))]
pub fn shown_in_window()
    ensures { ShownInWindow }
{}

/// On a stroke between two places of -1024 to 2047, whatever is not blanked is shown where the generator has it, on the screen.
pub fn lit_on_screen()
    ensures { LitOnScreen }
{}

/// Where the counters are at a place of the screen, nothing is blanked.
#[tactic(auto, using(crate::proofs::Showing::screen_is_shown))]
pub fn screen_is_shown()
    ensures { ScreenIsShown }
{}

/// Where all lit strokes of a run lie between two places of -1024 to 2047, the board shows at their counts just what lies on the
/// screen, where the generator has it, and lights nothing else: it clips the strokes.
pub fn clipped_on_circuit()
    ensures { ClippedOnCircuit }
{}

/// A stroke from -5 to 5 and one from 1020 to 1030, count by count: which of their places are blanked. One from -1025 to -1 does not
/// lie in the zone, and its first place is shown, far from where it is.
#[tactic(auto, using(crate::proofs::Showing::blanked, crate::proofs::Common::ints))]
pub fn worked_clips()
    ensures { WorkedClips }
{}

/// A processor that writes only words that the run doesn't fetch leaves the run as it is, and its premise on what is read, too. So a
/// game may build its other list meanwhile.
pub fn writes_elsewhere()
    ensures { WritesElsewhere }
{}

/// From whatever count the rate multipliers begin a draw, it ends on each axis at most one place from where it ends from count 0, where
/// the circuit has them begin; at an effective scale of 9 and above just there. It passes only places between its ends.
#[tactic(auto, using(crate::proofs::AnyStart::one_place_each))]
pub fn one_place_each()
    ensures { OnePlaceEach }
{}

/// Several draws, each from a count of its own, end on each axis at most as many places from where they end from count 0 as there are
/// among them at an effective scale below 9.
pub fn one_place_a_draw()
    ensures { OnePlaceADraw }
{}

/// At scale 0 size 256 has a pulse from count 0 and none from 2, and size 128 the other way round; at scale 9 size 1023 has 1,023 from
/// any count.
#[tactic(auto, using(crate::proofs::AnyStart::worked_starts))]
pub fn worked_starts()
    ensures { WorkedStarts }
{}
