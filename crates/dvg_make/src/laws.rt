//! Laws over the definitions alone. All but the worked example are for every map and window. Each is the contract of a
//! function that does nothing.

ghost use Rattle.dvg_make.specs.Laws.{OneLeast, OneMade, OneFramesMade, GoodInWindow, NoneBetter, WorkedExampleMade};

/// Points have one least box at most.
#[tactic(auto, using(crate::proofs::Ends::one_least))]
pub fn one_least()
    ensures { OneLeast }
{}

/// A ROM and roots have one made list at most.
pub fn one_made()
    ensures { OneMade }
{}

/// A ROM, roots and frames have one made list at most.
pub fn one_frames_made()
    ensures { OneFramesMade }
{}

/// A made list is good exactly where nothing that is lit at an absolute place leaves the window, and its counts are then exact.
pub fn good_in_window()
    ensures { GoodInWindow }
{}

/// No certificate does better for a frame than the list that is made for it: where any certificate gets the frame accepted in a
/// window and within a budget, so does the made one, with exact counts, no more words and no more depth.
pub fn none_better()
    ensures { NoneBetter }
{}

/// The worked example is made: for the stroke at 800 at global scale 0 its one entry. No roots make the empty list.
pub fn worked_example()
    ensures { WorkedExampleMade }
{}
