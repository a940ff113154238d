//! Laws over the definitions alone, for every map, machine and window. Each is the contract of a function that does nothing.

ghost use Rattle.dvg_survey.specs.Laws.{SameList, SameVerdict, NoneRefused, SameRuns};

/// Where none of its entries is touched, the list that is made for roots and frames is the one that is made over the other ROM.
pub fn same_list()
    ensures { SameList }
{}

/// Where none of its made entries is touched, a frame has the same verdict over both ROMs, in any window and by any budget.
pub fn same_verdict()
    ensures { SameVerdict }
{}

/// Nor is such a frame refused over the other ROM because its list can't be made.
pub fn none_refused()
    ensures { NoneRefused }
{}

/// Such a frame, if it is good, has the same runs over both ROMs: the same states, and so the same strokes.
pub fn same_runs()
    ensures { SameRuns }
{}
