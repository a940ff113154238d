//! Laws over the definitions alone, each the contract of a function that does nothing.

ghost use Rattle.dvg_items.specs.Laws.{PlaceFromAll, ScaleFromAll, WordsFromAll, DepthFromAll};

/// The known place is where the latest item that sets or loses it left it, moved by the sum of the moves since then.
pub fn place_from_all()
    ensures { PlaceFromAll }
{}

/// The known scale is the latest scale that an item set, or the start's if no item set one. A LABS sets its own number. A call
/// or tail jump sets the scale that its entry leaves.
pub fn scale_from_all()
    ensures { ScaleFromAll }
{}

/// The words so far are a sum over all items: each adds its own words, and the words of the entry that it calls.
pub fn words_from_all()
    ensures { WordsFromAll }
{}

/// The depth so far is the greatest depth that an item needs, or 0 if there is no item. A call needs one more than its entry's
/// depth, a tail jump its entry's depth, and any other item 0.
pub fn depth_from_all()
    ensures { DepthFromAll }
{}
