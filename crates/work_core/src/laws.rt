//! Laws of the works: functions with an empty body.
ghost use Rattle.work_core.specs.Laws.{FirstKeyHasAll, KeysAreOfRows, SharesAreExtreme, SharesHold};
ghost use Rattle.work_core.specs.Shown.{HaveOneList, HasOneDimension, SubsetsShow, SubsetWalksSplit, SubtreesShow, SubtreeWalksSplit};

/// The share of the first key is the extreme vectors, for both works.
pub fn first_key_has_all()
    ensures { FirstKeyHasAll }
{}

/// The keys of both works: which lies under which, what their shares are, and that each has one weight.
pub fn shares_hold()
    ensures { SharesHold }
{}

/// The work by subsets has one dimension, and each extreme vector one list, whose beginnings are keys.
pub fn each_has_one_list()
    ensures dimension { HasOneDimension }
    ensures list { HaveOneList }
{}

/// By subsets each vector is shown at its list, by subtrees at one lexicographically feasible cobasis; and a share is what
/// is shown at the keys under its key.
pub fn works_show()
    ensures subsets { SubsetsShow }
    ensures subtrees { SubtreesShow }
{}

/// What a walk over the keys under a key writes and gives back is a split of its share, and the weights add up.
pub fn walks_split()
    ensures subsets { SubsetWalksSplit }
    ensures subtrees { SubtreeWalksSplit }
{}

/// A share holds extreme vectors alone, and the labels of a key are those of rows.
pub fn shares_are_of_vectors()
    ensures vectors { SharesAreExtreme }
    ensures keys { KeysAreOfRows }
{}
