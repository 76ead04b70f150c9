//! Laws of the tree of cobases: reverse search is complete, and shows nothing twice.
//!
//! Each function is a law: its contract is the statement, which stands in `specs/`. It holds in every space, and of
//! every root that has a dictionary there; where parents end, of every feasible root.
#![tactic(auto)]

ghost use Rattle.tree_laws.specs.ReverseSearch.{ReverseSearch, ReverseSearchOfPolyhedra};
ghost use Rattle.tree_laws.specs.Laws.{
  ListsAreNotZero,
  NoTies,
  ExchangedLists,
  SomeNeighbour,
  NeighboursAreFeasible,
  OneNeighbour,
  NeighboursAreMutual,
  ChildIsNeighbour,
};
ghost use Rattle.tree_laws.specs.Parents.{
  RootIsFeasible,
  OnlyRootHasNoParent,
  OneParent,
  ParentIsBelow,
  UnderTheRoot,
  OneDepth,
};
ghost use Rattle.tree_laws.specs.ShownPoints.{
  ConstantsAreNotNegative,
  ShownPointIsFeasible,
  CobasisHasOnePoint,
  ShownPointIsExtreme,
  ExtremePointIsShownOnce,
};
ghost use Rattle.tree_laws.specs.ShownRays.{
  ShownRayIsExtreme,
  CobasisHasOneRay,
  ShownRayIsOne,
  DescendsAlongRows,
  ExtremeRayIsShownOnce,
};
ghost use Rattle.tree_laws.specs.Shown.{EachIsShownOnce, OnlyExtremeIsShown};
ghost use Rattle.tree_laws.specs.Extremes.{ExtremesOfMain, RowsAscend};
ghost use Rattle.tree_laws.specs.ListedVectors.{ReverseSearchOfListings};

/// The lexicographically feasible cobases are a tree under each feasible root, each extreme vector of the space is
/// shown at exactly one of them, and nothing else is: reverse search is complete, and shows nothing twice (Avis and
/// Fukuda, "A pivoting algorithm for convex hulls and vertex enumeration of arrangements and polyhedra", 1992).
pub fn reverse_search()
    ensures { ReverseSearch }
{}

/// So it is of each polyhedron, in the spaces of the phases `main` and `first`.
pub fn reverse_search_of_polyhedra()
    ensures { ReverseSearchOfPolyhedra }
{}

/// So it is in the words of a polyhedron's listing: each extreme vector of the cone is shown at one place of one key,
/// nothing else is, and of a V file never `1 0 .. 0`.
pub fn reverse_search_of_listings()
    ensures { ReverseSearchOfListings }
{}

/// No list of a row outside the key is zero.
pub fn lists_are_not_zero()
    ensures { ListsAreNotZero }
{}

/// Multiples of the lists of two rows outside the key differ, save zero times both: no row ties with another in the
/// ratio test.
pub fn no_ties()
    ensures { NoTies }
{}

/// A row outside the key whose entry in a column is not 0 can take its place. The new lists are, up to positive
/// multiples where that entry is negative, the gaps of the ratio test.
pub fn exchanged_lists()
    ensures { ExchangedLists }
{}

/// Where some row outside the key is negative in a column, there is a neighbour.
pub fn some_neighbour()
    ensures { SomeNeighbour }
{}

/// A neighbour of a lexicographically feasible cobasis has a dictionary, and is lexicographically feasible.
pub fn neighbours_are_feasible()
    ensures { NeighboursAreFeasible }
{}

/// The ratio test gives one row at most: there is one neighbour at most in each column.
pub fn one_neighbour()
    ensures { OneNeighbour }
{}

/// A feasible cobasis is the neighbour of each of its neighbours, in the column of the row that took the place.
pub fn neighbours_are_mutual()
    ensures { NeighboursAreMutual }
{}

/// A child is the neighbour of its parent: who tries each column of a cobasis finds all its children.
pub fn child_is_neighbour()
    ensures { ChildIsNeighbour }
{}

/// A feasible root is lexicographically feasible.
pub fn root_is_lexicographically_feasible()
    ensures { RootIsFeasible }
{}

/// Each lexicographically feasible cobasis but the root has a parent, and the root has none.
pub fn only_root_has_no_parent()
    ensures { OnlyRootHasNoParent }
{}

/// A cobasis has one parent at most, in a space where each row stands once.
pub fn one_parent()
    ensures { OneParent }
{}

/// A parent is below its child: the lists of the rows of the root, over the denominator, fall.
pub fn parent_is_below()
    ensures { ParentIsBelow }
{}

/// Parents lead from each lexicographically feasible cobasis to the root.
pub fn under_the_root()
    ensures { UnderTheRoot }
{}

/// They lead there by one number of steps, in a space where each row stands once.
pub fn one_depth()
    ensures { OneDepth }
{}

/// At a lexicographically feasible cobasis no constant of a row is negative.
pub fn constants_are_not_negative()
    ensures { ConstantsAreNotNegative }
{}

/// Where no constant is negative and the point test holds, the cobasis is lexicographically feasible.
pub fn shown_point_is_feasible()
    ensures { ShownPointIsFeasible }
{}

/// The labels of a cobasis are 0 at one point, which is written by one primitive vector.
pub fn cobasis_has_one_point()
    ensures { CobasisHasOnePoint }
{}

/// The point of a cobasis at which no constant is negative is an extreme vector of the space: no other point is shown.
pub fn shown_point_is_extreme()
    ensures { ShownPointIsExtreme }
{}

/// Each extreme vector that is positive at infinity is shown as the point of exactly one cobasis, which is
/// lexicographically feasible.
pub fn extreme_point_is_shown_once()
    ensures { ExtremePointIsShownOnce }
{}

/// What the ray test shows is an extreme vector of the space: no other ray is shown.
pub fn shown_ray_is_extreme()
    ensures { ShownRayIsExtreme }
{}

/// Along each column of a cobasis there is one ray, which is written by one primitive vector.
pub fn cobasis_has_one_ray()
    ensures { CobasisHasOneRay }
{}

/// A ray is shown along one column of one lexicographically feasible cobasis at most.
pub fn shown_ray_is_one()
    ensures { ShownRayIsOne }
{}

/// For any rows there is a lexicographically feasible cobasis in no column of which the first of them that is not 0
/// there is negative: the descent in the lists of these rows ends at one.
pub fn descends_along_rows()
    ensures { DescendsAlongRows }
{}

/// Each extreme vector that is 0 at infinity is shown along exactly one column of exactly one lexicographically
/// feasible cobasis.
pub fn extreme_ray_is_shown_once()
    ensures { ExtremeRayIsShownOnce }
{}

/// Each extreme vector of the space is shown at exactly one lexicographically feasible cobasis, as its point or along
/// exactly one of its columns.
pub fn each_is_shown_once()
    ensures { EachIsShownOnce }
{}

/// Nothing else is shown.
pub fn only_extreme_is_shown()
    ensures { OnlyExtremeIsShown }
{}

/// The extreme vectors of a polyhedron's cone are those of its main space that are shown.
pub fn extremes_of_main()
    ensures { ExtremesOfMain }
{}

/// The rows of the spaces of the phases `main` and `first` stand in ascending order, each once.
pub fn rows_ascend()
    ensures { RowsAscend }
{}
