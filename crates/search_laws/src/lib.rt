//! Laws of a search through the tree of cobases: phase one, which finds its root or says that there is no point; and
//! children, shares and weights, by which a search is parted into jobs.
//!
//! Each function is a law: its contract is the statement, which stands in `specs/`.
#![tactic(auto)]

ghost use Rattle.search_laws.specs.Lowering.{NeighboursLowerRow, RowInKeyIsLowest, StepOrLowest, StepsEnd, OneEnd};
ghost use Rattle.search_laws.specs.PhaseOne.{StartWithT, FirstRoot};
ghost use Rattle.search_laws.specs.PhaseEnds.{
  NoneMeetsRows,
  SomeColumnOfT,
  ExchangeAtZero,
  RootWithoutT,
  PhaseOneDecides,
  MainHasNoRowZero,
  FeasibleFiles,
  RootsOfPoints,
};
ghost use Rattle.search_laws.specs.Starts.{MainHasStart, FeasibleFileHasRoot};
ghost use Rattle.search_laws.specs.GivenRoots.{
  GivenRootIsFeasible,
  GivenRootIsOne,
  GivesRootWhereMet,
  SearchRoots,
};
ghost use Rattle.search_laws.specs.Shares.{
  ListsChildren,
  ParentsMakeATree,
  SharesHaveParts,
  RootHasAll,
  AnyTableServes,
};
ghost use Rattle.search_laws.specs.Weights.{WeightsAddUp, RootWeighsAll};
ghost use Rattle.search_laws.specs.Splits.{RunsSplit};
ghost use Rattle.search_laws.specs.SharesOnce.{SharesOnce};
ghost use Rattle.search_laws.specs.SharesOfListings.{RootShareIsListing, SharesOfListings, RunsPartListings};
ghost use Rattle.search_laws.specs.ChildTest.{ChildByTest, NeighbourSigns};

/// A cobasis of rows with t is a cobasis of the space of phase one, and its numbers are there those that it has.
pub fn start_with_t()
    ensures { StartWithT }
{}

/// A row of least constant, which is negative, takes the place of t: the feasible root of phase one.
pub fn first_root()
    ensures { FirstRoot }
{}

/// In a column in which a row is negative there is a neighbour, at which the list of that row, over the denominator,
/// is less.
pub fn neighbours_lower_row()
    ensures { NeighboursLowerRow }
{}

/// A row of the key is negative in no column.
pub fn row_in_key_is_lowest()
    ensures { RowInKeyIsLowest }
{}

/// Where a row is negative in some column, a step takes the neighbour in the least such column.
pub fn step_or_lowest()
    ensures { StepOrLowest }
{}

/// Such steps end, at a feasible cobasis where the row is negative in no column. There are no more of them than sets of
/// rows.
pub fn steps_end()
    ensures { StepsEnd }
{}

/// There is one such end and one number of steps, where each row stands once.
pub fn one_end()
    ensures { OneEnd }
{}

/// Where t is negative in no column and its constant is positive, no vector meets all rows.
pub fn none_meets_rows()
    ensures { NoneMeetsRows }
{}

/// In some column the entry of t is not 0.
pub fn some_column_of_t()
    ensures { SomeColumnOfT }
{}

/// A row with the constant 0 can take the place of any label at which its entry is not 0: no constant becomes negative.
pub fn exchange_at_zero()
    ensures { ExchangeAtZero }
{}

/// A cobasis with t at which no constant is negative is, without t, a feasible root of the space.
pub fn root_without_t()
    ensures { RootWithoutT }
{}

/// So a space with a cobasis of rows has a feasible root exactly where some vector meets all rows.
pub fn phase_one_decides()
    ensures { PhaseOneDecides }
{}

/// In the main space of a polyhedron the number 0 is left to t.
pub fn main_has_no_row_zero()
    ensures { MainHasNoRowZero }
{}

/// An H file is feasible exactly where some vector of its main space meets all rows.
pub fn feasible_files()
    ensures { FeasibleFiles }
{}

/// Of a V file each cobasis of rows is a feasible root.
pub fn roots_of_points()
    ensures { RootsOfPoints }
{}

/// The start cobasis of a main space with a point has a dictionary.
pub fn main_has_start()
    ensures { MainHasStart }
{}

/// The main space of a feasible file has a feasible root.
pub fn feasible_file_has_root()
    ensures { FeasibleFileHasRoot }
{}

/// What phase one gives is a feasible root.
pub fn given_root_is_feasible()
    ensures { GivenRootIsFeasible }
{}

/// Phase one gives one root from a start cobasis, in a space where each row stands once.
pub fn given_root_is_one()
    ensures { GivenRootIsOne }
{}

/// From a start cobasis with a dictionary phase one gives a root exactly where some vector meets all rows.
pub fn gives_root_where_met()
    ensures { GivesRootWhereMet }
{}

/// A polyhedron has a root of its search exactly where its file is feasible; the root is one, and a search may begin
/// there.
pub fn search_roots()
    ensures { SearchRoots }
{}

/// The children of a lexicographically feasible cobasis are a list, and whether a column has one can be decided.
pub fn children_are_listed()
    ensures { ListsChildren }
{}

/// Parents make a tree: two keys with a lexicographically feasible cobasis under them both are one under the other.
pub fn parents_make_a_tree()
    ensures { ParentsMakeATree }
{}

/// Under a key are itself and those under its children: its share is what it shows itself and their shares.
pub fn shares_have_parts()
    ensures { SharesHaveParts }
{}

/// The share of the root is all that is shown.
pub fn root_has_all()
    ensures { RootHasAll }
{}

/// The weight of a lexicographically feasible cobasis is one more than the weights of its children.
pub fn weights_add_up()
    ensures { WeightsAddUp }
{}

/// The weight of the root is the number of all lexicographically feasible cobases.
pub fn root_weighs_all()
    ensures { RootWeighsAll }
{}

/// A run that visits some cobases under a key and gives the others back parts the share; each visit takes one from the
/// weight that waits.
pub fn runs_split()
    ensures { RunsSplit }
{}

/// The share of the root is the extreme vectors; each stands in a share once, and the rows that a visit shows are new.
pub fn shares_once()
    ensures { SharesOnce }
{}

/// In the words of a polyhedron's listing: the share of the root is the extreme vectors of the cone.
pub fn root_share_is_listing()
    ensures { RootShareIsListing }
{}

/// In these words: keys make a tree, shares meet only where one key lies under the other, and each key has one weight.
pub fn shares_of_listings()
    ensures { SharesOfListings }
{}

/// In these words: a run parts the share of its key into the rows that it has shown and the shares of the keys that it
/// gives back.
pub fn runs_part_listings()
    ensures { RunsPartListings }
{}

/// Whether a neighbour is a child is read from the dictionary of the cobasis itself.
pub fn child_by_test()
    ensures { ChildByTest }
{}

/// How the sign in another column after the exchange is found from this dictionary, without products.
pub fn neighbour_signs()
    ensures { NeighbourSigns }
{}

/// All tables of a key serve alike: it is feasible by each, and what is shown is shown by each.
pub fn any_table_serves()
    ensures { AnyTableServes }
{}
