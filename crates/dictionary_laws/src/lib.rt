//! What a dictionary of a cobasis is, proved from the definitions.
//!
//! Each function is a law: its contract is the statement, and it holds in every space. A space has a
//! point where some vector of it is not 0 at infinity.
#![tactic(auto)]

ghost use Rattle.dictionary_laws.specs.Laws.{
  OwnEntries,
  OneDictionary,
  AnyOrder,
  AgreeingTables,
  SomeDictionary,
  CobasisIsNarrow,
  LeastByDivisors,
  Reduction,
  OutsideNumbers,
  ExchangedCobasis,
  ExchangedNumbers,
  ExchangedDictionary,
  ExchangedKey,
  StartLaws,
  PhasePoints,
  PointOfEquations,
  CoordinateDictionary,
  PhaseCoordinates,
  CoordinateKeys,
  MainDictionary,
};

/// A label of the cobasis has the denominator in its own column and 0 in the others. Where the space
/// has a point, its constant is 0.
pub fn own_entries()
    ensures { OwnEntries }
{}

/// Two dictionaries of one key, in any order of its labels, have the same denominator and entries.
/// Where the space has a point, they have the same constants.
pub fn dictionary_is_one()
    ensures { OneDictionary }
{}

/// A dictionary goes by the labels of its key, and not by their order.
pub fn any_order()
    ensures { AnyOrder }
{}

/// A table that agrees with a dictionary is one. Where the space has no point, constants need not
/// agree: there they can be any numbers.
pub fn agreeing_tables()
    ensures { AgreeingTables }
{}

/// Independent labels that determine a direction have a dictionary.
pub fn cobasis_has_dictionary()
    ensures { SomeDictionary }
{}

/// Where the space has a point, a cobasis has fewer labels than its vectors have entries.
pub fn cobasis_is_narrow()
    ensures { CobasisIsNarrow }
{}

/// The denominator is least exactly where only 1 divides it and all constants and entries.
pub fn least_by_divisors()
    ensures { LeastByDivisors }
{}

/// Numbers that write the labels over a cobasis have a greatest common divisor, and are, without it,
/// its dictionary.
pub fn reduction()
    ensures { Reduction }
{}

/// A divisor of the denominator and of the rows outside the key divides all numbers.
pub fn outside_numbers()
    ensures { OutsideNumbers }
{}

/// A label outside can take the place of one inside exactly where the entry at the two is not 0.
pub fn exchanged_cobasis()
    ensures { ExchangedCobasis }
{}

/// The numbers after an exchange, over the denominator times the entry:
/// `entry(i, j) * entry(r, s) - entry(i, s) * entry(r, j)`, constants likewise, and
/// `entry(i, s) * denominator` in the column of the label that entered.
pub fn exchanged_numbers()
    ensures { ExchangedNumbers }
{}

/// They are, without their greatest common divisor, the dictionary of the new key.
pub fn exchanged_dictionary()
    ensures { ExchangedDictionary }
{}

/// To take one label out of a key and to put another in exchanges them.
pub fn exchanged_key()
    ensures { ExchangedKey }
{}

/// The start cobasis is there, is one, and is a cobasis where the rows determine a direction.
pub fn start_cobasis()
    ensures { StartLaws }
{}

/// The spaces of the phases have a point, save the main space of an H file, whose equations may have none.
pub fn phase_points()
    ensures { PhasePoints }
{}

/// Equations whose rows can be exchanged for no other label have a common point exactly where all
/// their constants are 0.
pub fn point_of_equations()
    ensures { PointOfEquations }
{}

/// Where nothing is fixed, the coordinates are a cobasis. Its dictionary has the denominator 1, and
/// the numbers of a label are the entries of its form.
pub fn coordinate_dictionary()
    ensures { CoordinateDictionary }
{}

/// The cone's space has all coordinates; that of the file's rows has them too, and of an H file all
/// but the one at infinity.
pub fn phase_coordinates()
    ensures { PhaseCoordinates }
{}

/// A key of coordinates ascends, and has no label of a row.
pub fn coordinate_keys()
    ensures { CoordinateKeys }
{}

/// A dictionary of the file's rows whose equations are settled and have a point, with the free
/// coordinates in its key: its other labels are a cobasis of the main space, and its numbers write the
/// labels there.
pub fn main_dictionary()
    ensures { MainDictionary }
{}
