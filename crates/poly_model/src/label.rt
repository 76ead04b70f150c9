//! The names of the rows and columns of a dictionary.
ghost use Rattle.std.specs.Prelude.{◌≡◌, ◌↔◌, ◌<◌, IsTrue};
ghost use Rattle.poly_model.specs.Labels.{coordinates_from, constant_label, IsRow, IsCoordinate, coordinate_label, coordinate_index, is_row};

use std::marker::Model;

/// From this number on labels are those of coordinates, below it those of rows.
pub const COORDINATES_FROM: u16 = 8192;

/// The number of the label of the constant column.
pub const CONSTANT: u16 = 65535;

/// The name of a row or a column of a dictionary, which contracts see as its number: 0 is the extra variable `t`,
/// 1 to 8191 are rows, 8192 + j is coordinate j, and 65535 is the constant column. Labels are ordered by their numbers.
#[derive(Clone, Copy, PartialEq, Eq, PartialOrd, Ord, Hash, Debug)]
pub struct Label {
    number: u16,
}

impl Model for Label {
    ghost use Rattle.std.specs.Prelude.{ℕ};

    ghost Value = { ℕ };

    ghost view = { λ label. label.number };

    ghost inverse = { λ n. record { number = n } };
}

impl Label {
    /// The extra variable of phase one.
    pub const EXTRA: Label = Label { number: 0 };

    /// The constant column.
    pub const CONSTANT: Label = Label { number: CONSTANT };

    /// Row i, counted from 1.
    #[inline]
    pub fn row(i: u32) -> Label
        requires positive { 0 < i }
        requires within { i < coordinates_from }
        ensures { result ≡ i }
    {
        Label { number: i as u16 }
    }

    /// Coordinate j, counted from 0.
    #[inline]
    pub fn coordinate(j: u32) -> Label
        requires { j < coordinates_from }
        ensures { result ≡ coordinate_label j }
    {
        Label {
            number: COORDINATES_FROM + j as u16,
        }
    }

    /// Its number.
    #[inline]
    pub fn number(self) -> u16
        ensures { result ≡ self }
    {
        self.number
    }

    /// Whether it is a row's; `t` counts as row 0.
    #[inline]
    pub fn is_row(self) -> bool
        ensures row { IsTrue result ↔ IsRow self }
        ensures value { result ≡ is_row self }
    {
        self.number < COORDINATES_FROM
    }

    /// Whether it is a coordinate's; the constant column counts as one.
    #[inline]
    pub fn is_coordinate(self) -> bool
        ensures { IsTrue result ↔ IsCoordinate self }
    {
        self.number >= COORDINATES_FROM
    }

    /// Whether it is the constant column's.
    #[inline]
    pub fn is_constant(self) -> bool
        ensures { IsTrue result ↔ (self ≡ constant_label) }
    {
        self.number == CONSTANT
    }

    /// Which coordinate it is, counted from 0.
    #[inline]
    pub fn coordinate_index(self) -> u32
        requires { IsCoordinate self }
        ensures { result ≡ coordinate_index self }
    {
        u32::from(self.number - COORDINATES_FROM)
    }

    /// Whether both are one: `==` as a call that says so.
    #[inline]
    pub fn is_same(self, other: Label) -> bool
        ensures { IsTrue result ↔ (self ≡ other) }
    {
        self.number == other.number
    }
}
