//! The cone of a polyhedron.
ghost use Rattle.std.specs.Prelude.{◌≡◌, ◌≤◌, ◌<◌, ℕ, length};
ghost use Rattle.poly_model.specs.Limits.{most_columns, most_cone_rows};
ghost use Rattle.poly_model.specs.Systems.{row_of};
ghost use Rattle.poly_model.specs.Tables.{IsShaped, cone_rows_in, is_point_kind};

use crate::cells::row_at;
use crate::{Kind, Label, RowKind};
use poly_num::Num;
use std::marker::Model;

/// The rows of the cone of a polyhedron: those of the file, behind them for an H file with `nonnegative` one for each
/// coordinate, and then the row at infinity of an H file, or the origin of a V file without a point. Some are linear, and
/// some of a V file points.
pub struct System {
    kind: Kind,
    n: u32,
    cells: Vec<Num>,
    linear: Vec<bool>,
    kinds: Vec<RowKind>,
}

// Written out, so that to let one go is one step in the proofs of those who hold it.
impl Drop for System {
    fn drop(self) {
        let Self {
            kind: _,
            n: _,
            cells: _,
            linear: _,
            kinds: _,
        } = self;
    }
}

impl Model for System {
    ghost use Rattle.std.specs.Prelude.{◌≡◌, length};
    ghost use Rattle.poly_model.specs.Limits.{most_cone_rows};
    ghost use Rattle.poly_model.specs.Systems.{System as Cone};
    ghost use Rattle.poly_model.specs.Tables.{IsShaped, cone_rows_in};

    ghost Value = { Cone };

    ghost view = { λ s. record { kind = s.kind; n = s.n; rows = cone_rows_in s.n s.cells.items s.linear.items s.kinds.items } };

    ghost invariant = { λ s. IsShaped most_cone_rows (length s.linear.items) s.n s.cells.items × (length s.kinds.items ≡ length s.linear.items) };
}

impl System {
    /// The cone of these cells, row by row, n to a row, with two marks for each row: whether it is
    /// linear, and whether it is a point.
    pub fn new(
        kind: Kind,
        n: u32,
        cells: Vec<Num>,
        linear: Vec<bool>,
        kinds: Vec<RowKind>,
    ) -> System
        requires shape { IsShaped most_cone_rows (length linear.items) n cells.items }
        requires marks { length kinds.items ≡ length linear.items }
        ensures { result ≡ record { kind = kind; n = n; rows = cone_rows_in n cells.items linear.items kinds.items } }
    {
        System {
            kind,
            n,
            cells,
            linear,
            kinds,
        }
    }

    /// The kind of the file that the cone is of.
    pub fn kind(&self) -> Kind
        ensures { result ≡ self.now.kind }
    {
        self.kind
    }

    /// How many coordinates the cone is in.
    pub fn n(&self) -> u32
        ensures value { result ≡ self.now.n }
        ensures some { 0 < result }
        ensures narrow { result ≤ most_columns }
    {
        self.n
    }

    /// How many rows there are, the added ones among them.
    pub fn rows(&self) -> u32
        ensures value { result ≡ length self.now.rows }
        ensures few { result ≤ most_cone_rows }
    {
        let linear: &[bool] = &self.linear;
        linear.len() as u32
    }

    /// A system keeps the limits of a cone. Nothing is done: a call of this tells the proofs of the caller.
    pub fn keeps_limits(&self)
        ensures some { 0 < self.now.n }
        ensures narrow { self.now.n ≤ most_columns }
        ensures few { length self.now.rows ≤ most_cone_rows }
        ensures widths { (i : ℕ) → 0 < i → i ≤ length self.now.rows → length (row_of self.now.rows i).entries ≡ self.now.n }
    {
        self.n();
        self.rows();
        self.row_width();
    }

    // How many numbers each row has.
    fn row_width(&self) -> u32
        ensures value { result ≡ self.now.n }
        ensures each { (i : ℕ) → 0 < i → i ≤ length self.now.rows → length (row_of self.now.rows i).entries ≡ result }
    {
        self.n
    }

    /// Row i, counted from 1: n numbers.
    pub fn row(&self, i: u32) -> &[Num]
        requires from_one { 0 < i }
        requires within { i ≤ length self.now.rows }
        ensures value { result.now ≡ (row_of self.now.rows i).entries }
        ensures width { length result.now ≡ self.now.n }
    {
        let cells: &[Num] = &self.cells;
        row_at(cells, self.n as usize, i as usize - 1)
    }

    /// Whether row i, counted from 1, is an equation or a line.
    pub fn is_linear(&self, i: u32) -> bool
        requires from_one { 0 < i }
        requires within { i ≤ length self.now.rows }
        ensures { result ≡ (row_of self.now.rows i).linear }
    {
        let linear: &[bool] = &self.linear;
        linear[i as usize - 1]
    }

    /// Whether this label is that of a linear row; one that is no row of the system is not.
    pub fn is_linear_row(&self, label: Label) -> bool
        ensures { result ≡ (row_of self.now.rows label).linear }
    {
        let row = u32::from(label.number());
        0 < row && row <= self.rows() && self.is_linear(row)
    }

    /// Whether row i, counted from 1, is a point of a V file.
    pub fn is_point(&self, i: u32) -> bool
        requires from_one { 0 < i }
        requires within { i ≤ length self.now.rows }
        ensures { result ≡ (row_of self.now.rows i).point }
    {
        let kinds: &[RowKind] = &self.kinds;
        is_point_kind(kinds[i as usize - 1])
    }
}

fn is_point_kind(kind: RowKind) -> bool
    ensures { result ≡ is_point_kind kind }
{
    match kind {
        RowKind::Point => true,
        RowKind::Ray => false,
    }
}
