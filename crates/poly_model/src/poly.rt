//! Polyhedra as files give them.
ghost use Rattle.std.specs.Prelude.{false, ◌≡◌, ◌≤◌, ◌<◌, length};
ghost use Rattle.poly_model.specs.Limits.{most_columns, most_file_rows};
ghost use Rattle.poly_model.specs.Systems.{file_row};
ghost use Rattle.poly_model.specs.Tables.{IsShaped, file_rows_in};

use crate::Kind;
use crate::cells::row_at;
use poly_num::Num;
use std::marker::Model;

/// The polyhedron of a file: rows of n whole numbers without common divisor, some of them linear, whether
/// its coordinates are not negative besides, and the bytes that it was read from.
pub struct Poly {
    kind: Kind,
    n: u32,
    cells: Vec<Num>,
    linear: Vec<bool>,
    nonnegative: bool,
    text: Vec<u8>,
}

// Written out, so that to let one go is one step in the proofs of those who hold it.
impl Drop for Poly {
    fn drop(self) {
        let Self {
            kind: _,
            n: _,
            cells: _,
            linear: _,
            nonnegative: _,
            text: _,
        } = self;
    }
}

impl Model for Poly {
    ghost use Rattle.std.specs.Prelude.{length};
    ghost use Rattle.poly_model.specs.Limits.{most_file_rows};
    ghost use Rattle.poly_model.specs.Systems.{Polyhedron};
    ghost use Rattle.poly_model.specs.Tables.{IsShaped, file_rows_in};

    ghost Value = { Polyhedron };

    ghost view = { λ p. record {
      kind = p.kind;
      n = p.n;
      rows = file_rows_in p.n p.cells.items p.linear.items;
      nonnegative = p.nonnegative;
      text = p.text.items;
    } };

    ghost invariant = { λ p. IsShaped most_file_rows (length p.linear.items) p.n p.cells.items };
}

impl Poly {
    /// The polyhedron of these cells, row by row, n to a row, with a mark for each row that says
    /// whether it is linear. It does not say `nonnegative`.
    pub fn new(kind: Kind, n: u32, cells: Vec<Num>, linear: Vec<bool>, text: Vec<u8>) -> Poly
        requires { IsShaped most_file_rows (length linear.items) n cells.items }
        ensures { result ≡ record {
          kind = kind;
          n = n;
          rows = file_rows_in n cells.items linear.items;
          nonnegative = false;
          text = text.items;
        } }
    {
        Poly {
            kind,
            n,
            cells,
            linear,
            nonnegative: false,
            text,
        }
    }

    /// The same rows of a file that says `nonnegative`, or does not.
    pub fn with_nonnegative(self, nonnegative: bool) -> Poly
        ensures { result ≡ record {
          kind = self.kind;
          n = self.n;
          rows = self.rows;
          nonnegative = nonnegative;
          text = self.text;
        } }
    {
        let mut poly = self;
        poly.nonnegative = nonnegative;
        poly
    }

    /// Whether it was given by inequalities or by points.
    pub fn kind(&self) -> Kind
        ensures { result ≡ self.now.kind }
    {
        self.kind
    }

    /// How many numbers a row has: one more than the dimension.
    pub fn n(&self) -> u32
        ensures value { result ≡ self.now.n }
        ensures some { 0 < result }
        ensures narrow { result ≤ most_columns }
    {
        self.n
    }

    /// How many rows the file has. Those that `nonnegative` adds are not counted.
    pub fn rows(&self) -> u32
        ensures value { result ≡ length self.now.rows }
        ensures few { result ≤ most_file_rows }
    {
        let linear: &[bool] = &self.linear;
        linear.len() as u32
    }

    /// Row i, counted from 1: n numbers, the first the constant.
    pub fn row(&self, i: u32) -> &[Num]
        requires from_one { 0 < i }
        requires within { i ≤ length self.now.rows }
        ensures value { result.now ≡ (file_row self.now i).entries }
        ensures width { length result.now ≡ self.now.n }
    {
        let cells: &[Num] = &self.cells;
        row_at(cells, self.n as usize, i as usize - 1)
    }

    /// Whether row i, counted from 1, is an equation or a line.
    pub fn is_linear(&self, i: u32) -> bool
        requires from_one { 0 < i }
        requires within { i ≤ length self.now.rows }
        ensures { result ≡ (file_row self.now i).linear }
    {
        let linear: &[bool] = &self.linear;
        linear[i as usize - 1]
    }

    /// Whether the file says `nonnegative`: of an H file no coordinate is negative then.
    pub fn nonnegative(&self) -> bool
        ensures { result ≡ self.now.nonnegative }
    {
        self.nonnegative
    }

    /// The bytes that it was read from.
    pub fn text(&self) -> &[u8]
        ensures { result.now ≡ self.now.text }
    {
        &self.text
    }
}
