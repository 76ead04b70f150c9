//! A listing that is being written.
ghost use Rattle.std.specs.Prelude.{◌≡◌, ◌≤◌, ◌++◌, length, IfOk};
ghost use Rattle.std.specs.List.{flat_map};
ghost use Rattle.poly_io.specs.Written.{Prints};
ghost use Rattle.poly_model.specs.Limits.{most_columns};
ghost use Rattle.poly_model.specs.ListingText.{head_text, vector_text, row_text, end_text};

use crate::head::write_head;
use crate::point::write_row;
use crate::vector::write_vector;
use poly_io::{Sink, WriteFault, write_all};
use poly_model::{Kind, Vector};
use poly_num::Num;
use std::marker::Model;

/// A listing of which the head, and perhaps some lines and rows, went out. Contracts see it as the
/// kind of the input file. A call that faults gives it up, and nothing more is written to it.
#[derive(Drop)]
pub struct Listing {
    kind: Kind,
}

impl Model for Listing {
    ghost use Rattle.poly_model.specs.declared.kind.Kind.{Kind};

    ghost Value = { Kind };

    ghost view = { λ l. l.kind };
}

impl Listing {
    /// Writes what stands before the rows: `n` is how many entries each row has, and `lines` how
    /// many of the first rows are lines. `kind` is that of the input file.
    pub fn head<S: Sink>(out: &mut S, kind: Kind, n: u32, lines: u32) -> Result<Listing, WriteFault>
        ensures prints { Prints S.Sink out.old out.new result (head_text kind n lines) }
        ensures kind { IfOk result (λ l. l ≡ kind) }
    {
        write_head(kind, n, lines, out)?;
        Ok(Listing { kind })
    }

    /// Writes what stands before the rows: the head, and the lines of the polyhedron, each with `n` entries.
    pub fn begin<S: Sink>(
        out: &mut S,
        kind: Kind,
        n: u32,
        lines: &[Vector],
    ) -> Result<Listing, WriteFault>
        requires { length lines.now ≤ most_columns }
        ensures prints { Prints S.Sink out.old out.new result
            (head_text kind n (length lines.now) ++ flat_map vector_text lines.now) }
        ensures kind { IfOk result (λ l. l ≡ kind) }
    {
        let mut listing = Listing::head(out, kind, n, lines.len() as u32)?;
        'lines: for line in lines {
            listing = listing.line(out, line.as_slice())?;
        }
        Ok(listing)
    }

    /// Writes a line of the polyhedron, as its whole entries.
    pub fn line<S: Sink>(self, out: &mut S, v: &[Num]) -> Result<Listing, WriteFault>
        ensures prints { Prints S.Sink out.old out.new result (vector_text v.now) }
        ensures kind { IfOk result (λ l. l ≡ self) }
    {
        write_vector(v, out)?;
        Ok(self)
    }

    /// Writes a row: for an H file a vector with positive first entry as a point, over that entry;
    /// every other vector as its whole entries.
    pub fn row<S: Sink>(self, out: &mut S, v: &[Num]) -> Result<Listing, WriteFault>
        ensures prints { Prints S.Sink out.old out.new result (row_text self v.now) }
        ensures kind { IfOk result (λ l. l ≡ self) }
    {
        write_row(self.kind, v, out)?;
        Ok(self)
    }

    /// Writes a row by its text, with the line feed at its end.
    pub fn row_by_text<S: Sink>(self, out: &mut S, text: &[u8]) -> Result<Listing, WriteFault>
        ensures prints { Prints S.Sink out.old out.new result text.now }
        ensures kind { IfOk result (λ l. l ≡ self) }
    {
        write_all(out, text)?;
        Ok(self)
    }

    /// The kind of the input file.
    pub fn kind(&self) -> Kind
        ensures { result ≡ self.now }
    {
        self.kind
    }

    /// Writes the last line.
    pub fn finish<S: Sink>(self, out: &mut S) -> Result<(), WriteFault>
        ensures { Prints S.Sink out.old out.new result end_text }
    {
        write_all(out, b"end\n")
    }
}
